// What the commands compute: operations on numbers and on indexes.
#![tactic(auto)]

ghost use Rattle.std.specs.Prelude.{◌≡◌};
ghost use Rattle.semantics.specs.Operations.{bin_row, cmp_row, idx_row, un_row};

use semantics::{BinOp, CmpOp, IdxOp, Refusal, UnOp};

// A command with two operands, x the left one.
pub fn binary(op: BinOp, x: i64, y: i64) -> Result<i64, Refusal>
    ensures { result ≡ (bin_row op).result x y }
{
    match op {
        BinOp::Add => num64::checked_add(x, y).ok_or(Refusal::AddOverflow(x, y)),
        BinOp::Sub => num64::checked_sub(x, y).ok_or(Refusal::SubOverflow(x, y)),
        BinOp::Mul => num64::checked_mul(x, y).ok_or(Refusal::MulOverflow(x, y)),
        BinOp::Div => num64::checked_div_euclid(x, y).ok_or(Refusal::DivOverflow(x, y)),
        BinOp::Mod => num64::checked_rem_euclid(x, y).ok_or(Refusal::ModOverflow(x, y)),
        BinOp::BitAnd => Ok(word64::bitand(x, y)),
        BinOp::BitOr => Ok(word64::bitor(x, y)),
        BinOp::Xor => Ok(word64::xor(x, y)),
    }
}

// A command with one operand.
pub fn unary(op: UnOp, x: i64) -> Result<i64, Refusal>
    ensures { result ≡ (un_row op).result x }
{
    match op {
        UnOp::Invert => Ok(word64::invert(x)),
        UnOp::Negate => num64::checked_neg(x).ok_or(Refusal::NegOverflow(x)),
    }
}

// The verdict of a comparison, x its left side.
pub fn compare(op: CmpOp, x: i64, y: i64) -> bool
    ensures { result ≡ (cmp_row op).result x y }
{
    match op {
        CmpOp::Eq => word64::eq(x, y),
        CmpOp::Lt => word64::lt(x, y),
        CmpOp::Leq => word64::leq(x, y),
        CmpOp::Gt => word64::gt(x, y),
        CmpOp::Geq => word64::geq(x, y),
    }
}

// An index step, exact on whole numbers, x its left operand; none where it leaves -(2^31 - 1) to 2^31 - 1, or divides by 0.
pub fn index(op: IdxOp, x: i64, y: i64) -> Option<i64>
    ensures { result ≡ (idx_row op).result x y }
{
    match op {
        IdxOp::Add => index64::step_add(x, y),
        IdxOp::Sub => index64::step_sub(x, y),
        IdxOp::Mul => index64::step_mul(x, y),
        IdxOp::Div => index64::step_div(x, y),
    }
}
