// Index steps on signed numbers: each contract is an equation with a definition of specs/ over whole numbers.
#![tactic(auto)]

ghost use Rattle.std.specs.Prelude.{◌≡◌, pos};
ghost use Rattle.index64.specs.Steps.{idx_add, idx_sub, idx_mul, idx_div, in_range, within};

// -(2^31 - 1), the least index.
const LEAST: i64 = -0x7fff_ffff;

// 2^31 - 1, the greatest.
const MOST: i64 = 0x7fff_ffff;

// The one range test: an index, or none where a value is none.
fn ranged(value: Option<i64>) -> Option<i64>
    ensures { result ≡ within value }
{
    let z = value?;
    if (LEAST <= z) & (z <= MOST) {
        Some(z)
    } else {
        None
    }
}

// A constant, or the current index.
pub fn from_u64(n: u64) -> Option<i64>
    ensures { result ≡ in_range (pos n) }
{
    ranged(num64::from_u64(n))
}

pub fn step_add(x: i64, y: i64) -> Option<i64>
    ensures { result ≡ idx_add x y }
{
    ranged(num64::checked_add(x, y))
}

pub fn step_sub(x: i64, y: i64) -> Option<i64>
    ensures { result ≡ idx_sub x y }
{
    ranged(num64::checked_sub(x, y))
}

pub fn step_mul(x: i64, y: i64) -> Option<i64>
    ensures { result ≡ idx_mul x y }
{
    ranged(num64::checked_mul(x, y))
}

pub fn step_div(x: i64, y: i64) -> Option<i64>
    ensures { result ≡ idx_div x y }
{
    ranged(num64::checked_div_euclid(x, y))
}
