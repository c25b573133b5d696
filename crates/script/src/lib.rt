// The bytes of a script: what each operation writes, as `push_to_builder` of the source has it, script numbers, and pushes.
#![tactic(auto)]

pub mod opcodes;

ghost use Rattle.std.specs.Prelude.{◌≡◌, [], ◌∷◌, ◌+◌, ◌≤◌, length, take, drop};
ghost use Rattle.slices.specs.Bytes.{Front};
ghost use Rattle.semantics.specs.declared.AmountList.{AmountList};
ghost use Rattle.semantics.specs.Operations.{bin_row, bytes8, bytes32, cmp_row, idx_row, list_row, num, op, un_row};
ghost use Rattle.script.specs.Script.{number_width, script};

use opcodes::{
    ADD, ADD64, AND, CAT, CHECKSIGFROMSTACKVERIFY, DIV64, DROP, DUP2, EQUAL, EQUALVERIFY,
    FROMALTSTACK, GREATERTHAN64, GREATERTHANOREQUAL64, INSPECTINPUTISSUANCE, INSPECTINPUTVALUE,
    INSPECTOUTPUTVALUE, INVERT, LE64TOSCRIPTNUM, LESSTHAN64, LESSTHANOREQUAL64, MUL64, NEG64, NIP,
    OR, PUSHBYTES_0, PUSHCURRENTINPUTINDEX, PUSHNUM_1, SCRIPTNUMTOLE64, SHA256, SUB, SUB64, SWAP,
    TOALTSTACK, VERIFY, XOR,
};
use semantics::{AmountList, BinOp, CmpOp, IdxOp, MAX_TOKENS, UnOp};

// The most bytes that the script of a condition may have: five for each token.
pub const MAX_SCRIPT: usize = 5 * MAX_TOKENS;

// ---- rows of opcodes

// Nothing, for a byte that no command has.
#[tactic(auto, unfolding(crate::specs::Script::script))]
pub fn no_row() -> &'static [u8]
    ensures { (result.now ≡ script []) × (length result.now ≤ 7) }
{
    &[]
}

// The current index.
#[tactic(auto, unfolding(crate::specs::Script::script, crate::specs::Script::opcodes))]
pub fn current_index_row() -> &'static [u8]
    ensures { (result.now ≡ script (op 4 ∷ [])) × (length result.now ≤ 7) }
{
    &[PUSHCURRENTINPUTINDEX]
}

// The amount at the current index: the index, and the lookup.
#[tactic(auto, unfolding(crate::specs::Script::script, crate::specs::Script::opcodes, crate::specs::Script::push_int))]
pub fn current_row() -> &'static [u8]
    ensures { (result.now ≡ script (op 4 ∷ (list_row AmountList.Input).form)) × (length result.now ≤ 7) }
{
    &[
        PUSHCURRENTINPUTINDEX,
        INSPECTINPUTVALUE,
        PUSHNUM_1,
        EQUALVERIFY,
    ]
}

// What an index operation writes after its operands.
#[tactic(auto, unfolding(crate::specs::Script::script, crate::specs::Script::opcodes, crate::specs::Script::push_int))]
pub fn index_row(op: IdxOp) -> &'static [u8]
    ensures { (result.now ≡ script (idx_row op).form) × (length result.now ≤ 7) }
{
    match op {
        IdxOp::Add => &[ADD],
        IdxOp::Sub => &[SUB],
        IdxOp::Mul => &[
            SCRIPTNUMTOLE64,
            MUL64,
            PUSHNUM_1,
            EQUALVERIFY,
            LE64TOSCRIPTNUM,
        ],
        IdxOp::Div => &[
            SCRIPTNUMTOLE64,
            DIV64,
            PUSHNUM_1,
            EQUALVERIFY,
            NIP,
            LE64TOSCRIPTNUM,
        ],
    }
}

// What a lookup writes after its index.
#[tactic(auto, unfolding(crate::specs::Script::script, crate::specs::Script::opcodes, crate::specs::Script::push_int))]
pub fn lookup_row(list: AmountList) -> &'static [u8]
    ensures { (result.now ≡ script (list_row list).form) × (length result.now ≤ 7) }
{
    match list {
        AmountList::Input => &[INSPECTINPUTVALUE, PUSHNUM_1, EQUALVERIFY],
        AmountList::Output => &[INSPECTOUTPUTVALUE, PUSHNUM_1, EQUALVERIFY],
        AmountList::InputIssue => &[
            INSPECTINPUTISSUANCE,
            DROP,
            DROP,
            PUSHNUM_1,
            EQUALVERIFY,
            NIP,
            NIP,
        ],
        AmountList::InputReIssue => &[
            INSPECTINPUTISSUANCE,
            DROP,
            DROP,
            DROP,
            DROP,
            PUSHNUM_1,
            EQUALVERIFY,
        ],
    }
}

#[tactic(auto, unfolding(crate::specs::Script::script, crate::specs::Script::opcodes, crate::specs::Script::push_int))]
pub fn binary_row(op: BinOp) -> &'static [u8]
    ensures { (result.now ≡ script (bin_row op).form) × (length result.now ≤ 7) }
{
    match op {
        BinOp::Add => &[ADD64, PUSHNUM_1, EQUALVERIFY],
        BinOp::Sub => &[SUB64, PUSHNUM_1, EQUALVERIFY],
        BinOp::Mul => &[MUL64, PUSHNUM_1, EQUALVERIFY],
        BinOp::Div => &[DIV64, PUSHNUM_1, EQUALVERIFY, NIP],
        BinOp::Mod => &[DIV64, PUSHNUM_1, EQUALVERIFY, DROP],
        BinOp::BitAnd => &[AND],
        BinOp::BitOr => &[OR],
        BinOp::Xor => &[XOR],
    }
}

#[tactic(auto, unfolding(crate::specs::Script::script, crate::specs::Script::opcodes, crate::specs::Script::push_int))]
pub fn unary_row(op: UnOp) -> &'static [u8]
    ensures { (result.now ≡ script (un_row op).form) × (length result.now ≤ 7) }
{
    match op {
        UnOp::Invert => &[INVERT],
        UnOp::Negate => &[NEG64, PUSHNUM_1, EQUALVERIFY],
    }
}

#[tactic(auto, unfolding(crate::specs::Script::script, crate::specs::Script::opcodes))]
pub fn compare_row(op: CmpOp) -> &'static [u8]
    ensures { (result.now ≡ script (cmp_row op).form) × (length result.now ≤ 7) }
{
    match op {
        CmpOp::Eq => &[EQUAL],
        CmpOp::Lt => &[LESSTHAN64],
        CmpOp::Leq => &[LESSTHANOREQUAL64],
        CmpOp::Gt => &[GREATERTHAN64],
        CmpOp::Geq => &[GREATERTHANOREQUAL64],
    }
}

// What an oracle terminal writes before its time.
pub fn oracle_opening() -> &'static [u8]
    ensures { result.now ≡ 0x6e ∷ 0x6b ∷ [] }
{
    &[DUP2, TOALTSTACK]
}

// Between its time and its key: the test of the time, and the message that was signed.
pub fn oracle_test() -> &'static [u8]
    ensures { result.now ≡ 0xdf ∷ 0x69 ∷ 0x7e ∷ 0xa8 ∷ [] }
{
    &[GREATERTHANOREQUAL64, VERIFY, CAT, SHA256]
}

// After its key.
pub fn oracle_closing() -> &'static [u8]
    ensures { result.now ≡ 0xc2 ∷ 0x6c ∷ [] }
{
    &[CHECKSIGFROMSTACKVERIFY, FROMALTSTACK]
}

// The same between these two is what PriceOracle1W writes.
pub fn oracle_w_opening() -> &'static [u8]
    ensures { result.now ≡ 0x6b ∷ [] }
{
    &[TOALTSTACK]
}

pub fn oracle_w_closing() -> &'static [u8]
    ensures { result.now ≡ 0x6c ∷ 0x7c ∷ [] }
{
    &[FROMALTSTACK, SWAP]
}

// ---- numbers

// How many bytes the shortest script number has.
#[tactic(auto, unfolding(crate::specs::Script::number_width))]
fn number_width(n: u64) -> usize
    ensures { (result ≡ number_width n) × (result ≤ 5) }
{
    match n {
        0 => 0,
        1..0x80 => 1,
        0x80..0x8000 => 2,
        0x8000..0x80_0000 => 3,
        0x80_0000..0x8000_0000 => 4,
        _ => 5,
    }
}

// How many bytes the push of a number has.
pub fn int_length(n: u64) -> usize
    ensures { (result ≡ length (script (num n ∷ []))) × (result ≤ 6) }
{
    match n {
        0..=16 => 1,
        _ => 1 + number_width(n),
    }
}

// ---- pushes: each writes at the front of what it is lent, and answers how many bytes

pub fn push_row(row: &[u8], out: &mut [u8]) -> usize
    requires { length row.now ≤ length out.old }
    ensures { Front out.new out.old row.now result }
{
    // byte by byte, since a row has few: a copy of so many bytes would call a function of the C library
    for i in 0..row.len() {
        out[i] = row[i];
    }
    row.len()
}

// `push_int`, of a number that is not negative. 0, the push of no bytes, and 1 to 16 have opcodes of their own.
pub fn push_int(n: u64, out: &mut [u8]) -> usize
    requires { length (script (num n ∷ [])) ≤ length out.old }
    ensures { Front out.new out.old (script (num n ∷ [])) result }
{
    if n == 0 {
        return push_row(&[PUSHBYTES_0], out);
    }
    if n <= 16 {
        return push_row(&[n as u8 - 1 + PUSHNUM_1], out);
    }
    let width = number_width(n);
    let bytes = [
        width as u8,
        (n % 256) as u8,
        (n / 256 % 256) as u8,
        (n / 256 / 256 % 256) as u8,
        (n / 256 / 256 / 256 % 256) as u8,
        (n / 256 / 256 / 256 / 256 % 256) as u8,
    ];
    push_row(&bytes[..1 + width], out)
}

// An 8-byte operand, by the number that it stands for.
pub fn push_bytes8(bits: u64, out: &mut [u8]) -> usize
    requires { 9 ≤ length out.old }
    ensures { Front out.new out.old (script (bytes8 bits ∷ [])) result }
{
    out[0] = 8;
    slices::write_le64(out, 1, bits);
    9
}

// A 32-byte operand, which stands in `from`, from `at` on.
pub fn push_bytes32(from: &[u8], at: usize, out: &mut [u8]) -> usize
    requires { (at + 32 ≤ length from.now) × (33 ≤ length out.old) }
    ensures { Front out.new out.old (script (bytes32 (take 32 (drop at from.now)) ∷ [])) result }
{
    out[0] = 32;
    slices::copy(from, at, out, 1, 32);
    33
}
