// Numbers as decimal text, which is written from its last character on: it ends where the slice ends, and the answer says where it begins.
#![tactic(auto)]

ghost use Rattle.std.specs.Prelude.{◌≤◌, ◌≡◌, length};
ghost use Rattle.word64.specs.Bits.{signed_of};
ghost use Rattle.decimals.specs.Decimal.{Ending, decimal, signed};

use itoa::write_digits;

// An unsigned number.
#[tactic(auto, using(crate::proofs::Ends::decimal_is, crate::proofs::Ends::ending_decimal))]
pub fn write_decimal(n: u64, out: &mut [u8]) -> usize
    requires { length (decimal n) ≤ length out.old }
    ensures { Ending out.old (decimal n) out.new result }
{
    let end = out.len();
    write_digits(n, out, end)
}

// A signed number, by its 64 bits.
pub fn write_signed(bits: u64, out: &mut [u8]) -> usize
    requires { length (signed (signed_of bits)) ≤ length out.old }
    ensures { Ending out.old (signed (signed_of bits)) out.new result }
{
    let number = word64::signed(bits);
    let mut start = write_decimal(number.unsigned_abs(), out);
    if number.is_negative() {
        start -= 1;
        out[start] = b'-';
    }
    start
}
