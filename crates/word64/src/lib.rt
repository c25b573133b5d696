// 64-bit words: two's complement, operations on bits, comparisons. Each contract is an equation with a definition of specs/.
#![tactic(auto)]

ghost use Rattle.std.specs.Prelude.{◌≡◌};
ghost use Rattle.std.specs.Int.Signed.{lt_z, le_z};
ghost use Rattle.word64.specs.Bits.{signed_of, bits_of, and_of, or_of, xor_of, invert_of, eq_z};

// ---- the bits of a signed number

// The bits unchanged as a signed number: 2^63 and more become negative.
pub fn signed(bits: u64) -> i64
    ensures { result ≡ signed_of bits }
{
    bits.cast_signed()
}

// And back.
pub fn bits(a: i64) -> u64
    ensures { result ≡ bits_of a }
{
    a.cast_unsigned()
}

// ---- operations on bits, each a function of its own, since the operations of conditions are told by these names

pub fn bitand(a: i64, b: i64) -> i64
    ensures { result ≡ and_of a b }
{
    a & b
}

pub fn bitor(a: i64, b: i64) -> i64
    ensures { result ≡ or_of a b }
{
    a | b
}

pub fn xor(a: i64, b: i64) -> i64
    ensures { result ≡ xor_of a b }
{
    a ^ b
}

pub fn invert(a: i64) -> i64
    ensures { result ≡ invert_of a }
{
    !a
}

// ---- comparisons: like the operations on bits, each ties an operator to its definition

pub fn eq(a: i64, b: i64) -> bool
    ensures { result ≡ eq_z a b }
{
    a == b
}

pub fn lt(a: i64, b: i64) -> bool
    ensures { result ≡ lt_z a b }
{
    a < b
}

pub fn leq(a: i64, b: i64) -> bool
    ensures { result ≡ le_z a b }
{
    a <= b
}

pub fn gt(a: i64, b: i64) -> bool
    ensures { result ≡ lt_z b a }
{
    a > b
}

pub fn geq(a: i64, b: i64) -> bool
    ensures { result ≡ le_z b a }
{
    a >= b
}
