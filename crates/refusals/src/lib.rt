// Document 01's number and data of each refusal.
#![tactic(auto)]

ghost use Rattle.std.specs.Prelude.{◌≡◌};
ghost use Rattle.word64.specs.Bits.{bits_of};
ghost use Rattle.semantics.specs.Refusals.{refusal, numbered};

use semantics::{Numbered, Refusal};

fn with_data(number: u32, first: u64, second: u64) -> Numbered
    ensures { result ≡ refusal number first second }
{
    Numbered {
        number,
        first,
        second,
    }
}

// A signed operand is given as its 64 bits.
fn with_operands(number: u32, x: i64, y: i64) -> Numbered
    ensures { result ≡ refusal number (bits_of x) (bits_of y) }
{
    with_data(number, word64::bits(x), word64::bits(y))
}

// No `From`: both types are those of semantics, which definitions share and which has no functions.
pub fn number_of(r: Refusal) -> Numbered
    ensures { result ≡ numbered r }
{
    match r {
        Refusal::CodeTooLong => with_data(1, 0, 0),
        Refusal::NotWellFormed(offset) => with_data(2, offset as u64, 0),
        Refusal::TooManyTokens => with_data(3, 0, 0),
        Refusal::PriceOracle1WFirst => with_data(4, 0, 0),
        Refusal::PriceOracle1Missing => with_data(5, 0, 0),
        Refusal::IndexConstTooLarge => with_data(6, 0, 0),
        Refusal::BufferTooShort => with_data(7, 0, 0),
        Refusal::AmountsUnsound => with_data(8, 0, 0),
        Refusal::TokenUnsound(token) => with_data(9, token as u64, 0),
        Refusal::TooManyRecords => with_data(10, 0, 0),
        Refusal::NoCondition => with_data(11, 0, 0),
        Refusal::WitnessUnsound => with_data(12, 0, 0),
        Refusal::UtxoIndexOutOfBounds(index, count) => with_data(20, index, count as u64),
        Refusal::NonExplicitInput(index) => with_data(21, index, 0),
        Refusal::OutputIndexOutOfBounds(index, count) => with_data(22, index, count as u64),
        Refusal::NonExplicitOutput(index) => with_data(23, index, 0),
        Refusal::InputIndexOutOfBounds(index, count) => with_data(24, index, count as u64),
        Refusal::NonExplicitInputIssuance(index) => with_data(25, index, 0),
        Refusal::NonExplicitInputReIssuance(index) => with_data(26, index, 0),
        Refusal::AddOverflow(x, y) => with_operands(27, x, y),
        Refusal::SubOverflow(x, y) => with_operands(28, x, y),
        Refusal::MulOverflow(x, y) => with_operands(29, x, y),
        Refusal::DivOverflow(x, y) => with_operands(30, x, y),
        Refusal::ModOverflow(x, y) => with_operands(31, x, y),
        Refusal::NegOverflow(x) => with_operands(32, x, 0),
        Refusal::MissingPrice => with_data(33, 0, 0),
        Refusal::Price8BytePush => with_data(34, 0, 0),
        Refusal::MissingTimestamp => with_data(35, 0, 0),
        Refusal::Timstamp8BytePush => with_data(36, 0, 0),
        Refusal::MissingOracleSignature => with_data(37, 0, 0),
        Refusal::MalformedSig => with_data(38, 0, 0),
        Refusal::TimestampInFuture => with_data(39, 0, 0),
        Refusal::PriceOverflow => with_data(40, 0, 0),
        Refusal::IndexStep => with_data(41, 0, 0),
        Refusal::NegativeIndex => with_data(43, 0, 0),
    }
}
