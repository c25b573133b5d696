// What the calls answer, in words.
use semantics::{Checked, Decoded, Refusal};
use std::fmt;
use token_table::TokenKind;

// A refusal by its number; 27 to 31 name both operands, 32 its one.
#[derive(Clone, Copy)]
pub struct Refused(pub Refusal);

impl fmt::Display for Refused {
    fn fmt<W: fmt::Write>(&self, f: &mut fmt::Formatter<W>) -> fmt::Result {
        let refusal = refusals::number_of(self.0);
        let number = refusal.number;
        let first = refusal.first.cast_signed();
        let second = refusal.second.cast_signed();
        match number {
            27..=31 => write!(f, "refusal {number}: {first}, {second}"),
            32 => write!(f, "refusal {number}: {first}"),
            _ => write!(f, "refusal {number}"),
        }
    }
}

// A condition that Check lets pass.
#[derive(Clone, Copy)]
pub struct Passed(pub Checked);

impl fmt::Display for Passed {
    fn fmt<W: fmt::Write>(&self, f: &mut fmt::Formatter<W>) -> fmt::Result {
        let tokens = self.0.tokens;
        let oracles = self.0.oracles;
        write!(f, "with {tokens} tokens and {oracles} oracle terminals")
    }
}

// A token with the number that it carries.
#[derive(Clone, Copy)]
struct Token {
    kind: u8,
    number: u64,
}

// By the source's name of its kind; a Num and a Bytes8 carry a number.
impl fmt::Display for Token {
    fn fmt<W: fmt::Write>(&self, f: &mut fmt::Formatter<W>) -> fmt::Result {
        let kind = self.kind;
        let number = self.number;
        match TokenKind::try_from(kind) {
            Ok(TokenKind::Num) => write!(f, "Num {number}"),
            Ok(TokenKind::Bytes8) => write!(f, "Bytes8 {number}"),
            Ok(name) => write!(f, "{name:?}"),
            Err(_) => write!(f, "{kind}"),
        }
    }
}

// The tokens of so many records.
#[derive(Clone, Copy)]
pub struct Tokens<'a> {
    pub kinds: &'a [u8],
    pub numbers: &'a [u64],
    pub records: usize,
}

impl fmt::Display for Tokens<'_> {
    fn fmt<W: fmt::Write>(&self, f: &mut fmt::Formatter<W>) -> fmt::Result {
        let tokens = self.kinds.iter().zip(self.numbers).take(self.records);
        for (i, (&kind, &number)) in tokens.enumerate() {
            if i != 0 {
                f.write_str(", ")?;
            }
            let token = Token { kind, number };
            write!(f, "{token}")?;
        }
        Ok(())
    }
}

// How many key bytes were written, and the places of the records that name a key.
#[derive(Clone, Copy)]
pub struct Places<'a> {
    pub key_bytes: usize,
    pub kinds: &'a [u8],
    pub places: &'a [u32],
    pub records: usize,
}

impl fmt::Display for Places<'_> {
    fn fmt<W: fmt::Write>(&self, f: &mut fmt::Formatter<W>) -> fmt::Result {
        let key_bytes = self.key_bytes;
        write!(f, "with {key_bytes} key bytes; places")?;
        for (&kind, &place) in self.kinds.iter().zip(self.places).take(self.records) {
            if kind == TokenKind::Bytes32 as u8 {
                write!(f, " {place}")?;
            }
        }
        Ok(())
    }
}

// Where a tail begins, and its condition's code, of which the first command, on the condition's left side, is shown.
#[derive(Clone, Copy)]
pub struct Tail {
    pub decoded: Decoded,
    pub first: u8,
}

impl fmt::Display for Tail {
    fn fmt<W: fmt::Write>(&self, f: &mut fmt::Formatter<W>) -> fmt::Result {
        let start = self.decoded.start;
        let bytes = self.decoded.bytes;
        let first = self.first;
        write!(
            f,
            "position {start}, code of {bytes} bytes that begins with {first}"
        )
    }
}
