// The tokens of each command: the one table that Write goes by, and that Decode reads backwards.
// `Command::Unknown` stands in it for completeness: Check has turned down code that has it, and Decode compares no tokens with it.
#![tactic(auto)]

ghost use Rattle.std.specs.Prelude.{◌≡◌, map};
ghost use Rattle.semantics.specs.declared.Command.{Command};
ghost use Rattle.token_table.specs.Kinds.{KindOf, has_number, number};
ghost use Rattle.token_table.specs.TokenRows.{token_row};

use TokenKind::{
    Add, Add64, And, Bytes8, Bytes32, Cat, CheckSigFromStackVerify, CurrInp, Div64, Dup2, Equal,
    FromAltStack, Ge64, Geq64, InpIssue, InpValue, Invert, Le64, Le64ToScriptNum, Leq64, Mul64,
    Neg64, Nip, Num, Or, OutValue, ScriptNumToLe64, Sha256, Sub, Sub64, Swap, ToAltStack, Verify,
    Xor,
};
use semantics::{AmountList, BinOp, CmpOp, Command, IdxOp, UnOp};

// The kinds of tokens, in the order of their numbers in document 01, which records hold.
#[derive(Clone, Copy, Debug, PartialEq, Eq)]
#[repr(u8)]
pub enum TokenKind {
    // Any token of the source that no form has.
    Other,
    Num,
    Bytes8,
    Bytes32,
    CurrInp,
    Add,
    Sub,
    ScriptNumToLe64,
    Le64ToScriptNum,
    Mul64,
    Div64,
    Add64,
    Sub64,
    Neg64,
    Equal,
    Verify,
    Nip,
    Drop,
    And,
    Or,
    Xor,
    Invert,
    InpValue,
    OutValue,
    InpIssue,
    Dup2,
    ToAltStack,
    FromAltStack,
    Geq64,
    Ge64,
    Leq64,
    Le64,
    Cat,
    Sha256,
    CheckSigFromStackVerify,
    Swap,
}

impl TokenKind {
    pub fn number(self) -> u8
        ensures { result ≡ number self }
    {
        self as u8
    }

    // Whether a token of this kind has a number.
    pub fn has_number(self) -> bool
        ensures { result ≡ has_number (number self) }
    {
        matches!(self, Num | Bytes8)
    }
}

// A number that no kind has.
#[derive(Clone, Copy, Debug, PartialEq, Eq)]
pub struct UnknownKind(pub u8);

impl TryFrom<u8> for TokenKind {
    type Error = UnknownKind;

    ghost try_from_gives = { KindOf };

    fn try_from(number: u8) -> Result<TokenKind, UnknownKind> {
        match number {
            0 => Ok(TokenKind::Other),
            1 => Ok(TokenKind::Num),
            2 => Ok(TokenKind::Bytes8),
            3 => Ok(TokenKind::Bytes32),
            4 => Ok(TokenKind::CurrInp),
            5 => Ok(TokenKind::Add),
            6 => Ok(TokenKind::Sub),
            7 => Ok(TokenKind::ScriptNumToLe64),
            8 => Ok(TokenKind::Le64ToScriptNum),
            9 => Ok(TokenKind::Mul64),
            10 => Ok(TokenKind::Div64),
            11 => Ok(TokenKind::Add64),
            12 => Ok(TokenKind::Sub64),
            13 => Ok(TokenKind::Neg64),
            14 => Ok(TokenKind::Equal),
            15 => Ok(TokenKind::Verify),
            16 => Ok(TokenKind::Nip),
            17 => Ok(TokenKind::Drop),
            18 => Ok(TokenKind::And),
            19 => Ok(TokenKind::Or),
            20 => Ok(TokenKind::Xor),
            21 => Ok(TokenKind::Invert),
            22 => Ok(TokenKind::InpValue),
            23 => Ok(TokenKind::OutValue),
            24 => Ok(TokenKind::InpIssue),
            25 => Ok(TokenKind::Dup2),
            26 => Ok(TokenKind::ToAltStack),
            27 => Ok(TokenKind::FromAltStack),
            28 => Ok(TokenKind::Geq64),
            29 => Ok(TokenKind::Ge64),
            30 => Ok(TokenKind::Leq64),
            31 => Ok(TokenKind::Le64),
            32 => Ok(TokenKind::Cat),
            33 => Ok(TokenKind::Sha256),
            34 => Ok(TokenKind::CheckSigFromStackVerify),
            35 => Ok(TokenKind::Swap),
            _ => Err(UnknownKind(number)),
        }
    }
}

fn index_row(op: IdxOp) -> &'static [TokenKind]
    ensures { map number result.now ≡ token_row (Command.Index op) }
{
    match op {
        IdxOp::Add => &[Add, ScriptNumToLe64],
        IdxOp::Sub => &[Sub, ScriptNumToLe64],
        IdxOp::Mul => &[
            ScriptNumToLe64,
            Mul64,
            Num,
            Equal,
            Verify,
            Le64ToScriptNum,
            ScriptNumToLe64,
        ],
        IdxOp::Div => &[
            ScriptNumToLe64,
            Div64,
            Num,
            Equal,
            Verify,
            Nip,
            Le64ToScriptNum,
            ScriptNumToLe64,
        ],
    }
}

fn lookup_row(list: AmountList) -> &'static [TokenKind]
    ensures { map number result.now ≡ token_row (Command.Lookup list) }
{
    match list {
        AmountList::Input => &[InpValue, Num, Equal, Verify, ScriptNumToLe64],
        AmountList::Output => &[OutValue, Num, Equal, Verify, ScriptNumToLe64],
        AmountList::InputIssue => &[
            InpIssue,
            TokenKind::Drop,
            TokenKind::Drop,
            Num,
            Equal,
            Verify,
            Nip,
            Nip,
            ScriptNumToLe64,
        ],
        AmountList::InputReIssue => &[
            InpIssue,
            TokenKind::Drop,
            TokenKind::Drop,
            TokenKind::Drop,
            TokenKind::Drop,
            Num,
            Equal,
            Verify,
            ScriptNumToLe64,
        ],
    }
}

fn binary_row(op: BinOp) -> &'static [TokenKind]
    ensures { map number result.now ≡ token_row (Command.Binary op) }
{
    match op {
        BinOp::Add => &[Add64, Num, Equal, Verify, ScriptNumToLe64],
        BinOp::Sub => &[Sub64, Num, Equal, Verify, ScriptNumToLe64],
        BinOp::Mul => &[Mul64, Num, Equal, Verify, ScriptNumToLe64],
        BinOp::Div => &[Div64, Num, Equal, Verify, Nip, ScriptNumToLe64],
        BinOp::Mod => &[Div64, Num, Equal, Verify, TokenKind::Drop, ScriptNumToLe64],
        BinOp::BitAnd => &[And, ScriptNumToLe64],
        BinOp::BitOr => &[Or, ScriptNumToLe64],
        BinOp::Xor => &[Xor, ScriptNumToLe64],
    }
}

fn unary_row(op: UnOp) -> &'static [TokenKind]
    ensures { map number result.now ≡ token_row (Command.Unary op) }
{
    match op {
        UnOp::Invert => &[Invert, ScriptNumToLe64],
        UnOp::Negate => &[Neg64, Num, Equal, Verify, ScriptNumToLe64],
    }
}

fn compare_row(op: CmpOp) -> &'static [TokenKind]
    ensures { map number result.now ≡ token_row (Command.Compare op) }
{
    match op {
        CmpOp::Eq => &[Equal, ScriptNumToLe64],
        CmpOp::Lt => &[Le64, ScriptNumToLe64],
        CmpOp::Leq => &[Leq64, ScriptNumToLe64],
        CmpOp::Gt => &[Ge64, ScriptNumToLe64],
        CmpOp::Geq => &[Geq64, ScriptNumToLe64],
    }
}

// A command's row of the table: the kinds of its own tokens, and after them that of ScriptNumToLe64, which is written only after the left operand of Mul or Div.
pub fn token_row(command: Command) -> &'static [TokenKind]
    ensures { map number result.now ≡ token_row command }
{
    match command {
        Command::Unknown => &[ScriptNumToLe64],
        Command::IdxConst => &[Num, ScriptNumToLe64],
        Command::CurrIdx => &[CurrInp, ScriptNumToLe64],
        Command::Index(op) => index_row(op),
        Command::Const => &[Bytes8, ScriptNumToLe64],
        Command::CurrInputIdx => &[CurrInp, InpValue, Num, Equal, Verify, ScriptNumToLe64],
        Command::Lookup(list) => lookup_row(list),
        Command::Binary(op) => binary_row(op),
        Command::Unary(op) => unary_row(op),
        Command::PriceOracle1 => &[
            Dup2,
            ToAltStack,
            Bytes8,
            Geq64,
            Verify,
            Cat,
            Sha256,
            Bytes32,
            CheckSigFromStackVerify,
            FromAltStack,
            ScriptNumToLe64,
        ],
        Command::PriceOracle1W => &[
            ToAltStack,
            Dup2,
            ToAltStack,
            Bytes8,
            Geq64,
            Verify,
            Cat,
            Sha256,
            Bytes32,
            CheckSigFromStackVerify,
            FromAltStack,
            FromAltStack,
            Swap,
            ScriptNumToLe64,
        ],
        Command::Compare(op) => compare_row(op),
    }
}
