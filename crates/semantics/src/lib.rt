// The definitions that every contract cites stand in specs/. Here are the bounds, and the types that definitions and code share.
#![tactic(auto)]

// The most tokens that a condition's token form may have.
pub const MAX_TOKENS: usize = 1024;

// The most bytes that condition code may have: nine for each token.
pub const MAX_CODE: usize = 9 * MAX_TOKENS;

// ---- operations, by the names of the source

// `IdxExpr`'s operations.
#[derive(Clone, Copy, Debug, PartialEq, Eq)]
pub enum IdxOp {
    Add,
    Sub,
    Mul,
    Div,
}

// The four amount lists that a value is looked up in.
#[derive(Clone, Copy, Debug, PartialEq, Eq)]
pub enum AmountList {
    Input,
    Output,
    InputIssue,
    InputReIssue,
}

// `ExprInner`'s operations on two values.
#[derive(Clone, Copy, Debug, PartialEq, Eq)]
pub enum BinOp {
    Add,
    Sub,
    Mul,
    Div,
    Mod,
    BitAnd,
    BitOr,
    Xor,
}

// `ExprInner`'s operations on one value.
#[derive(Clone, Copy, Debug, PartialEq, Eq)]
pub enum UnOp {
    Invert,
    Negate,
}

// `ArithInner`'s comparisons.
#[derive(Clone, Copy, Debug, PartialEq, Eq)]
pub enum CmpOp {
    Eq,
    Lt,
    Leq,
    Gt,
    Geq,
}

// What a command byte of condition code stands for. `Unknown` is no Option's None: the definitions give a byte that no command has a row like the others
// (`command_row`), so that one walk over bytes serves all code.
#[derive(Clone, Copy, Debug, PartialEq, Eq)]
pub enum Command {
    Unknown,
    IdxConst,
    CurrIdx,
    Index(IdxOp),
    Const,
    CurrInputIdx,
    Lookup(AmountList),
    Binary(BinOp),
    Unary(UnOp),
    PriceOracle1,
    PriceOracle1W,
    Compare(CmpOp),
}

// What a terminal is to the oracle rule.
#[derive(Clone, Copy, Debug, PartialEq, Eq)]
pub enum Terminal {
    PriceOracle1,
    PriceOracle1W,
    Other,
}

// ---- what the calls give back

// Why a call refuses; 4, 5 and 20 to 40 by the names of the source. The numbers are in specs/Refusals.antt.
#[derive(Clone, Copy, Debug, PartialEq, Eq)]
pub enum Refusal {
    CodeTooLong,
    NotWellFormed(usize),
    TooManyTokens,
    PriceOracle1WFirst,
    PriceOracle1Missing,
    IndexConstTooLarge,
    BufferTooShort,
    AmountsUnsound,
    TokenUnsound(usize),
    TooManyRecords,
    NoCondition,
    WitnessUnsound,
    UtxoIndexOutOfBounds(u64, usize),
    NonExplicitInput(u64),
    OutputIndexOutOfBounds(u64, usize),
    NonExplicitOutput(u64),
    InputIndexOutOfBounds(u64, usize),
    NonExplicitInputIssuance(u64),
    NonExplicitInputReIssuance(u64),
    AddOverflow(i64, i64),
    SubOverflow(i64, i64),
    MulOverflow(i64, i64),
    DivOverflow(i64, i64),
    ModOverflow(i64, i64),
    NegOverflow(i64),
    MissingPrice,
    Price8BytePush,
    MissingTimestamp,
    Timstamp8BytePush,
    MissingOracleSignature,
    MalformedSig,
    TimestampInFuture,
    PriceOverflow,
    IndexStep,
    NegativeIndex,
}

// A refusal's number in document 01, with its data: 0 where none is named, and a signed operand as its 64 bits.
#[derive(Clone, Copy, Debug, PartialEq, Eq)]
pub struct Numbered {
    pub number: u32,
    pub first: u64,
    pub second: u64,
}

// The tokens and oracle terminals of a condition that 1 to 5 let pass.
#[derive(Clone, Copy, Debug, PartialEq, Eq)]
pub struct Checked {
    pub tokens: usize,
    pub oracles: usize,
}

// The verdict or why there is none, the number of checks written, and of witness elements left.
#[derive(Clone, Copy, Debug, PartialEq, Eq)]
pub struct Evaluated {
    pub verdict: Result<bool, Refusal>,
    pub checks: usize,
    pub left: usize,
}

// How many records and key bytes were written.
#[derive(Clone, Copy, Debug, PartialEq, Eq)]
pub struct Written {
    pub records: usize,
    pub key_bytes: usize,
}

// The length of the code, and the start of the tail that is its token form.
#[derive(Clone, Copy, Debug, PartialEq, Eq)]
pub struct Decoded {
    pub bytes: usize,
    pub start: usize,
}
