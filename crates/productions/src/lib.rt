// What the tokens before a place end with: a row, told by the kinds of one or two tokens, and then compared kind by kind with its command's own tokens.
#![tactic(auto)]

ghost use Rattle.std.specs.Prelude.{◌≡◌, List, [], ◌∷◌, ℕ, ◌-◌, ◌≤◌, ◌<◌, length, get_or};
ghost use Rattle.semantics.specs.Code.{max_tokens};
ghost use Rattle.semantics.specs.Records.{records_of};
ghost use Rattle.productions.specs.Before.{Numbered, tokens_before};
ghost use Rattle.productions.specs.Noted.{Rows, row_in};
ghost use Rattle.productions.specs.Ending.{candidate_of, command_in, ends, equal_kind, fits, kind_there, last_row, mark_of, num_one, row_at, row_count, row_found, row_numbered, rows, rows_before, value_count};

use semantics::{AmountList, BinOp, CmpOp, Command, IdxOp, MAX_TOKENS, UnOp};
use token_table::{TokenKind, token_row};

// Kinds of tokens, as records hold them. What a last token may end is told by its byte in one `match`: of a kind made of the byte first, the compiler makes a test more for each token.
const NUM: u8 = TokenKind::Num as u8;

const BYTES8: u8 = TokenKind::Bytes8 as u8;

const CURR_INP: u8 = TokenKind::CurrInp as u8;

const ADD: u8 = TokenKind::Add as u8;

const SUB: u8 = TokenKind::Sub as u8;

const SCRIPT_NUM_TO_LE64: u8 = TokenKind::ScriptNumToLe64 as u8;

const LE64_TO_SCRIPT_NUM: u8 = TokenKind::Le64ToScriptNum as u8;

const MUL64: u8 = TokenKind::Mul64 as u8;

const ADD64: u8 = TokenKind::Add64 as u8;

const SUB64: u8 = TokenKind::Sub64 as u8;

const NEG64: u8 = TokenKind::Neg64 as u8;

const EQUAL: u8 = TokenKind::Equal as u8;

const VERIFY: u8 = TokenKind::Verify as u8;

const NIP: u8 = TokenKind::Nip as u8;

const DROP: u8 = TokenKind::Drop as u8;

const AND: u8 = TokenKind::And as u8;

const OR: u8 = TokenKind::Or as u8;

const XOR: u8 = TokenKind::Xor as u8;

const INVERT: u8 = TokenKind::Invert as u8;

const INP_VALUE: u8 = TokenKind::InpValue as u8;

const OUT_VALUE: u8 = TokenKind::OutValue as u8;

const FROM_ALT_STACK: u8 = TokenKind::FromAltStack as u8;

const GEQ64: u8 = TokenKind::Geq64 as u8;

const GE64: u8 = TokenKind::Ge64 as u8;

const LEQ64: u8 = TokenKind::Leq64 as u8;

const LE64: u8 = TokenKind::Le64 as u8;

const SHA256: u8 = TokenKind::Sha256 as u8;

const CHECK_SIG_FROM_STACK_VERIFY: u8 = TokenKind::CheckSigFromStackVerify as u8;

const SWAP: u8 = TokenKind::Swap as u8;

// The rows stand in runs: a constant, lookups, operations on one value, on two, oracle terminals; index terminals, index operations; what stands between
// the operands of index mul and div; comparisons. A run is named by its first row, and some rows have names of their own; the number of rows is no row's.
// A row is a number, since one is noted for each token, in a byte, and the readers go by runs.
pub const LOOKUPS: usize = 1;

pub const INPUT: usize = 1;

const ISSUES: usize = 3;

pub const UNARIES: usize = 5;

const NEGATE: usize = 6;

pub const BINARIES: usize = 7;

const DIV: usize = 10;

pub const BIT_OPERATIONS: usize = 12;

pub const ORACLES: usize = 15;

const PRICE_ORACLE_1W: usize = 16;

pub const INDEXES: usize = 17;

pub const INDEX_OPERATIONS: usize = 19;

pub const INDEX_MUL: usize = 21;

const INDEX_DIV: usize = 22;

pub const BETWEEN: usize = 23;

pub const COMPARISONS: usize = 24;

pub const ROWS: usize = 29;

// A row's command; what stands between two index operands is none's.
#[tactic(auto, unfolding(crate::specs::Ending::rows, slices::specs::Bytes::bytes_value))]
pub fn command(row: usize) -> Option<Command>
    requires { row < row_count }
    ensures { result ≡ command_in (row_at row) }
{
    Some(match row {
        0 => Command::Const,
        1 => Command::Lookup(AmountList::Input),
        2 => Command::Lookup(AmountList::Output),
        3 => Command::Lookup(AmountList::InputIssue),
        4 => Command::Lookup(AmountList::InputReIssue),
        5 => Command::Unary(UnOp::Invert),
        6 => Command::Unary(UnOp::Negate),
        7 => Command::Binary(BinOp::Add),
        8 => Command::Binary(BinOp::Sub),
        9 => Command::Binary(BinOp::Mul),
        10 => Command::Binary(BinOp::Div),
        11 => Command::Binary(BinOp::Mod),
        12 => Command::Binary(BinOp::BitAnd),
        13 => Command::Binary(BinOp::BitOr),
        14 => Command::Binary(BinOp::Xor),
        15 => Command::PriceOracle1,
        16 => Command::PriceOracle1W,
        17 => Command::IdxConst,
        18 => Command::CurrIdx,
        19 => Command::Index(IdxOp::Add),
        20 => Command::Index(IdxOp::Sub),
        21 => Command::Index(IdxOp::Mul),
        22 => Command::Index(IdxOp::Div),
        23 => return None,
        24 => Command::Compare(CmpOp::Eq),
        25 => Command::Compare(CmpOp::Lt),
        26 => Command::Compare(CmpOp::Leq),
        27 => Command::Compare(CmpOp::Gt),
        _ => Command::Compare(CmpOp::Geq),
    })
}

// The number of a row's own tokens, of the rows of values.
#[tactic(auto, unfolding(crate::specs::Ending::rows, slices::specs::Bytes::bytes_value))]
fn value_width(row: usize) -> usize
    requires { row < value_count }
    ensures { result ≡ length (row_at row).marks }
{
    if row < LOOKUPS {
        return 1;
    }
    if row < ISSUES {
        return 4;
    }
    if row < UNARIES {
        return 8;
    }
    if row < NEGATE {
        return 1;
    }
    if row < DIV {
        return 4;
    }
    if row < BIT_OPERATIONS {
        return 5;
    }
    if row < ORACLES {
        return 1;
    }
    if row < PRICE_ORACLE_1W {
        return 10;
    }
    13
}

// The number of a row's own tokens. It goes by tests, so that the readers hold nothing of a table while they call themselves; a match by the runs of rows takes Decode a third more
// instructions where a condition is all And.
#[tactic(auto, unfolding(crate::specs::Ending::rows, slices::specs::Bytes::bytes_value))]
pub fn width(row: usize) -> usize
    requires { row < row_count }
    ensures { result ≡ length (row_at row).marks }
{
    if row < INDEXES {
        return value_width(row);
    }
    if row < INDEX_MUL {
        return 1;
    }
    if row < INDEX_DIV {
        return 6;
    }
    if row < BETWEEN {
        return 7;
    }
    1
}

// The first row whose last token has this kind.
#[tactic(auto, unfolding(crate::specs::Ending::rows, slices::specs::Bytes::bytes_value))]
fn by_last(kind: u8) -> Option<usize>
    requires { kind < 36 }
    ensures { result ≡ row_numbered (rows_before 0 kind rows) }
{
    match kind {
        NUM => Some(17),
        BYTES8 => Some(0),
        CURR_INP => Some(18),
        ADD => Some(19),
        SUB => Some(20),
        SCRIPT_NUM_TO_LE64 => Some(23),
        LE64_TO_SCRIPT_NUM => Some(21),
        EQUAL => Some(24),
        VERIFY => Some(1),
        NIP => Some(3),
        DROP => Some(11),
        AND => Some(12),
        OR => Some(13),
        XOR => Some(14),
        INVERT => Some(5),
        FROM_ALT_STACK => Some(15),
        GEQ64 => Some(28),
        GE64 => Some(27),
        LEQ64 => Some(26),
        LE64 => Some(25),
        SWAP => Some(16),
        _ => None,
    }
}

// The same of the fourth last token.
#[tactic(auto, unfolding(crate::specs::Ending::rows, slices::specs::Bytes::bytes_value))]
fn by_fourth(kind: u8) -> Option<usize>
    requires { kind < 36 }
    ensures { result ≡ row_numbered (rows_before 3 kind rows) }
{
    match kind {
        MUL64 => Some(9),
        ADD64 => Some(7),
        SUB64 => Some(8),
        NEG64 => Some(6),
        EQUAL => Some(3),
        DROP => Some(4),
        INP_VALUE => Some(1),
        OUT_VALUE => Some(2),
        SHA256 => Some(15),
        CHECK_SIG_FROM_STACK_VERIFY => Some(16),
        _ => None,
    }
}

// The kind of the token before `end` that has k tokens behind it there.
#[tactic(auto, using(crate::proofs::Places::kind_known, crate::proofs::Places::kind_beyond))]
pub fn kind_before(kinds: &[u8], end: usize, k: usize) -> Option<u8>
    requires { end ≤ length kinds.now }
    ensures { (numbers places keys : List ℕ) → result ≡ kind_there (tokens_before kinds.now numbers places keys end) k }
{
    if k < end {
        Some(kinds[end - 1 - k])
    } else {
        None
    }
}

// The only row that the tokens before `end` can end with.
fn candidate(kinds: &[u8], end: usize) -> Option<usize>
    requires { ((i : ℕ) → get_or kinds.now i 0 < 36) × (end ≤ length kinds.now) }
    ensures { (numbers places keys : List ℕ) → result ≡ row_numbered (candidate_of (tokens_before kinds.now numbers places keys end)) }
{
    let last = kind_before(kinds, end, 0)?;
    match last {
        VERIFY => by_fourth(kind_before(kinds, end, 3)?),
        LE64_TO_SCRIPT_NUM if kind_before(kinds, end, 1) == Some(NIP) => Some(INDEX_DIV),
        NIP if kind_before(kinds, end, 1) == Some(VERIFY) => Some(DIV),
        _ => by_last(last),
    }
}

// Whether a token is one of a row of several: of the row's kind there, and a Num is one of 1.
fn fits(own: u8, kind: u8, number: u64) -> bool
    requires { own < 36 }
    ensures { result ≡ fits (mark_of own) kind number }
{
    kind == own && (own != NUM || number == 1)
}

// Whether the tokens before `end` end with those of a row of several, the last one looked at first.
fn ends(kinds: &[u8], numbers: &[u64], end: usize, row: usize) -> bool
    requires kinds_in_bounds { (length kinds.now ≤ length numbers.now) × (end ≤ length kinds.now) }
    requires row_lt_row_count { (row < row_count) × (1 < length (row_at row).marks) }
    ensures { (places keys : List ℕ) →
        result ≡ ends (row_at row).marks (tokens_before kinds.now numbers.now places keys end) }
{
    let own = token_row(command(row).unwrap());
    let count = own.len() - 1;
    if end < count {
        return false;
    }
    let start = end - count;
    for i in (0..count).rev() {
        if !fits(own[i].number(), kinds[start + i], numbers[start + i]) {
            return false;
        }
    }
    true
}

// The same. The oracles' rows, which are the longest, have calls of their own, in which their tokens are constants.
fn ends_with(kinds: &[u8], numbers: &[u64], end: usize, row: usize) -> bool
    requires kinds_in_bounds { (length kinds.now ≤ length numbers.now) × (end ≤ length kinds.now) }
    requires row_lt_row_count { (row < row_count) × (1 < length (row_at row).marks) }
    ensures { (places keys : List ℕ) →
        result ≡ ends (row_at row).marks (tokens_before kinds.now numbers.now places keys end) }
{
    match row {
        ORACLES => ends(kinds, numbers, end, ORACLES),
        PRICE_ORACLE_1W => ends(kinds, numbers, end, PRICE_ORACLE_1W),
        _ => ends(kinds, numbers, end, row),
    }
}

// Whether a Num of 1 and Equal stand before the last one of the tokens before `end`.
fn ends_with_one_equal(kinds: &[u8], numbers: &[u64], end: usize) -> bool
    requires { (length kinds.now ≤ length numbers.now) × (end ≤ length kinds.now) }
    ensures { (places keys : List ℕ) →
        result ≡ ends (equal_kind ∷ num_one ∷ []) (tokens_before kinds.now numbers.now places keys (end - 1)) }
{
    if end < 3 {
        return false;
    }
    kinds[end - 2] == EQUAL && fits(NUM, kinds[end - 3], numbers[end - 3])
}

// Whether the tokens before `end` end with the only row that they can end with. The kind of the last one tells a row of one token; rows of four tokens differ in
// the first of them alone.
fn ends_with_candidate(kinds: &[u8], numbers: &[u64], end: usize, row: usize) -> bool
    requires numbered { Numbered kinds.now numbers.now end }
    requires candidate { (row < row_count)
        × ((places keys : List ℕ) → row ≡ candidate_of (tokens_before kinds.now numbers.now places keys end)) }
    ensures { (places keys : List ℕ) →
        result ≡ ends (row_at row).marks (tokens_before kinds.now numbers.now places keys end) }
{
    match width(row) {
        1 => true,
        4 => ends_with_one_equal(kinds, numbers, end),
        _ => ends_with(kinds, numbers, end, row),
    }
}

// The row that the tokens before `end` end with.
fn last_row(kinds: &[u8], numbers: &[u64], end: usize) -> Option<usize>
    requires { Numbered kinds.now numbers.now end }
    ensures { (places keys : List ℕ) →
        result ≡ row_numbered (row_found (last_row (tokens_before kinds.now numbers.now places keys end))) }
{
    let row = candidate(kinds, end)?;
    if ends_with_candidate(kinds, numbers, end, row) {
        Some(row)
    } else {
        None
    }
}

// Notes the row that the tokens before each place end with, or the number of rows, so that it is found once. A row is a byte there.
pub fn find_rows(kinds: &[u8], numbers: &[u64], rows: &mut [u8])
    requires numbered { Numbered kinds.now numbers.now (length kinds.now) }
    requires kinds_in_bounds { length kinds.now ≤ length rows.old }
    ensures { (places keys : List ℕ) →
        Rows (records_of kinds.now numbers.now places keys) rows.new (length kinds.now) }
{
    for i in 0..kinds.len() {
        rows[i] = last_row(kinds, numbers, i + 1).unwrap_or(ROWS) as u8;
    }
}

// The row that is noted for the tokens before `end`.
#[tactic(auto, unfolding(crate::specs::Noted::row_in))]
pub fn row_before(rows: &[u8; MAX_TOKENS], end: usize) -> Option<usize>
    requires { end ≤ max_tokens }
    ensures { result ≡ row_numbered (row_in rows.now end) }
{
    if end == 0 {
        return None;
    }
    let row = usize::from(rows[end - 1]);
    if row < ROWS { Some(row) } else { None }
}
