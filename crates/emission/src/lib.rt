// The code of the tokens that were read: a piece for each production, from the last token back. First the oracle rule and the length are judged, and then the pieces are written.
#![tactic(auto)]

ghost use Rattle.std.specs.Prelude.{◌≡◌, List, [], ◌∷◌, ◌++◌, ℕ, ◌+◌, ◌-◌, ◌≤◌, ◌<◌, length, take, drop};
ghost use Rattle.slices.specs.Bytes.{little_endian, over};
ghost use Rattle.semantics.specs.Code.{max_tokens};
ghost use Rattle.semantics.specs.Records.{records_of};
ghost use Rattle.productions.specs.Before.{Numbered, Whole, tokens_before};
ghost use Rattle.productions.specs.Noted.{Fitting, Rows};
ghost use Rattle.emission.specs.Pieces.{Noticed, Placed, bytes_of, joined, judged, lead, pieces, pieces_from, placed_piece, put, records_in, size_of, spot_of};

pub use crate::command_at::CommandAt;
use commands::{byte_of, width_of};
use productions::{INPUT, command, kind_before, row_before, width};
use semantics::{Command, MAX_TOKENS, Refusal, Terminal};
use token_table::TokenKind;

mod command_at;

// The kind of the current index, as records hold it.
const CURR_INP: u8 = TokenKind::CurrInp as u8;

// Bytes of a number, of a key, and of a key with a time; then of the pieces that have them: a command with a number, and one with a key and a time.
const NUMBER_BYTES: usize = 8;

const KEY_BYTES: usize = 32;

const KEY_AND_TIME_BYTES: usize = 40;

const NUMBER_PIECE: usize = 9;

const ORACLE_PIECE: usize = 41;

// How far behind the first token of an oracle's form its time and key stand.
const TIME: usize = 2;

const KEY: usize = 7;

// The columns of token records that are lent, and the bytes of their keys.
#[derive(Clone, Copy)]
pub struct TokenColumns<'a> {
    pub kinds: &'a [u8],
    pub numbers: &'a [u64],
    pub places: &'a [u32],
    pub keys: &'a [u8],
}

// The command that the tokens before `end` end with; `Input` of the current index is `CurrInputIdx`.
fn last_command(kinds: &[u8], rows: &[u8; MAX_TOKENS], end: usize) -> CommandAt
    requires { Fitting rows.now end × (end ≤ length kinds.now) × (0 < end) }
    ensures { Noticed kinds.now rows.now end result }
{
    let Some(row) = row_before(rows, end) else {
        return CommandAt {
            command: None,
            first: end - 1,
        };
    };
    let start = end - width(row);
    if row == INPUT && kind_before(kinds, start, 0) == Some(CURR_INP) {
        return CommandAt {
            command: Some(Command::CurrInputIdx),
            first: start - 1,
        };
    }
    CommandAt {
        command: command(row),
        first: start,
    }
}

// The length of the code of the tokens from `start` on; 4 if the first command is PriceOracle1W, else 5 if PriceOracle1 is among the later ones.
pub fn judge(kinds: &[u8], rows: &[u8; MAX_TOKENS], start: usize) -> Result<usize, Refusal>
    requires { Fitting rows.now (length kinds.now) }
    ensures { (numbers places keys : List ℕ) → Rows (records_of kinds.now numbers places keys) rows.now (length kinds.now) →
        Whole kinds.now places keys → result ≡ judged (pieces (length kinds.now - start)
        (tokens_before kinds.now numbers places keys (length kinds.now))) }
{
    let mut end = kinds.len();
    let mut bytes: usize = 0;
    let mut first = Terminal::Other;
    let mut later = false;
    // the command before `end` says itself where its tokens begin
    while start < end {
        let last = last_command(kinds, rows, end);
        bytes += last.size();
        later |= first == Terminal::PriceOracle1;
        first = last.terminal();
        end = last.first;
    }
    if first == Terminal::PriceOracle1W {
        return Err(Refusal::PriceOracle1WFirst);
    }
    if later {
        return Err(Refusal::PriceOracle1Missing);
    }
    Ok(bytes)
}

// How many tokens a command has before the form of its oracle.
fn lead(command: Command) -> usize
    ensures { result ≡ lead command }
{
    match command {
        Command::PriceOracle1W => 1,
        _ => 0,
    }
}

// A command's byte with a number of eight bytes, which end at `at`.
fn put_number(code: &mut [u8], at: usize, byte: u8, number: u64)
    requires { (9 ≤ at) × (at ≤ length code.old) }
    ensures { code.new ≡ put code.old at (byte ∷ little_endian 8 number) }
{
    code[at - NUMBER_PIECE] = byte;
    slices::write_le64(code, at - NUMBER_BYTES, number);
}

// A command's byte with a key of 32 bytes and a time of eight, which end at `at`.
fn put_oracle(code: &mut [u8], at: usize, byte: u8, keys: &[u8], place: usize, time: u64)
    requires { (41 ≤ at) × (at ≤ length code.old) × (place + 32 ≤ length keys.now) }
    ensures { code.new ≡ put code.old at
        (byte ∷ take 32 (drop place keys.now) ++ little_endian 8 time) }
{
    code[at - ORACLE_PIECE] = byte;
    slices::copy(keys, place, code, at - KEY_AND_TIME_BYTES, KEY_BYTES);
    slices::write_le64(code, at - NUMBER_BYTES, time);
}

// The piece of a command with its operands, which ends at `at`.
fn put_command(columns: &TokenColumns, last: CommandAt, code: &mut [u8], at: usize)
    requires placed { Placed (records_in columns.now) (spot_of last) }
    requires command_bound { (size_of (spot_of last).command ≤ at) × (at ≤ length code.old) }
    ensures { code.new ≡ put code.old at
        (bytes_of (placed_piece (records_in columns.now) (spot_of last).command last.first)) }
{
    let Some(command) = last.command else {
        return;
    };
    let byte = byte_of(command);
    match width_of(command) {
        0 => code[at - 1] = byte,
        NUMBER_BYTES => put_number(code, at, byte, columns.numbers[last.first]),
        _ => {
            let form = last.first + lead(command);
            let place = columns.places[form + KEY] as usize;
            let time = columns.numbers[form + TIME];
            put_oracle(code, at, byte, columns.keys, place, time);
        }
    }
}

// Writes the code of the tokens from `start` on, of so many bytes, to the front of the buffer.
pub fn emit(
    columns: &TokenColumns,
    rows: &[u8; MAX_TOKENS],
    start: usize,
    code: &mut [u8],
    bytes: usize,
)
    requires numbered { Numbered columns.now.kinds.now columns.now.numbers.now (length columns.now.kinds.now) }
    requires whole { Whole columns.now.kinds.now columns.now.places.now columns.now.keys.now }
    requires bytes_in_bounds { (bytes ≤ length code.old) × (bytes ≡ length (joined (pieces_from (records_in columns.now) start))) }
    requires kinds_len_bound { (length columns.now.kinds.now ≤ max_tokens) × Rows (records_in columns.now) rows.now (length columns.now.kinds.now) }
    ensures { code.new ≡ over (joined (pieces_from (records_in columns.now) start)) code.old }
{
    let mut end = columns.kinds.len();
    let mut at = bytes;
    // the command before `end` says itself where its tokens begin
    while start < end {
        let last = last_command(columns.kinds, rows, end);
        put_command(columns, last, code, at);
        at -= last.size();
        end = last.first;
    }
}
