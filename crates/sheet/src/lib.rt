// The sheet of condition code: a line of 29 characters and a line feed for each command, or one for a refusal.
#![tactic(auto)]

ghost use Rattle.std.specs.Prelude.{◌≡◌, [], ◌∷◌, ◌++◌, ◌+◌, ◌*◌, ◌≤◌, length, replicate};
ghost use Rattle.slices.specs.Bytes.{over};
ghost use Rattle.decimals.specs.Decimal.{Ending, decimal};
ghost use Rattle.semantics.specs.Code.{command_row, max_code, max_tokens};
ghost use Rattle.semantics.specs.Parse.{after, operand_bytes};
ghost use Rattle.condition.specs.Walk.{Passed};
ghost use Rattle.sheet.specs.Sheet.{blank, columns, line_feed, operand, refusal_line, right_aligned, sheet};
ghost use Rattle.sheet.specs.Fields.{Whole, all_lines, line_at, text_of};

use decimals::{write_decimal, write_signed};
use semantics::{Command, MAX_TOKENS, Refusal};

// A line, with its line feed.
const LINE: usize = 30;

// The most bytes that a sheet may have: a command has a token at least.
pub const MAX_SHEET: usize = LINE * MAX_TOKENS;

// What stands in a column: nothing, a number, or a signed number by its 64 bits.
#[derive(Clone, Copy, Debug, PartialEq, Eq)]
enum Field {
    Blank,
    Unsigned(u64),
    Signed(u64),
}

// ---- columns

// The text of a field, which ends where the column ends; where it begins.
fn write_field(field: Field, column: &mut [u8]) -> usize
    requires { length (text_of field) ≤ length column.old }
    ensures { Ending column.old (text_of field) column.new result }
{
    match field {
        Field::Blank => column.len(),
        Field::Unsigned(n) => write_decimal(n, column),
        Field::Signed(bits) => write_signed(bits, column),
    }
}

fn right_align(field: Field, column: &mut [u8])
    requires { length (text_of field) ≤ length column.old }
    ensures { column.new ≡ right_aligned (length column.old) (text_of field) }
{
    let start = write_field(field, column);
    column[..start].fill(b' ');
}

// ---- lines

// The operand of a command whose operand bytes stand at `at`; an oracle's time comes after its key.
fn operand_of(command: Command, code: &[u8], at: usize) -> Field
    requires { at + (command_row command).width ≤ length code.now }
    ensures { text_of result ≡ operand command (operand_bytes command code.now at) }
{
    match command {
        Command::IdxConst => Field::Unsigned(slices::read_le64(code, at)),
        Command::Const => Field::Signed(slices::read_le64(code, at)),
        Command::PriceOracle1 | Command::PriceOracle1W => {
            Field::Unsigned(slices::read_le64(code, at + 32))
        }
        _ => Field::Blank,
    }
}

// A line of an offset, a command and an operand.
fn write_columns(offset: usize, command: u8, operand: Field, line: &mut [u8])
    requires { (length line.old ≡ 30) × (length (decimal offset) ≤ 5) × (length (decimal command) ≤ 2) × (length (text_of operand) ≤ 20) }
    ensures { line.new ≡ columns offset command (text_of operand) ++ line_feed ∷ [] }
{
    right_align(Field::Unsigned(offset as u64), &mut line[0..5]);
    line[5] = b' ';
    right_align(Field::Unsigned(command as u64), &mut line[6..8]);
    line[8] = b' ';
    right_align(operand, &mut line[9..29]);
    line[29] = b'\n';
}

// The line of the command at a position of code; the position of the next one.
fn write_line(code: &[u8], at: usize, line: &mut [u8]) -> usize
    requires { (length line.old ≡ 30) × Whole code.now at }
    ensures { (result ≡ after code.now at) × (line.new ≡ line_at code.now at) }
{
    let cursor = commands::next(code, at);
    let command = cursor.command;
    let operand = operand_of(command, code, cursor.operands);
    write_columns(at, code[at], operand, line);
    cursor.next
}

// The line of a refusal.
fn write_refusal(r: Refusal, out: &mut [u8])
    requires { 30 ≤ length out.old }
    ensures { out.new ≡ over (refusal_line r ++ line_feed ∷ []) out.old }
{
    let number = refusals::number_of(r).number;
    right_align(Field::Unsigned(number as u64), &mut out[0..29]);
    out[29] = b'\n';
}

// ---- the sheet

// The lines of code that Check lets pass; how many bytes they are.
fn write_lines(code: &[u8], out: &mut [u8]) -> usize
    requires { Passed code.now (λ s. Unit {0}) × (length code.now ≤ max_code) × (30 * max_tokens ≤ length out.old) }
    ensures { (result ≡ length (all_lines code.now)) × (out.new ≡ over (all_lines code.now) out.old) }
{
    let mut at = 0;
    let mut n = 0;
    // each command says itself where the next one stands
    while at < code.len() {
        let end = n + LINE;
        at = write_line(code, at, &mut out[n..end]);
        n = end;
    }
    n
}

// The sheet of code; how many bytes it is.
pub fn write_sheet(code: &[u8], out: &mut [u8; MAX_SHEET]) -> usize
    ensures { (result ≡ length (sheet code.now)) × (out.new ≡ over (sheet code.now) out.old) }
{
    match condition::examine(code) {
        Err(r) => {
            write_refusal(r, out);
            LINE
        }
        Ok(_) => write_lines(code, out),
    }
}
