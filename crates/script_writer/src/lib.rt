// Write Script: condition code to the bytes of its script, without tokens between them. One pass over the commands marks those after which a ScriptNumToLe64 stands, where there
// are lookups, and one writes; where the buffer may be too short, one between them counts.
// `Command::Unknown` is not met: Check has turned down code that has it.
#![tactic(auto)]

ghost use Rattle.std.specs.Prelude.{IfSome, Ok, ◌≡◌, ◌+◌, ◌*◌, ◌≤◌, leb, length, take, drop};
ghost use Rattle.slices.specs.Bytes.{Front, bytes_value};
ghost use Rattle.semantics.specs.Code.{command_of, command_row, max_tokens};
ghost use Rattle.semantics.specs.Parse.{after, command_at, operand_bytes};
ghost use Rattle.semantics.specs.Token.{oracle_form, oracle_w_form};
ghost use Rattle.condition.specs.Walk.{Passed, examined};
ghost use Rattle.conversions.specs.Marks.{Unmarked};
ghost use Rattle.token_table.specs.TokenRows.{tokens_of};
ghost use Rattle.forms.specs.Emitted.{emitted};
ghost use Rattle.script.specs.Script.{script};
ghost use Rattle.script.specs.WriteScript.{wrote_script};
ghost use Rattle.script_writer.specs.Pieces.{PieceOf, SingleOpcode, piece_at, piece_length, piece_width};

use script::{MAX_SCRIPT, opcodes};
use semantics::{Command, MAX_TOKENS, Refusal};
use summary::Summary;

// ---- one command

// What a command writes: a row of opcodes, the push of a number, its constant, or an oracle terminal's opcodes with its time and key.
#[derive(Clone, Copy)]
enum Piece {
    Row(&'static [u8]),
    Int(u64),
    Constant,
    Oracle,
    OracleW,
}

// The piece of a command whose operand bytes stand at `at`.
fn piece_of(command: Command, code: &[u8], at: usize) -> Piece
    requires { at + (command_row command).width ≤ length code.now }
    ensures { PieceOf command code.now at result }
{
    match command {
        Command::Unknown => Piece::Row(script::no_row()),
        Command::IdxConst => Piece::Int(slices::read_le64(code, at)),
        Command::CurrIdx => Piece::Row(script::current_index_row()),
        Command::Index(op) => Piece::Row(script::index_row(op)),
        Command::Const => Piece::Constant,
        Command::CurrInputIdx => Piece::Row(script::current_row()),
        Command::Lookup(list) => Piece::Row(script::lookup_row(list)),
        Command::Binary(op) => Piece::Row(script::binary_row(op)),
        Command::Unary(op) => Piece::Row(script::unary_row(op)),
        Command::PriceOracle1 => Piece::Oracle,
        Command::PriceOracle1W => Piece::OracleW,
        Command::Compare(op) => Piece::Row(script::compare_row(op)),
    }
}

// How many bytes a piece has.
fn piece_length(piece: Piece) -> usize
    ensures { result ≡ piece_length piece }
{
    match piece {
        Piece::Row(row) => row.len(),
        Piece::Int(n) => script::int_length(n),
        Piece::Constant => 9,
        Piece::Oracle => 50,
        Piece::OracleW => 53,
    }
}

// An oracle terminal whose key stands at `at`, and its time after it.
fn push_oracle(code: &[u8], at: usize, out: &mut [u8]) -> usize
    requires { (at + 40 ≤ length code.now) × (50 ≤ length out.old) }
    ensures { Front out.new out.old (script (oracle_form (take 32 (drop at code.now)) (bytes_value (take 8 (drop (at + 32) code.now))))) result }
{
    let time = slices::read_le64(code, at + 32);
    let mut n = script::push_row(script::oracle_opening(), out);
    n += script::push_bytes8(time, &mut out[n..]);
    n += script::push_row(script::oracle_test(), &mut out[n..]);
    n += script::push_bytes32(code, at, &mut out[n..]);
    n += script::push_row(script::oracle_closing(), &mut out[n..]);
    n
}

// The same between TOALTSTACK and FROMALTSTACK SWAP.
fn push_oracle_w(code: &[u8], at: usize, out: &mut [u8]) -> usize
    requires { (at + 40 ≤ length code.now) × (53 ≤ length out.old) }
    ensures { Front out.new out.old (script (oracle_w_form (take 32 (drop at code.now)) (bytes_value (take 8 (drop (at + 32) code.now))))) result }
{
    let mut n = script::push_row(script::oracle_w_opening(), out);
    n += push_oracle(code, at, &mut out[n..]);
    n += script::push_row(script::oracle_w_closing(), &mut out[n..]);
    n
}

// The bytes of a piece, with the operand bytes at `at`, at the front of what is lent; how many they are.
fn push_piece(piece: Piece, code: &[u8], at: usize, out: &mut [u8]) -> usize
    requires { (at + piece_width piece ≤ length code.now) × (piece_length piece ≤ length out.old) }
    ensures { Front out.new out.old (piece_at piece code.now at) result }
{
    match piece {
        Piece::Row(row) => script::push_row(row, out),
        Piece::Int(n) => script::push_int(n, out),
        Piece::Constant => script::push_bytes8(slices::read_le64(code, at), out),
        Piece::Oracle => push_oracle(code, at, out),
        Piece::OracleW => push_oracle_w(code, at, out),
    }
}

// ---- all commands

// How many bytes a command takes in the script, and where the next one stands.
#[derive(Clone, Copy)]
struct Next {
    bytes: usize,
    next: usize,
}

// How many bytes the command at a place takes: its own, and ScriptNumToLe64 where it is marked.
fn next_length(code: &[u8], at: usize, marked: bool) -> Next
    requires { after code.now at ≤ length code.now }
    ensures { (result.bytes ≡ length (script (tokens_of (command_at code.now at) (operand_bytes (command_at code.now at) code.now (at + 1)) marked))) × (result.next ≡ after code.now at) }
{
    let here = commands::next(code, at);
    let command = here.command;
    let own = piece_length(piece_of(command, code, here.operands));
    Next {
        bytes: own + marked as usize,
        next: here.next,
    }
}

// The bytes of the command at a place, at the front of what is lent.
fn push_command(code: &[u8], at: usize, marked: bool, out: &mut [u8]) -> Next
    requires { (after code.now at ≤ length code.now) × (length (script (tokens_of (command_at code.now at) (operand_bytes (command_at code.now at) code.now (at + 1)) marked)) ≤ length out.old) }
    ensures { Front out.new out.old (script (tokens_of (command_at code.now at) (operand_bytes (command_at code.now at) code.now (at + 1)) marked)) result.bytes × (result.next ≡ after code.now at) }
{
    let here = commands::next(code, at);
    let command = here.command;
    let own = push_piece(
        piece_of(command, code, here.operands),
        code,
        here.operands,
        out,
    );
    if marked {
        out[own] = opcodes::SCRIPTNUMTOLE64;
        return Next {
            bytes: own + 1,
            next: here.next,
        };
    }
    Next {
        bytes: own,
        next: here.next,
    }
}

// The opcode that is all that a byte's command writes.
#[tactic(auto, unfolding(semantics::specs::Code::command_of, script::specs::Script::script, script::specs::Script::opcodes))]
fn single_opcode(byte: u8) -> Option<u8>
    ensures { IfSome result (SingleOpcode (command_of byte)) }
{
    match byte {
        2 => Some(opcodes::PUSHCURRENTINPUTINDEX),
        3 => Some(opcodes::ADD),
        4 => Some(opcodes::SUB),
        27 => Some(opcodes::AND),
        28 => Some(opcodes::OR),
        29 => Some(opcodes::XOR),
        30 => Some(opcodes::INVERT),
        48 => Some(opcodes::EQUAL),
        49 => Some(opcodes::LESSTHAN64),
        50 => Some(opcodes::LESSTHANOREQUAL64),
        51 => Some(opcodes::GREATERTHAN64),
        52 => Some(opcodes::GREATERTHANOREQUAL64),
        _ => None,
    }
}

// The same as `push_command`; most commands are one opcode, which is written at once.
fn push_next(code: &[u8], at: usize, marked: bool, out: &mut [u8]) -> Next
    requires { (after code.now at ≤ length code.now) × (length (script (tokens_of (command_at code.now at) (operand_bytes (command_at code.now at) code.now (at + 1)) marked)) ≤ length out.old) }
    ensures { Front out.new out.old (script (tokens_of (command_at code.now at) (operand_bytes (command_at code.now at) code.now (at + 1)) marked)) result.bytes × (result.next ≡ after code.now at) }
{
    if !marked {
        if let Some(opcode) = single_opcode(code[at]) {
            out[0] = opcode;
            return Next {
                bytes: 1,
                next: at + 1,
            };
        }
    }
    push_command(code, at, marked, out)
}

// How many bytes the script has of code whose commands have these marks.
fn script_length(code: &[u8], marks: &[bool]) -> usize
    requires { Passed code.now (λ s. s.tokens ≤ length marks.now) × (length (script (emitted code.now marks.now)) ≤ 5 * max_tokens) }
    ensures { result ≡ length (script (emitted code.now marks.now)) }
{
    let mut at = 0;
    let mut count = 0;
    let mut n = 0;
    // each command says itself where the next one stands
    while at < code.len() {
        let taken = next_length(code, at, marks[count]);
        n += taken.bytes;
        count += 1;
        at = taken.next;
    }
    n
}

// Whether there is room for the script; it is not counted where there is room for any.
fn has_room(code: &[u8], marks: &[bool], room: usize) -> bool
    requires { Passed code.now (λ s. s.tokens ≤ length marks.now) × (length (script (emitted code.now marks.now)) ≤ 5 * max_tokens) }
    ensures { result ≡ leb (length (script (emitted code.now marks.now))) room }
{
    if MAX_SCRIPT <= room {
        return true;
    }
    script_length(code, marks) <= room
}

// The script of code whose commands have these marks; how many bytes it has.
fn push_script(code: &[u8], marks: &[bool], out: &mut [u8]) -> usize
    requires { Passed code.now (λ s. s.tokens ≤ length marks.now) × (length (script (emitted code.now marks.now)) ≤ length out.old) }
    ensures { Front out.new out.old (script (emitted code.now marks.now)) result }
{
    let mut at = 0;
    let mut count = 0;
    let mut n = 0;
    // each command says itself where the next one stands
    while at < code.len() {
        let taken = push_next(code, at, marks[count], &mut out[n..]);
        n += taken.bytes;
        count += 1;
        at = taken.next;
    }
    n
}

// ---- the call

// Refusals 6 and 7, then the script, of a condition that Check let pass with this summary; the arrays have room for as many operands and marks as it has tokens, and no mark is set.
fn write_with(
    code: &[u8],
    s: Summary,
    out: &mut [u8],
    waiting: &mut [u16],
    marks: &mut [bool],
) -> Result<usize, Refusal>
    requires { (examined code.now ≡ Ok s) × (s.tokens ≤ length waiting.old) × (s.tokens ≤ length marks.old) × Unmarked marks.old }
    ensures { record { answer = result; buffer = out.new } ≡ wrote_script code.now out.old }
{
    conversions::mark(code, s.lookups, waiting, marks)?;
    if !has_room(code, marks, out.len()) {
        return Err(Refusal::BufferTooShort);
    }
    Ok(push_script(code, marks, out))
}

// Writes the script of a condition at the front of what is lent; or gives the first of the refusals 1 to 5, 6, 7, and writes nothing.
#[tactic(auto, using(crate::proofs::Answers::refused_first, crate::proofs::Answers::few_tokens))]
pub fn write_script(code: &[u8], out: &mut [u8]) -> Result<usize, Refusal>
    ensures { record { answer = result; buffer = out.new } ≡ wrote_script code.now out.old }
{
    let s = condition::examine(code)?;
    let mut waiting = [0; MAX_TOKENS];
    let mut marks = [false; MAX_TOKENS];
    write_with(code, s, out, &mut waiting, &mut marks)
}
