// Where the token form converts an index between operands: after the left operand of an index Mul or Div stands a ScriptNumToLe64.
// One pass over the commands marks those that end such an operand, and tests refusal 6.
// `Command::Unknown` is not met: Check has turned down code that has it.
#![tactic(auto)]

ghost use Rattle.std.specs.Prelude.{◌≡◌, ◌∷◌, ◌+◌, ◌≤◌, ◌<◌, length};
ghost use Rattle.semantics.specs.declared.Command.{Command};
ghost use Rattle.semantics.specs.Code.{max_tokens};
ghost use Rattle.conversions.specs.Marks.{Fits, Found, Ready, Turned, Unmarked, converts, marking_in, settled, stack_in};
ghost use Rattle.semantics.specs.Parse.{after, command_at};
ghost use Rattle.condition.specs.Walk.{Passed};

use semantics::{Command, IdxOp, Refusal};

// A Num holds less: 2^32.
const NUM_LIMIT: u64 = 4294967296;

// Whether an operation has ScriptNumToLe64 after its left operand.
fn converts_left(op: IdxOp) -> bool
    ensures { result ≡ converts (Command.Index op) }
{
    matches!(op, IdxOp::Mul | IdxOp::Div)
}

// The command that comes after `count` others ends an index, on top of so many that wait.
#[tactic(auto, using(crate::proofs::Waiting::pushed))]
fn push(count: usize, indexes: usize, waiting: &mut [u16]) -> usize
    requires { (count < max_tokens) × (indexes < length waiting.old) }
    ensures { stack_in waiting.new result ≡ count ∷ stack_in waiting.old indexes }
{
    waiting[indexes] = count as u16;
    indexes + 1
}

// An operation on two indexes. The command that ended the left one is marked, or not.
fn operate(
    op: IdxOp,
    count: usize,
    indexes: usize,
    waiting: &mut [u16],
    marks: &mut [bool],
) -> usize
    requires { Ready (Command.Index op) count indexes waiting.old marks.old }
    ensures { marking_in waiting.new result marks.new count ≡ settled (marking_in waiting.old indexes marks.old count) (Command.Index op) }
{
    let left = waiting[indexes - 2] as usize;
    marks[left] = converts_left(op);
    push(count, indexes - 2, waiting)
}

// After a command: where the next one stands, and how many index operands wait.
#[derive(Clone, Copy)]
struct Turn {
    next: usize,
    indexes: usize,
}

// The command at a place, after `count` others, unless refusal 6 falls on it. It is read and told apart in one function, which the compiler makes one table of.
fn step(
    code: &[u8],
    at: usize,
    count: usize,
    indexes: usize,
    waiting: &mut [u16],
    marks: &mut [bool],
) -> Option<Turn>
    requires { (after code.now at ≤ length code.now) × Ready (command_at code.now at) count indexes waiting.old marks.old }
    ensures { Turned code.now at (marking_in waiting.old indexes marks.old count) waiting.new marks.new count result }
{
    let here = commands::next(code, at);
    let next = here.next;
    let command = here.command;
    match command {
        Command::IdxConst => {
            if NUM_LIMIT <= slices::read_le64(code, here.operands) {
                return None;
            }
            let indexes = push(count, indexes, waiting);
            Some(Turn { next, indexes })
        }
        Command::CurrIdx => {
            let indexes = push(count, indexes, waiting);
            Some(Turn { next, indexes })
        }
        Command::Index(op) => {
            let indexes = operate(op, count, indexes, waiting, marks);
            Some(Turn { next, indexes })
        }
        Command::Lookup(_) => {
            let indexes = indexes - 1;
            Some(Turn { next, indexes })
        }
        _ => Some(Turn { next, indexes }),
    }
}

// Marks the commands of a condition with so many lookups, or gives refusal 6; without any lookup there is no index command, and none to mark.
// `waiting` has room for the index operands that wait.
pub fn mark(
    code: &[u8],
    lookups: usize,
    waiting: &mut [u16],
    marks: &mut [bool],
) -> Result<(), Refusal>
    requires { Passed code.now (Fits lookups (length waiting.old) (length marks.old)) × Unmarked marks.old }
    ensures { Found code.now marks.new result }
{
    if lookups == 0 {
        return Ok(());
    }
    let mut at = 0;
    let mut count = 0;
    let mut indexes = 0;
    // each command says itself where the next one stands
    while at < code.len() {
        let Some(turn) = step(code, at, count, indexes, waiting, marks) else {
            return Err(Refusal::IndexConstTooLarge);
        };
        at = turn.next;
        indexes = turn.indexes;
        marks[count] = false;
        count += 1;
    }
    Ok(())
}
