// One pass over the commands of a condition that Check let pass.
ghost use Rattle.std.specs.Prelude.{◌≡◌, [], length};
ghost use Rattle.semantics.specs.Code.{command_row};
ghost use Rattle.semantics.specs.Evaluation.{popping};
ghost use Rattle.semantics.specs.Parse.{fold, instructions};
ghost use Rattle.condition.specs.Walk.{Passed};
ghost use Rattle.amounts.specs.Transactions.{env_in};
ghost use Rattle.witness.specs.Elements.{state_of};
ghost use Rattle.stacks.specs.Run.{Run, act, run_step};
ghost use Rattle.stacks.specs.Stacks.{Ready};
ghost use Rattle.evaluation.specs.Run.{Answers, Moves, Room, Supplied, run_of};

use amounts::Transaction;
use semantics::{Command, Refusal};
use stacks::{Effect, Operands, Stack};
use witness::{Progress, Witness};

// One command, by its operand bytes; the verdict, where it is a comparison.
fn act(
    command: Command,
    bytes: &[u8],
    transaction: &Transaction<'_>,
    witness: &Witness<'_>,
    out: &mut [u8],
    operands: &mut Operands<'_>,
    progress: &mut Progress,
) -> Result<Option<bool>, Refusal>
    requires ready { Ready command operands.old.values operands.old.indexes }
    requires bytes { length bytes.now ≡ (command_row command).width }
    requires supplied { Supplied command witness.now.ends.now out.old progress.old }
    ensures acts { run_of operands.new.values.operands operands.new.indexes.operands (state_of witness.now.bytes.now witness.now.ends.now out.new progress.new.left progress.new.checks) result ≡ act popping (env_in transaction.now) command bytes.now operands.old.values.operands operands.old.indexes.operands (state_of witness.now.bytes.now witness.now.ends.now out.old progress.old.left progress.old.checks) }
    ensures moves { Moves command out.old out.new progress.old progress.new }
    ensures values_room { operands.new.values.room ≡ operands.old.values.room }
    ensures indexes_room { operands.new.indexes.room ≡ operands.old.indexes.room }
{
    match stacks::step(command, bytes, transaction.current, operands)? {
        Effect::Nothing => {}
        Effect::Amount(list, step) => operands.values.push(transaction.look_up(list, step)?),
        Effect::Oracle => operands
            .values
            .push(witness::ask(bytes, witness, out, progress)?),
        Effect::Verdict(verdict) => return Ok(Some(verdict)),
    }
    Ok(None)
}

// All commands, up to the one that ends the evaluation; arrays are lent for the operands that wait.
fn run_commands(
    code: &[u8],
    transaction: &Transaction<'_>,
    witness: &Witness<'_>,
    out: &mut [u8],
    values: &mut [i64],
    indexes: &mut [i64],
    progress: &mut Progress,
) -> Result<bool, Refusal>
    requires passed { Passed code.now (Room (length values.old) (length indexes.old) (length out.old)) }
    requires progress { progress.old ≡ record { left = length witness.now.ends.now; checks = 0 } }
    ensures { Answers out.old (fold (run_step popping (env_in transaction.now)) (Run.going [] [] (state_of witness.now.bytes.now witness.now.ends.now out.old (length witness.now.ends.now) 0)) (instructions code.now)) (record { answer = record { verdict = result; checks = progress.new.checks; left = progress.new.left }; buffer = out.new }) }
{
    let mut operands = Operands {
        values: Stack::new(values),
        indexes: Stack::new(indexes),
    };
    let mut at = 0;
    loop {
        // by the byte, and not by `commands::next`: the compiler then goes from the byte to the command's own lines at once
        let command = commands::command_of(code[at]);
        let next = at + 1 + commands::width_of(command);
        let verdict = act(
            command,
            &code[at + 1..next],
            transaction,
            witness,
            out,
            &mut operands,
            progress,
        )?;
        match verdict {
            Some(verdict) => return Ok(verdict),
            None => at = next,
        }
    }
}

// The same, with a progress of its own that is given back at the end: the compiler keeps it in registers, where the lent one would be read and written for each oracle
// terminal.
pub fn run(
    code: &[u8],
    transaction: &Transaction<'_>,
    witness: &Witness<'_>,
    out: &mut [u8],
    values: &mut [i64],
    indexes: &mut [i64],
    progress: &mut Progress,
) -> Result<bool, Refusal>
    requires passed { Passed code.now (Room (length values.old) (length indexes.old) (length out.old)) }
    requires progress { progress.old ≡ record { left = length witness.now.ends.now; checks = 0 } }
    ensures { Answers out.old (fold (run_step popping (env_in transaction.now)) (Run.going [] [] (state_of witness.now.bytes.now witness.now.ends.now out.old (length witness.now.ends.now) 0)) (instructions code.now)) (record { answer = record { verdict = result; checks = progress.new.checks; left = progress.new.left }; buffer = out.new }) }
{
    let mut own = *progress;
    let verdict = run_commands(code, transaction, witness, out, values, indexes, &mut own);
    *progress = own;
    verdict
}
