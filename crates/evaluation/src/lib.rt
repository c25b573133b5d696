// Evaluate: the verdict of a condition at an input of a transaction, with the signature checks that it rests on, or why there is none.
#![tactic(auto)]

ghost use Rattle.std.specs.Prelude.{◌≡◌, [], ◌*◌, ◌≤◌, ◌<◌, length};
ghost use Rattle.semantics.specs.Code.{max_tokens};
ghost use Rattle.semantics.specs.Evaluate.{evaluated};
ghost use Rattle.semantics.specs.Evaluation.{check_size, popping};
ghost use Rattle.semantics.specs.Parse.{fold, instructions};
ghost use Rattle.condition.specs.Walk.{Passed};
ghost use Rattle.amounts.specs.Transactions.{env_in};
ghost use Rattle.witness.specs.Elements.{state_of};
ghost use Rattle.stacks.specs.Run.{Run, run_step};
ghost use Rattle.evaluation.specs.Run.{Answers};

use amounts::Transaction;
use semantics::{Evaluated, MAX_TOKENS, Refusal};
use witness::{CHECK_BYTES, Progress, Witness};

mod run;

// Where fewer operands ever wait, a condition is evaluated in smaller arrays, which take less time to make.
const FEW: usize = 8;

const SOME: usize = 64;

// A condition that Check let pass and in which fewer than N operands ever wait.
fn run_in<const N: usize>(
    code: &[u8],
    transaction: &Transaction<'_>,
    witness: &Witness<'_>,
    out: &mut [u8],
    progress: &mut Progress,
) -> Result<bool, Refusal>
    requires small { N ≤ max_tokens }
    requires passed { Passed code.now (λ s. (s.most < N) × (check_size * s.oracles ≤ length out.old)) }
    requires progress { progress.old ≡ record { left = length witness.now.ends.now; checks = 0 } }
    ensures { Answers out.old (fold (run_step popping (env_in transaction.now)) (Run.going [] [] (state_of witness.now.bytes.now witness.now.ends.now out.old (length witness.now.ends.now) 0)) (instructions code.now)) (record { answer = record { verdict = result; checks = progress.new.checks; left = progress.new.left }; buffer = out.new }) }
{
    let mut values = [0; N];
    let mut indexes = [0; N];
    run::run(
        code,
        transaction,
        witness,
        out,
        &mut values,
        &mut indexes,
        progress,
    )
}

// A condition that Check let pass, by how many operands ever wait.
fn run_passed(
    code: &[u8],
    transaction: &Transaction<'_>,
    witness: &Witness<'_>,
    out: &mut [u8],
    progress: &mut Progress,
    most: usize,
) -> Result<bool, Refusal>
    requires passed { Passed code.now (λ s. (s.most ≡ most) × (check_size * s.oracles ≤ length out.old)) }
    requires progress { progress.old ≡ record { left = length witness.now.ends.now; checks = 0 } }
    ensures { Answers out.old (fold (run_step popping (env_in transaction.now)) (Run.going [] [] (state_of witness.now.bytes.now witness.now.ends.now out.old (length witness.now.ends.now) 0)) (instructions code.now)) (record { answer = record { verdict = result; checks = progress.new.checks; left = progress.new.left }; buffer = out.new }) }
{
    if most < FEW {
        run_in::<FEW>(code, transaction, witness, out, progress)
    } else if most < SOME {
        run_in::<SOME>(code, transaction, witness, out, progress)
    } else {
        run_in::<MAX_TOKENS>(code, transaction, witness, out, progress)
    }
}

// The refusals 1 to 5, then 8, 12 and 7, then the evaluation.
fn verdict_of(
    code: &[u8],
    transaction: &Transaction<'_>,
    witness: &[u8],
    ends: &[u32],
    out: &mut [u8],
    progress: &mut Progress,
) -> Result<bool, Refusal>
    requires { progress.old ≡ record { left = length ends.now; checks = 0 } }
    ensures { record { answer = record { verdict = result; checks = progress.new.checks; left = progress.new.left }; buffer = out.new } ≡ evaluated code.now (record { env = env_in transaction.now; witness = witness.now; ends = ends.now; buffer = out.old }) }
{
    let summary = condition::examine(code)?;
    if !transaction.is_sound() {
        return Err(Refusal::AmountsUnsound);
    }
    let witness = witness::lent(witness, ends)?;
    if out.len() < CHECK_BYTES * summary.oracles {
        return Err(Refusal::BufferTooShort);
    }
    run_passed(code, transaction, &witness, out, progress, summary.most)
}

// Nothing beyond the checks that are reported is written.
pub fn evaluate(
    code: &[u8],
    transaction: &Transaction<'_>,
    witness: &[u8],
    ends: &[u32],
    out: &mut [u8],
) -> Evaluated
    ensures { record { answer = result; buffer = out.new } ≡ evaluated code.now (record { env = env_in transaction.now; witness = witness.now; ends = ends.now; buffer = out.old }) }
{
    let mut progress = Progress {
        left: ends.len(),
        checks: 0,
    };
    let verdict = verdict_of(code, transaction, witness, ends, out, &mut progress);
    Evaluated {
        verdict,
        checks: progress.checks,
        left: progress.left,
    }
}
