// Cases of Evaluate.
ghost use Rattle.std.specs.Prelude.{◌≡◌};
ghost use Rattle.answers.specs.Answers.{evaluate_answer};
ghost use Rattle.semantics.specs.Evaluate.{evaluated};
ghost use Rattle.cases.specs.Cases.{part_of};
ghost use Rattle.condition_cases.specs.Agreement.{evaluate_agrees, evaluate_lent};

use answers::EvaluateAnswer;
use cases::{FILL, filled, knows, nth, part, read_numbers};

const ROOM: usize = 12288;

const SLOTS: usize = 16;

const ELEMENTS: usize = 512;

// The call, with the parts of the case lent.
fn call(body: &[u8], checks: &mut [u8]) -> EvaluateAnswer
    ensures value { result ≡ evaluate_answer (evaluated (part_of body.now 0) (evaluate_lent body.now checks.old)).answer }
    ensures checks_after { checks.new ≡ (evaluated (part_of body.now 0) (evaluate_lent body.now checks.old)).buffer }
{
    let mut spent_slots = [0u64; SLOTS];
    let mut output_slots = [0u64; SLOTS];
    let mut issued_slots = [0u64; SLOTS];
    let mut reissued_slots = [0u64; SLOTS];
    let mut element_ends = [0u32; ELEMENTS];
    let spent = read_numbers(body, 1, &mut spent_slots);
    let outputs = read_numbers(body, 3, &mut output_slots);
    let issued = read_numbers(body, 5, &mut issued_slots);
    let reissued = read_numbers(body, 7, &mut reissued_slots);
    let ends = read_numbers(body, 10, &mut element_ends);
    covenant::covenant_evaluate(
        part(body, 0),
        spent,
        part(body, 2),
        outputs,
        part(body, 4),
        issued,
        part(body, 6),
        reissued,
        part(body, 8),
        nth(part(body, 11), 0),
        part(body, 9),
        ends,
        checks,
    )
}

// One of three alike: `cases::knows` says why they are no function of the call.
pub fn agrees(body: &[u8]) -> bool
    ensures { result ≡ evaluate_agrees body.now }
{
    let mut checks: [u8; ROOM] = filled(FILL);
    let known = part(body, 11);
    let room = nth::<u64>(known, 1) as usize;
    if ROOM < room {
        return false;
    }
    let answer = call(body, &mut checks[..room]);
    let numbers = [
        nth(known, 0),
        room as u64,
        answer.number as u64,
        answer.verdict as u64,
        answer.first,
        answer.second,
        answer.checks,
        answer.left,
    ];
    knows(known, &numbers, &checks, part(body, 12))
}
