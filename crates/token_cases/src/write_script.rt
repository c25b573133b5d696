// Cases of Write Script.
ghost use Rattle.std.specs.Prelude.{◌≡◌};
ghost use Rattle.answers.specs.Answers.{script_answer};
ghost use Rattle.script.specs.WriteScript.{wrote_script};
ghost use Rattle.cases.specs.Cases.{part_of};
ghost use Rattle.token_cases.specs.ScriptWriting.{script_agrees};

use answers::ScriptAnswer;
use cases::{FILL, filled, knows, nth, part};

const ROOM: usize = 5200;

// The call, with the code of the case.
fn call(body: &[u8], script: &mut [u8]) -> ScriptAnswer
    ensures value { result ≡ script_answer (wrote_script (part_of body.now 0) script.old).answer }
    ensures script_after { script.new ≡ (wrote_script (part_of body.now 0) script.old).buffer }
{
    covenant::covenant_write_script(part(body, 0), script)
}

// One of three alike: `cases::knows` says why they are no function of the call.
pub fn agrees(body: &[u8]) -> bool
    ensures { result ≡ script_agrees body.now }
{
    let mut script: [u8; ROOM] = filled(FILL);
    let known = part(body, 1);
    let room = nth::<u64>(known, 0) as usize;
    if ROOM < room {
        return false;
    }
    let answer = call(body, &mut script[..room]);
    let numbers = [
        room as u64,
        answer.number as u64,
        answer.place,
        answer.script_bytes,
    ];
    knows(known, &numbers, &script, part(body, 2))
}
