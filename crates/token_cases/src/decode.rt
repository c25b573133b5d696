// Cases of Decode.
ghost use Rattle.std.specs.Prelude.{◌≡◌};
ghost use Rattle.answers.specs.Answers.{decode_answer};
ghost use Rattle.semantics.specs.Decode.{decoded};
ghost use Rattle.token_cases.specs.Decoding.{decode_agrees, decode_lent};

use answers::DecodeAnswer;
use cases::{FILL, filled, knows, nth, part, read_numbers};

const ROOM: usize = 9300;

const RECORDS: usize = 1100;

// The call, with the parts of the case lent.
fn call(body: &[u8], code: &mut [u8]) -> DecodeAnswer
    ensures value { result ≡ decode_answer (decoded (decode_lent body.now) code.old).answer }
    ensures code_after { code.new ≡ (decoded (decode_lent body.now) code.old).buffer }
{
    let mut number_slots = [0u64; RECORDS];
    let mut place_slots = [0u32; RECORDS];
    let numbers = read_numbers(body, 1, &mut number_slots);
    let places = read_numbers(body, 2, &mut place_slots);
    covenant::covenant_decode(part(body, 0), numbers, places, part(body, 3), code)
}

// One of three alike: `cases::knows` says why they are no function of the call.
pub fn agrees(body: &[u8]) -> bool
    ensures { result ≡ decode_agrees body.now }
{
    let mut code: [u8; ROOM] = filled(FILL);
    let known = part(body, 4);
    let room = nth::<u64>(known, 0) as usize;
    if ROOM < room {
        return false;
    }
    let answer = call(body, &mut code[..room]);
    let numbers = [
        room as u64,
        answer.number as u64,
        answer.place,
        answer.code_bytes,
        answer.start,
    ];
    knows(known, &numbers, &code, part(body, 5))
}
