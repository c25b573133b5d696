// Cases of Write.
ghost use Rattle.std.specs.Prelude.{◌≡◌};
ghost use Rattle.answers.specs.Answers.{write_answer};
ghost use Rattle.semantics.specs.Records.{records_of};
ghost use Rattle.semantics.specs.Write.{wrote};
ghost use Rattle.cases.specs.Cases.{part_of};
ghost use Rattle.token_cases.specs.Writing.{answer_known, back, front, records_known, write_agrees};

use answers::WriteAnswer;
use cases::{FILL, at_most, begins_with, filled, holds, holds_numbers, nth, part};

const RECORDS: usize = 1100;

const KEYS: usize = 4096;

// What the buffers of numbers and of places are filled with before the call, in the type of each.
const FILL_WORD: u64 = 0xa5a5;

const FILL_PLACE: u32 = 0xa5a5;

// The call, with the rooms of the case lent.
fn call(
    body: &[u8],
    kinds: &mut [u8],
    numbers: &mut [u64],
    places: &mut [u32],
    keys: &mut [u8],
) -> WriteAnswer
    ensures value { result ≡ write_answer (wrote (part_of body.now 0) (front (part_of body.now 1) (records_of kinds.old numbers.old places.old keys.old))).answer }
    ensures keys_after { records_of kinds.new numbers.new places.new keys.new ≡ back (part_of body.now 1) (wrote (part_of body.now 0) (front (part_of body.now 1) (records_of kinds.old numbers.old places.old keys.old))).records (records_of kinds.old numbers.old places.old keys.old) }
{
    let known = part(body, 1);
    let kind_room = at_most(nth(known, 0), kinds.len());
    let number_room = at_most(nth(known, 1), numbers.len());
    let place_room = at_most(nth(known, 2), places.len());
    let key_room = at_most(nth(known, 3), keys.len());
    covenant::covenant_write(
        part(body, 0),
        &mut kinds[..kind_room],
        &mut numbers[..number_room],
        &mut places[..place_room],
        &mut keys[..key_room],
    )
}

// Whether the answer is the known one, after the four numbers that say what there is room for.
fn is_known(known: &[u8], a: WriteAnswer) -> bool
    ensures { result ≡ answer_known known.now a }
{
    let numbers = [
        nth(known, 0),
        nth(known, 1),
        nth(known, 2),
        nth(known, 3),
        a.number as u64,
        a.place,
        a.records,
        a.key_bytes,
    ];
    begins_with(known, &numbers)
}

// Whether all that the call left is known, in the four slices that it is lent.
fn all_known(
    body: &[u8],
    a: WriteAnswer,
    kinds: &[u8],
    numbers: &[u64],
    places: &[u32],
    keys: &[u8],
) -> bool
    ensures { result ≡ records_known body.now a (records_of kinds.now numbers.now places.now keys.now) }
{
    is_known(part(body, 1), a)
        && holds(kinds, part(body, 2), FILL)
        && holds_numbers(numbers, part(body, 3), FILL_WORD)
        && holds_numbers(places, part(body, 4), FILL_PLACE)
        && holds(keys, part(body, 5), FILL)
}

pub fn agrees(body: &[u8]) -> bool
    ensures { result ≡ write_agrees body.now }
{
    let mut kinds: [u8; RECORDS] = filled(FILL);
    let mut numbers: [u64; RECORDS] = filled(FILL_WORD);
    let mut places: [u32; RECORDS] = filled(FILL_PLACE);
    let mut keys: [u8; KEYS] = filled(FILL);
    let answer = call(body, &mut kinds, &mut numbers, &mut places, &mut keys);
    all_known(body, answer, &kinds, &numbers, &places, &keys)
}
