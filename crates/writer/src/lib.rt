// Write: condition code to token records. One pass over the commands marks those after which a ScriptNumToLe64 stands, where there are lookups, a second one finds
// the keys, where there are oracle terminals, and a third one writes the records.
#![tactic(auto)]

ghost use Rattle.std.specs.Prelude.{Ok, ◌&&◌, ◌≡◌, ◌≤◌, leb, length};
ghost use Rattle.semantics.specs.Records.{records_of};
ghost use Rattle.semantics.specs.Write.{wrote};
ghost use Rattle.semantics.specs.Code.{max_tokens};
ghost use Rattle.condition.specs.Walk.{examined};
ghost use Rattle.conversions.specs.Marks.{Unmarked};

use semantics::{MAX_TOKENS, Refusal, Written};
use summary::Summary;

// Conditions of so few tokens are written with smaller arrays, which take less time to make.
const FEW_TOKENS: usize = 32;

const SOME_TOKENS: usize = 256;

// Whether there is room for so many records and key bytes in buffers of these lengths.
fn has_room(
    tokens: usize,
    key_bytes: usize,
    kinds: usize,
    numbers: usize,
    places: usize,
    keys: usize,
) -> bool
    ensures { result ≡ (leb tokens kinds && leb tokens numbers && leb tokens places && leb key_bytes keys) }
{
    tokens <= kinds && tokens <= numbers && tokens <= places && key_bytes <= keys
}

// Refusals 6 and 7, then the records and keys, of a condition that Check let pass with this summary; the arrays have room for as many as it has tokens, and no mark is set. `noted`
// has the index operands that wait, and then, when they are done with, where the keys stand in the code.
fn write_with(
    code: &[u8],
    s: Summary,
    kinds: &mut [u8],
    numbers: &mut [u64],
    places: &mut [u32],
    keys: &mut [u8],
    noted: &mut [u16],
    marks: &mut [bool],
) -> Result<Written, Refusal>
    requires { (examined code.now ≡ Ok s) × (s.tokens ≤ length noted.old) × (s.tokens ≤ length marks.old) × Unmarked marks.old }
    ensures { record { answer = result; records = records_of kinds.new numbers.new places.new keys.new } ≡ wrote code.now (records_of kinds.old numbers.old places.old keys.old) }
{
    conversions::mark(code, s.lookups, noted, marks)?;
    let count = keys::find_keys(code, s.oracles, noted);
    let positions = &noted[..count];
    let tokens = s.tokens as usize;
    let key_bytes = 32 * positions.len();
    if !has_room(
        tokens,
        key_bytes,
        kinds.len(),
        numbers.len(),
        places.len(),
        keys.len(),
    ) {
        return Err(Refusal::BufferTooShort);
    }
    token_form::write_records(code, marks, positions, kinds, numbers, places);
    keys::write_keys(code, positions, keys);
    Ok(Written {
        records: tokens,
        key_bytes,
    })
}

// The same, with arrays of N elements for the marks and for what is noted of the commands.
fn write_within<const N: usize>(
    code: &[u8],
    s: Summary,
    kinds: &mut [u8],
    numbers: &mut [u64],
    places: &mut [u32],
    keys: &mut [u8],
) -> Result<Written, Refusal>
    requires { (examined code.now ≡ Ok s) × (s.tokens ≤ N) × (N ≤ max_tokens) }
    ensures { record { answer = result; records = records_of kinds.new numbers.new places.new keys.new } ≡ wrote code.now (records_of kinds.old numbers.old places.old keys.old) }
{
    let mut noted = [0; N];
    let mut marks = [false; N];
    write_with(
        code, s, kinds, numbers, places, keys, &mut noted, &mut marks,
    )
}

// Writes the token form of a condition, with its keys at the front of the keys, each once, in the order of the first token that names it; or gives the first of
// the refusals 1 to 5, 6, 7, and writes nothing.
#[tactic(auto, using(crate::proofs::Answers::refused_first, crate::proofs::Answers::few_tokens))]
pub fn write(
    code: &[u8],
    kinds: &mut [u8],
    numbers: &mut [u64],
    places: &mut [u32],
    keys: &mut [u8],
) -> Result<Written, Refusal>
    ensures { record { answer = result; records = records_of kinds.new numbers.new places.new keys.new } ≡ wrote code.now (records_of kinds.old numbers.old places.old keys.old) }
{
    let s = condition::examine(code)?;
    let tokens = s.tokens as usize;
    if tokens <= FEW_TOKENS {
        return write_within::<FEW_TOKENS>(code, s, kinds, numbers, places, keys);
    }
    if tokens <= SOME_TOKENS {
        return write_within::<SOME_TOKENS>(code, s, kinds, numbers, places, keys);
    }
    write_within::<MAX_TOKENS>(code, s, kinds, numbers, places, keys)
}
