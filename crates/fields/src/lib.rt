// Write and Decode where the fields of token records stand in slices of numbers: what they answer is said of the records. The slices are no struct, as those of
// `token_form::write_records`.
#![tactic(auto)]

ghost use Rattle.std.specs.Prelude.{◌≡◌, List, ◌≤◌, length};
ghost use Rattle.semantics.specs.Code.{max_tokens};
ghost use Rattle.records.specs.declared.TokenRecord.{TokenRecord};
ghost use Rattle.fields.specs.TokenRecords.{DecodesRecords, Loaded, WritesFields, loadable, writable};

use answers::{DecodeAnswer, WriteAnswer, decode_answer, write_answer};
use semantics::{MAX_TOKENS, Refusal};

// All of so many records, or none where refusal 10 falls.
#[tactic(auto, using(crate::proofs::Loaded::loadable_all, crate::proofs::Loaded::loadable_none))]
pub fn to_load(count: usize) -> usize
    ensures { result ≡ loadable count }
{
    if count <= MAX_TOKENS { count } else { 0 }
}

// Decode, where the fields of the loaded ones of so many records stand at the front of the slices.
pub fn decode_loaded(
    kinds: &[u8],
    numbers: &[u64],
    places: &[u32],
    count: usize,
    keys: &[u8],
    code: &mut [u8],
) -> DecodeAnswer
    requires { (loadable count ≤ length kinds.now) × (loadable count ≤ length numbers.now) × (loadable count ≤ length places.now) }
    ensures { (rs : List TokenRecord) → length rs ≡ count → Loaded rs kinds.now numbers.now places.now → DecodesRecords rs keys.now code.old code.new result }
{
    if MAX_TOKENS < count {
        return decode_answer(Err(Refusal::TooManyRecords));
    }
    decode_answer(decoder::decode(
        &kinds[..count],
        &numbers[..count],
        &places[..count],
        keys,
        code,
    ))
}

// Of so many records those that a form can reach.
#[tactic(auto, using(crate::proofs::Loaded::writable_min))]
fn to_write(count: usize) -> usize
    ensures { result ≡ writable count }
{
    count.min(MAX_TOKENS)
}

// Write, for so many records: their fields stand at the front of the slices then.
pub fn write_fields(
    code: &[u8],
    count: usize,
    kinds: &mut [u8],
    numbers: &mut [u64],
    places: &mut [u32],
    keys: &mut [u8],
) -> WriteAnswer
    requires { (max_tokens ≤ length kinds.old) × (max_tokens ≤ length numbers.old) × (max_tokens ≤ length places.old) }
    ensures { WritesFields code.now count kinds.new numbers.new places.new keys.old keys.new result }
{
    let n = to_write(count);
    write_answer(writer::write(
        code,
        &mut kinds[..n],
        &mut numbers[..n],
        &mut places[..n],
        keys,
    ))
}
