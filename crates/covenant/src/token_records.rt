// Write and Decode over a slice of token records: the fields of the records go through arrays of numbers.
ghost use Rattle.fields.specs.TokenRecords.{DecodesRecords, WritesRecords};

use answers::{DecodeAnswer, WriteAnswer};
use records::{TokenRecord, load, store};
use semantics::MAX_TOKENS;

// Decode over records: `records` and `keys` are only read, and `code` is written as `covenant_decode` writes it. Refusals 10, 9, 7, then 4, 5 or 11.
pub fn covenant_decode_records(
    records: &[TokenRecord],
    keys: &[u8],
    code: &mut [u8],
) -> DecodeAnswer
    ensures { DecodesRecords records.now keys.now code.old code.new result }
{
    let count = records.len();
    let n = fields::to_load(count);
    let mut kinds = [0u8; MAX_TOKENS];
    let mut numbers = [0u64; MAX_TOKENS];
    let mut places = [0u32; MAX_TOKENS];
    load(records, n, &mut kinds, &mut numbers, &mut places);
    fields::decode_loaded(&kinds, &numbers, &places, count, keys, code)
}

// Write over records: `code` is only read; the records reported are written at the front of `records`, and their keys as `covenant_write` writes them. Refusals 1 to 5, 6, 7.
pub fn covenant_write_records(
    code: &[u8],
    records: &mut [TokenRecord],
    keys: &mut [u8],
) -> WriteAnswer
    ensures { WritesRecords code.now records.old records.new keys.old keys.new result }
{
    let mut kinds = [0u8; MAX_TOKENS];
    let mut numbers = [0u64; MAX_TOKENS];
    let mut places = [0u32; MAX_TOKENS];
    let answer = fields::write_fields(
        code,
        records.len(),
        &mut kinds,
        &mut numbers,
        &mut places,
        keys,
    );
    let n = answer.records as usize;
    store(records, n, &kinds, &numbers, &places);
    answer
}
