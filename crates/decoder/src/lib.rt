// Decode: the condition code of which the last token records are the token form. The row before each place is noted; the readers find where the form begins; then its oracle rule and length are
// judged, and it is written straight into the lent buffer.
#![tactic(auto)]

ghost use Rattle.std.specs.Prelude.{◌≡◌};
ghost use Rattle.semantics.specs.Decode.{decode, decoded, decoded_as};
ghost use Rattle.semantics.specs.Meaning.{CallAccepts, CallToldApart, CallUnambiguous, decoded_number};
ghost use Rattle.semantics.specs.Records.{records_of, tokens};
ghost use Rattle.emission.specs.Pieces.{records_in};
ghost use Rattle.decoder.specs.Sound.{Lent, Ready};

use crate::soundness::scan;
use emission::{TokenColumns, emit, judge};
use productions::find_rows;
use readers::{Reading, read_condition};
use semantics::{Decoded, MAX_CODE, MAX_TOKENS, Refusal};

mod soundness;

// Decodes up to 1,024 sound records into a buffer that is large enough.
fn decode_sound(columns: &TokenColumns, code: &mut [u8]) -> Result<Decoded, Refusal>
    requires ready { Ready (records_in columns.now) code.old }
    requires lent { Lent (records_in columns.now) }
    ensures { record { answer = result; buffer = code.new } ≡ decoded_as code.old
        (decode (tokens (records_in columns.now))) }
{
    let mut rows = [0u8; MAX_TOKENS];
    find_rows(columns.kinds, columns.numbers, &mut rows);
    let Reading::Read(place) = read_condition(&rows, columns.kinds.len()) else {
        return Err(Refusal::NoCondition);
    };
    let start = place as usize;
    let bytes = judge(columns.kinds, &rows, start)?;
    emit(columns, &rows, start, code, bytes);
    Ok(Decoded { bytes, start })
}

// The condition that token records end with: its code goes to the front of `code`, and nothing else is written there.
#[tactic(auto, using(crate::proofs::Call::decoded_many, crate::proofs::Call::decoded_scan))]
pub fn decode(
    kinds: &[u8],
    numbers: &[u64],
    places: &[u32],
    keys: &[u8],
    code: &mut [u8],
) -> Result<Decoded, Refusal>
    ensures code_after { record { answer = result; buffer = code.new } ≡ decoded
        (records_of kinds.now numbers.now places.now keys.now) code.old }
    ensures call_unambiguous { CallUnambiguous
        (records_of kinds.now numbers.now places.now keys.now)
        code.old (CallAccepts result code.new) }
    ensures call_told_apart { CallToldApart
        (records_of kinds.now numbers.now places.now keys.now)
        code.old (decoded_number result) }
{
    if MAX_TOKENS < kinds.len() {
        return Err(Refusal::TooManyRecords);
    }
    let columns = TokenColumns {
        kinds,
        numbers,
        places,
        keys,
    };
    scan(&columns).map_err(Refusal::TokenUnsound)?;
    if code.len() < MAX_CODE {
        return Err(Refusal::BufferTooShort);
    }
    decode_sound(&columns, code)
}
