// Which token record is unsound.
ghost use Rattle.std.specs.Prelude.{◌≡◌};
ghost use Rattle.semantics.specs.Records.{unsound};
ghost use Rattle.emission.specs.Pieces.{records_in};
ghost use Rattle.decoder.specs.Sound.{fields_sound, scanned};

use emission::TokenColumns;
use token_table::TokenKind;

// A Num holds less: 2^32.
const NUM_LIMIT: u64 = 4294967296;

const KEY_BYTES: usize = 32;

// Whether a record's fields are sound, with so many key bytes.
fn fields_sound(kind: u8, number: u64, place: u32, keys: usize) -> bool
    ensures { result ≡ fields_sound kind number place keys }
{
    match TokenKind::try_from(kind) {
        Ok(TokenKind::Num) => number < NUM_LIMIT,
        Ok(TokenKind::Bytes32) => place as usize + KEY_BYTES <= keys,
        Ok(_) => true,
        Err(_) => false,
    }
}

// The first unsound record; one whose number or place is not lent is unsound.
pub fn scan(columns: &TokenColumns) -> Result<(), usize>
    ensures { result ≡ scanned (unsound (records_in columns.now)) }
{
    let TokenColumns {
        kinds,
        numbers,
        places,
        keys,
    } = columns;
    let paired = kinds.len().min(numbers.len()).min(places.len());
    for i in 0..paired {
        if !fields_sound(kinds[i], numbers[i], places[i], keys.len()) {
            return Err(i);
        }
    }
    if paired < kinds.len() {
        return Err(paired);
    }
    Ok(())
}
