// Token records as structs: their fields go into number slices, which the calls work on, and back.
#![tactic(auto)]

ghost use Rattle.std.specs.Prelude.{◌≡◌, ◌++◌, ◌≤◌, length, take, drop};
ghost use Rattle.records.specs.Fields.{kinds_of, numbers_of, places_of, records_from};

// A token: its kind, the number that it carries, and where its key stands in the key bytes.
#[repr(C)]
#[derive(Clone, Copy)]
pub struct TokenRecord {
    pub kind: u8,
    pub number: u64,
    pub place: u32,
}

// The fields of the first n records go to the front of the slices; what lies beyond n is kept.
pub fn load(
    records: &[TokenRecord],
    n: usize,
    kinds: &mut [u8],
    numbers: &mut [u64],
    places: &mut [u32],
)
    requires { (n ≤ length records.now) × (n ≤ length kinds.old) × (n ≤ length numbers.old) × (n ≤ length places.old) }
    ensures { (kinds.new ≡ take n (kinds_of records.now) ++ drop n kinds.old)
        × (numbers.new ≡ take n (numbers_of records.now) ++ drop n numbers.old)
        × (places.new ≡ take n (places_of records.now) ++ drop n places.old) }
{
    for (i, record) in records[..n].iter().enumerate() {
        kinds[i] = record.kind;
        numbers[i] = record.number;
        places[i] = record.place;
    }
}

// The first n records are made of the slices; the records beyond n are kept.
pub fn store(records: &mut [TokenRecord], n: usize, kinds: &[u8], numbers: &[u64], places: &[u32])
    requires { (n ≤ length records.old) × (n ≤ length kinds.now) × (n ≤ length numbers.now) × (n ≤ length places.now) }
    ensures { records.new ≡ take n (records_from kinds.now numbers.now places.now) ++ drop n records.old }
{
    for (k, record) in records[..n].iter_mut().enumerate() {
        // field by field, so that the bytes between the fields are kept
        record.kind = kinds[k];
        record.number = numbers[k];
        record.place = places[k];
    }
}
