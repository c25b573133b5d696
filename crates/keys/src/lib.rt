// The keys of a condition: where each stands in its code, equal keys once, in the order of the first command that names them. A key's place in the key buffer
// follows from its number among them.
#![tactic(auto)]

ghost use Rattle.std.specs.Prelude.{cond, ◌≡◌, ◌+◌, ◌*◌, ◌≤◌, ◌<◌, ◌^◌, eqb, length, take};
ghost use Rattle.slices.specs.Bytes.{over};
ghost use Rattle.condition.specs.Walk.{Passed};
ghost use Rattle.semantics.specs.FromTokens.{same_bytes};
ghost use Rattle.semantics.specs.Write.{index_of, joined};
ghost use Rattle.keys.specs.Keys.{Inside, KeysFound, OneMore, code_keys, key_at, keys_at, place_among};

const KEY_BYTES: usize = 32;

// The operands of an oracle terminal, which alone has a key: the key, and a time.
const KEY_AND_TIME_BYTES: usize = 40;

// Whether the keys at two positions are the same; eight bytes at a time, which takes less than half of the instructions of comparing two slices.
fn is_same_key(code: &[u8], a: usize, b: usize) -> bool
    requires { (a + 32 ≤ length code.now) × (b + 32 ≤ length code.now) }
    ensures { result ≡ same_bytes (key_at code.now a) (key_at code.now b) }
{
    for i in 0..KEY_BYTES / 8 {
        if slices::read_le64(code, a + 8 * i) != slices::read_le64(code, b + 8 * i) {
            return false;
        }
    }
    true
}

// Which of the keys at these positions is the key at `at`. It stays out of the loops over the commands, most of which have no key: they need the registers.
#[inline(never)]
fn find_key(code: &[u8], at: usize, positions: &[u16]) -> Option<usize>
    requires { (at + 32 ≤ length code.now) × Inside code.now positions.now }
    ensures { result ≡ place_among (key_at code.now at) (keys_at code.now positions.now) }
{
    for (j, &position) in positions.iter().enumerate() {
        if is_same_key(code, position as usize, at) {
            return Some(j);
        }
    }
    None
}

// Notes where the key of a command stands, which has so many operand bytes at `at`, unless the key is noted already: `count` of the positions are. The answer is the number of
// keys noted.
fn note_key(width: usize, code: &[u8], at: usize, positions: &mut [u16], count: usize) -> usize
    requires { (at + width ≤ length code.now) × (length code.now < 2 ^ 16) × (count < length positions.old) × Inside code.now (take count positions.old) }
    ensures { OneMore code.now width at positions.old count positions.new result }
{
    if width != KEY_AND_TIME_BYTES {
        return count;
    }
    if find_key(code, at, &positions[..count]).is_some() {
        return count;
    }
    positions[count] = at as u16;
    count + 1
}

// Notes where the keys of a condition with so many oracle terminals stand in its code; without any there is nothing to look for. The answer is the number of keys
// noted, at the front of the positions; it is no slice of them, since a caller would then not know what was noted once the slice is gone.
pub fn find_keys(code: &[u8], oracles: usize, positions: &mut [u16]) -> usize
    requires { Passed code.now (λ s. s.tokens ≤ length positions.old) × (length code.now < 2 ^ 16) × (length (code_keys code.now) ≤ oracles) }
    ensures there { result ≤ length positions.new }
    ensures found { KeysFound code.now (take result positions.new) }
{
    if oracles == 0 {
        return 0;
    }
    let mut at = 0;
    let mut count = 0;
    // each command says itself where the next one stands
    while at < code.len() {
        let here = commands::next(code, at);
        let width = here.next - here.operands;
        count = note_key(width, code, here.operands, positions, count);
        at = here.next;
    }
    count
}

// The place of the key of a command, which has so many operand bytes at `at`, among the keys at these positions; 0 where it has none.
pub fn place_of(width: usize, code: &[u8], at: usize, positions: &[u16]) -> u32
    requires { (at + width ≤ length code.now) × (length positions.now < 2 ^ 16) × Inside code.now positions.now }
    ensures { result ≡ cond (eqb width 40) (32 * index_of (key_at code.now at) (keys_at code.now positions.now)) 0 }
{
    if width != KEY_AND_TIME_BYTES {
        return 0;
    }
    let found = find_key(code, at, positions);
    (KEY_BYTES * found.unwrap_or(positions.len())) as u32
}

// The keys at these positions, one after the other. They go by places: of what is written through `chunks_exact_mut` nothing is known after the loop.
pub fn write_keys(code: &[u8], positions: &[u16], keys: &mut [u8])
    requires { Inside code.now positions.now × (32 * length positions.now ≤ length keys.old) }
    ensures { keys.new ≡ over (joined (keys_at code.now positions.now)) keys.old }
{
    for (j, &position) in positions.iter().enumerate() {
        slices::copy(code, position as usize, keys, KEY_BYTES * j, KEY_BYTES);
    }
}
