// A case as it stands in the file (tests/vectors/generate.py says how), and whether what a call left is what the case knows.
#![tactic(auto)]

ghost use Rattle.std.specs.Prelude.{ℕ, ◌&&◌, ◌*◌, ◌<◌, ◌≡◌, min, length, take};
ghost use Rattle.std.specs.List.{list_all};
ghost use Rattle.std.proofs.Common.{rules};
ghost use Rattle.cases.specs.Cases.{array_at, bytes_between, end_of, number_at, part_of, start_of, whole_by};
ghost use Rattle.cases.specs.Known.{begins, begins_by, fill, fresh, held, held_by};

// What a buffer of bytes is filled with before a call.
pub const FILL: u8 = 0xa5;

// The bytes from a place on, as an array; zeros where they do not stand there.
#[tactic(auto, using(crate::proofs::Reading::array_got, crate::proofs::Reading::array_past))]
fn array_at<const N: usize>(s: &[u8], at: usize) -> [u8; N]
    ensures { result ≡ array_at N s.now at }
{
    let Some(rest) = s.get(at..) else {
        return [0; N];
    };
    match rest.first_chunk() {
        Some(bytes) => *bytes,
        None => [0; N],
    }
}

// A number that parts hold, the lowest byte first.
pub trait Number: Copy + PartialEq {
    ghost SIZE: { ℕ };

    // What stands for a number among the values of the type.
    ghost of: { ℕ → Self };

    // How many bytes it has.
    const SIZE: usize;

    // The one that stands at a place; 0 where its bytes do not stand there.
    fn read(bytes: &[u8], at: usize) -> Self
        ensures { result ≡ of (number_at SIZE bytes.now at) };

    ghost not_empty: { 0 < SIZE };
}

impl Number for u32 {
    ghost SIZE = { 4 };

    ghost of = { λ n. n };

    const SIZE: usize = 4;

    #[tactic(auto, using(crate::proofs::Reading::read_is))]
    fn read(bytes: &[u8], at: usize) -> u32 {
        u32::from_le_bytes(array_at(bytes, at))
    }

    ghost not_empty = { Prim.search rules };
}

impl Number for u64 {
    ghost SIZE = { 8 };

    ghost of = { λ n. n };

    const SIZE: usize = 8;

    #[tactic(auto, using(crate::proofs::Reading::read_is))]
    fn read(bytes: &[u8], at: usize) -> u64 {
        u64::from_le_bytes(array_at(bytes, at))
    }

    ghost not_empty = { Prim.search rules };
}

// An array before a call, the same number throughout.
pub fn filled<T: Copy, const N: usize>(fill: T) -> [T; N]
    ensures { result ≡ fresh N fill }
{
    [fill; N]
}

// Where the k-th part begins: the first after the ends, each other where the one before it ends.
fn start(body: &[u8], k: usize) -> usize
    ensures { result ≡ start_of body.now k }
{
    if 0 < k {
        return end(body, k - 1);
    }
    match body.get(1) {
        Some(parts) => 2 + 4 * usize::from(*parts),
        None => 2,
    }
}

fn end(body: &[u8], k: usize) -> usize
    ensures { result ≡ end_of body.now k }
{
    if k < body.len() / 4 {
        return u32::read(body, 2 + 4 * k) as usize;
    }
    0
}

// The bytes from one place to another; none where they do not stand there.
pub fn between(body: &[u8], from: usize, to: usize) -> &[u8]
    ensures { result.now ≡ bytes_between body.now from to }
{
    body.get(from..to).unwrap_or(&[])
}

// The k-th part.
pub fn part(body: &[u8], k: usize) -> &[u8]
    ensures { result.now ≡ part_of body.now k }
{
    between(body, start(body, k), end(body, k))
}

// The i-th number of a part; 0 past the last.
pub fn nth<T: Number>(part: &[u8], i: usize) -> T
    ensures { result ≡ T.of (number_at T.SIZE part.now (T.SIZE * i)) }
{
    T::read(part, i.checked_mul(T::SIZE).unwrap_or(part.len()))
}

// A count of a case, cut to what there is room for.
pub fn at_most(n: u64, room: usize) -> usize
    ensures { result ≡ min n room }
{
    room.min(n as usize)
}

// The numbers of the k-th part, as many as `out` has room for; they stand at its front then.
pub fn read_numbers<'a, 'b, T: Number>(body: &'b [u8], k: usize, out: &'a mut [T]) -> &'a mut [T]
    ensures { result.now ≡ take (length out.old) (whole_by T.of T.SIZE (part_of body.now k)) }
{
    let part = part(body, k);
    let count = out.len().min(part.len() / T::SIZE);
    for (i, number) in out[..count].iter_mut().enumerate() {
        *number = nth(part, i);
    }
    &mut out[..count]
}

// Whether a part begins with the numbers.
pub fn begins_with<T: Number>(part: &[u8], numbers: &[T]) -> bool
    ensures { result ≡ begins_by T.eq T.of T.SIZE part.now numbers.now }
{
    for (i, n) in numbers.iter().enumerate() {
        if *n != nth(part, i) {
            return false;
        }
    }
    true
}

// Whether all of a buffer's rest is what it was filled with.
fn is_filled<T: Copy + PartialEq>(rest: &[T], fill: T) -> bool
    ensures { result ≡ list_all (λ x. T.eq x fill) rest.now }
{
    rest.iter().all(|x| *x == fill)
}

// Whether a buffer holds the bytes, and after them what it was filled with.
pub fn holds(buffer: &[u8], bytes: &[u8], fill: u8) -> bool
    ensures { result ≡ held fill bytes.now buffer.now }
{
    match buffer.strip_prefix(bytes) {
        Some(rest) => is_filled(rest, fill),
        None => false,
    }
}

// The same of numbers: whether a buffer holds those of a part, and after them what it was filled with.
pub fn holds_numbers<T: Number>(buffer: &[T], part: &[u8], fill: T) -> bool
    ensures { result ≡ held_by T.eq fill (whole_by T.of T.SIZE part.now) buffer.now }
{
    match buffer.split_at_checked(part.len() / T::SIZE) {
        Some((numbers, rest)) => begins_with(part, numbers) && is_filled(rest, fill),
        None => false,
    }
}

// Whether an answer's numbers are those that a part begins with, and a buffer holds the bytes, and after them what it was filled with. The cases of three calls
// end with this; what comes before differs in the call's own parts, answer and contract, which a function of a closure would have to be told.
pub fn knows(part: &[u8], numbers: &[u64], buffer: &[u8], bytes: &[u8]) -> bool
    ensures { result ≡ (begins part.now numbers.now && held fill bytes.now buffer.now) }
{
    begins_with(part, numbers) && holds(buffer, bytes, FILL)
}
