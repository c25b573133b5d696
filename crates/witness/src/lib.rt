// The witness: whether its ends are sound, and an oracle terminal, which pops price, time and signature and lists a check.
#![tactic(auto)]

ghost use Rattle.std.specs.Prelude.{true, false, ◌≡◌, List, ◌++◌, ℕ, ◌+◌, ◌*◌, ◌≤◌, length, take, drop, option_map, IfOk, IfErr};
ghost use Rattle.slices.specs.Bytes.{bytes_value};
ghost use Rattle.semantics.specs.declared.Refusal.{Refusal};
ghost use Rattle.semantics.specs.Evaluate.{ends_sound};
ghost use Rattle.semantics.specs.Evaluation.{after_signature, check_bytes, check_size, in_future, oracle, pop};
ghost use Rattle.witness.specs.Elements.{fewer, left_of, start_of, state_of, taken, top_of};
ghost use Rattle.witness.specs.Oracle.{Asks, Gives, priced};

use semantics::Refusal;

// The parts of a check: the terminal's key, and time, price and signature of the witness.
const KEY_BYTES: usize = 32;

const NUMBER_BYTES: usize = 8;

const SIGNATURE_BYTES: usize = 64;

const PRICE_AT: usize = KEY_BYTES + NUMBER_BYTES;

const SIGNATURE_AT: usize = PRICE_AT + NUMBER_BYTES;

pub const CHECK_BYTES: usize = SIGNATURE_AT + SIGNATURE_BYTES;

// The lent witness: its bytes, and where each of its elements ends, the bottom one first.
#[derive(Clone, Copy)]
pub struct Witness<'a> {
    pub bytes: &'a [u8],
    pub ends: &'a [u32],
    pub ghost sound: { ends_sound 0 (length bytes.now) ends.now ≡ true },
}

// How far an evaluation is with its witness: how many elements are left, and how many checks are listed. One record is lent to every oracle terminal, and popped in place.
#[derive(Clone, Copy)]
pub struct Progress {
    pub left: usize,
    pub checks: usize,
}

// What an oracle terminal pops, in this order.
#[derive(Clone, Copy)]
struct Quote<'a> {
    pub price: &'a [u8],
    pub time: &'a [u8],
    pub signature: &'a [u8],
}

// ---- refusal 12

// Whether no end lies before the one below it, nor after the last byte.
pub fn ends_sound(ends: &[u32], size: usize) -> bool
    ensures { result ≡ ends_sound 0 size ends.now }
{
    let mut last = 0;
    for &end in ends {
        let end = end as usize;
        if end < last || size < end {
            return false;
        }
        last = end;
    }
    true
}

// The witness with these bytes and ends, or its refusal.
pub fn lent<'a>(bytes: &'a [u8], ends: &'a [u32]) -> Result<Witness<'a>, Refusal>
    ensures ok { IfOk result (λ w. (w.bytes.now ≡ bytes.now) × (w.ends.now ≡ ends.now)) }
    ensures err { IfErr result (λ r. (r ≡ Refusal.WitnessUnsound) × (ends_sound 0 (length bytes.now) ends.now ≡ false)) }
{
    if !ends_sound(ends, bytes.len()) {
        return Err(Refusal::WitnessUnsound);
    }
    Ok(Witness { bytes, ends })
}

// ---- popping

// Where element k starts.
fn start_of(ends: &[u32], k: usize) -> usize
    requires { k ≤ length ends.now }
    ensures { result ≡ start_of ends.now k }
{
    if k == 0 { 0 } else { ends[k - 1] as usize }
}

// The top one of n elements.
fn top<'a>(witness: &Witness<'a>, n: usize) -> Option<&'a [u8]>
    requires { n ≤ length witness.now.ends.now }
    ensures { option_map (λ e. e.now) result ≡ top_of (left_of witness.now.bytes.now witness.now.ends.now n) }
{
    let k = n.checked_sub(1)?;
    let start = start_of(witness.ends, k);
    let end = witness.ends[k] as usize;
    Some(&witness.bytes[start..end])
}

// The top element; the lent count of those that are left falls. Every pop is this one.
fn pop<'a>(witness: &Witness<'a>, progress: &mut Progress) -> Option<&'a [u8]>
    requires { progress.old.left ≤ length witness.now.ends.now }
    ensures element { option_map (λ e. e.now) result ≡ top_of (left_of witness.now.bytes.now witness.now.ends.now progress.old.left) }
    ensures progress_after { progress.new ≡ fewer progress.old }
{
    let element = top(witness, progress.left);
    progress.left = progress.left.saturating_sub(1);
    element
}

// The top element, which must have a width.
#[tactic(auto, using(crate::proofs::Left::pops))]
fn take<'a>(
    witness: &Witness<'a>,
    progress: &mut Progress,
    width: usize,
    absent: Refusal,
    wrong: Refusal,
) -> Result<&'a [u8], Refusal>
    requires { progress.old.left ≤ length witness.now.ends.now }
    ensures takes { (out : List ℕ) → pop width absent wrong (state_of witness.now.bytes.now witness.now.ends.now out progress.old.left progress.old.checks) ≡ taken (λ e. e.now) result (state_of witness.now.bytes.now witness.now.ends.now out progress.new.left progress.new.checks) }
    ensures ok { IfOk result (λ e. length e.now ≡ width) }
    ensures progress_after { progress.new ≡ fewer progress.old }
{
    let element = pop(witness, progress).ok_or(absent)?;
    if element.len() != width {
        return Err(wrong);
    }
    Ok(element)
}

// ---- time, check and price

// Whether the witness time is smaller than the terminal's, both signed.
fn in_future(terminal: u64, witness: u64) -> bool
    ensures { result ≡ in_future terminal witness }
{
    word64::signed(witness) < word64::signed(terminal)
}

// Check number n: the terminal's key, and time, price and signature of the witness.
fn list_check(terminal: &[u8], quote: &Quote<'_>, out: &mut [u8], n: usize)
    requires terminal { length terminal.now ≡ 40 }
    requires price { length quote.now.price.now ≡ 8 }
    requires time { length quote.now.time.now ≡ 8 }
    requires signature { length quote.now.signature.now ≡ 64 }
    requires room { check_size * n + check_size ≤ length out.old }
    ensures { out.new ≡ take (check_size * n) out.old ++ check_bytes (take 32 terminal.now) quote.now.time.now quote.now.price.now quote.now.signature.now ++ drop (check_size * n + check_size) out.old }
{
    let off = CHECK_BYTES * n;
    slices::copy(terminal, 0, out, off, KEY_BYTES);
    slices::copy(quote.time, 0, out, off + KEY_BYTES, NUMBER_BYTES);
    slices::copy(quote.price, 0, out, off + PRICE_AT, NUMBER_BYTES);
    slices::copy(quote.signature, 0, out, off + SIGNATURE_AT, SIGNATURE_BYTES);
}

// A price as a value.
fn price_value(price: u64) -> Result<i64, Refusal>
    ensures { result ≡ priced price }
{
    i64::try_from(price).or(Err(Refusal::PriceOverflow))
}

// ---- an oracle terminal, by its key and time

// After its three pops: the time is judged, the check listed, and then the price judged.
fn judge(
    terminal: &[u8],
    quote: &Quote<'_>,
    out: &mut [u8],
    progress: &mut Progress,
) -> Result<i64, Refusal>
    requires terminal { length terminal.now ≡ 40 }
    requires price { length quote.now.price.now ≡ 8 }
    requires time { length quote.now.time.now ≡ 8 }
    requires signature { length quote.now.signature.now ≡ 64 }
    requires room { check_size * progress.old.checks + check_size ≤ length out.old }
    ensures { (witness ends : List ℕ) → Gives (after_signature (take 32 terminal.now) (bytes_value (drop 32 terminal.now)) quote.now.price.now quote.now.time.now quote.now.signature.now) witness ends out.old out.new progress.old result progress.new }
{
    let time = slices::read_le64(terminal, KEY_BYTES);
    if in_future(time, slices::read_le64(quote.time, 0)) {
        return Err(Refusal::TimestampInFuture);
    }
    list_check(terminal, quote, out, progress.checks);
    progress.checks += 1;
    price_value(slices::read_le64(quote.price, 0))
}

// Price, then time, then signature, each judged before the next pop.
pub fn ask(
    terminal: &[u8],
    witness: &Witness<'_>,
    out: &mut [u8],
    progress: &mut Progress,
) -> Result<i64, Refusal>
    requires { Asks terminal.now witness.now.ends.now out.old progress.old }
    ensures { Gives (oracle (take 32 terminal.now) (bytes_value (drop 32 terminal.now))) witness.now.bytes.now witness.now.ends.now out.old out.new progress.old result progress.new }
{
    let price = take(
        witness,
        progress,
        NUMBER_BYTES,
        Refusal::MissingPrice,
        Refusal::Price8BytePush,
    )?;
    let time = take(
        witness,
        progress,
        NUMBER_BYTES,
        Refusal::MissingTimestamp,
        Refusal::Timstamp8BytePush,
    )?;
    let signature = take(
        witness,
        progress,
        SIGNATURE_BYTES,
        Refusal::MissingOracleSignature,
        Refusal::MalformedSig,
    )?;
    let quote = Quote {
        price,
        time,
        signature,
    };
    judge(terminal, &quote, out, progress)
}
