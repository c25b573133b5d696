// Replays the cases of data/cases: makes each call at the unit's boundary, and compares every number, datum, count and byte with the known answer. It stops at
// the first case that differs.
#![tactic(auto)]

ghost use Rattle.std.specs.Prelude.{IfSome, slice_index};
ghost use Rattle.std.specs.Io.{ReadsAtMost};
ghost use Rattle.vectors.specs.Agreement.{Decodes, Replayed, agreed, number_of};

use anyhow::{Context, Result};
use cases::nth;
use std::{fmt, fs, io};

// The most bytes that a case may have.
const ROOM: usize = 65536;

// The call that a case is of.
#[derive(Clone, Copy)]
enum Call {
    Check,
    Evaluate,
    Write,
    Decode,
    WriteScript,
}

const CALLS: [Call; 5] = [
    Call::Check,
    Call::Evaluate,
    Call::Write,
    Call::Decode,
    Call::WriteScript,
];

// A number that is no call's.
#[derive(Clone, Copy)]
struct UnknownCall(u8);

impl Call {
    fn agrees(self, body: &[u8]) -> bool
        ensures { Replayed (number_of self) body.now result }
    {
        match self {
            Call::Check => condition_cases::check::agrees(body),
            Call::Evaluate => condition_cases::evaluate::agrees(body),
            Call::Write => token_cases::write::agrees(body),
            Call::Decode => token_cases::decode::agrees(body),
            Call::WriteScript => token_cases::write_script::agrees(body),
        }
    }
}

impl TryFrom<u8> for Call {
    type Error = UnknownCall;

    ghost try_from_gives = { Decodes };

    fn try_from(number: u8) -> std::result::Result<Self, UnknownCall> {
        match number {
            1 => Ok(Call::Check),
            2 => Ok(Call::Evaluate),
            3 => Ok(Call::Write),
            4 => Ok(Call::Decode),
            5 => Ok(Call::WriteScript),
            _ => Err(UnknownCall(number)),
        }
    }
}

impl fmt::Display for Call {
    fn fmt<W: fmt::Write>(&self, f: &mut fmt::Formatter<W>) -> fmt::Result {
        f.pad(match self {
            Call::Check => "Check",
            Call::Evaluate => "Evaluate",
            Call::Write => "Write",
            Call::Decode => "Decode",
            Call::WriteScript => "Script",
        })
    }
}

impl fmt::Display for UnknownCall {
    fn fmt<W: fmt::Write>(&self, f: &mut fmt::Formatter<W>) -> fmt::Result {
        f.pad("no call")
    }
}

// What came of a case.
#[derive(Clone, Copy)]
enum Outcome {
    Agrees(Call),
    Differs(Call),
    Unknown(UnknownCall),
}

// How many cases of each call were replayed.
#[derive(Drop)]
struct Tally([u64; 5]);

impl Tally {
    // One more; how many there are then.
    fn count(&mut self, call: Call) -> u64 {
        let place = call as usize;
        self.0[place] = self.0[place].wrapping_add(1);
        self.0[place]
    }
}

// Reads until the buffer is full or the file ends; how many bytes it read. Only the file says how far a read comes, so that no iterator counts them.
fn read_full(file: &mut impl io::Read, bytes: &mut [u8]) -> io::Result<usize>
    ensures { ReadsAtMost result bytes.new }
{
    let mut n = 0;
    while n < bytes.len() {
        let more = file.read(&mut bytes[n..])?;
        if more == 0 {
            return Ok(n);
        }
        n += more;
    }
    Ok(n)
}

// A case begins with the number of its call; there is none in no bytes.
fn replay(body: &[u8]) -> Option<Outcome>
    ensures { IfSome result (λ o. Replayed (slice_index body.now 0) body.now (agreed o)) }
{
    let number = *body.first()?;
    Some(match Call::try_from(number) {
        Ok(call) if call.agrees(body) => Outcome::Agrees(call),
        Ok(call) => Outcome::Differs(call),
        Err(unknown) => Outcome::Unknown(unknown),
    })
}

// The next case, of which the file has the length first; none where the file ends, or where there is no room.
fn next(file: &mut impl io::Read, room: &mut [u8]) -> io::Result<Option<Outcome>> {
    let mut head = [0u8; 4];
    if read_full(file, &mut head)? != 4 {
        return Ok(None);
    }
    let n = nth::<u32>(&head, 0) as usize;
    let Some(body) = room.get_mut(..n) else {
        return Ok(None);
    };
    if read_full(file, body)? != n {
        return Ok(None);
    }
    Ok(replay(body))
}

// Replays all cases, or those up to one that differs. Nothing says that a file ends, so the turns are counted.
fn turns(rt: &impl Print, file: &mut impl io::Read, tally: &mut Tally) -> io::Result<()> {
    let mut body = [0u8; ROOM];
    for _ in 0..u64::MAX {
        match next(file, &mut body)? {
            Some(Outcome::Agrees(call)) => {
                tally.count(call);
            }
            Some(Outcome::Differs(call)) => {
                let n = tally.count(call);
                return println!(rt; "{call:<9} case {n} differs");
            }
            Some(Outcome::Unknown(call)) => {
                // of the numbers that are no call only 0 is counted
                let n = u8::from(call.0 == 0);
                return println!(rt; "{call:<9} case {n} differs");
            }
            None => {
                return Ok(());
            }
        }
    }
    Ok(())
}

fn main(rt: HostRuntime) -> Result<()> {
    let mut file = fs::open(&rt, "cases").context("cases")?;
    let mut tally = Tally([0; 5]);
    turns(&rt, &mut file, &mut tally)?;
    for (call, n) in CALLS.iter().zip(tally.0.iter()) {
        println!(rt; "{call:<8} {n} cases agree")?;
    }
    Ok(())
}
