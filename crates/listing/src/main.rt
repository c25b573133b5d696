// Prints the sheet of the condition code on standard input, which is raw bytes: a line feed at the end is part of the code.
#![tactic(auto)]

ghost use Rattle.std.specs.Prelude.{◌≡◌, ◌<◌, length, OnOk, IfSome};
ghost use Rattle.std.specs.Io.KnownBytes.{Appends};
ghost use Rattle.semantics.specs.Code.{max_code};
ghost use Rattle.sheet.specs.Sheet.{sheet};
ghost use Rattle.listing.specs.Read.{Read, Taken};

use semantics::MAX_CODE;
use sheet::MAX_SHEET;
use std::io;
use std::process::ExitCode;

// One byte more than code may have: what is longer has the same sheet, so that no more of it is read.
const ROOM: usize = MAX_CODE + 1;

// Which of the two streams failed, and how.
#[derive(Drop)]
enum Failure {
    Input(io::Error),
    Output(io::Error),
}

// Reads until the input ends or the buffer is full; how many bytes it read.
fn read_input<R: io::Read>(input: &mut R, code: &mut [u8]) -> io::Result<usize>
    requires { max_code < length code.old }
    ensures read { Read result code.new }
    ensures taken { Taken (R.remaining input.old) (R.remaining input.new) result code.new }
{
    let mut n = 0;
    // only the reader says how far a read comes
    while n < code.len() {
        let more = input.read(&mut code[n..])?;
        if more == 0 {
            return Ok(n);
        }
        n += more;
    }
    Ok(n)
}

// Writes the sheet of code. It takes the code so that the contract can say that these bytes are its sheet.
fn print<W: io::Write>(out: &mut W, code: &[u8], bytes: &[u8]) -> io::Result<()>
    requires { bytes.now ≡ sheet code.now }
    ensures { OnOk result (Appends (W.contents out.old) (W.contents out.new) (sheet code.now)) }
{
    out.write_all(bytes)
}

fn list<W: io::Write>(out: &mut W, code: &[u8]) -> io::Result<()>
    ensures { OnOk result (Appends (W.contents out.old) (W.contents out.new) (sheet code.now)) }
{
    let mut bytes = [0; MAX_SHEET];
    let n = sheet::write_sheet(code, &mut bytes);
    print(out, code, &bytes[..n])
}

// Writes the sheet of all that the input has, however much of it is left unread.
fn list_input<R: io::Read, W: io::Write>(input: &mut R, out: &mut W) -> Result<(), Failure>
    ensures { OnOk result (IfSome (R.remaining input.old) (λ code. Appends (W.contents out.old) (W.contents out.new) (sheet code))) }
{
    let mut code = [0; ROOM];
    let n = read_input(input, &mut code).map_err(Failure::Input)?;
    list(out, &code[..n]).map_err(Failure::Output)
}

// Says on standard error which stream failed, and how. Where that can't be written either, the exit status alone tells.
fn failed(rt: &impl Eprint, stream: &str, error: io::Error) -> ExitCode {
    let _ = eprintln!(rt; "{stream}: {error}");
    ExitCode::FAILURE
}

fn main(rt: HostRuntime) -> ExitCode {
    match list_input(&mut rt.stdin(), &mut rt.stdout()) {
        Ok(()) => ExitCode::SUCCESS,
        Err(Failure::Input(error)) => failed(&rt, "standard input", error),
        Err(Failure::Output(error)) => failed(&rt, "standard output", error),
    }
}
