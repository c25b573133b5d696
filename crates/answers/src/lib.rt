// Each call's answer in document 01's numbers: success is 0, and place and data are 0 where none is named.
#![tactic(auto)]

ghost use Rattle.std.specs.Prelude.{◌≡◌};
ghost use Rattle.answers.specs.Answers.{check_answer, decode_answer, script_answer, verdict_answer, write_answer};

use refusals::number_of;
use semantics::{Checked, Decoded, Refusal, Written};

// `covenant_checked`
#[repr(C)]
#[derive(Clone, Copy, Debug, PartialEq, Eq)]
pub struct CheckAnswer {
    pub number: u32,
    pub place: u64,
}

// `covenant_evaluated`
#[repr(C)]
#[derive(Clone, Copy, Debug, PartialEq, Eq)]
pub struct EvaluateAnswer {
    pub number: u32,
    pub verdict: u32,
    pub first: u64,
    pub second: u64,
    pub checks: u64,
    pub left: u64,
}

// `covenant_written`
#[repr(C)]
#[derive(Clone, Copy, Debug, PartialEq, Eq)]
pub struct WriteAnswer {
    pub number: u32,
    pub place: u64,
    pub records: u64,
    pub key_bytes: u64,
}

// `covenant_script_written`
#[repr(C)]
#[derive(Clone, Copy, Debug, PartialEq, Eq)]
pub struct ScriptAnswer {
    pub number: u32,
    pub place: u64,
    pub script_bytes: u64,
}

// `covenant_decoded`
#[repr(C)]
#[derive(Clone, Copy, Debug, PartialEq, Eq)]
pub struct DecodeAnswer {
    pub number: u32,
    pub place: u64,
    pub code_bytes: u64,
    pub start: u64,
}

// Of Check: `place` is the offset of refusal 2.
pub fn check_answer(answer: Result<Checked, Refusal>) -> CheckAnswer
    ensures { result ≡ check_answer answer }
{
    match answer {
        Ok(_) => CheckAnswer {
            number: 0,
            place: 0,
        },
        Err(r) => {
            let refusal = number_of(r);
            CheckAnswer {
                number: refusal.number,
                place: refusal.first,
            }
        }
    }
}

// Of Evaluate: the verdict is 1 or 0, and 0 with a refusal.
pub fn verdict_answer(verdict: Result<bool, Refusal>, checks: u64, left: u64) -> EvaluateAnswer
    ensures { result ≡ verdict_answer verdict checks left }
{
    match verdict {
        Ok(holds) => EvaluateAnswer {
            number: 0,
            verdict: u32::from(holds),
            first: 0,
            second: 0,
            checks,
            left,
        },
        Err(r) => {
            let n = number_of(r);
            EvaluateAnswer {
                number: n.number,
                verdict: 0,
                first: n.first,
                second: n.second,
                checks,
                left,
            }
        }
    }
}

// Of Write: with a refusal no record and no key byte is reported.
pub fn write_answer(answer: Result<Written, Refusal>) -> WriteAnswer
    ensures { result ≡ write_answer answer }
{
    match answer {
        Ok(written) => WriteAnswer {
            number: 0,
            place: 0,
            records: written.records as u64,
            key_bytes: written.key_bytes as u64,
        },
        Err(r) => {
            let n = number_of(r);
            WriteAnswer {
                number: n.number,
                place: n.first,
                records: 0,
                key_bytes: 0,
            }
        }
    }
}

// Of Write Script, with the number of the script's bytes: with a refusal no byte is reported.
pub fn script_answer(answer: Result<usize, Refusal>) -> ScriptAnswer
    ensures { result ≡ script_answer answer }
{
    match answer {
        Ok(bytes) => ScriptAnswer {
            number: 0,
            place: 0,
            script_bytes: bytes as u64,
        },
        Err(r) => {
            let n = number_of(r);
            ScriptAnswer {
                number: n.number,
                place: n.first,
                script_bytes: 0,
            }
        }
    }
}

// Of Decode: `place` is the token of refusal 9; with a refusal no code is reported.
pub fn decode_answer(answer: Result<Decoded, Refusal>) -> DecodeAnswer
    ensures { result ≡ decode_answer answer }
{
    match answer {
        Ok(decoded) => DecodeAnswer {
            number: 0,
            place: 0,
            code_bytes: decoded.bytes as u64,
            start: decoded.start as u64,
        },
        Err(r) => {
            let n = number_of(r);
            DecodeAnswer {
                number: n.number,
                place: n.first,
                code_bytes: 0,
                start: 0,
            }
        }
    }
}
