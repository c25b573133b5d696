// The unit's boundary: the calls as C sees them (include/covenant.h, exported by `covenant_c`), thin over the crates that make them.
#![tactic(auto)]

pub mod token_records;

ghost use Rattle.std.specs.Prelude.{◌≡◌};
ghost use Rattle.semantics.specs.Check.{checked};
ghost use Rattle.semantics.specs.Decode.{decoded};
ghost use Rattle.semantics.specs.Evaluate.{evaluated};
ghost use Rattle.semantics.specs.Meaning.{CallToldApart, CallUnambiguous};
ghost use Rattle.semantics.specs.Write.{wrote};
ghost use Rattle.amounts.specs.Lists.{env_of};
ghost use Rattle.semantics.specs.Records.{records_of};
ghost use Rattle.answers.specs.Answers.{AnswerAccepts, check_answer, decode_answer, evaluate_answer, script_answer, write_answer};
ghost use Rattle.script.specs.WriteScript.{wrote_script};

use amounts::{Amounts, Transaction};
use answers::{CheckAnswer, DecodeAnswer, EvaluateAnswer, ScriptAnswer, WriteAnswer};

// Check: `code` is lent and only read. Refusals 1 to 5.
pub fn covenant_check(code: &[u8]) -> CheckAnswer
    ensures { result ≡ check_answer (checked code.now) }
{
    answers::check_answer(condition::check(code))
}

// Evaluate: of what is lent only `checks` is written, 112 bytes at its front for each check reported, with a refusal too.
// Refusals 1 to 5, 8, 12, 7, then 20 to 41 in the order of evaluation.
pub fn covenant_evaluate(
    code: &[u8],
    spent: &[u64],
    spent_marks: &[u8],
    outputs: &[u64],
    output_marks: &[u8],
    issued: &[u64],
    issued_marks: &[u8],
    reissued: &[u64],
    reissued_marks: &[u8],
    current: u64,
    witness: &[u8],
    ends: &[u32],
    checks: &mut [u8],
) -> EvaluateAnswer
    ensures value { result ≡ evaluate_answer (evaluated code.now (record { env = env_of spent.now spent_marks.now outputs.now output_marks.now issued.now issued_marks.now reissued.now reissued_marks.now current; witness = witness.now; ends = ends.now; buffer = checks.old })).answer }
    ensures checks_after { checks.new ≡ (evaluated code.now (record { env = env_of spent.now spent_marks.now outputs.now output_marks.now issued.now issued_marks.now reissued.now reissued_marks.now current; witness = witness.now; ends = ends.now; buffer = checks.old })).buffer }
{
    let transaction = Transaction {
        spent: Amounts {
            numbers: spent,
            marks: spent_marks,
        },
        outputs: Amounts {
            numbers: outputs,
            marks: output_marks,
        },
        issued: Amounts {
            numbers: issued,
            marks: issued_marks,
        },
        reissued: Amounts {
            numbers: reissued,
            marks: reissued_marks,
        },
        current,
    };
    let answer = evaluation::evaluate(code, &transaction, witness, ends, checks);
    let verdict = answer.verdict;
    answers::verdict_answer(verdict, answer.checks as u64, answer.left as u64)
}

// Write: `code` is only read. The records reported are written at the front of `kinds`, `numbers` and `places`, and their keys into the key bytes reported, each
// once, in the order of the first token that names it. Refusals 1 to 5, 6, 7; a refusal writes nothing.
pub fn covenant_write(
    code: &[u8],
    kinds: &mut [u8],
    numbers: &mut [u64],
    places: &mut [u32],
    keys: &mut [u8],
) -> WriteAnswer
    ensures value { result ≡ write_answer (wrote code.now (records_of kinds.old numbers.old places.old keys.old)).answer }
    ensures keys_after { records_of kinds.new numbers.new places.new keys.new ≡ (wrote code.now (records_of kinds.old numbers.old places.old keys.old)).records }
{
    answers::write_answer(writer::write(code, kinds, numbers, places, keys))
}

// Decode: of what is lent only `code` is written, the bytes reported at its front. There are as many records as kinds.
// Refusals 10, 9, 7, then 4, 5 or 11; a refusal writes nothing. The third promise is demand 3, of the struct that is given back; the fourth is what 4, 5 and 11 tell.
pub fn covenant_decode(
    kinds: &[u8],
    numbers: &[u64],
    places: &[u32],
    keys: &[u8],
    code: &mut [u8],
) -> DecodeAnswer
    ensures value { result ≡ decode_answer (decoded (records_of kinds.now numbers.now places.now keys.now) code.old).answer }
    ensures code_after { code.new ≡ (decoded (records_of kinds.now numbers.now places.now keys.now) code.old).buffer }
    ensures call_unambiguous { CallUnambiguous (records_of kinds.now numbers.now places.now keys.now) code.old (AnswerAccepts result code.new) }
    ensures call_told_apart { CallToldApart (records_of kinds.now numbers.now places.now keys.now) code.old result.number }
{
    answers::decode_answer(decoder::decode(kinds, numbers, places, keys, code))
}

// Write Script: `code` is only read. The script bytes reported are written at the front of `script`. Refusals 1 to 5, 6, 7; a refusal writes nothing.
pub fn covenant_write_script(code: &[u8], script: &mut [u8]) -> ScriptAnswer
    ensures value { result ≡ script_answer (wrote_script code.now script.old).answer }
    ensures script_after { script.new ≡ (wrote_script code.now script.old).buffer }
{
    answers::script_answer(script_writer::write_script(code, script))
}
