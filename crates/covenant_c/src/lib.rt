// The archive that C links (include/covenant.h): each call is that of `covenant` by the same name, with its promises stated again.
#![tactic(auto)]

ghost use Rattle.std.specs.Prelude.{◌≡◌};
ghost use Rattle.semantics.specs.Check.{checked};
ghost use Rattle.semantics.specs.Decode.{decoded};
ghost use Rattle.semantics.specs.Evaluate.{evaluated};
ghost use Rattle.semantics.specs.Meaning.{CallToldApart, CallUnambiguous};
ghost use Rattle.semantics.specs.Write.{wrote};
ghost use Rattle.amounts.specs.Lists.{env_of};
ghost use Rattle.semantics.specs.Records.{records_of};
ghost use Rattle.answers.specs.Answers.{AnswerAccepts, check_answer, decode_answer, evaluate_answer, script_answer, write_answer};
ghost use Rattle.script.specs.WriteScript.{wrote_script};
ghost use Rattle.fields.specs.TokenRecords.{DecodesRecords, WritesRecords};

use answers::{CheckAnswer, DecodeAnswer, EvaluateAnswer, ScriptAnswer, WriteAnswer};
use covenant::token_records;
use records::TokenRecord;

#[unsafe(no_mangle)]
pub extern "C" fn covenant_check(code: &[u8]) -> CheckAnswer
    ensures { result ≡ check_answer (checked code.now) }
{
    covenant::covenant_check(code)
}

#[unsafe(no_mangle)]
pub extern "C" fn covenant_evaluate(
    code: &[u8],
    spent: &[u64],
    spent_marks: &[u8],
    outputs: &[u64],
    output_marks: &[u8],
    issued: &[u64],
    issued_marks: &[u8],
    reissued: &[u64],
    reissued_marks: &[u8],
    current: u64,
    witness: &[u8],
    ends: &[u32],
    checks: &mut [u8],
) -> EvaluateAnswer
    ensures value { result ≡ evaluate_answer (evaluated code.now (record { env = env_of spent.now spent_marks.now outputs.now output_marks.now issued.now issued_marks.now reissued.now reissued_marks.now current; witness = witness.now; ends = ends.now; buffer = checks.old })).answer }
    ensures checks_after { checks.new ≡ (evaluated code.now (record { env = env_of spent.now spent_marks.now outputs.now output_marks.now issued.now issued_marks.now reissued.now reissued_marks.now current; witness = witness.now; ends = ends.now; buffer = checks.old })).buffer }
{
    covenant::covenant_evaluate(
        code,
        spent,
        spent_marks,
        outputs,
        output_marks,
        issued,
        issued_marks,
        reissued,
        reissued_marks,
        current,
        witness,
        ends,
        checks,
    )
}

#[unsafe(no_mangle)]
pub extern "C" fn covenant_write(
    code: &[u8],
    kinds: &mut [u8],
    numbers: &mut [u64],
    places: &mut [u32],
    keys: &mut [u8],
) -> WriteAnswer
    ensures value { result ≡ write_answer (wrote code.now (records_of kinds.old numbers.old places.old keys.old)).answer }
    ensures keys_after { records_of kinds.new numbers.new places.new keys.new ≡ (wrote code.now (records_of kinds.old numbers.old places.old keys.old)).records }
{
    covenant::covenant_write(code, kinds, numbers, places, keys)
}

#[unsafe(no_mangle)]
pub extern "C" fn covenant_decode(
    kinds: &[u8],
    numbers: &[u64],
    places: &[u32],
    keys: &[u8],
    code: &mut [u8],
) -> DecodeAnswer
    ensures value { result ≡ decode_answer (decoded (records_of kinds.now numbers.now places.now keys.now) code.old).answer }
    ensures code_after { code.new ≡ (decoded (records_of kinds.now numbers.now places.now keys.now) code.old).buffer }
    ensures call_unambiguous { CallUnambiguous (records_of kinds.now numbers.now places.now keys.now) code.old (AnswerAccepts result code.new) }
    ensures call_told_apart { CallToldApart (records_of kinds.now numbers.now places.now keys.now) code.old result.number }
{
    covenant::covenant_decode(kinds, numbers, places, keys, code)
}

#[unsafe(no_mangle)]
pub extern "C" fn covenant_write_script(code: &[u8], script: &mut [u8]) -> ScriptAnswer
    ensures value { result ≡ script_answer (wrote_script code.now script.old).answer }
    ensures script_after { script.new ≡ (wrote_script code.now script.old).buffer }
{
    covenant::covenant_write_script(code, script)
}

#[unsafe(no_mangle)]
pub extern "C" fn covenant_decode_records(
    records: &[TokenRecord],
    keys: &[u8],
    code: &mut [u8],
) -> DecodeAnswer
    ensures { DecodesRecords records.now keys.now code.old code.new result }
{
    token_records::covenant_decode_records(records, keys, code)
}

#[unsafe(no_mangle)]
pub extern "C" fn covenant_write_records(
    code: &[u8],
    records: &mut [TokenRecord],
    keys: &mut [u8],
) -> WriteAnswer
    ensures { WritesRecords code.now records.old records.new keys.old keys.new result }
{
    token_records::covenant_write_records(code, records, keys)
}
