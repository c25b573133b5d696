// Document 01's worked examples as a table: the example's number, what is asked, and what is answered.
#![tactic(auto)]

ghost use Rattle.std.specs.Prelude.{◌≡◌};
ghost use Rattle.examples.specs.Const.{with_const};

use amounts::{Amounts, Transaction};
use commands::byte_of;
use semantics::{BinOp, CmpOp, Command, Refusal, UnOp};
use slices::write_le64;
use std::{fmt, io};
use word64::bits;
use words::{Passed, Places, Refused, Tail, Tokens};

mod words;

// How wide the column of what is asked is.
const ASKED: usize = 68;

// Room for any code that Decode may answer.
const ROOM: usize = 65536;

// A list of no amounts.
const NO_AMOUNTS: Amounts<'static> = Amounts {
    numbers: &[],
    marks: &[],
};

// The amounts of two inputs without issuances.
const NOT_ISSUED: Amounts<'static> = Amounts {
    numbers: &[0, 0],
    marks: &[0, 0],
};

// ---- the calls; `asked` is what stands before the answer

// What is asked, and in a column of its own what is answered.
fn answered<T: fmt::Display + Drop>(
    rt: &impl Print,
    asked: &str,
    answer: Result<T, Refusal>,
) -> io::Result<()> {
    match answer {
        Ok(words) => println!(rt; "{asked:<ASKED$}0, {words}"),
        Err(refusal) => {
            let refused = Refused(refusal);
            println!(rt; "{asked:<ASKED$}{refused}")
        }
    }
}

fn check(rt: &impl Print, asked: &str, code: &[u8]) -> io::Result<()> {
    answered(rt, asked, condition::check(code).map(Passed))
}

// Two inputs, of explicit amounts 2^63 and 7, without issuances, and no outputs; the coins come in at `input`.
fn evaluate(rt: &impl Print, asked: &str, code: &[u8], input: u64) -> io::Result<()> {
    let transaction = Transaction {
        spent: Amounts {
            numbers: &[0x8000_0000_0000_0000, 7],
            marks: &[1, 1],
        },
        outputs: NO_AMOUNTS,
        issued: NOT_ISSUED,
        reissued: NOT_ISSUED,
        current: input,
    };
    let answer = evaluation::evaluate(code, &transaction, &[], &[], &mut []);
    answered(rt, asked, answer.verdict)
}

// The price of the oracle with the key 4, 5, .. 35 is at least 9, from time 5 on; with a quote of 9 for a time. Shown too is the check that the host is to verify.
fn evaluate_quote(rt: &impl Print, asked: &str, time: u8) -> io::Result<()> {
    let code =
        b"\x20\x04\x05\x06\x07\x08\x09\x0a\x0b\x0c\x0d\x0e\x0f\x10\x11\x12\x13\x14\x15\x16\x17\x18\x19\x1a\x1b\x1c\x1d\x1e\x1f\x20\x21\x22\x23\x05\x00\x00\x00\x00\x00\x00\x00\x10\x09\x00\x00\x00\x00\x00\x00\x00\x34";
    let mut witness = [0u8; 80];
    witness[64] = time;
    witness[72] = 9;
    let mut checks = [0u8; 112];
    let transaction = Transaction {
        spent: NO_AMOUNTS,
        outputs: NO_AMOUNTS,
        issued: NO_AMOUNTS,
        reissued: NO_AMOUNTS,
        current: 0,
    };
    let answer = evaluation::evaluate(code, &transaction, &witness, &[64, 72, 80], &mut checks);
    answered(rt, asked, answer.verdict)?;
    if answer.checks == 1 {
        let shown = "      time and price of its check";
        let time = checks[32];
        let price = checks[40];
        println!(rt; "{shown:<ASKED$}{time}, {price}")?;
    }
    Ok(())
}

// The token form, of conditions without keys.
fn write(rt: &impl Print, asked: &str, code: &[u8]) -> io::Result<()> {
    let mut kinds = [0u8; 32];
    let mut numbers = [0u64; 32];
    let mut places = [0u32; 32];
    let answer = writer::write(code, &mut kinds, &mut numbers, &mut places, &mut []);
    let tokens = answer.map(|written| Tokens {
        kinds: &kinds,
        numbers: &numbers,
        records: written.records,
    });
    answered(rt, asked, tokens)
}

// What stands of the keys of three oracle terminals; each key is 31 zeros and a last byte.
fn write_keys(rt: &impl Print, asked: &str, first: u8, second: u8, third: u8) -> io::Result<()> {
    let mut code = [0u8; 135];
    code[0] = 32;
    code[32] = first;
    code[41] = 33;
    code[73] = second;
    code[82] = 27;
    code[83] = 33;
    code[115] = third;
    code[124] = 27;
    constant(&mut code, 125, 9);
    code[134] = 48;
    let mut kinds = [0u8; 48];
    let mut numbers = [0u64; 48];
    let mut places = [0u32; 48];
    let mut keys = [0u8; 96];
    let answer = writer::write(&code, &mut kinds, &mut numbers, &mut places, &mut keys);
    let places = answer.map(|written| Places {
        key_bytes: written.key_bytes,
        kinds: &kinds,
        places: &places,
        records: written.records,
    });
    answered(rt, asked, places)
}

// Up to 24 tokens; each that carries a key carries 4, 5, .. 35.
fn decode(rt: &impl Print, asked: &str, kinds: &[u8], numbers: &[u64]) -> io::Result<()> {
    let key =
        b"\x04\x05\x06\x07\x08\x09\x0a\x0b\x0c\x0d\x0e\x0f\x10\x11\x12\x13\x14\x15\x16\x17\x18\x19\x1a\x1b\x1c\x1d\x1e\x1f\x20\x21\x22\x23";
    let mut code = [0u8; ROOM];
    let answer = decoder::decode(kinds, numbers, &[0; 24], key, &mut code);
    let first = code[0];
    answered(rt, asked, answer.map(|decoded| Tail { decoded, first }))
}

// ---- codes

// `Const` of a number, where nine bytes stand at the place.
fn constant(code: &mut [u8], at: usize, number: i64)
    ensures { code.new ≡ with_const code.old at number }
{
    if at < code.len() {
        if 9 <= code.len() - at {
            write_le64(code, at + 1, bits(number));
            code[at] = 16;
        }
    }
}

// x, y, the command of a binary operation, z, `Eq`
fn binary(rt: &impl Print, asked: &str, x: i64, y: i64, op: BinOp, z: i64) -> io::Result<()> {
    let mut code = [0u8; 29];
    constant(&mut code, 0, x);
    constant(&mut code, 9, y);
    code[18] = byte_of(Command::Binary(op));
    constant(&mut code, 19, z);
    code[28] = byte_of(Command::Compare(CmpOp::Eq));
    evaluate(rt, asked, &code, 0)
}

// x, `Negate`, y, `Eq`
fn negated(rt: &impl Print, asked: &str, x: i64, y: i64) -> io::Result<()> {
    let mut code = [0u8; 20];
    constant(&mut code, 0, x);
    code[9] = byte_of(Command::Unary(UnOp::Negate));
    constant(&mut code, 10, y);
    code[19] = byte_of(Command::Compare(CmpOp::Eq));
    evaluate(rt, asked, &code, 0)
}

// ---- the examples

fn five_is_five(rt: &impl Print) -> io::Result<()> {
    let code = b"\x10\x05\x00\x00\x00\x00\x00\x00\x00\x10\x05\x00\x00\x00\x00\x00\x00\x00\x30";
    check(rt, " 1  Check: 5 Eq 5", code)?;
    evaluate(rt, "    Evaluate: 5 Eq 5", code, 0)?;
    write(rt, "    Write: 5 Eq 5", code)
}

fn division(rt: &impl Print) -> io::Result<()> {
    binary(rt, " 2  Evaluate: -7 Div 2 Eq -4", -7, 2, BinOp::Div, -4)?;
    binary(rt, "    Evaluate: -7 Mod 2 Eq 1", -7, 2, BinOp::Mod, 1)?;
    binary(rt, " 3  Evaluate: 7 Div -2 Eq -3", 7, -2, BinOp::Div, -3)?;
    binary(rt, "    Evaluate: 7 Mod -2 Eq 1", 7, -2, BinOp::Mod, 1)?;
    binary(rt, " 4  Evaluate: -7 Div -2 Eq 4", -7, -2, BinOp::Div, 4)?;
    binary(rt, "    Evaluate: -7 Mod -2 Eq 1", -7, -2, BinOp::Mod, 1)?;
    binary(
        rt,
        " 5  Evaluate: -2^63 Div -1 Eq 0",
        i64::MIN,
        -1,
        BinOp::Div,
        0,
    )?;
    binary(
        rt,
        "    Evaluate: -2^63 Mod -1 Eq 0",
        i64::MIN,
        -1,
        BinOp::Mod,
        0,
    )?;
    binary(
        rt,
        "    Evaluate: -2^63 Div 0 Eq 0",
        i64::MIN,
        0,
        BinOp::Div,
        0,
    )?;
    binary(
        rt,
        "    Evaluate: -2^63 Mod 0 Eq 0",
        i64::MIN,
        0,
        BinOp::Mod,
        0,
    )
}

fn limits(rt: &impl Print) -> io::Result<()> {
    binary(
        rt,
        " 6  Evaluate: 2^63 - 1 Add 1 Eq 0",
        i64::MAX,
        1,
        BinOp::Add,
        0,
    )?;
    negated(rt, " 7  Evaluate: Negate -2^63 Eq 0", i64::MIN, 0)?;
    negated(
        rt,
        "    Evaluate: Negate -2^63 + 1 Eq 2^63 - 1",
        i64::MIN + 1,
        i64::MAX,
    )?;
    let code = b"\x11\x10\x00\x00\x00\x00\x00\x00\x00\x80\x30";
    evaluate(rt, " 8  Evaluate: CurrInputIdx Eq -2^63", code, 0)
}

fn tails(rt: &impl Print) -> io::Result<()> {
    decode(
        rt,
        " 9  Decode: Swap, Bytes8, Bytes8, Equal",
        &[35, 2, 2, 14],
        &[0, 5, 5, 0],
    )?;
    decode(rt, "10  Decode: no tokens", &[], &[])?;
    decode(rt, "    Decode: Equal", &[14], &[0])?;
    decode(
        rt,
        "11  Decode: CurrInp, InpValue, Num 1, Equal, Verify, Bytes8, Equal",
        &[4, 22, 1, 14, 15, 2, 14],
        &[0, 0, 1, 0, 0, 5, 0],
    )
}

// Each terminal has the key 4, 5, .. 35 and the time 5.
fn oracle_rule(rt: &impl Print) -> io::Result<()> {
    let later =
        b"\x10\x05\x00\x00\x00\x00\x00\x00\x00\x20\x04\x05\x06\x07\x08\x09\x0a\x0b\x0c\x0d\x0e\x0f\x10\x11\x12\x13\x14\x15\x16\x17\x18\x19\x1a\x1b\x1c\x1d\x1e\x1f\x20\x21\x22\x23\x05\x00\x00\x00\x00\x00\x00\x00\x16\x10\x09\x00\x00\x00\x00\x00\x00\x00\x30";
    check(rt, "12  Check: Const + PriceOracle1 Eq Const", later)?;
    let first =
        b"\x21\x04\x05\x06\x07\x08\x09\x0a\x0b\x0c\x0d\x0e\x0f\x10\x11\x12\x13\x14\x15\x16\x17\x18\x19\x1a\x1b\x1c\x1d\x1e\x1f\x20\x21\x22\x23\x05\x00\x00\x00\x00\x00\x00\x00\x20\x04\x05\x06\x07\x08\x09\x0a\x0b\x0c\x0d\x0e\x0f\x10\x11\x12\x13\x14\x15\x16\x17\x18\x19\x1a\x1b\x1c\x1d\x1e\x1f\x20\x21\x22\x23\x05\x00\x00\x00\x00\x00\x00\x00\x30";
    check(rt, "    Check: PriceOracle1W Eq PriceOracle1", first)
}

// Not one of the thirteen: two such conditions from their tokens, and tokens that are none's (R-2). Constants and times are 0, and Add has its Num 1.
fn oracle_rule_decoded(rt: &impl Print) -> io::Result<()> {
    let mut numbers = [0u64; 24];
    numbers[12] = 1;
    decode(
        rt,
        "    Decode: the tokens of Const + PriceOracle1 Eq Const",
        b"\x02\x19\x1a\x02\x1c\x0f\x20\x21\x03\x22\x1b\x0b\x01\x0e\x0f\x02\x0e",
        &numbers,
    )?;
    decode(
        rt,
        "    Decode: the tokens of PriceOracle1W Eq PriceOracle1",
        b"\x1a\x19\x1a\x02\x1c\x0f\x20\x21\x03\x22\x1b\x1b\x23\x19\x1a\x02\x1c\x0f\x20\x21\x03\x22\x1b\x0e",
        &numbers,
    )?;
    decode(
        rt,
        "    Decode: the same without the last one, Equal",
        b"\x1a\x19\x1a\x02\x1c\x0f\x20\x21\x03\x22\x1b\x1b\x23\x19\x1a\x02\x1c\x0f\x20\x21\x03\x22\x1b",
        &numbers,
    )
}

// The amount of the input before the current one is 2^63, taken as a signed number.
fn indexes(rt: &impl Print) -> io::Result<()> {
    let less_one =
        b"\x02\x01\x01\x00\x00\x00\x00\x00\x00\x00\x04\x12\x10\x00\x00\x00\x00\x00\x00\x00\x80\x30";
    evaluate(
        rt,
        "13  Evaluate: Input(CurrIdx - 1) Eq -2^63, at 0",
        less_one,
        0,
    )?;
    evaluate(
        rt,
        "    Evaluate: Input(CurrIdx - 1) Eq -2^63, at 1",
        less_one,
        1,
    )
}

// Not one of the thirteen: an index below 0 on the way to another, and what lies above 2^31 - 1 (R-4). At 0 the first reads the amount of input 1, which is 7.
fn index_values(rt: &impl Print) -> io::Result<()> {
    let less_one_plus_two =
        b"\x02\x01\x01\x00\x00\x00\x00\x00\x00\x00\x04\x01\x02\x00\x00\x00\x00\x00\x00\x00\x03\x12\x10\x07\x00\x00\x00\x00\x00\x00\x00\x30";
    evaluate(
        rt,
        "    Evaluate: Input(CurrIdx - 1 + 2) Eq 7, at 0",
        less_one_plus_two,
        0,
    )?;
    let far = b"\x01\x00\x00\x00\x80\x00\x00\x00\x00\x12\x10\x07\x00\x00\x00\x00\x00\x00\x00\x30";
    evaluate(rt, "    Evaluate: Input(2^31) Eq 7", far, 0)?;
    let current = b"\x11\x10\x07\x00\x00\x00\x00\x00\x00\x00\x30";
    evaluate(
        rt,
        "    Evaluate: CurrInputIdx Eq 7, at 2^31",
        current,
        0x8000_0000,
    )
}

// Not one of the thirteen: the left operand of an index product is made a 64-bit number before the right one is pushed.
fn index_product(rt: &impl Print) -> io::Result<()> {
    let times_three =
        b"\x02\x01\x03\x00\x00\x00\x00\x00\x00\x00\x05\x13\x10\x05\x00\x00\x00\x00\x00\x00\x00\x30";
    write(rt, "    Write: Output(CurrIdx * 3) Eq 5", times_three)
}

// Not one of the thirteen: keys in the order of the first token that names them, equal ones once (R-5). A key is shown by its last byte.
fn keys_in_order(rt: &impl Print) -> io::Result<()> {
    write_keys(
        rt,
        "    Write: three oracle terminals with the keys 1, 2, 1",
        1,
        2,
        1,
    )?;
    write_keys(
        rt,
        "    Write: three oracle terminals with the keys 2, 1, 3",
        2,
        1,
        3,
    )?;
    write_keys(
        rt,
        "    Write: three oracle terminals with the keys 1, 1, 1",
        1,
        1,
        1,
    )
}

// Not one of the thirteen: a quote's time is at least the terminal's, here 5, and is what the check has (R-8).
fn quotes(rt: &impl Print) -> io::Result<()> {
    evaluate_quote(
        rt,
        "    Evaluate: PriceOracle1(5) Geq 9, quote of time 4",
        4,
    )?;
    evaluate_quote(
        rt,
        "    Evaluate: PriceOracle1(5) Geq 9, quote of time 5",
        5,
    )?;
    evaluate_quote(
        rt,
        "    Evaluate: PriceOracle1(5) Geq 9, quote of time 6",
        6,
    )
}

fn main(rt: HostRuntime) -> io::Result<()> {
    println!(rt; "no  asked                                                           answered")?;
    five_is_five(&rt)?;
    division(&rt)?;
    limits(&rt)?;
    tails(&rt)?;
    oracle_rule(&rt)?;
    indexes(&rt)?;
    println!(rt; "\nbeside document 01's thirteen")?;
    oracle_rule_decoded(&rt)?;
    index_values(&rt)?;
    index_product(&rt)?;
    keys_in_order(&rt)?;
    quotes(&rt)
}
