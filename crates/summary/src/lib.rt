// What one pass over the commands of condition code keeps, and what one command more makes of it.
#![tactic(auto)]

ghost use Rattle.std.specs.Prelude.{[], ◌∷◌, ◌≡◌, ◌≤◌};
ghost use Rattle.semantics.specs.declared.AmountList.{AmountList};
ghost use Rattle.semantics.specs.declared.Terminal.{Terminal};
ghost use Rattle.semantics.specs.Code.{Made, command_of, other};
ghost use Rattle.summary.specs.Step.{Inside, counted, counting, larger, most_tokens, ruled, stepped, stepped_by};

use semantics::Terminal;

// What is known of the oracle rule after some terminals.
#[derive(Clone, Copy, Debug, PartialEq, Eq)]
pub enum Rule {
    Unseen,
    Kept,
    WFirst,
    Missing,
}

// What one pass over the commands keeps: how many bytes they have, how many values, indexes and conditions wait, how many tokens, oracle terminals and
// lookups there were, the oracle rule, and the greatest number of values and indexes that ever waited.
// Tokens are 32 bits wide, or the compiler would pair them with the bytes in a vector register.
#[derive(Clone, Copy, Debug, PartialEq, Eq)]
pub struct Summary {
    pub bytes: usize,
    pub values: usize,
    pub indexes: usize,
    pub conditions: usize,
    pub tokens: u32,
    pub oracles: usize,
    pub rule: Rule,
    pub lookups: usize,
    pub most: usize,
}

// A summary with one command more, which a comparison ends. There is none where the command's operand bytes are not all there or its need is not met.
#[derive(Clone, Copy, Debug, PartialEq, Eq)]
pub enum Stepped {
    Onward(Summary),
    Compared(Summary),
}

// How many oracle terminals a terminal is.
fn oracles_of(terminal: Terminal) -> usize
    ensures { result ≡ counted 0 terminal }
{
    match terminal {
        Terminal::PriceOracle1 | Terminal::PriceOracle1W => 1,
        Terminal::Other => 0,
    }
}

// What is known of the oracle rule after a terminal more.
fn next_rule(rule: Rule, terminal: Terminal) -> Rule
    ensures { result ≡ ruled rule terminal }
{
    match (rule, terminal) {
        (Rule::Unseen, Terminal::PriceOracle1W) => Rule::WFirst,
        (Rule::Unseen, Terminal::PriceOracle1 | Terminal::Other) => Rule::Kept,
        (Rule::Kept, Terminal::PriceOracle1) => Rule::Missing,
        (Rule::Kept, Terminal::PriceOracle1W | Terminal::Other) => Rule::Kept,
        (Rule::WFirst, _) => Rule::WFirst,
        (Rule::Missing, _) => Rule::Missing,
    }
}

// The greatest number that waited, where now `waiting` do. A command that takes something never raises it, so that only the others test.
fn raised(taken: usize, most: usize, waiting: usize) -> usize
    requires { 1 ≤ taken → waiting ≤ most }
    ensures { result ≡ larger most waiting }
{
    if taken != 0 {
        return most;
    }
    most.max(waiting)
}

// A command that makes an index.
fn index(width: usize, taken: usize, tokens: u32, length: usize, s: Summary) -> Option<Stepped>
    requires { (tokens ≤ most_tokens) × Inside length s }
    ensures { result ≡ stepped_by (counting width 0 taken Made.index tokens [] []) length s }
{
    if length - s.bytes - 1 < width {
        return None;
    }
    if s.indexes < taken {
        return None;
    }
    let indexes = s.indexes - taken + 1;
    Some(Stepped::Onward(Summary {
        bytes: s.bytes + 1 + width,
        indexes,
        tokens: s.tokens + tokens,
        most: raised(taken, s.most, s.values + indexes),
        ..s
    }))
}

// A value terminal that takes nothing and is no lookup.
fn leaf(width: usize, tokens: u32, terminal: Terminal, length: usize, s: Summary) -> Option<Stepped>
    requires { (tokens ≤ most_tokens) × Inside length s }
    ensures { result ≡ stepped_by (counting width 0 0 Made.value tokens (terminal ∷ []) []) length s }
{
    if length - s.bytes - 1 < width {
        return None;
    }
    if s.indexes != 0 {
        return None;
    }
    let values = s.values + 1;
    Some(Stepped::Onward(Summary {
        bytes: s.bytes + 1 + width,
        values,
        tokens: s.tokens + tokens,
        oracles: s.oracles + oracles_of(terminal),
        rule: next_rule(s.rule, terminal),
        most: raised(0, s.most, values),
        ..s
    }))
}

// An amount of a list, at so many indexes: that of the current input takes none.
fn lookup(taken: usize, tokens: u32, length: usize, s: Summary) -> Option<Stepped>
    requires { (tokens ≤ most_tokens) × Inside length s }
    ensures { result ≡ stepped_by (counting 0 0 taken Made.value tokens other (AmountList.Input ∷ [])) length s }
{
    if s.indexes != taken {
        return None;
    }
    let values = s.values + 1;
    Some(Stepped::Onward(Summary {
        bytes: s.bytes + 1,
        values,
        indexes: 0,
        tokens: s.tokens + tokens,
        rule: next_rule(s.rule, Terminal::Other),
        lookups: s.lookups + 1,
        most: raised(taken, s.most, values),
        ..s
    }))
}

// An operation on one or two values.
fn operation(taken: usize, tokens: u32, length: usize, s: Summary) -> Option<Stepped>
    requires { (1 ≤ taken) × (tokens ≤ most_tokens) × Inside length s }
    ensures { result ≡ stepped_by (counting 0 taken 0 Made.value tokens [] []) length s }
{
    if s.values < taken {
        return None;
    }
    if s.indexes != 0 {
        return None;
    }
    Some(Stepped::Onward(Summary {
        bytes: s.bytes + 1,
        values: s.values - taken + 1,
        tokens: s.tokens + tokens,
        ..s
    }))
}

// A comparison of two values, which is a condition.
fn comparison(tokens: u32, length: usize, s: Summary) -> Option<Stepped>
    requires { (tokens ≤ most_tokens) × Inside length s }
    ensures { result ≡ stepped_by (counting 0 2 0 Made.condition tokens [] []) length s }
{
    if s.values != 2 {
        return None;
    }
    if s.indexes != 0 {
        return None;
    }
    Some(Stepped::Compared(Summary {
        bytes: s.bytes + 1,
        values: 0,
        conditions: s.conditions + 1,
        tokens: s.tokens + tokens,
        ..s
    }))
}

// The command of a byte, in code of so many bytes. An arm is a row of the table: operand bytes, what is taken, tokens. One number an arm: the compiler would
// make a range test of adjacent ones.
#[tactic(auto, unfolding(semantics::specs::Code::command_of))]
pub fn step(byte: u8, length: usize, s: Summary) -> Option<Stepped>
    requires { Inside length s }
    ensures { result ≡ stepped (command_of byte) length s }
{
    match byte {
        1 => index(8, 0, 1, length, s),
        2 => index(0, 0, 1, length, s),
        3 => index(0, 2, 1, length, s),
        4 => index(0, 2, 1, length, s),
        5 => index(0, 2, 7, length, s),
        6 => index(0, 2, 8, length, s),
        16 => leaf(8, 1, Terminal::Other, length, s),
        17 => lookup(0, 5, length, s),
        18 => lookup(1, 4, length, s),
        19 => lookup(1, 4, length, s),
        20 => lookup(1, 8, length, s),
        21 => lookup(1, 8, length, s),
        22 => operation(2, 4, length, s),
        23 => operation(2, 4, length, s),
        24 => operation(2, 4, length, s),
        25 => operation(2, 5, length, s),
        26 => operation(2, 5, length, s),
        27 => operation(2, 1, length, s),
        28 => operation(2, 1, length, s),
        29 => operation(2, 1, length, s),
        30 => operation(1, 1, length, s),
        31 => operation(1, 4, length, s),
        32 => leaf(40, 10, Terminal::PriceOracle1, length, s),
        33 => leaf(40, 13, Terminal::PriceOracle1W, length, s),
        48 => comparison(1, length, s),
        49 => comparison(1, length, s),
        50 => comparison(1, length, s),
        51 => comparison(1, length, s),
        52 => comparison(1, length, s),
        _ => None,
    }
}
