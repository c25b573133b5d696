// `from_tokens` of the source: the readers call themselves on the tokens before what they have matched. The readers go by
// the rows that are noted for the tokens before each place. What has several tokens of its own calls for its right operand; an operation of one token has its operands counted.
// So the readers go at most a quarter as deep as there are tokens, whatever the tokens are.
#![tactic(auto)]

ghost use Rattle.std.specs.Prelude.{◌≡◌};
ghost use Rattle.semantics.specs.FromTokens.{expr_from_tokens, from_tokens, idx_from_tokens};
ghost use Rattle.semantics.specs.Records.{Records, token_at};
ghost use Rattle.productions.specs.Before.{before};
ghost use Rattle.productions.specs.Noted.{Fitting, Rows};
ghost use Rattle.readers.specs.Readings.{Answers, reading_of};

use productions::{
    BETWEEN, BINARIES, BIT_OPERATIONS, COMPARISONS, INDEX_MUL, INDEX_OPERATIONS, INDEXES, LOOKUPS,
    ORACLES, UNARIES, row_before, width,
};
use semantics::MAX_TOKENS;

// Where what was read begins. A reader's answer lies in its caller's frame: 32 bits keep that small. The specification names the form: an enum for the reading, taken
// apart by `let else`.
#[derive(Clone, Copy)]
pub enum Reading {
    Read(u32),
    Nothing,
}

// The index expression that the tokens before `last` end with: `count` are still to be read, each before the one behind it.
fn read_index(rows: &[u8; MAX_TOKENS], last: usize) -> Reading
    requires { Fitting rows.now last }
    ensures { Answers rows.now last result (λ ts. reading_of (idx_from_tokens ts)) }
{
    let mut end = last;
    let mut count: usize = 1;
    while 0 < count {
        let Some(row) = row_before(rows, end) else {
            return Reading::Nothing;
        };
        end -= width(row);
        match row {
            ..INDEXES => return Reading::Nothing,
            ..INDEX_OPERATIONS => count -= 1,
            ..INDEX_MUL => count += 1,
            ..BETWEEN => {
                let Reading::Read(place) = read_index(rows, end) else {
                    return Reading::Nothing;
                };
                let middle = place as usize;
                if row_before(rows, middle) != Some(BETWEEN) {
                    return Reading::Nothing;
                }
                end = middle - 1;
            }
            _ => return Reading::Nothing,
        }
    }
    Reading::Read(end as u32)
}

// The value expression that the tokens before `last` end with: `count` are still to be read, each before the one behind it. Its runs of rows are told apart by tests that
// go on at once, and by no `match`: after one the compiler tests the count again, also where it is the same, which a list of operations on one value pays for each token.
fn read_value(rows: &[u8; MAX_TOKENS], last: usize) -> Reading
    requires { Fitting rows.now last }
    ensures { Answers rows.now last result (λ ts. reading_of (expr_from_tokens ts)) }
{
    let mut end = last;
    let mut count: usize = 1;
    while 0 < count {
        let Some(row) = row_before(rows, end) else {
            return Reading::Nothing;
        };
        end -= width(row);
        if row < LOOKUPS {
            count -= 1;
            continue;
        }
        if row < UNARIES {
            let Reading::Read(start) = read_index(rows, end) else {
                return Reading::Nothing;
            };
            end = start as usize;
            count -= 1;
            continue;
        }
        if row < BINARIES {
            continue;
        }
        if row < BIT_OPERATIONS {
            let Reading::Read(middle) = read_value(rows, end) else {
                return Reading::Nothing;
            };
            end = middle as usize;
            continue;
        }
        if row < ORACLES {
            count += 1;
            continue;
        }
        if INDEXES <= row {
            return Reading::Nothing;
        }
        count -= 1; // an oracle terminal has no operand
    }
    Reading::Read(end as u32)
}

// The condition that so many tokens end with.
pub fn read_condition(rows: &[u8; MAX_TOKENS], size: usize) -> Reading
    requires { Fitting rows.now size }
    ensures { (r : Records) → Rows r rows.now size → result ≡ reading_of (from_tokens (before (token_at r) size)) }
{
    let Some(row) = row_before(rows, size) else {
        return Reading::Nothing;
    };
    if row < COMPARISONS {
        return Reading::Nothing;
    }
    let start = size - width(row);
    let Reading::Read(right) = read_value(rows, start) else {
        return Reading::Nothing;
    };
    read_value(rows, right as usize)
}
