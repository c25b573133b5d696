// Check: whether bytes are condition code within the bounds that keeps the oracle rule, by one pass over its commands.
#![tactic(auto)]

ghost use Rattle.std.specs.Prelude.{◌≡◌, ◌≤◌, length};
ghost use Rattle.semantics.specs.Code.{max_code};
ghost use Rattle.semantics.specs.Check.{checked};
ghost use Rattle.condition.specs.Walk.{examined, judged_summary, walked};

use semantics::{Checked, MAX_CODE, MAX_TOKENS, Refusal};
use summary::{Rule, Stepped, Summary};

// What is known of well-formed code, or where it stops being well formed.
fn walk(code: &[u8]) -> Result<Summary, usize>
    requires { length code.now ≤ max_code }
    ensures { result ≡ walked code.now }
{
    let mut s = Summary {
        bytes: 0,
        values: 0,
        indexes: 0,
        conditions: 0,
        tokens: 0,
        oracles: 0,
        rule: Rule::Unseen,
        lookups: 0,
        most: 0,
    };
    // a summary says itself where the next command stands
    while s.bytes < code.len() {
        let at = s.bytes;
        match summary::step(code[at], code.len(), s) {
            Some(Stepped::Onward(next)) => {
                s = next;
            }
            Some(Stepped::Compared(last)) => {
                if last.bytes < code.len() {
                    return Err(last.bytes);
                }
                return Ok(last);
            }
            None => {
                return Err(at);
            }
        }
    }
    Err(s.bytes)
}

// Refusals 3 to 5, or the summary of a condition that none falls on.
fn judge(s: Summary) -> Result<Summary, Refusal>
    ensures { result ≡ judged_summary s }
{
    if MAX_TOKENS < s.tokens as usize {
        return Err(Refusal::TooManyTokens);
    }
    match s.rule {
        Rule::Unseen | Rule::Kept => Ok(s),
        Rule::WFirst => Err(Refusal::PriceOracle1WFirst),
        Rule::Missing => Err(Refusal::PriceOracle1Missing),
    }
}

// The refusals 1 to 5 in their order, or the summary of a condition that passes.
#[tactic(auto, unfolding(crate::specs::Walk::examined))]
pub fn examine(code: &[u8]) -> Result<Summary, Refusal>
    ensures { result ≡ examined code.now }
{
    if MAX_CODE < code.len() {
        return Err(Refusal::CodeTooLong);
    }
    let s = walk(code).map_err(Refusal::NotWellFormed)?;
    judge(s)
}

// The refusals 1 to 5 in their order, or what the other calls need to know of a condition that passes.
#[tactic(auto, using(crate::proofs::Checks::checked_walk))]
pub fn check(code: &[u8]) -> Result<Checked, Refusal>
    ensures { result ≡ checked code.now }
{
    let s = examine(code)?;
    Ok(Checked {
        tokens: s.tokens as usize,
        oracles: s.oracles,
    })
}
