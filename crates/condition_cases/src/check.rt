// Cases of Check.
ghost use Rattle.std.specs.Prelude.{◌≡◌};
ghost use Rattle.condition_cases.specs.Agreement.{check_agrees};

use cases::{begins_with, part};

pub fn agrees(body: &[u8]) -> bool
    ensures { result ≡ check_agrees body.now }
{
    let answer = covenant::covenant_check(part(body, 0));
    begins_with(part(body, 1), &[answer.number as u64, answer.place])
}
