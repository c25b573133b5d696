// 64-bit arithmetic: each contract is an equation with a definition of specs/ over whole numbers.
#![tactic(auto)]

ghost use Rattle.std.specs.Prelude.{◌≡◌, false, pos, ◌≤ℤ◌, ◌<ℤ◌, option_map};
ghost use Rattle.num64.specs.Exact.{checked_add, checked_sub, checked_mul, checked_neg, checked_div, checked_rem, fitted};
ghost use Rattle.num64.specs.SignCases.{Euclidean, no_quotient};

// ---- what 64 bits hold

// An unsigned number as a signed one.
#[tactic(auto, using(crate::proofs::Laws::fitted_is))]
pub fn from_u64(n: u64) -> Option<i64>
    ensures { result ≡ fitted (pos n) }
{
    i64::try_from(n).ok()
}

#[tactic(auto, using(crate::proofs::Laws::fitted_is), unfolding(crate::specs::Exact::checked_add))]
pub fn checked_add(a: i64, b: i64) -> Option<i64>
    ensures { result ≡ checked_add a b }
{
    a.checked_add(b)
}

#[tactic(auto, using(crate::proofs::Laws::fitted_is), unfolding(crate::specs::Exact::checked_sub))]
pub fn checked_sub(a: i64, b: i64) -> Option<i64>
    ensures { result ≡ checked_sub a b }
{
    a.checked_sub(b)
}

#[tactic(auto, using(crate::proofs::Laws::fitted_is), unfolding(crate::specs::Exact::checked_neg))]
pub fn checked_neg(a: i64) -> Option<i64>
    ensures { result ≡ checked_neg a }
{
    a.checked_neg()
}

#[tactic(auto, using(crate::proofs::Laws::fitted_is), unfolding(crate::specs::Exact::checked_mul))]
pub fn checked_mul(a: i64, b: i64) -> Option<i64>
    ensures { result ≡ checked_mul a b }
{
    a.checked_mul(b)
}

// ---- quotient and remainder: a = b * quotient + remainder, and 0 <= remainder < |b|
// Each pair of signs has a function of its own, as request R-7 wants it, though two have the same lines.
// `a / b` is rounded towards 0, and `a % b` is what that leaves: it is negative only where a is.

// Where 30 and 31 fall: by 0, and -2^63 by -1, whose quotient 2^63 does not fit.
fn has_no_quotient(a: i64, b: i64) -> bool
    ensures { result ≡ no_quotient a b }
{
    match b {
        0 => true,
        -1 => a == i64::MIN,
        _ => false,
    }
}

#[derive(Clone, Copy)]
struct Division {
    quotient: i64,
    remainder: i64,
}

// 7 by 2: 3 times, and 1 is left. 7 = 2 * 3 + 1.
fn nonnegative_by_positive(a: i64, b: i64) -> Division
    requires { (pos 0 ≤ℤ a) × (pos 0 <ℤ b) }
    ensures { Euclidean a b result.quotient result.remainder }
{
    Division {
        quotient: a / b, // 7 / 2 is 3
        remainder: a % b, // 7 % 2 is 1
    }
}

// 7 by -2: -3 times, and 1 is left. 7 = -2 * -3 + 1.
fn nonnegative_by_negative(a: i64, b: i64) -> Division
    requires { (pos 0 ≤ℤ a) × (b <ℤ pos 0) }
    ensures { Euclidean a b result.quotient result.remainder }
{
    Division {
        quotient: a / b, // 7 / -2 is -3
        remainder: a % b, // 7 % -2 is 1
    }
}

// -7 by 2: -3 times leaves -1, which is negative; once less leaves 2 more. -7 = 2 * -4 + 1.
fn negative_by_positive(a: i64, b: i64) -> Division
    requires { (a <ℤ pos 0) × (pos 0 <ℤ b) }
    ensures { Euclidean a b result.quotient result.remainder }
{
    let times = a / b; // -7 / 2 is -3
    let left = a % b; // -7 % 2 is -1
    if left == 0 {
        return Division {
            quotient: times,
            remainder: 0,
        };
    }
    Division {
        quotient: times - 1, // -3 - 1 is -4
        remainder: left + b, // -1 + 2 is 1
    }
}

// -7 by -2: 3 times leaves -1, which is negative; once more leaves 2 more. -7 = -2 * 4 + 1.
fn negative_by_negative(a: i64, b: i64) -> Division
    requires { (a <ℤ pos 0) × (b <ℤ pos 0) × (no_quotient a b ≡ false) }
    ensures { Euclidean a b result.quotient result.remainder }
{
    let times = a / b; // -7 / -2 is 3
    let left = a % b; // -7 % -2 is -1
    if left == 0 {
        return Division {
            quotient: times,
            remainder: 0,
        };
    }
    Division {
        quotient: times + 1, // 3 + 1 is 4
        remainder: left - b, // -1 - -2 is 1
    }
}

fn divide(a: i64, b: i64) -> Division
    requires { no_quotient a b ≡ false }
    ensures { Euclidean a b result.quotient result.remainder }
{
    if a < 0 {
        if b < 0 {
            negative_by_negative(a, b)
        } else {
            negative_by_positive(a, b)
        }
    } else if b < 0 {
        nonnegative_by_negative(a, b)
    } else {
        nonnegative_by_positive(a, b)
    }
}

// Both, where there are any.
fn checked_divide(a: i64, b: i64) -> Option<Division>
    ensures quotient { option_map (λ d. d.quotient) result ≡ checked_div a b }
    ensures remainder { option_map (λ d. d.remainder) result ≡ checked_rem a b }
{
    if has_no_quotient(a, b) {
        return None;
    }
    Some(divide(a, b))
}

pub fn checked_div_euclid(a: i64, b: i64) -> Option<i64>
    ensures { result ≡ checked_div a b }
{
    Some(checked_divide(a, b)?.quotient)
}

pub fn checked_rem_euclid(a: i64, b: i64) -> Option<i64>
    ensures { result ≡ checked_rem a b }
{
    Some(checked_divide(a, b)?.remainder)
}
