// A scanned number as a whole count of units, apart from its sign.
ghost use Rattle.std.specs.Prelude.{◌≡◌, ℕ, ◌*◌, ◌^◌, ◌<◌, ◌≤◌, ◌+ℤ◌, pos, MatchOption, MatchResult, SomeIff, ◌≢◌};
ghost use Rattle.numbers.specs.Reading.{scale_of};
ghost use Rattle.numbers.specs.Scans.{Lifted, Unlifted};

use crate::scan::Scientific;
use crate::{NumberFault, Unit};

// Ten to the power of `by`.
fn ten_to(by: u64) -> Option<u64>
    ensures { SomeIff result (10 ^ by < 2 ^ 64) (10 ^ by) }
{
    10u64.checked_pow(u32::try_from(by).ok()?)
}

// `m` times a power of ten, where that has 64 bits.
fn raised(m: u64, by: u64) -> Option<u64>
    ensures { MatchOption result (2 ^ 64 ≤ m * 10 ^ by) (λ n. (n ≡ m * 10 ^ by)) }
{
    if m == 0 {
        return Some(0);
    }
    m.checked_mul(ten_to(by)?)
}

// `m` through a power of ten, where that leaves nothing over.
fn lowered(m: u64, by: u64) -> Option<u64>
    ensures { MatchOption result ((n : ℕ) → n * 10 ^ by ≢ m) (λ n. (n * 10 ^ by ≡ m)) }
{
    if m == 0 {
        return Some(0);
    }
    let power = ten_to(by)?;
    if m % power == 0 {
        Some(m / power)
    } else {
        None
    }
}

// How many units a number is.
pub(crate) fn scaled(number: Scientific, unit: Unit) -> Result<u64, NumberFault>
    ensures { MatchResult result (Lifted number.mantissa (number.exponent +ℤ pos (scale_of unit))) (Unlifted number.mantissa (number.exponent +ℤ pos (scale_of unit))) }
{
    let by = number.exponent + unit.decimals();
    if by < 0 {
        lowered(number.mantissa, by.unsigned_abs()).ok_or(NumberFault::Fraction)
    } else {
        raised(number.mantissa, by.unsigned_abs()).ok_or(NumberFault::Range)
    }
}
