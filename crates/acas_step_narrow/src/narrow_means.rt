//! Raised numbers over divisors, and the means that are formed of them, in 64 bits.
ghost use Rattle.std.specs.Prelude.{◌≡◌, ℕ, ℤ, ◌+◌, ◌*◌, ◌^◌, ◌<◌, ◌≤◌, pos, ◌+ℤ◌, ◌-ℤ◌, length};
ghost use Rattle.acas_frac.specs.Rounding.{down, up};
ghost use Rattle.acas_process.specs.Step as process;
ghost use Rattle.acas_frac.specs.Divisor.{IsDivisor};
ghost use Rattle.acas_step_narrow.specs.Raised.{AreRaisedWithin};

use crate::raised::Raised;
use acas_base::Model;
use acas_frac::Divisor;
use acas_units::Pair;

// A raised number over a divisor, rounded up.
pub fn quotient_up(sum: u64, divisor: Divisor) -> u64
    requires divisor { IsDivisor divisor }
    requires room { sum + divisor.by ≤ 2 ^ 63 }
    ensures value { (x : ℤ) (by : ℕ) → pos sum ≡ x +ℤ pos (by * divisor.by)
        → pos result ≡ up x (pos divisor.by) +ℤ pos by }
    ensures within { (most : ℕ) → sum ≤ most * divisor.by → result ≤ most }
{
    divisor.up(sum)
}

// A raised number over a divisor, rounded down.
pub fn quotient_down(sum: u64, divisor: Divisor) -> u64
    requires divisor { IsDivisor divisor }
    requires room { sum < 2 ^ 63 }
    ensures value { (x : ℤ) (by : ℕ) → pos sum ≡ x +ℤ pos (by * divisor.by)
        → pos result ≡ down x (pos divisor.by) +ℤ pos by }
    ensures within { (most : ℕ) → sum ≤ most * divisor.by → result ≤ most }
{
    divisor.down(sum)
}

// The weight of a sigma point.
pub fn narrow_weight(model: &Model, sigma: u32) -> u64
    requires { sigma < length model.now.sigmas }
    ensures { result ≡ process.sigma_weight model.now sigma }
{
    let _ = model.grid();
    u64::from(model.points()[sigma as usize].weight.unsigned_abs())
}

// Sums with a point by its weight.
pub fn with_point(sums: Raised, weight: u64, point: Raised) -> Raised
    requires upper { sums.upper + weight * point.upper < 2 ^ 64 }
    requires lower { sums.lower + weight * point.lower < 2 ^ 64 }
    ensures upper { result.upper ≡ sums.upper + weight * point.upper }
    ensures lower { result.lower ≡ sums.lower + weight * point.lower }
{
    Raised {
        upper: sums.upper + weight * point.upper,
        lower: sums.lower + weight * point.lower,
    }
}

/// A raised number, of at most twice the size by which it is raised, as it was.
pub fn lowered(raised: u64, by: u64) -> i64
    requires within { raised ≤ 2 * by }
    requires room { 2 * by < 2 ^ 63 }
    ensures { result ≡ pos raised -ℤ pos by }
{
    raised as i64 - by as i64
}

/// Both means of which these are the sums over all sigma points, raised, by the whole weight of the points.
pub fn means_of_sums(sums: Raised, total: Divisor, size: u64) -> Pair
    requires total { IsDivisor total }
    requires room { total.by * (2 * size + 1) < 2 ^ 63 }
    requires within { AreRaisedWithin (2 * size * total.by) sums }
    ensures upper { (x : ℤ) → pos sums.upper ≡ x +ℤ pos (size * total.by)
        → result.upper ≡ up x (pos total.by) }
    ensures lower { (x : ℤ) → pos sums.lower ≡ x +ℤ pos (size * total.by)
        → result.lower ≡ down x (pos total.by) }
{
    Pair {
        upper: lowered(quotient_up(sums.upper, total), size),
        lower: lowered(quotient_down(sums.lower, total), size),
    }
}
