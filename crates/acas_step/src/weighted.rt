//! The sums of a layer's values by the weights of corners.
ghost use Rattle.std.specs.Prelude.{◌≡◌, ℕ, ◌+◌, ◌-◌, ◌*◌, ◌^◌, ◌<◌, ◌≤◌, pos, neg_ℤ, ◌*ℤ◌, ◌≤ℤ◌, length, slice_index_or};
ghost use Rattle.acas_step.specs.Corners.{IsLight, corner_sum};
ghost use Rattle.acas_means.specs.Layer.{value_at, value_of};
ghost use Rattle.acas_step.specs.Sizes.{greatest_weight};
ghost use Rattle.acas_step.specs.declared.cell.Corner.{Corner};

use crate::cell::Corner;
use acas_means::Side;
use acas_units::Pair;

// The value of a side.
pub(crate) fn value_of(pair: Pair, side: Side) -> i64
    ensures { result ≡ value_of side pair }
{
    match side {
        Side::Upper => pair.upper,
        Side::Lower => pair.lower,
    }
}

// A value times a weight that is not negative: it is between that weight of the least and of the greatest value of 64 bits.
pub(crate) fn weighted(weight: i128, value: i64) -> i128
    requires positive { pos 0 ≤ℤ weight }
    requires light { weight ≤ℤ pos greatest_weight }
    ensures value { result ≡ weight *ℤ value }
    ensures high { result ≤ℤ (pos (2 ^ 63 - 1) *ℤ weight) }
    ensures low { (neg_ℤ (pos (2 ^ 63)) *ℤ weight) ≤ℤ result }
{
    weight * value as i128
}

// The sum of a layer's values by the weights of corners, where the states of an advisory begin at `first`.
pub(crate) fn weighted_sum(corners: &[Corner], first: usize, side: Side, below: &[Pair]) -> i128
    requires few { length corners.now ≤ 8 }
    requires inside { (n : ℕ) (d : Corner) → n < length corners.now
        → first + (slice_index_or corners.now n d).vertex < length below.now }
    requires weights { (n : ℕ) (d : Corner) → n < length corners.now
        → IsLight (slice_index_or corners.now n d) }
    ensures value { result ≡ corner_sum corners.now (λ n. value_at side below.now (first + n)) }
    ensures high { result ≤ℤ (pos (2 ^ 63 - 1) *ℤ corner_sum corners.now (λ n. pos 1)) }
    ensures low { (neg_ℤ (pos (2 ^ 63)) *ℤ corner_sum corners.now (λ n. pos 1)) ≤ℤ result }
{
    let mut sum: i128 = 0;
    for corner in corners {
        let value = value_of(below[first + corner.vertex as usize], side);
        sum += weighted(corner.weight, value);
    }
    sum
}
