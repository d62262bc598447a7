//! Sums over the corners of a cell in 128 bits, where the values of a layer are too large for sums of 64 bits: those of both sides at
//! once, raised so that none is below 0, and their quotients.
ghost use Rattle.std.specs.Prelude.{◌≡◌, ◌+◌, ◌-◌, ◌*◌, ◌/◌, ◌^◌, ◌<◌, ◌≤◌, pos, ◌-ℤ◌, length, unsigned_abs};
ghost use Rattle.acas_frac.specs.Divisor.{IsDivisor};
ghost use Rattle.acas_means.specs.Layer.{AreWithin};
ghost use Rattle.acas_step.specs.Sizes.{altitude_gap, greatest_weight, rate_gap};
ghost use Rattle.acas_means.specs.declared.layer.Side.TheVariants.{Upper, Lower};
ghost use Rattle.acas_step_narrow.specs.Raised.{along_h, along_v0, raised, raised_at, width};

use crate::raised::raise;
use acas_frac::Divisor;
use acas_step::{Cell, product};
use acas_units::Pair;

/// The size of the largest values of which these sums are formed, in millionths.
pub const WIDE_SIZE: u64 = 1 << 61;

/// A sum of raised numbers for each side.
#[derive(Clone, Copy)]
pub struct WideSums {
    pub upper: u128,
    pub lower: u128,
}

// Sums with the two values of a pair, raised, by a weight.
fn with_pair(sums: WideSums, weight: u64, pair: Pair, by: u64) -> WideSums
    requires pair_upper { unsigned_abs pair.upper ≤ by }
    requires pair_lower { unsigned_abs pair.lower ≤ by }
    requires by { by ≤ WIDE_SIZE }
    requires weight { weight ≤ greatest_weight }
    requires upper { sums.upper ≤ 2 ^ 120 }
    requires lower { sums.lower ≤ 2 ^ 120 }
    ensures upper { result.upper ≡ sums.upper + weight * raised by pair.upper }
    ensures lower { result.lower ≡ sums.lower + weight * raised by pair.lower }
    ensures upper_room { result.upper ≤ sums.upper + 2 ^ 112 }
    ensures lower_room { result.lower ≤ sums.lower + 2 ^ 112 }
{
    WideSums {
        upper: sums.upper + u128::from(weight) * u128::from(raise(pair.upper, by)),
        lower: sums.lower + u128::from(weight) * u128::from(raise(pair.lower, by)),
    }
}

// Sums with the values at the four corners of a cell at one altitude, by the weight of that altitude and those of the corners on both
// rates, where the lower corner has a place in the layer, and the next own rate is a row further.
fn with_altitude(
    sums: WideSums,
    weight: u64,
    below: &[Pair],
    place: usize,
    row: usize,
    cell: &Cell,
    by: u64,
) -> WideSums
    requires place { place + row + 1 < length below.now }
    requires weight { weight ≤ altitude_gap }
    requires v0 { width cell.now.v0 ≤ rate_gap }
    requires v1 { width cell.now.v1 ≤ rate_gap }
    requires within_upper { AreWithin by Upper below.now }
    requires within_lower { AreWithin by Lower below.now }
    requires by { by ≤ WIDE_SIZE }
    requires upper { sums.upper ≤ 2 ^ 119 }
    requires lower { sums.lower ≤ 2 ^ 119 }
    ensures upper { result.upper
        ≡ sums.upper + weight * along_v0 cell.now row (raised_at by Upper below.now) place }
    ensures lower { result.lower
        ≡ sums.lower + weight * along_v0 cell.now row (raised_at by Lower below.now) place }
    ensures upper_room { result.upper ≤ sums.upper + 2 ^ 114 }
    ensures lower_room { result.lower ≤ sums.lower + 2 ^ 114 }
{
    let v0 = cell.v0;
    let v1 = cell.v1;
    let next = place + row;
    let one = with_pair(sums, product(weight, v0.lower, v1.lower), below[place], by);
    let two = with_pair(
        one,
        product(weight, v0.lower, v1.upper),
        below[place + 1],
        by,
    );
    let three = with_pair(two, product(weight, v0.upper, v1.lower), below[next], by);
    with_pair(
        three,
        product(weight, v0.upper, v1.upper),
        below[next + 1],
        by,
    )
}

/// The sums of both sides over the corners of a cell by their weights, of values in millionths that are raised by a size of no more than
/// `WIDE_SIZE`, where the lower corner has a place in the layer, the next own rate is a row further, and the next altitude a plane.
pub fn corner_sums(
    below: &[Pair],
    place: usize,
    row: usize,
    plane: usize,
    cell: &Cell,
    by: u64,
) -> WideSums
    requires place { place + plane + row + 1 < length below.now }
    requires h { width cell.now.h ≤ altitude_gap }
    requires v0 { width cell.now.v0 ≤ rate_gap }
    requires v1 { width cell.now.v1 ≤ rate_gap }
    requires upper { AreWithin by Upper below.now }
    requires lower { AreWithin by Lower below.now }
    requires by { by ≤ WIDE_SIZE }
    ensures upper { result.upper ≡ along_h cell.now row plane (raised_at by Upper below.now) place }
    ensures lower { result.lower ≡ along_h cell.now row plane (raised_at by Lower below.now) place }
    ensures upper_room { result.upper < 2 ^ 120 }
    ensures lower_room { result.lower < 2 ^ 120 }
{
    let h = cell.h;
    let none = WideSums { upper: 0, lower: 0 };
    let near = with_altitude(none, h.lower, below, place, row, cell, by);
    with_altitude(near, h.upper, below, place + plane, row, cell, by)
}

/// A sum over a divisor of at most 2^62, rounded up, where the quotient is no more than twice the greatest size.
pub fn up_wide(sum: u128, divisor: Divisor) -> u64
    requires divisor { IsDivisor divisor }
    requires by { divisor.by ≤ 2 ^ 62 }
    requires room { sum ≤ 2 ^ 62 * divisor.by }
    ensures { result ≡ (sum + (divisor.by - 1)) / divisor.by }
{
    divisor.down_wide(sum + u128::from(divisor.by - 1)) as u64
}

/// The same, rounded down.
pub fn down_wide(sum: u128, divisor: Divisor) -> u64
    requires divisor { IsDivisor divisor }
    requires by { divisor.by ≤ 2 ^ 62 }
    requires room { sum ≤ 2 ^ 62 * divisor.by }
    ensures { result ≡ sum / divisor.by }
{
    divisor.down_wide(sum) as u64
}
