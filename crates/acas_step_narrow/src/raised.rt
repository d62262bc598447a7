//! The values of a layer at the corners of a cell, in 64 bits and both sides at once: they are blended on the two rates, raised by as
//! much as the blends can be, so that none is below 0, and blended on the altitude. The weights on the rates are multiplied out once.
ghost use Rattle.std.specs.Prelude.{◌≡◌, ℕ, ◌+◌, ◌*◌, ◌^◌, ◌<◌, ◌≤◌, length, unsigned_abs};
ghost use Rattle.acas_means.specs.Layer.{AreWithin};
ghost use Rattle.acas_step.specs.Sizes.{rate_gap};
ghost use Rattle.acas_step.specs.declared.cell.Cell.{Cell as CellValue};
ghost use Rattle.acas_step_narrow.specs.Raised.{AreRaisedWithin, AreRateWeights, AreSummed, HasRoom, HaveRoom, along_v0, blended, raised, raised_at, raised_in, weighted_sum, width};
ghost use Rattle.acas_means.specs.declared.layer.Side.TheVariants.{Upper, Lower};

use acas_step::{Cell, Ends};
use acas_units::{GREATEST_VERTICES, Pair};

/// A number for each side, raised so that it is not below 0.
#[derive(Clone, Copy)]
pub struct Raised {
    pub upper: u64,
    pub lower: u64,
}

/// A value, raised by a size that it does not exceed.
pub(crate) fn raise(value: i64, by: u64) -> u64
    requires within { unsigned_abs value ≤ by }
    requires room { 2 * by < 2 ^ 63 }
    ensures value { result ≡ raised by value }
    ensures within { result ≤ 2 * by }
{
    (value + by as i64) as u64
}

// Two numbers at the ends of a cell on an axis, each times the distance to the other end.
fn blend(near: u64, far: u64, ends: Ends) -> u64
    requires near { near * width ends < 2 ^ 63 }
    requires far { far * width ends < 2 ^ 63 }
    ensures { result ≡ blended ends near far }
{
    near * ends.lower + far * ends.upper
}

// The same where the number at the far end has no weight, whatever it is.
fn near_alone(near: u64, ends: Ends) -> u64
    requires near { near * width ends < 2 ^ 63 }
    requires far { ends.upper ≡ 0 }
    ensures { (far : ℕ) → result ≡ blended ends near far }
{
    near * ends.lower
}

/// The weights of the four corners of a cell on both rates, each the product of the distances to the other ends, and by how much their
/// sums are raised.
#[derive(Clone, Copy)]
pub struct RateWeights {
    here: i64,
    next: i64,
    row: i64,
    both: i64,
    most: u64,
}

/// The weights of a cell, for values that are no further from 0 than a number by which they are raised.
pub fn rate_weights(cell: &Cell, by: u64) -> RateWeights
    requires v0 { width cell.now.v0 ≤ rate_gap }
    requires v1 { width cell.now.v1 ≤ rate_gap }
    requires room { HasRoom (2 * by) cell.now }
    ensures { AreRateWeights cell.now by result }
{
    let v0 = cell.v0;
    let v1 = cell.v1;
    RateWeights {
        here: (v0.lower * v1.lower) as i64,
        next: (v0.lower * v1.upper) as i64,
        row: (v0.upper * v1.lower) as i64,
        both: (v0.upper * v1.upper) as i64,
        most: by * (v1.lower + v1.upper) * (v0.lower + v0.upper),
    }
}

// The sum of four values by the weights of the corners.
fn sum_by(weights: &RateWeights, here: i64, next: i64, row: i64, both: i64) -> i64
    requires { (by : ℕ) × AreSummed weights.now by here next row both }
    ensures { result ≡ weighted_sum weights.now here next row both }
{
    weights.here * here + weights.next * next + weights.row * row + weights.both * both
}

/// The values from a place on, blended on the intruder rate and on the own rate, which is a row further at each place, and raised: as
/// the blends of the raised values.
pub fn along_rates(below: &[Pair], at: usize, row: usize, weights: &RateWeights) -> Raised
    requires place { at + row + 1 < length below.now }
    requires weights { (t : CellValue) × (by : ℕ) × AreRateWeights t by weights.now
        × AreWithin by Upper below.now × AreWithin by Lower below.now }
    ensures upper { (t : CellValue) (by : ℕ) → AreRateWeights t by weights.now → AreWithin by Upper below.now
        → result.upper ≡ along_v0 t row (raised_at by Upper below.now) at }
    ensures lower { (t : CellValue) (by : ℕ) → AreRateWeights t by weights.now → AreWithin by Lower below.now
        → result.lower ≡ along_v0 t row (raised_at by Lower below.now) at }
    ensures within { AreRaisedWithin (2 * weights.now.most) result }
{
    let here = below[at];
    let next = below[at + 1];
    let other = below[at + row];
    let both = below[at + row + 1];
    let upper = sum_by(weights, here.upper, next.upper, other.upper, both.upper);
    let lower = sum_by(weights, here.lower, next.lower, other.lower, both.lower);
    Raised {
        upper: raise(upper, weights.most),
        lower: raise(lower, weights.most),
    }
}

/// The raised numbers of one side, by the place of the altitude.
pub type SideColumn = [u64; GREATEST_VERTICES as usize];

/// The numbers of a column, blended on the altitude.
pub fn along_h(uppers: &SideColumn, lowers: &SideColumn, ends: Ends) -> Raised
    requires place { ends.cell + 1 < GREATEST_VERTICES }
    requires near { HaveRoom (width ends) (raised_in uppers.now lowers.now ends.cell) }
    requires far { HaveRoom (width ends) (raised_in uppers.now lowers.now (ends.cell + 1)) }
    ensures upper { result.upper
        ≡ blended ends (raised_in uppers.now lowers.now ends.cell).upper (raised_in uppers.now lowers.now (ends.cell + 1)).upper }
    ensures lower { result.lower
        ≡ blended ends (raised_in uppers.now lowers.now ends.cell).lower (raised_in uppers.now lowers.now (ends.cell + 1)).lower }
{
    let place = ends.cell as usize;
    let near = Raised {
        upper: uppers[place],
        lower: lowers[place],
    };
    if ends.upper == 0 {
        return Raised {
            upper: near_alone(near.upper, ends),
            lower: near_alone(near.lower, ends),
        };
    }
    Raised {
        upper: blend(near.upper, uppers[place + 1], ends),
        lower: blend(near.lower, lowers[place + 1], ends),
    }
}
