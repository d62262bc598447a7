//! The mean of a layer's values over the points to which a second leads.
ghost use Rattle.std.specs.Prelude.{◌≡◌, ℕ, ◌<◌, ◌≤◌, pos, ◌≤ℤ◌, length, unsigned_abs};
ghost use Rattle.acas_spec.specs.Limits.{IsModel};
ghost use Rattle.acas_spec.specs.Model.{states, total_weight, vertices};
ghost use Rattle.acas_spec.specs.declared.place.Point.{Point};
ghost use Rattle.acas_process.specs.Values.{interpolated};
ghost use Rattle.acas_process.specs.Step as process;
ghost use Rattle.acas_step.specs.Corners.{IsInterpolation, IsWeighting};
ghost use Rattle.acas_means.specs.Layer.{AreWithin, layer_values};
ghost use Rattle.acas_means.specs.Values.{layer_mean};

use crate::cell::CornerSet;
use crate::led_to::LedTo;
use crate::weighted::{weighted, weighted_sum};
use acas_base::Model;
use acas_frac::Rounding;
use acas_means::{Side, first_state};
use acas_units::{GREATEST_TOTAL_WEIGHT, GREATEST_WEIGHT, Pair};

// The values of the layer below under an advisory, interpolated by the corners of a point's cell and rounded.
fn interpolated<R: Rounding>(
    model: &Model,
    set: &CornerSet,
    advisory: u8,
    side: Side,
    below: &[Pair],
) -> i64
    requires weights { IsWeighting model.now.grid set.now.corners set.now.total }
    requires advisory { advisory < model.now.grid.advisories }
    requires below { length below.now ≡ states model.now.grid }
    ensures { (at : Point) → IsInterpolation model.now.grid at set.now.corners set.now.total
        → result ≡ interpolated R.round model.now (layer_values side model.now.grid below.now) advisory at }
{
    let first = first_state(model.grid(), advisory);
    let sum = weighted_sum(&set.corners, first, side, below);
    R::div(sum, set.total) as i64
}

pub fn sigma_count(model: &Model) -> u32
    ensures value { result ≡ length model.now.sigmas }
    ensures valid { IsModel model.now }
{
    let _ = model.grid();
    model.points().len() as u32
}

fn sigma_weight(model: &Model, sigma: u32) -> i128
    requires { sigma < length model.now.sigmas }
    ensures value { result ≡ pos (process.sigma_weight model.now sigma) }
    ensures light { result ≤ℤ GREATEST_WEIGHT }
{
    let _ = model.grid();
    i128::from(model.points()[sigma as usize].weight)
}

pub fn total_weight(model: &Model) -> i128
    ensures value { result ≡ pos (total_weight model.now) }
    ensures some { 0 < total_weight model.now }
    ensures light { total_weight model.now ≤ GREATEST_TOTAL_WEIGHT }
{
    let _ = model.grid();
    i128::from(model.total_weight())
}

/// The mean of a layer's values over the points to which the sigma points lead from a vertex within a second under an advisory,
/// in millionths, rounded at each point and once more at the end, by what gives the corners. It is the same for each present advisory,
/// and no mean is larger than the largest value.
pub fn mean_by<R: Rounding, L: LedTo>(
    model: &Model,
    led_to: &L,
    vertex: u32,
    advisory: u8,
    side: Side,
    below: &[Pair],
) -> i64
    requires serves { L.serves led_to.now model.now }
    requires vertex { vertex < vertices model.now.grid }
    requires advisory { advisory < model.now.grid.advisories }
    requires below { length below.now ≡ states model.now.grid }
    ensures value { result ≡ layer_mean R.round model.now side below.now vertex advisory }
    ensures bounded { (most : ℕ) → AreWithin most side below.now → unsigned_abs result ≤ most }
{
    let mut sum: i128 = 0;
    for sigma in 0..sigma_count(model) {
        let set = led_to.corners_led_to(model, vertex, advisory, sigma);
        let value = interpolated::<R>(model, &set, advisory, side, below);
        sum += weighted(sigma_weight(model, sigma), value);
    }
    R::div(sum, total_weight(model)) as i64
}
