//! The value of a choice at a vertex by the layer below it, as a backup of dynamic programming forms it, each by a search of its own.
ghost use Rattle.std.specs.Prelude.{◌≡◌, ℕ, ◌+◌, ◌*◌, ◌<◌, ◌≤◌, ◌^◌, length, unsigned_abs};
ghost use Rattle.acas_spec.specs.Model.{states, vertices};
ghost use Rattle.acas_grid.specs.States as numbers;
ghost use Rattle.acas_means.specs.Layer.{AreWithin, layer_values};
ghost use Rattle.acas_step_stencils.specs.Stencils.{AreStencilsOf};
ghost use Rattle.acas_means.specs.Values.{counted, value_with_cost};

use crate::cell_search::CellSearch;
use acas_base::Model;
use acas_frac::Rounding;
use acas_means::Side;
use acas_spec::Choice;
use acas_step::{LedTo, mean_by};
use acas_step_stencils::Stencils;
use acas_sweep::{Backups, MeanSource, value_over};
use acas_units::Pair;

/// The means by what gives the corners.
#[derive(Drop)]
struct MeansBy<'a, L: LedTo> {
    led_to: &'a L,
}

impl<L: LedTo> MeanSource for MeansBy<'_, L> {
    ghost serves = { λ it m. L.serves it.led_to.now m };

    fn mean<R: Rounding>(
        &self,
        model: &Model,
        vertex: u32,
        advisory: u8,
        side: Side,
        below: &[Pair],
    ) -> i64 {
        mean_by::<R, L>(model, self.led_to, vertex, advisory, side, below)
    }
}

/// The value of a choice as `backup` gives it, by what gives the corners. It counts one backup for the upper side and none for the
/// lower.
pub fn backup_by<R: Rounding, L: LedTo>(
    model: &Model,
    led_to: &L,
    vertex: u32,
    choice: &Choice,
    side: Side,
    below: &[Pair],
    count: &mut Backups,
) -> i128
    requires serves { L.serves led_to.now model.now }
    requires vertex { vertex < vertices model.now.grid }
    requires advisory { choice.now.advisory < model.now.grid.advisories }
    requires below { length below.now ≡ states model.now.grid }
    requires count { count.old + counted side < 2 ^ 64 }
    ensures value { let x = numbers.vertex_at model.now.grid vertex in
        result ≡ value_with_cost R.round model.now (layer_values side model.now.grid below.now) x choice.now }

    // It is at most the cost of the choice larger than the largest value below.
    ensures bounded { (most : ℕ) → AreWithin most side below.now
        → unsigned_abs result ≤ most + 1_000_000 * unsigned_abs choice.now.cost }
    ensures count { count.new ≡ count.old + counted side }
{
    let source = MeansBy { led_to };
    value_over::<R, MeansBy<L>>(model, &source, vertex, choice, side, below, count)
}

/// The value of a choice at a vertex by the layer below, in millionths, whose pairs stand in the order of the states' numbers.
/// It counts one backup for the upper side and none for the lower.
pub fn backup<R: Rounding>(
    model: &Model,
    vertex: u32,
    choice: &Choice,
    side: Side,
    below: &[Pair],
    count: &mut Backups,
) -> i128
    requires vertex { vertex < vertices model.now.grid }
    requires advisory { choice.now.advisory < model.now.grid.advisories }
    requires below { length below.now ≡ states model.now.grid }
    requires count { count.old + counted side < 2 ^ 64 }
    ensures value { let x = numbers.vertex_at model.now.grid vertex in
        result ≡ value_with_cost R.round model.now (layer_values side model.now.grid below.now) x choice.now }

    // It is at most the cost of the choice larger than the largest value below.
    ensures bounded { (most : ℕ) → AreWithin most side below.now
        → unsigned_abs result ≤ most + 1_000_000 * unsigned_abs choice.now.cost }
    ensures count { count.new ≡ count.old + counted side }
{
    backup_by::<R, CellSearch>(model, &CellSearch, vertex, choice, side, below, count)
}

/// The value of a choice as `backup` gives it, by the stencils of the model. It counts one backup for the upper side and none for
/// the lower.
pub fn backup_with<R: Rounding>(
    model: &Model,
    stencils: &Stencils,
    vertex: u32,
    choice: &Choice,
    side: Side,
    below: &[Pair],
    count: &mut Backups,
) -> i128
    requires stencils { AreStencilsOf model.now stencils.now }
    requires horizon { 0 < model.now.grid.horizon }
    requires vertex { vertex < vertices model.now.grid }
    requires advisory { choice.now.advisory < model.now.grid.advisories }
    requires below { length below.now ≡ states model.now.grid }
    requires count { count.old + counted side < 2 ^ 64 }
    ensures value { let x = numbers.vertex_at model.now.grid vertex in
        result ≡ value_with_cost R.round model.now (layer_values side model.now.grid below.now) x choice.now }

    // It is at most the cost of the choice larger than the largest value below.
    ensures bounded { (most : ℕ) → AreWithin most side below.now
        → unsigned_abs result ≤ most + 1_000_000 * unsigned_abs choice.now.cost }
    ensures count { count.new ≡ count.old + counted side }
{
    backup_by::<R, Stencils>(model, stencils, vertex, choice, side, below, count)
}
