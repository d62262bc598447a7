//! Both means of a layer at the vertices of a column under one advisory, by the stencils of a model, without a search of cells. Where two
//! advisories lead to the same means from a column they are formed once.
ghost use Rattle.std.specs.Prelude.{◌≡◌, ◌≢◌, ℕ, ◌+◌, ◌<◌, ◌≤◌, length, unsigned_abs};
ghost use Rattle.acas_means.specs.Columns.{AreAllWithin, AreColumnChanges, AreMeansIn, pairs_at};
ghost use Rattle.acas_step_columns.specs.ColumnSums.{HasColumn, IsSource};
ghost use Rattle.acas_means.specs.Layer.{AreWithin, pair_at, value_of};
ghost use Rattle.acas_means.specs.declared.layer.Side.{Side};

use crate::column_sums::fill_sums;
use crate::means_over::MeansOver;
use crate::wide_means::wide_means;
use acas_frac::{Down, Up};
use acas_means::{ColumnMeans, Side, VertexMeans, vertex_in_column};
use acas_step::{Changes, first_twin, mean_by};
use acas_step_narrow::{Raised, SideColumn, WIDE_SIZE, means_of_sums};
use acas_step_stencils::Stencils;
use acas_units::{GREATEST_ADVISORIES, Pair};

/// What the means of a column under an advisory are taken from.
#[derive(Clone, Copy)]
pub(crate) enum Source {
    /// Those under an earlier advisory.
    Twin(u8),

    /// Sums of 64 bits.
    Sums,

    /// The layer below, both sides at once in 128 bits.
    Wide,

    /// The layer below, each side by itself.
    Layer,
}

/// Finds what the means of a column under an advisory are to be taken from, and writes their sums where 64 bits hold them: no value is
/// too large for the weights of the cells.
pub(crate) fn source_of(
    over: &MeansOver<'_>,
    column: u32,
    changes: &Changes,
    advisory: u8,
    blend_uppers: &mut SideColumn,
    blend_lowers: &mut SideColumn,
    uppers: &mut SideColumn,
    lowers: &mut SideColumn,
) -> Source
    requires { HasColumn over.now column advisory }
    ensures { IsSource over.now changes.now column advisory uppers.new lowers.new result }
{
    let _ = over.model.grid();
    let twin = first_twin(&over.reach.likes, changes, advisory);
    if twin < advisory {
        return Source::Twin(twin);
    }
    if over.stencils.total.by <= over.reach.widest
        && fill_sums(
            over,
            column,
            advisory,
            blend_uppers,
            blend_lowers,
            uppers,
            lowers,
        )
    {
        return Source::Sums;
    }
    if over.reach.size <= WIDE_SIZE {
        return Source::Wide;
    }
    Source::Layer
}

// Both means at a vertex of a column under an advisory, by what they are to be taken from, where those under the earlier advisories
// stand already.
fn mean_pair_from(
    over: &MeansOver<'_>,
    column: u32,
    i: u32,
    changes: &Changes,
    advisory: u8,
    source: Source,
    uppers: &SideColumn,
    lowers: &SideColumn,
    earlier: &VertexMeans,
) -> Pair
    requires column { HasColumn over.now column advisory }
    requires place { i < length over.now.model.now.grid.h }
    requires changes { AreColumnChanges over.now.model.now column changes.now }
    requires source { IsSource over.now changes.now column advisory uppers.now lowers.now source }
    requires earlier { (b : ℕ) → b < advisory
        → AreMeansIn over.now.model.now over.now.below.now column i b (pair_at earlier.now b) }
    ensures means { AreMeansIn over.now.model.now over.now.below.now column i advisory result }
    ensures bounded { (most : ℕ) (side : Side) → AreWithin most side over.now.below.now
        → unsigned_abs (value_of side result) ≤ most }
{
    let grid = over.model.grid();
    match source {
        Source::Twin(twin) => earlier[usize::from(twin)],
        Source::Sums => {
            let sums = Raised {
                upper: uppers[i as usize],
                lower: lowers[i as usize],
            };
            means_of_sums(sums, over.stencils.total, over.reach.size)
        }
        Source::Wide => wide_means(over, column, i, advisory),
        Source::Layer => {
            let vertex = vertex_in_column(grid, column, i);
            Pair {
                upper: mean_by::<Up, Stencils>(
                    over.model,
                    over.stencils,
                    vertex,
                    advisory,
                    Side::Upper,
                    over.below,
                ),
                lower: mean_by::<Down, Stencils>(
                    over.model,
                    over.stencils,
                    vertex,
                    advisory,
                    Side::Lower,
                    over.below,
                ),
            }
        }
    }
}

// Writes the pair of an advisory.
fn set_pair(pairs: &mut VertexMeans, advisory: u8, pair: Pair)
    requires { advisory < GREATEST_ADVISORIES }
    ensures pair { pair_at pairs.new advisory ≡ pair }
    ensures others { (b : ℕ) → b ≢ advisory → pair_at pairs.new b ≡ pair_at pairs.old b }
    ensures bounded { (most : ℕ) (side : Side) → unsigned_abs (value_of side pair) ≤ most
        → AreWithin most side pairs.old → AreWithin most side pairs.new }
{
    pairs[usize::from(advisory)] = pair;
}

/// Writes both means at the vertices of a column under an advisory, where those under the earlier advisories stand already.
pub(crate) fn fill_advisory(
    over: &MeansOver<'_>,
    column: u32,
    changes: &Changes,
    advisory: u8,
    source: Source,
    uppers: &SideColumn,
    lowers: &SideColumn,
    means: &mut ColumnMeans,
)
    requires column { HasColumn over.now column advisory }
    requires changes { AreColumnChanges over.now.model.now column changes.now }
    requires source { IsSource over.now changes.now column advisory uppers.now lowers.now source }
    requires earlier { (i b : ℕ) → i < length over.now.model.now.grid.h → b < advisory
        → AreMeansIn over.now.model.now over.now.below.now column i b (pair_at (pairs_at means.old i) b) }
    ensures means { (i b : ℕ) → i < length over.now.model.now.grid.h → b < advisory + 1
        → AreMeansIn over.now.model.now over.now.below.now column i b (pair_at (pairs_at means.new i) b) }
    ensures bounded { (most : ℕ) (side : Side) → AreWithin most side over.now.below.now
        → AreAllWithin most side means.old → AreAllWithin most side means.new }
{
    for i in 0..over.model.grid().h.len() {
        let pair = mean_pair_from(
            over,
            column,
            i,
            changes,
            advisory,
            source,
            uppers,
            lowers,
            &means[i as usize],
        );
        set_pair(&mut means[i as usize], advisory, pair);
    }
}
