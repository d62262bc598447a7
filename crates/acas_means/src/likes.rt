//! Under which advisories a layer has the same pairs.
ghost use Rattle.std.specs.Prelude.{◌≡◌, ℕ, ◌<◌, true, length};
ghost use Rattle.acas_spec.specs.Model.{states, vertices};
ghost use Rattle.acas_grid.specs.Grid.{state_number};
ghost use Rattle.acas_means.specs.Layer.{pair_at};
ghost use Rattle.acas_means.specs.Reach.{AreAlike, AreLikes};

use crate::layer::first_state;
use crate::means::advisory_count;
use acas_base::Model;
use acas_units::{GREATEST_ADVISORIES, Pair};

/// For each advisory by its number the first one under which a layer has the same pairs.
pub type Likes = [u8; GREATEST_ADVISORIES as usize];

// The pairs of a layer under an advisory, vertex by vertex.
fn plane_under<'l>(model: &Model, advisory: u8, below: &'l [Pair]) -> &'l [Pair]
    requires advisory { advisory < model.now.grid.advisories }
    requires below { length below.now ≡ states model.now.grid }
    ensures count { length result.now ≡ vertices model.now.grid }
    ensures pairs { (v : ℕ) → v < vertices model.now.grid
        → pair_at result.now v ≡ pair_at below.now (state_number model.now.grid advisory v) }
{
    let grid = model.grid();
    let first = first_state(grid, advisory);
    &below[first..first + grid.vertices() as usize]
}

// Whether two planes have the same pairs.
fn are_same(plane: &[Pair], other: &[Pair]) -> bool
    requires { length plane.now ≡ length other.now }
    ensures { result ≡ true → (v : ℕ) → v < length plane.now → pair_at plane.now v ≡ pair_at other.now v }
{
    for v in 0..plane.len() {
        if plane[v].upper != other[v].upper || plane[v].lower != other[v].lower {
            return false;
        }
    }
    true
}

// The first advisory under which a layer has the same pairs as under this one.
fn first_like(model: &Model, advisory: u8, below: &[Pair]) -> u8
    requires advisory { advisory < model.now.grid.advisories }
    requires below { length below.now ≡ states model.now.grid }
    ensures { AreAlike model.now.grid below.now advisory result }
{
    let plane = plane_under(model, advisory, below);
    for earlier in 0..advisory {
        if are_same(plane, plane_under(model, earlier, below)) {
            return earlier;
        }
    }
    advisory
}

/// For each advisory the first one under which a layer has the same pairs.
pub(crate) fn likes_of(model: &Model, below: &[Pair]) -> Likes
    requires { length below.now ≡ states model.now.grid }
    ensures { AreLikes model.now.grid below.now result }
{
    let mut likes = [0u8; GREATEST_ADVISORIES as usize];
    for advisory in 0..advisory_count(model) {
        likes[usize::from(advisory)] = first_like(model, advisory, below);
    }
    likes
}
