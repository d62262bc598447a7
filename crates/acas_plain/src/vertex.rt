//! The entries of a layer at one vertex.
ghost use Rattle.std.specs.Prelude.{◌<◌, ◌≤◌, length};
ghost use Rattle.acas_spec.specs.Model.{states, vertices};
ghost use Rattle.acas_sweep.specs.Entries.{AreWritten, SameElsewhere};

use acas_base::Model;
use acas_sweep::VertexEntries;
use acas_units::Pair;

/// Writes the entries of a vertex under all present advisories.
pub(crate) fn fill_vertex(
    model: &Model,
    vertex: u32,
    entries: &VertexEntries,
    pairs: &mut [Pair],
    advice: &mut [u8],
)
    requires vertex { vertex < vertices model.now.grid }
    requires pairs { states model.now.grid ≤ length pairs.old }
    requires advice { states model.now.grid ≤ length advice.old }
    ensures written { AreWritten model.now.grid vertex model.now.grid.advisories entries.now pairs.new
        advice.new }
    ensures others { SameElsewhere model.now.grid vertex pairs.old advice.old pairs.new advice.new }
{
    for present in 0..model.grid().advisories as u8 {
        let best = entries[usize::from(present)];
        let state = model.grid().state_number(present, vertex) as usize;
        pairs[state] = best.pair;
        advice[state] = best.advice;
    }
}
