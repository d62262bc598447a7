//! One layer of the compiled table.
ghost use Rattle.std.specs.Prelude.{◌≡◌, ◌+◌, ◌<◌, ◌≤◌, ◌^◌, length};
ghost use Rattle.acas_spec.specs.Model.{states, vertices};
ghost use Rattle.acas_plain.specs.Below.{AreBelow};
ghost use Rattle.acas_sweep.specs.Entries.{AreOver, IsWhole};
ghost use Rattle.acas_sweep.specs.Layers.{layer_backups};

use crate::entries::entries_at;
use crate::vertex::fill_vertex;
use acas_base::Model;
use acas_sweep::{Backups, terminal_entry, vertex_after};
use acas_units::Pair;

/// Writes the layer with no second to go.
pub(crate) fn fill_first(model: &Model, pairs: &mut [Pair], advice: &mut [u8])
    requires pairs { states model.now.grid ≤ length pairs.old }
    requires advice { states model.now.grid ≤ length advice.old }
    ensures { AreBelow model.now 1 pairs.new advice.new }
{
    for state in 0..model.grid().states() {
        let entry = terminal_entry(model, state % model.grid().vertices());
        pairs[state as usize] = entry.pair;
        advice[state as usize] = entry.advice;
    }
}

/// Writes a layer over the one below, vertex by vertex, each by its own search of cells. It takes no memory.
pub(crate) fn fill_over(
    model: &Model,
    below: &[Pair],
    pairs: &mut [Pair],
    advice: &mut [u8],
    count: &mut Backups,
)
    requires below { IsWhole model.now below.now }
    requires pairs { states model.now.grid ≤ length pairs.old }
    requires advice { states model.now.grid ≤ length advice.old }
    requires count { count.old + layer_backups model.now < 2 ^ 64 }
    ensures over { AreOver model.now below.now (vertices model.now.grid) pairs.new advice.new }
    ensures count { count.new ≡ count.old + layer_backups model.now }
{
    for written in 0..model.grid().vertices() {
        let vertex = vertex_after(model.grid(), written);
        let entries = entries_at(model, vertex, below, count);
        fill_vertex(model, vertex, &entries, pairs, advice);
    }
}
