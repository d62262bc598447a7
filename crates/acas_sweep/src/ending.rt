//! The entries with no second to go.
ghost use Rattle.std.specs.Prelude.{◌<◌};
ghost use Rattle.acas_spec.specs.Model.{vertices};
ghost use Rattle.acas_process.specs.Compiled.{compiled};
ghost use Rattle.acas_grid.specs.States.{vertex_at};
ghost use Rattle.acas_means.specs.Entries.{IsEntryOf};

use acas_base::Model;
use acas_means::terminal;
use acas_units::{Entry, Pair};

/// The entry of a vertex with no second to go, under each present advisory: the cost at the end, and no advice, which is written 255.
pub fn terminal_entry(model: &Model, vertex: u32) -> Entry
    requires { vertex < vertices model.now.grid }
    ensures { IsEntryOf (compiled model.now) 0 0 (vertex_at model.now.grid vertex) result }
{
    let cost = 1_000_000 * terminal(model, vertex);
    Entry {
        pair: Pair {
            upper: cost,
            lower: cost,
        },
        advice: 255,
    }
}
