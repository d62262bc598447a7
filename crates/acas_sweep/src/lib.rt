//! The compiled table of a model, layer by layer, from no second to go up to the horizon: the value of a choice and the best entries
//! over a layer, with the count of the backups, and the sweep over the layers. The method is backward induction on a
//! Markov decision process, as in ATC-371 (Kochenderfer and Chryssanthacopoulos, MIT Lincoln Laboratory, 2011), with bounds
//! from both sides.
#![tactic(auto)]

mod backups;
mod best;
mod ending;
mod entries;
mod laws;
mod order;
mod plane;
mod priced;
mod room;
mod sink;
mod stream;
mod two;
mod vertex;

pub use acas_base::Layers;
pub use backups::{Backups, MeanSource, value_over};
pub use ending::terminal_entry;
pub use entries::{ColumnEntries, VertexEntries, blank_entries, fill_entries};
pub use laws::{advices_are_advisories, backups_are_few};
pub use order::vertex_after;
pub use room::{Sweep, SweepRoom, sweep_to};
pub use sink::{LayerFailed, LayerSink};
pub use stream::{SweepFault, sweep};
pub use vertex::{VertexMeansSource, entries_over};
