//! The check of a table's entries, which takes nothing from how the table was made: whether an entry is sound by the layer
//! below it, and if not, why. A table whose entries are all sound bounds the expected cost from both sides.
#![tactic(auto)]

mod below;
mod check;
mod choices;
mod laws;
mod leasts;
mod near;
mod plane;

pub use acas_spec::BoundFault;
pub use check::{check_at, check_at_vertex};
pub use laws::{faults_are_first, sound_entries_have_no_fault};
pub use leasts::{fill_leasts, have_same_choices};
pub use near::is_sound_at;
pub use plane::Plane;
