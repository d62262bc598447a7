//! The plain forms of what tables are made and checked by: each value by a search of cells of its own, each layer beside the others in
//! memory. The program runs the streamed forms, which are compared to these.
#![tactic(auto)]

mod backups;
mod cell_search;
mod check;
mod entries;
mod laws;
mod layer;
mod list;
mod means;
mod vertex;

pub use backups::{backup, backup_by, backup_with};
pub use check::{check_by_means, check_entry};
pub use entries::entries_at;
pub use laws::corners_are_one;
pub use list::sweep_list;
pub use means::{fill_means, mean, means_at};
