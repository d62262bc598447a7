//! Whether some advisory can still be given a second later, where a table advises nothing: the clear cells of a table, each with the
//! first advisory that is shown to keep the two apart. This is the safeable region of Jeannin et al. (TACAS 2015), for whole cells.
#![tactic(auto)]

mod cells;
mod climbs;
mod counts;
mod finding;
mod laws;
mod lines;
mod outlook;
mod reaching;
mod report;

pub use counts::SafeCounts;
pub use finding::standing;
pub use laws::{
    cells_follow_cells, certified_cells_keep_safe, later_contacts_in_numbers, outlooks_are_one,
    outlooks_in_words, reached_areas_hold, reached_ends_are_reached,
};
pub use outlook::{ClearCell, Outlook};
pub use reaching::reached;
pub use report::write_safeable;
