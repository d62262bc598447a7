//! When an area of states is apart, during a window, from an intruder that may change its rate, and when its curves are first nearest
//! that intruder: in whole numbers of 128 bits, without a division.
#![tactic(auto)]

mod apart;
mod conflict;
mod contest;
mod first;
mod nearest;
mod number;
mod search;
mod sides;
mod turn;

pub use apart::is_apart;
pub use conflict::Conflict;
pub use search::{SearchTimes, search_times};
