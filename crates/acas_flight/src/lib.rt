//! Flights of an aircraft under a vertical advisory: what danger is, and what is true of it. The definitions stand in specs/. The
//! functions here do nothing: their clauses are the laws.
#![tactic(auto)]

mod laws;

pub use laws::{
    cells_and_boxes_in_numbers, cells_leave_no_gap, contact_in_numbers, curves_in_numbers,
    demands_in_numbers, no_response_holds_without_delay, responses_meet_at_once_or_after_a_hold,
    seconds_in_numbers, segments_fly_mean_rates, segments_follow_by_the_table,
};
