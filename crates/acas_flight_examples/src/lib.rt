//! The definitions of flights and of the search of a witness, by numbers that were worked out by hand. A small model stands in
//! specs/. The functions here do nothing: each clause is an example.
#![tactic(auto)]

mod contact;
mod curves;
mod extremes;
mod passes;
mod responses;
mod searches;
mod states;
mod windows;

pub use contact::{areas_are_endangered, contact_ends_at_the_edge, flights_end_in_contact_or_not};
pub use curves::{climbs_of_curves_are_one, curves_are_worked_out, gaps_are_worked_out};
pub use extremes::{other_times_are_no_extremes, the_first_of_equal_times_is_extreme};
pub use passes::{
    flights_are_below_or_not, halving_takes_the_lower_middle, low_flights_are_found_first,
    passes_end_at_the_first_flight, passes_have_last_flights, quantities_move_toward_their_ends,
    values_are_worked_out,
};
pub use responses::{climbs_are_worked_out, responses_meet_or_not, segments_follow_or_not};
pub use searches::{
    flights_are_from_an_area_or_not, own_rates_have_their_own_pull,
    passes_of_a_search_are_worked_out, responses_are_worked_out, searches_are_worked_out,
    the_low_flight_is_tried_first,
};
pub use states::{
    boxes_are_flown_in_time_or_not, fractions_are_compared, rates_are_on_their_own_axes,
    states_are_in_boxes_or_not, states_are_in_cells_or_not, states_are_seconds_away_or_not,
};
pub use windows::{
    other_times_are_no_windows, times_are_during_a_window_or_not, times_are_of_contact_or_not,
    windows_of_cells_are_exact,
};
