//! The laws of flights, of an intruder that may change its rate, and of the searches of a contact and of a meeting. The functions do
//! nothing: each clause is a law.
#![tactic(auto)]

mod danger;
mod flights;
mod hunts;
mod manoeuvres;
mod passes;

pub use danger::areas_that_are_not_clear_are_endangered;
pub use flights::{
    advisories_can_be_met, clear_areas_are_safe, contact_on_the_way_endangers, curves_bound_climbs,
    cut_responses_meet, danger_is_in_the_window, extremes_are_one, finer_numbers_change_no_flight,
    holding_longer_never_helps,
};
pub use hunts::{
    areas_that_are_not_apart_are_endangered, found_courses_are_meetings, found_courses_are_one,
    hunts_are_gentle, hunts_are_joined, hunts_find_a_course, meetings_in_contact_are_shown,
    printed_meetings_show_contact,
};
pub use manoeuvres::{
    apart_areas_are_safe, danger_by_a_manoeuvre_is_in_the_window, greater_manoeuvres_endanger_more,
    intruders_fly_as_pilots, intruders_stay_between_curves, least_gaps_are_found,
    steady_intruders_may_manoeuvre,
};
pub use passes::{
    found_flights_are_one, found_flights_end_in_contact, passes_are_gentle, passes_are_joined,
    passes_hold_flights_that_meet, searches_find_a_flight, steps_are_parts,
};
