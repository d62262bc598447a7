//! The definitions of cells, of rulings on them and on boxes, of reports and of replays, by numbers that were worked out by hand. A small
//! model, a table for it and an encounter stand in specs/. The functions here do nothing: each clause is an example.
#![tactic(auto)]

mod blocks;
mod boxes;
mod cells;
mod clear_cells;
mod decisions;
mod hunts;
mod issue;
mod lines;
mod meetings;
mod printed;
mod replays;
mod reports;
mod rulings;
mod seconds;

pub use blocks::{blocks_are_halved, blocks_have_areas, sets_hold_advices};
pub use boxes::{
    boxes_are_at_their_places, boxes_are_those_of_a_model_or_not, boxes_stand_for_their_spans,
};
pub use cells::{
    advisory_cells_are_listed, cells_are_listed, cells_are_those_of_a_model_or_not,
    corners_are_advised, names_are_ordered,
};
pub use clear_cells::{
    cells_are_not_safe_by_each_advisory, clear_cells_are_printed, reached_areas_are_worked_out,
};
pub use decisions::{
    audits_are_exact_or_not, blocks_are_decided, decided_numbers_are_one, decisions_are_summed,
    sets_are_exact_or_not,
};
pub use hunts::the_low_course_is_tried_first;
pub use issue::{
    advices_are_issued, issued_advices_are_one, layers_advise_or_not, vertices_are_nearest_or_not,
};
pub use lines::{
    counts_are_written, lines_are_written, responses_are_written, witnesses_are_written,
};
pub use meetings::{boxes_are_endangered_by_a_manoeuvre, meetings_are_shown_or_not};
pub use printed::{
    fractions_are_listed, responses_are_printed_in_order, segments_are_printed_or_not,
};
pub use replays::{
    contacts_are_counted, last_seconds_are_issued, lines_are_worked_out, states_are_audited_or_not,
    states_follow_one_another,
};
pub use reports::{
    lines_are_left_out_or_not, reports_are_of_rulings_or_not, reports_are_written,
    rulings_are_counted, rulings_are_in_order,
};
pub use rulings::{
    danger_is_shown_or_not, danger_is_shown_over_two_or_not, rulings_are_by_the_rule,
    witnesses_are_of_the_first_time,
};
pub use seconds::{contact_is_within_the_second, fractions_are_near, separations_are_worked_out};
