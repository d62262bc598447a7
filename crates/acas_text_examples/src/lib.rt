//! What texts say, by small documents that were worked out by hand: models, boxes, the start of an encounter, and the models of drills. The
//! functions here do nothing: each clause is an example.
#![tactic(auto)]

mod boxes;
mod drills;
mod keys;
mod models;
mod starts;

pub use boxes::{boxes_are_said_or_not, intruders_fit_or_not};
pub use drills::a_drill_is_worked_out;
pub use keys::{answers_are_those_of_the_rules, keys_are_known_or_not};
pub use models::{a_whole_text_says_its_model, keys_say_their_numbers, other_numbers_are_not_said};
pub use starts::a_start_is_said;
