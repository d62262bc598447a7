//! What is said of a cell or a box under an advisory, as data and as definitions: boxes, rulings and witnesses; an intruder that may change its
//! rate: its flights, the danger of them, and when an area is apart from all of them; and what is said of a box against it: the rule that
//! fixes a meeting, how it is printed, and verdicts. What is true of them is in `acas_manoeuvre_lemmas`, `acas_hunt_lemmas`,
//! `acas_flight_laws` and `acas_ruling_laws`.
#![tactic(auto)]

mod areas;
mod audit_box;
mod box_laws;
mod boxes;
mod flight;
mod intruder_laws;
mod manoeuvre;
mod meeting;
mod meeting_laws;
mod ruling;
mod verdict;

pub use areas::{area_of_cell, between};
pub use audit_box::AuditBox;
pub use box_laws::boxes_stand_for_their_numbers;
pub use boxes::Boxes;
pub use flight::{Flight, Segment, Witness};
pub use intruder_laws::{intruders_fly_within_two_numbers, meetings_in_numbers, races_in_numbers};
pub use manoeuvre::Manoeuvre;
pub use meeting::Meeting;
pub use meeting_laws::{courses_in_numbers, hunts_pass_in_order, verdicts_exclude_each_other};
pub use ruling::Ruling;
pub use verdict::MeetVerdict;
