//! The search of a contact: for each area of states that is not clear during a window, a flight from it that meets the advisory and
//! ends in the puck. Which one is found is a rule, so that every search that keeps it prints the same. Over it the verdict on a cell or a
//! box under an advisory, with its witness where it is reported; and what such a witness is worth.
#![tactic(auto)]

mod contact;
mod danger_laws;
mod finding;
mod verdicts;

pub use contact::contact_in;
pub use danger_laws::shown_danger_endangers;
pub use finding::{find, flight_of, survey_of};
pub use verdicts::{box_verdict, verdict, witness_of};
