//! The text of an encounter and the encounter that it says; and its replay under a table's advice, second by second: which advice is
//! issued, and whether the second is in contact, at any fraction of it.
//!
//! A file of an encounter is a TOML document. Its rules are looked at in a fixed order, and the first that fails is the fault.
#![tactic(auto)]

mod accelerations;
mod axis_place;
mod contact;
mod encounter;
mod issue;
mod laws;
mod limits;
mod lines;
mod parabola;
mod progress;
mod replaying;
mod second;
mod start;
mod state;
mod text_laws;
mod whole;

pub use acas_doc::InputFault;
pub use contact::has_contact;
pub use encounter::Encounter;
pub use laws::{
    contact_is_that_of_flights, issued_advices_are_audited, replays_are_one, seconds_join,
};
pub use limits::{
    GREATEST_ACCELERATION, GREATEST_START_RANGE, LEAST_ACCELERATION, LEAST_START_RANGE,
};
pub use replaying::replay;
pub use second::{LARGEST_ALTITUDE, LARGEST_CHANGE, LARGEST_RANGE, LARGEST_RATE, Second};
pub use start::Start;
pub use state::EncounterState;
pub use text_laws::texts_say_their_encounters;
pub use whole::read_encounter;
