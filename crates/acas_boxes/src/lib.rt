//! The text of boxes, and the boxes that it says; and whether an intruder that may change its rate may have their rates.
//!
//! A file of boxes is a TOML document. Its rules are looked at in a fixed order, and the first that fails is the fault.
#![tactic(auto)]

mod laws;
mod one_box;
mod rates;
mod spans;
mod whole;

pub use acas_doc::InputFault;
pub use acas_rulings::AuditBox;
pub use laws::{fitting_texts_say_their_boxes, texts_say_their_boxes};
pub use rates::{rates_fit, read_fitting_boxes};
pub use spans::SPAN_ENDS;
pub use whole::read_boxes;
