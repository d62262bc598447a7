//! The model of a drill, which is made from a number, and the word that names it; and words that name numbers within limits.
#![tactic(auto)]

mod axes;
mod laws;
mod model;
mod parts;
mod word;

pub use laws::{
    drill_words_are_decimal, drilled_models_are_within_limits, number_words_are_decimal,
};
pub use model::drill_model;
pub use word::{drill_number, number_within};
