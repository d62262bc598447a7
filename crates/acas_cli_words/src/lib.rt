//! The words of the program: those that it is given, the forms of words, and the command that each form is.
#![tactic(auto)]

mod given;
mod words;

pub use given::{NoWords, given_words};
pub use words::{Command, TableCommand, command_of};
