//! Windows of horizontal contact, and the times in them of the least and the greatest gap to a curve: lemmas, and the law of windows.
#![tactic(auto)]

mod laws;

pub use laws::windows_in_numbers;
