//! Tests of replays: what is printed of encounters under the advice of small tables, worked out by hand. Rows are lines of text, so that
//! a row costs no proof.
#![tactic(auto)]

#[cfg(test)]
mod lasting;
#[cfg(test)]
mod parts;
#[cfg(test)]
mod replays;
#[cfg(test)]
mod rows;
