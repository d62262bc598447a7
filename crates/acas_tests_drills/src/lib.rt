//! Tests of drills: what they print, the models that they are of, and the words that name them. The lines are from `bench/drills`, which
//! works them out apart from the program.
#![tactic(auto)]

#[cfg(test)]
mod lines;
#[cfg(test)]
mod models;
#[cfg(test)]
mod words;
