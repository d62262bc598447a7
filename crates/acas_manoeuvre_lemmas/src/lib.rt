//! Lemmas of an intruder that may change its rate: its flights and their climbs, danger in a window, areas that are apart, and least
//! gaps.
#![tactic(auto)]
