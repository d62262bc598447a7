//! Lemmas of the search: each step of a pass is gentle, the passes are joined, and a search that can meet finds a flight.
#![tactic(auto)]
