//! Lemmas of flights under an advisory: the two curves and how they bound every climb, cuts, dangers and extremes.
#![tactic(auto)]
