//! Lemmas of the search of a meeting with an intruder that may change its rate: each step of a pass is gentle, the passes are joined, a
//! search that can meet finds a course, and that course, and what is printed of it, is a meeting.
#![tactic(auto)]
