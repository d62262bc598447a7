//! Tests of curves, windows, gaps, clear areas, witnesses and what a second leads to: the public calls of `acas_region`, `acas_witness`
//! and `acas_safeable`, with values worked out by hand. Rows are lines of a text, so that a row costs no proof.
#![tactic(auto)]

#[cfg(test)]
mod areas;
#[cfg(test)]
mod curves;
#[cfg(test)]
mod limits;
#[cfg(test)]
mod print;
#[cfg(test)]
mod reached;
#[cfg(test)]
mod rows;
#[cfg(test)]
mod verdicts;
