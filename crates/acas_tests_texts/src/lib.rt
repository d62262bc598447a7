//! Tests of texts: the public calls of `acas_doc`, `acas_model`, `acas_base`, `acas_boxes` and `acas_replay`, with values worked out by
//! hand. Rows are lines of text, so that a row costs no proof. More texts of no model are cases of `acas_cases`.
#![tactic(auto)]

#[cfg(test)]
mod boxes;
#[cfg(test)]
mod documents;
#[cfg(test)]
mod encounters;
#[cfg(test)]
mod faults;
#[cfg(test)]
mod models;
#[cfg(test)]
mod rows;
#[cfg(test)]
mod versions;
