//! Tests of what tables are made of: the public calls of `acas_step`, `acas_sweep`, `acas_bounds`, `acas_plain`, `acas_table`,
//! `acas_table_writer` and `acas_accept`, with values worked out by hand or apart from the program.
#![tactic(auto)]

#[cfg(test)]
mod accept;
#[cfg(test)]
mod bounds;
#[cfg(test)]
mod layers;
#[cfg(test)]
mod models;
#[cfg(test)]
mod step;
#[cfg(test)]
mod stream;
#[cfg(test)]
mod sweep;
#[cfg(test)]
mod tables;
