//! Tests of numbers, of grids, of blocks of two planes and of the outside: the public calls of `acas_units`, `acas_frac`, `acas_grid`,
//! `acas_plane` and `acas_outside`, with values worked out by hand.
#![tactic(auto)]

#[cfg(test)]
mod blocks;
#[cfg(test)]
mod fractions;
#[cfg(test)]
mod grids;
#[cfg(test)]
mod outside;
#[cfg(test)]
mod system;
#[cfg(test)]
mod units;
