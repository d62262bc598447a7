//! What is audited.

use crate::Which;
use acas_base::{Advices, Model};

/// A model, what a table advises for it, and which lines are written.
#[derive(Clone, Copy)]
pub struct Audit<'a> {
    pub model: &'a Model,
    pub advices: &'a Advices,
    pub which: Which,
}

/// The numbers of a cell. Where all cells of n seconds and a present advisory are meant, the other three do not matter.
#[derive(Clone, Copy)]
pub struct Place {
    pub n: u32,
    pub present: u8,
    pub i: u32,
    pub j: u32,
    pub k: u32,
}
