//! The parts of a model that are lists in its file.
use crate::name::Name;

/// A vertical advisory: the closed interval of own vertical rates that it asks for, in ft/min.
#[derive(Drop)]
pub struct Advisory {
    pub name: Name,
    pub lo: i64,
    pub hi: i64,
}

/// An advisory that may be chosen, by its number, and what a second under it costs, in units.
#[derive(Clone, Copy, PartialEq, Eq)]
pub struct Choice {
    pub advisory: u8,
    pub cost: i64,
}

/// A change of both vertical rates within a second, in ft/min, and its weight among all sigma points.
#[derive(Clone, Copy, PartialEq, Eq)]
pub struct SigmaPoint {
    pub weight: i64,
    pub own: i64,
    pub intruder: i64,
}
