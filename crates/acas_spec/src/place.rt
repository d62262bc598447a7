//! Points and vertices of a grid.

/// A relative altitude in ticks, and the own and the intruder's rate in ft/min.
#[derive(Clone, Copy, PartialEq, Eq)]
pub struct Point {
    pub h: i64,
    pub v0: i64,
    pub v1: i64,
}

/// A vertex of a grid: its places on the axes of relative altitude, own rate and intruder rate.
#[derive(Clone, Copy, PartialEq, Eq)]
pub struct Vertex {
    pub i: u32,
    pub j: u32,
    pub k: u32,
}
