//! Pairs of values, and the entries of a table.

/// Two values in millionths of a cost unit: a bound from above and a bound from below.
#[derive(Clone, Copy, PartialEq, Eq)]
pub struct Pair {
    pub upper: i64,
    pub lower: i64,
}

/// An entry of a table: the values of a state, and the number of the advisory that is advised there.
#[derive(Clone, Copy, PartialEq, Eq)]
pub struct Entry {
    pub pair: Pair,
    pub advice: u8,
}
