//! How many pairs were turned from one plane to the other.
use acas_units::Counter;

/// Work that only a turn of a block does: a pair that goes from one plane to the other.
#[derive(Drop)]
pub struct TurnedPair {
    pub(crate) by_a_turn: (),
}

/// Counts the pairs that blocks turned. It starts at 0, contracts see it as its count, and only a turn of a block raises it.
pub type Turned = Counter<TurnedPair>;
