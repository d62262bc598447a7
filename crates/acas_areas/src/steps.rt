//! The steps of the passes.

/// A step of a time or of a hold is one of this many parts of a second.
pub const TIME_STEPS: u64 = 256;

/// A step of a pull is one of this many parts of one ft/min per second.
pub const PULL_STEPS: u64 = 2_048;

/// A step of a rate is one of this many parts of one ft/min.
pub const RATE_STEPS: u64 = 8;
