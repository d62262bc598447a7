//! How fine the fractions are that curves take. A fraction is over a number at most where its denominator, in lowest terms, is at
//! most that number.

/// What a rate in ft/min is over at most.
pub const RATE_PARTS: u64 = 8;

/// What an acceleration in ft/min per second is over at most.
pub const PULL_PARTS: u64 = 2_048;

/// What the time in seconds for which a rate is held is over at most.
pub const HOLD_PARTS: u64 = 256;

/// What a time in seconds is over at most.
pub const TIME_PARTS: u64 = 1_280_000;
