//! One second of two aircraft.

/// The largest range at which a second may begin, in ft, on either side.
pub const LARGEST_RANGE: u32 = 3_000_000;

/// The largest relative altitude at which a second may begin, in ticks, up or down.
pub const LARGEST_ALTITUDE: u32 = 1_500_000_000;

/// The largest relative rate at which a second may begin, in ft/min, up or down.
pub const LARGEST_RATE: u32 = 2_500_000;

/// The largest change of the relative rate within a second, in ft/min, up or down.
pub const LARGEST_CHANGE: u32 = 4_000;

/// One second of two aircraft, in which the range closes at a speed and the relative rate changes evenly. All but the speed is as the
/// second begins: the range in ft, below 0 once the intruder has passed; the closing speed in ft/s; how far the intruder is above in
/// ticks; its rate less the own rate in ft/min, and how much that changes within the second.
#[derive(Clone, Copy)]
pub struct Second {
    pub range: i64,
    pub closing: i64,
    pub altitude: i64,
    pub rate: i64,
    pub change: i64,
}
