//! What is printed of a flight into the puck.

use acas_frac::Frac;

/// A part of a response: a duration in seconds, above 0, at a constant acceleration in ft/min per second.
#[derive(Clone, Copy)]
pub struct Segment {
    pub duration: Frac,
    pub acceleration: Frac,
}

/// A flight that ends in contact: its time in seconds; how far the intruder is above at its start, in ticks; the own and the
/// intruder's rate then, in ft/min; and the response. The rate is held first, if there is a hold, and one or two segments follow,
/// if there is time for them.
#[derive(Clone, Copy)]
pub struct Flight {
    pub time: Frac,
    pub h: i64,
    pub v0: Frac,
    pub v1: Frac,
    pub hold: Option<Frac>,
    pub first: Option<Segment>,
    pub second: Option<Segment>,
}

/// A flight that ends in contact, with a range in ft and a closing speed in ft/s that are in horizontal contact at its time.
#[derive(Clone, Copy)]
pub struct Witness {
    pub range: Frac,
    pub speed: Frac,
    pub flight: Flight,
}
