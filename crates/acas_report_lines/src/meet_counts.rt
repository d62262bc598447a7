//! What a report on boxes counts against an intruder that may change its rate, and why it may not be written.

/// How many boxes there are of each kind.
#[derive(Clone, Copy)]
pub struct MeetCounts {
    pub certified: u64,
    pub reported: u64,
}
