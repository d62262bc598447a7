//! What is printed of a meeting.

use crate::flight::{Segment, Witness};

/// A contact of an own aircraft that follows an advisory with an intruder that changes its rate: the witness has the start of both and
/// the pilot's response, and the intruder flies one or two segments, if there is time for them.
#[derive(Clone, Copy)]
pub struct Meeting {
    pub witness: Witness,
    pub intruder_first: Option<Segment>,
    pub intruder_second: Option<Segment>,
}
