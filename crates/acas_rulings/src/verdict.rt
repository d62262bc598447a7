//! What is found out of a box against an intruder that may change its rate.
use crate::meeting::Meeting;

/// No response that meets the advisory and no flight of the intruder bring the two into contact; or some do, and the meeting has them.
#[derive(Clone, Copy)]
pub enum MeetVerdict {
    Certified,
    Reported(Meeting),
}
