//! Why an entry bounds nothing.

/// The first part of soundness that an entry fails. Values are in millionths.
#[derive(Clone, Copy, PartialEq, Eq)]
pub enum BoundFault {
    /// The advice is not in the list of its present advisory.
    AdviceNotAllowed,
    /// The upper value is less than that of the advice, or with no second to go than the cost at the end.
    UpperTooLow { stands: i64, needed: i128 },
    /// The lower value is more than the least lower value of the choices, or with no second to go than the cost at the end.
    LowerTooHigh { stands: i64, allowed: i128 },
}
