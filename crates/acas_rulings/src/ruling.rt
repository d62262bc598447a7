//! What is found out of a cell or a box.
use crate::flight::Witness;

/// No flight from the cell or box that meets the advisory ends in contact; or one does, and the witness is such a flight.
#[derive(Clone, Copy)]
pub enum Ruling {
    Certified,
    Reported(Witness),
}
