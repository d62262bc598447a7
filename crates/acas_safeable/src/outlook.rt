//! Clear cells, and what is found of them.

/// A cell of n seconds under a present advisory, whose lower corner has the places i, j, k on the axes of altitude, own rate and intruder
/// rate.
#[derive(Clone, Copy)]
pub struct ClearCell {
    pub n: u32,
    pub present: u8,
    pub i: u32,
    pub j: u32,
    pub k: u32,
}

/// What is found of a cell.
#[derive(Clone, Copy)]
pub enum Outlook {
    /// The advisory of this number, given a second later, keeps the two apart: the first choice of clear of conflict of which it is shown.
    Safeable(u8),
    /// Of no choice is it shown. That does not mean that the cell is unsafe.
    Unshown,
}
