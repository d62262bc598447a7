//! Cells under an advice by their numbers.

/// A cell under an advice: states that lose horizontal separation in n to n + 1 seconds, under a present advisory, between the
/// vertex with the places i, j, k on the axes of altitude, own rate and intruder rate and the vertex with the next places; and the
/// advice that is followed from there.
#[derive(Clone, Copy)]
pub struct CellName {
    pub n: u32,
    pub present: u8,
    pub i: u32,
    pub j: u32,
    pub k: u32,
    pub advice: u8,
}
