//! The corners of the cells to which a second leads, each by a search of its own.
use acas_base::Model;
use acas_step::{CornerSet, LedTo, corners, moved};

/// Looks for each cell anew.
#[derive(Drop)]
pub(crate) struct CellSearch;

impl LedTo for CellSearch {
    ghost serves = { λ it m. Unit {0} };

    fn corners_led_to(&self, model: &Model, vertex: u32, advisory: u8, sigma: u32) -> CornerSet {
        corners(model, moved(model, vertex, advisory, sigma))
    }
}
