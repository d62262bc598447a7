//! Boxes under an advisory.
use acas_areas::BoxState;
use acas_units::Span;

/// A box of states under an advisory: ranges in ft, closing speeds in ft/s, and an area of altitudes in ticks and rates in ft/min.
#[derive(Clone, Copy)]
pub struct AuditBox {
    pub advisory: u8,
    pub range: Span,
    pub closing: Span,
    pub area: BoxState,
}
