//! The first rule that a model's text fails.
ghost use Rattle.std.specs.Prelude.{◌≡◌};
ghost use Rattle.acas_doc.specs.Answers.{text_fault};
ghost use Rattle.acas_model.specs.declared.fault.ModelFault.TheVariants.{Doc, Memory};

use acas_doc::{DocError, DocFault};
use acas_grid::AxisFault;
use std::alloc::{AllocError, AllocFailed};

/// The place of a name: that of an advisory, or that of one of its choices.
#[derive(Clone, Copy)]
pub struct NamePlace {
    pub advisory: u32,
    pub choice: Option<u32>,
}

/// An axis of the grid.
#[derive(Clone, Copy)]
pub enum AxisName {
    Altitude,
    OwnRate,
    IntruderRate,
}

/// The first rule that a text fails, or `Memory` where there was none to read it.
#[derive(Drop)]
pub enum ModelFault {
    /// The bytes are no TOML document.
    NotToml,
    /// A key is missing, unknown, of the wrong kind or out of range.
    Doc(DocFault),
    /// The numbers of an axis are too few, too many, or do not rise.
    Axis { axis: AxisName, fault: AxisFault },
    /// The interval of an advisory ends below its beginning.
    Interval { advisory: u32 },
    /// Nothing may be chosen under this advisory.
    NoChoice { advisory: u32 },
    /// A choice is no advisory's name.
    UnknownName { at: NamePlace },
    /// An advisory has the name of one before it, or a choice stands before it in its list.
    RepeatedName { at: NamePlace },
    /// The sigma weights together are above `GREATEST_TOTAL_WEIGHT`.
    Weights { total: i64 },
    /// The horizon and the way through the puck take more than `WINDOW_SECONDS` at the least closing speed. Both
    /// sides are in ft: the way of the horizon and twice the radius, and the way of the window.
    Window { needed: i64, allowed: i64 },
    /// A table over the grid has more than `GREATEST_ENTRIES`.
    TooManyEntries { entries: u64 },
    /// There is no memory left.
    Memory,
}

impl From<AllocError> for ModelFault {
    ghost from_gives = { λ _ e. e ≡ Memory };

    fn from(_e: AllocError) -> ModelFault {
        ModelFault::Memory
    }
}

impl<T: Drop> From<AllocFailed<T>> for ModelFault {
    ghost from_gives = { λ _ e. e ≡ Memory };

    fn from(_e: AllocFailed<T>) -> ModelFault {
        ModelFault::Memory
    }
}

impl From<DocError> for ModelFault {
    ghost from_gives = { λ d e. e ≡ text_fault Doc Memory d };

    fn from(error: DocError) -> ModelFault {
        match error {
            DocError::Fault(fault) => ModelFault::Doc(fault),
            DocError::Memory => ModelFault::Memory,
        }
    }
}
