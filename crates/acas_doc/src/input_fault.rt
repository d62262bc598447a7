//! The first rule that an input's text fails.
ghost use Rattle.std.specs.Prelude.{◌≡◌};
ghost use Rattle.acas_doc.specs.Answers.{text_fault};
ghost use Rattle.acas_doc.specs.declared.input_fault.InputFault.TheVariants.{Doc, Memory};

use crate::fault::{DocError, DocFault};
use std::alloc::{AllocError, AllocFailed};

/// The first rule that a text of boxes or of an encounter fails, or `Memory` where there was none to read it. A place is the number
/// of a box, and 0 in an encounter.
#[derive(Drop)]
pub enum InputFault {
    /// The bytes are no TOML document.
    NotToml,
    /// A key is missing, unknown, of the wrong kind or out of range.
    Doc(DocFault),
    /// No advisory of the model has the name.
    UnknownName { place: u32 },
    /// The greatest range and the radius take more than `WINDOW_SECONDS` at the least closing speed.
    Window { place: u32 },
    /// The intruder's rates are more than it may have.
    Rate { place: u32 },
    /// There is no memory left.
    Memory,
}

impl From<AllocError> for InputFault {
    ghost from_gives = { λ _ e. e ≡ Memory };

    fn from(_e: AllocError) -> InputFault {
        InputFault::Memory
    }
}

impl<T: Drop> From<AllocFailed<T>> for InputFault {
    ghost from_gives = { λ _ e. e ≡ Memory };

    fn from(_e: AllocFailed<T>) -> InputFault {
        InputFault::Memory
    }
}

impl From<DocError> for InputFault {
    ghost from_gives = { λ d e. e ≡ text_fault Doc Memory d };

    fn from(error: DocError) -> InputFault {
        match error {
            DocError::Fault(fault) => InputFault::Doc(fault),
            DocError::Memory => InputFault::Memory,
        }
    }
}
