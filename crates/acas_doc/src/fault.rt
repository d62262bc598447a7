//! What is wrong with a key.
ghost use Rattle.std.specs.Prelude.{◌≡◌};
ghost use Rattle.acas_doc.specs.declared.fault.DocError.TheVariants.{Memory};

use acas_spec::Text;
use std::alloc::AllocFailed;

/// What is wrong with a key.
#[derive(Clone, Copy, PartialEq, Eq)]
pub enum DocKind {
    /// The table does not have the key.
    Missing,
    /// The value is of another kind than the one that is wanted: a whole number, a text, a list or a table.
    WrongKind,
    /// The whole number, or the length of the list, is below the least or above the greatest.
    OutOfRange {
        value: i64,
        least: i64,
        greatest: i64,
    },
    /// The table has a key that none of its kind has.
    UnknownKey,
}

/// What is wrong, and at which key.
#[derive(Drop)]
pub struct DocFault {
    /// The path of the key or of an item, as it is printed: `grid.altitude[2]`.
    pub key: Text,
    pub kind: DocKind,
}

/// Why a getter has no value: something is wrong, or there was no memory to say what, or to hold the numbers of a list.
#[derive(Drop)]
pub enum DocError {
    Fault(DocFault),
    Memory,
}

impl<T: Drop> From<AllocFailed<T>> for DocError {
    ghost from_gives = { λ _ e. e ≡ Memory };

    fn from(_e: AllocFailed<T>) -> DocError {
        DocError::Memory
    }
}
