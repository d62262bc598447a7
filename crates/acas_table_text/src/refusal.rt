//! Why a table is not accepted.

use crate::fault::TableFault;
use acas_spec::BoundFault;

/// Why bytes are no accepted table of a model: the first field or entry, in the order of the bytes, that is not as it
/// is to be.
#[derive(Clone, Copy)]
pub enum TableRefusal {
    /// The bytes have not the form of a table of the model. The fault is never `Failed`, `Absent` or `Memory`.
    Form(TableFault),
    /// The entry of a state with `layer` seconds to go is not sound.
    Entry {
        layer: u32,
        state: u32,
        fault: BoundFault,
    },
}
