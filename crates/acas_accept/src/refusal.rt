//! Why there is no accepted table.
ghost use Rattle.std.specs.Prelude.{◌≡◌};
ghost use Rattle.acas_accept.specs.Faults.{IsAnswerable, answered};

use acas_table::{TableFault, TableRefusal};
use std::alloc::AllocError;

/// Why there is no accepted table.
#[derive(Clone, Copy)]
pub enum AcceptFault {
    /// The file is not accepted.
    Refused(TableRefusal),
    /// The name is not held.
    Absent,
    /// A read failed.
    Failed,
    /// Memory was refused.
    Memory,
}

impl From<AllocError> for AcceptFault {
    ghost use Rattle.std.specs.Prelude.{◌≡◌};
    ghost use Rattle.acas_accept.specs.declared.refusal.AcceptFault.TheVariants.{Memory};

    ghost from_gives = { λ _ e. e ≡ Memory };

    fn from(_: AllocError) -> AcceptFault {
        AcceptFault::Memory
    }
}

/// What a fault of the reader is answered as: one of the bytes is a refusal.
pub(crate) fn refused(fault: TableFault) -> AcceptFault
    ensures answered { result ≡ answered fault }
    ensures kind { IsAnswerable result }
{
    match fault {
        TableFault::Failed => AcceptFault::Failed,
        TableFault::Absent => AcceptFault::Absent,
        TableFault::Memory => AcceptFault::Memory,
        fault => AcceptFault::Refused(TableRefusal::Form(fault)),
    }
}
