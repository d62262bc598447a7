//! How many blocks were decided.
ghost use Rattle.std.specs.Prelude.{◌≡◌, ◌+◌, ◌<◌, ◌^◌};

use acas_units::Counter;

/// Work that only the call here does that decides a block: one decision.
#[derive(Drop)]
pub struct DecidedBlock {
    decided: (),
}

/// Counts the decisions of blocks. It starts at 0, contracts see it as its count, and only the call that decides a block raises it.
pub type Decisions = Counter<DecidedBlock>;

// Counts one decision.
pub(crate) fn count_one(count: &mut Decisions)
    requires { count.old + 1 < 2 ^ 64 }
    ensures { count.new ≡ count.old + 1 }
{
    count.raise(1, &DecidedBlock { decided: () });
}
