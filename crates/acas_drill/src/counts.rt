//! The counts of an audit whose lines go nowhere.
ghost use Rattle.std.specs.Prelude.{IfOk};
ghost use Rattle.acas_base.specs.Advices.{AreAdvicesOf};
ghost use Rattle.acas_drill.specs.Calls.{AreCountsOf};

use acas_base::{Advices, Model};
use acas_outside::{Failed, PrintFault, Sink};
use acas_report::write_report;
use acas_report_lines::{Counts, Which};
use std::alloc::{AllocError, Global};

/// A sink that takes everything and tells nothing. It never fails.
#[derive(Drop)]
struct Nowhere;

impl Sink for Nowhere {
    ghost use Rattle.std.specs.Prelude.{None};

    ghost written = { λ sink. None };

    ghost faults = { λ sink. 0 };

    fn write(&mut self, piece: &[u8]) -> Result<usize, Failed> {
        Ok(piece.len())
    }
}

/// Rules on each advisory cell of a table by its advices, and counts.
pub(crate) fn audit_counts(
    alloc: Global,
    model: &Model,
    advices: &Advices,
) -> Result<Counts, AllocError>
    requires { AreAdvicesOf model.now advices.now }
    ensures { IfOk result (AreCountsOf model.now advices.now) }
{
    match write_report(alloc, model, advices, &mut Nowhere, Which::Reported) {
        Ok(counts) => Ok(counts),
        Err(PrintFault::Memory) => Err(AllocError),
        Err(PrintFault::Sink) => unreachable!(),
    }
}
