//! What is kept while a report is written.
ghost use Rattle.std.specs.Prelude.{◌≡◌, [], IfOk};

use crate::counts::Counts;
use std::alloc::{AllocError, Global};

/// A pen that prints the lines, and the counts so far. Its memory is taken when it is made.
#[derive(Drop)]
pub struct Pen {
    pub out: acas_outside::Pen,
    pub counts: Counts,
}

impl Pen {
    /// A pen that has written and counted nothing.
    pub fn make(alloc: Global) -> Result<Pen, AllocError>
        ensures empty { IfOk result (λ pen. pen.out.buffer ≡ []) }
        ensures certified { IfOk result (λ pen. pen.counts.certified ≡ 0) }
        ensures reported { IfOk result (λ pen. pen.counts.reported ≡ 0) }
        ensures clear { IfOk result (λ pen. pen.counts.clear ≡ 0) }
    {
        let out = acas_outside::Pen::make(alloc)?;
        let counts = Counts {
            certified: 0,
            reported: 0,
            clear: 0,
        };
        Ok(Pen { out, counts })
    }
}
