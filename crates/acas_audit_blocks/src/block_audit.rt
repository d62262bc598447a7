//! The audit of many cells at once.
ghost use Rattle.std.specs.Prelude.{◌≡◌, ◌+◌, ◌<◌, [], IfOk};
ghost use Rattle.acas_audit_blocks.specs.Audits.{HasSets, IsAuditOf, IsPlace, cell_count, place_of, sets_at};

use acas_base::Model;
use acas_cells::AdviceSet;
use std::alloc::{AllocError, Global};

/// The advices other than clear of conflict that are tabled at the corners of a cell: those under which it is not endangered, and those
/// under which it is.
#[derive(Clone, Copy)]
pub struct CellSets {
    pub certified: AdviceSet,
    pub reported: AdviceSet,
}

/// For the cells of n seconds and a present advisory, which advices each is certified under and which it is reported under. Contracts
/// see the numbers of cells on the axes of altitude, own rate and intruder rate, and a list with the two sets of each cell, which is
/// empty until the cells are decided.
#[derive(Drop)]
pub struct BlockAudit {
    pub(crate) altitudes: u32,
    pub(crate) own_rates: u32,
    pub(crate) intruder_rates: u32,
    pub(crate) sets: Vec<CellSets>,
}

impl std::marker::Model for BlockAudit {
    ghost use Rattle.acas_audit_blocks.specs.Audits.{BlockAuditData, HasRoom, audit_view};

    ghost Value = { BlockAuditData };

    ghost view = { audit_view };

    ghost invariant = { HasRoom };
}

impl BlockAudit {
    /// An audit in which no cell is decided. Only this call takes memory: four bytes for each cell of one n and present advisory.
    pub fn make(alloc: Global, model: &Model) -> Result<BlockAudit, AllocError>
        ensures cells { IfOk result (λ audit. IsAuditOf model.now audit) }
        ensures sets { IfOk result (λ audit. audit.sets ≡ []) }
    {
        let grid = model.grid();
        let altitudes = grid.h.len() - 1;
        let own_rates = grid.v0.len() - 1;
        let intruder_rates = grid.v1.len() - 1;
        let cells = (altitudes * own_rates * intruder_rates) as usize;
        let sets = Vec::with_capacity(alloc, cells)?;
        Ok(BlockAudit {
            altitudes,
            own_rates,
            intruder_rates,
            sets,
        })
    }

    // How many cells there are.
    pub(crate) fn cell_count(&self) -> u32
        ensures { result ≡ cell_count self.now }
    {
        self.altitudes * self.own_rates * self.intruder_rates
    }

    // Where the sets of a cell stand in the list.
    pub(crate) fn place_of(&self, i: u32, j: u32, k: u32) -> usize
        requires { IsPlace self.now i j k }
        ensures value { result ≡ place_of self.now i j k }
        ensures within { result < cell_count self.now }
    {
        ((i * self.own_rates + j) * self.intruder_rates + k) as usize
    }

    /// The sets of a cell. The cells were decided, and the cell is one of them.
    pub fn sets(&self, i: u32, j: u32, k: u32) -> CellSets
        requires sets { HasSets self.now }
        requires place { IsPlace self.now i j k }
        ensures { result ≡ sets_at self.now i j k }
    {
        self.sets[self.place_of(i, j, k)]
    }
}
