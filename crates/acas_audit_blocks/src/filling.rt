//! What the two sets of each cell begin with.
ghost use Rattle.std.specs.Prelude.{◌≡◌, ◌<◌, [], ◌∷◌, ◌++◌, length};
ghost use Rattle.acas_base.specs.Advices.{AreAdvicesOf};
ghost use Rattle.acas_audit_blocks.specs.Audits.{AreUndecided, HaveSameCells, IsAuditOf, cell_count};

use crate::block_audit::{BlockAudit, CellSets};
use acas_base::{Advices, Model};
use acas_cells::{AdviceSet, advices_at};

impl BlockAudit {
    // Puts the sets of one more cell behind those of the cells before it.
    fn push_sets(&mut self, sets: CellSets)
        requires { length self.old.sets < cell_count self.old }
        ensures same { HaveSameCells self.old self.new }
        ensures sets { self.new.sets ≡ self.old.sets ++ sets ∷ [] }
    {
        let pushed = self.sets.push(sets);
        prove!(pushed.is_ok());
    }

    // Begins the sets for n seconds and a present advisory: in the first of a cell no advice, and in the second those at its corners.
    pub(crate) fn fill(&mut self, model: &Model, advices: &Advices, n: u32, present: u8)
        requires audit { IsAuditOf model.now self.old }
        requires advices { AreAdvicesOf model.now advices.now }
        requires n { n < model.now.grid.horizon }
        requires present { present < model.now.grid.advisories }
        ensures same { HaveSameCells self.old self.new }
        ensures begun { AreUndecided model.now advices.now n present self.new }
    {
        self.sets.clear();
        for i in 0..self.altitudes {
            for j in 0..self.own_rates {
                for k in 0..self.intruder_rates {
                    self.push_sets(CellSets {
                        certified: AdviceSet::empty(),
                        // The advices other than clear of conflict at the corners of the cell.
                        reported: advices_at(model, advices, n, present, i, j, k).without(0),
                    });
                }
            }
        }
    }
}
