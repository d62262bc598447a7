//! Decides all cells of n seconds and a present advisory, block by block.
ghost use Rattle.std.specs.Prelude.{◌≡◌, ℕ, ◌+◌, ◌*◌, ◌<◌, ◌≤◌, ◌^◌};
ghost use Rattle.acas_base.specs.Advices.{AdvicesData, AreAdvicesOf};
ghost use Rattle.acas_flight.specs.Contact.{IsEndangeredCell};
ghost use Rattle.acas_cells.specs.Blocks.{IsBlockOf, cells_in};
ghost use Rattle.acas_cells.specs.DecisionCounts.{most_decisions};
ghost use Rattle.acas_audit_blocks.specs.Decisions.{AreDecisionsOf, IsDecidedBy};
ghost use Rattle.acas_audit_blocks.specs.Audits.{AreSetsOf, HasSets, IsAuditOf, IsRuledIn, Waits};

use crate::block_audit::BlockAudit;
use crate::clear::block_clear;
use crate::decisions::Decisions;
use acas_base::{Advices, Model};
use acas_cells::Block;

impl BlockAudit {
    /// Decides the cells of n seconds and a present advisory under all advices that are tabled at their corners: block by block, each
    /// advice for itself. It counts each decision, and takes no memory.
    pub fn decide(
        &mut self,
        model: &Model,
        advices: &Advices,
        n: u32,
        present: u8,
        count: &mut Decisions,
    )
        requires audit { IsAuditOf model.now self.old }
        requires advices { AreAdvicesOf model.now advices.now }
        requires n { n < model.now.grid.horizon }
        requires present { present < model.now.grid.advisories }
        requires room { count.old + most_decisions model.now < 2 ^ 64 }
        ensures audit { IsAuditOf model.now self.new }
        ensures sets { AreSetsOf model.now advices.now n present self.new }
        ensures counted { (number : ℕ) × AreDecisionsOf model.now advices.now n present number
            × (count.new ≡ count.old + number) }
        ensures most { count.new ≤ count.old + most_decisions model.now }
        ensures rising { count.old ≤ count.new }
    {
        self.fill(model, advices, n, present);
        let block = Block::all_cells(model);
        for advice in 1..model.grid().advisories as u8 {
            self.decide_block(model, n, advice, &block, count);
        }
    }

    // Decides the cells of a block under an advice, where it waits in the second set of some of them.
    fn decide_block(
        &mut self,
        model: &Model,
        n: u32,
        advice: u8,
        block: &Block,
        count: &mut Decisions,
    )
        requires audit { IsAuditOf model.now self.old }
        requires sets { HasSets self.old }
        requires n { n < model.now.grid.horizon }
        requires some { 0 < advice }
        requires advice { advice < model.now.grid.advisories }
        requires block { IsBlockOf model.now block.now }
        requires room { count.old + 2 * cells_in block.now < 2 ^ 64 }
        ensures ruled { IsRuledIn
            (λ i j k. IsEndangeredCell model.now n i j k advice) advice block.now self.old self.new }
        ensures counted { (a : AdvicesData) (present : ℕ)
            → Waits model.now a n present advice block.now self.old →
            (number : ℕ) × IsDecidedBy model.now a n present advice block.now number
            × (count.new ≡ count.old + number) }
        ensures rising { count.old ≤ count.new }
        ensures most { count.new + 1 ≤ count.old + 2 * cells_in block.now }
    {
        // Opens the model's limits: the advice is one of a set's.
        let _ = model.grid();
        if !self.waits(advice, block) {
            return;
        }
        if block_clear(model, n, advice, block, count) {
            self.certify(advice, block);
            return;
        }
        if block.is_one_cell() {
            return;
        }
        let (first, second) = block.halves();
        self.decide_block(model, n, advice, &first, count);
        self.decide_block(model, n, advice, &second, count);
    }
}
