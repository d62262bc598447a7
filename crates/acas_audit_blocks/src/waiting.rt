//! Where an advice waits for a decision.
ghost use Rattle.std.specs.Prelude.{◌≡◌, ℕ, ◌+◌, ◌<◌, ◌≤◌, true, false, get_or};
ghost use Rattle.acas_units.specs.declared.limits.TheConstants.{GREATEST_ADVISORIES};
ghost use Rattle.acas_cells.specs.Blocks.{IsInBlock};
ghost use Rattle.acas_cells.specs.Sets.{holds};
ghost use Rattle.acas_audit_blocks.specs.Audits.{HasSets, IsBlockIn, cell_count, no_sets, reported_at};

use crate::block_audit::BlockAudit;
use acas_cells::Block;

impl BlockAudit {
    // Whether an advice waits in the second set of some cell of a block.
    pub(crate) fn waits(&self, advice: u8, block: &Block) -> bool
        requires sets { HasSets self.now }
        requires block { IsBlockIn self.now block.now }
        requires advice { advice < GREATEST_ADVISORIES }
        ensures some { result ≡ true
            → (i : ℕ) × (j : ℕ) × (k : ℕ) × IsInBlock block.now i j k
            × (holds (reported_at self.now i j k) advice ≡ true) }
        ensures none { result ≡ false → (i j k : ℕ) → IsInBlock block.now i j k
            → holds (reported_at self.now i j k) advice ≡ false }
    {
        for i in block.i0..block.i1 {
            if self.waits_at(advice, block, i) {
                return true;
            }
        }
        false
    }

    // Whether it waits in some of the cells that are at one place on the axis of altitude.
    fn waits_at(&self, advice: u8, block: &Block, i: u32) -> bool
        requires sets { HasSets self.now }
        requires block { IsBlockIn self.now block.now }
        requires from { block.now.i0 ≤ i }
        requires before { i < block.now.i1 }
        ensures some { result ≡ true
            → (j : ℕ) × (k : ℕ) × IsInBlock block.now i j k
            × (holds (reported_at self.now i j k) advice ≡ true) }
        ensures none { result ≡ false → (j k : ℕ) → IsInBlock block.now i j k
            → holds (reported_at self.now i j k) advice ≡ false }
    {
        for j in block.j0..block.j1 {
            let start = self.place_of(i, j, block.k0);
            if self.waits_in_row(advice, start, block.k1 - block.k0) {
                return true;
            }
        }
        false
    }

    // Whether it waits in one of so many cells, whose sets stand one behind the other.
    fn waits_in_row(&self, advice: u8, start: usize, count: u32) -> bool
        requires sets { HasSets self.now }
        requires within { start + count ≤ cell_count self.now }
        ensures some { result ≡ true → (place : ℕ) × (start ≤ place) × (place < start + count)
            × (holds (get_or self.now.sets place no_sets).reported advice ≡ true) }
        ensures none { result ≡ false → (place : ℕ) → start ≤ place → place < start + count
            → holds (get_or self.now.sets place no_sets).reported advice ≡ false }
    {
        // Opens the number of cells, which fits.
        let _cells = self.cell_count();
        for place in start..start + count as usize {
            if self.sets[place].reported.has(advice) {
                return true;
            }
        }
        false
    }
}
