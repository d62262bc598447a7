//! How an advice goes from the second set of a cell to the first, for a whole block of cells.
ghost use Rattle.std.specs.Prelude.{◌+◌, ◌<◌, ◌≤◌, length};
ghost use Rattle.acas_units.specs.declared.limits.TheConstants.{GREATEST_ADVISORIES};
ghost use Rattle.acas_audit_blocks.specs.Audits.{AreMoved, HasSets, IsBlockIn, IsMoved, IsRuledIn, plane_of, row_of};

use crate::block_audit::{BlockAudit, CellSets};
use acas_cells::Block;

// The two sets with an advice taken from the second to the first, where it is there.
fn moved(advice: u8, sets: CellSets) -> CellSets
    requires { advice < GREATEST_ADVISORIES }
    ensures { IsMoved advice sets result }
{
    let there = sets.reported.only(advice);
    CellSets {
        certified: sets.certified.union(there),
        reported: sets.reported.without(advice),
    }
}

// Takes an advice from the second set to the first at the places from one up to another, where it is there.
fn move_row(advice: u8, start: usize, end: usize, list: &mut [CellSets])
    requires advice { advice < GREATEST_ADVISORIES }
    requires order { start ≤ end }
    requires within { end ≤ length list.old }
    ensures { AreMoved advice start end list.old list.new }
{
    for place in start..end {
        list[place] = moved(advice, list[place]);
    }
}

impl BlockAudit {
    // Takes an advice from the second set to the first for each cell of a block.
    pub(crate) fn certify(&mut self, advice: u8, block: &Block)
        requires sets { HasSets self.old }
        requires block { IsBlockIn self.old block.now }
        requires advice { advice < GREATEST_ADVISORIES }
        ensures { IsRuledIn (λ i j k. ⊥) advice block.now self.old self.new }
    {
        for i in block.i0..block.i1 {
            self.certify_at(advice, block, i);
        }
    }

    // The same for the cells that are at one place on the axis of altitude.
    fn certify_at(&mut self, advice: u8, block: &Block, i: u32)
        requires sets { HasSets self.old }
        requires block { IsBlockIn self.old block.now }
        requires advice { advice < GREATEST_ADVISORIES }
        requires from { block.now.i0 ≤ i }
        requires before { i < block.now.i1 }
        ensures { IsRuledIn (λ i j k. ⊥) advice (plane_of block.now i) self.old self.new }
    {
        for j in block.j0..block.j1 {
            self.certify_row(advice, block, i, j);
        }
    }

    // The same for those that are at one place on the axis of own rate besides: their sets stand one behind the other.
    fn certify_row(&mut self, advice: u8, block: &Block, i: u32, j: u32)
        requires sets { HasSets self.old }
        requires block { IsBlockIn self.old block.now }
        requires advice { advice < GREATEST_ADVISORIES }
        requires from_i { block.now.i0 ≤ i }
        requires before_i { i < block.now.i1 }
        requires from_j { block.now.j0 ≤ j }
        requires before_j { j < block.now.j1 }
        ensures { IsRuledIn (λ i j k. ⊥) advice (row_of block.now i j) self.old self.new }
    {
        let start = self.place_of(i, j, block.k0);
        let end = start + (block.k1 - block.k0) as usize;
        move_row(advice, start, end, &mut self.sets);
    }
}
