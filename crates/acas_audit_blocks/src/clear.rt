//! Whether a whole block of cells is clear of contact.
ghost use Rattle.std.specs.Prelude.{◌≡◌, ◌+◌, ◌<◌, ◌^◌, ◌↔◌, IsTrue, false};
ghost use Rattle.acas_audit_blocks.specs.BlockStates.{IsEndangeredBlock};
ghost use Rattle.acas_cells.specs.Blocks.{IsBlockOf};

use crate::block_area::area_of_block;
use crate::decisions::{Decisions, count_one};
use acas_base::Model;
use acas_cells::Block;
use acas_region::{is_clear, window_of_cell};

/// Whether no cell of a block, of n seconds, is endangered under an advice: no flight from one of them that meets the advisory ends
/// in contact. It counts one decision.
pub fn block_clear(model: &Model, n: u32, advice: u8, block: &Block, count: &mut Decisions) -> bool
    requires n { n < model.now.grid.horizon }
    requires advice { advice < model.now.grid.advisories }
    requires block { IsBlockOf model.now block.now }
    requires count { count.old + 1 < 2 ^ 64 }
    ensures exact { IsTrue result ↔ ¬ IsEndangeredBlock model.now n advice block.now }
    ensures danger { result ≡ false → IsEndangeredBlock model.now n advice block.now }
    ensures count { count.new ≡ count.old + 1 }
{
    count_one(count);
    let area = area_of_block(model, block);
    let window = window_of_cell(model, n);
    is_clear(model, &area, &window, advice)
}
