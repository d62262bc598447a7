//! The areas of blocks.
ghost use Rattle.std.specs.Prelude.{◌≡◌};
ghost use Rattle.acas_spec.specs.Limits.{IsModel};
ghost use Rattle.acas_areas.specs.View.{area_of};
ghost use Rattle.acas_audit_blocks.specs.BlockStates.{area_of_block};
ghost use Rattle.acas_cells.specs.Blocks.{IsBlockOf};

use acas_areas::BoxState;
use acas_base::Model;
use acas_cells::Block;
use acas_rulings::between;

/// The area of a block: from the lower ends of its first cell to the upper ends of its last.
pub(crate) fn area_of_block(model: &Model, block: &Block) -> BoxState
    requires { IsBlockOf model.now block.now }
    ensures area { area_of result ≡ area_of_block model.now block.now }
    ensures model { IsModel model.now }
{
    let grid = model.grid();
    BoxState {
        h: between(&grid.h, block.i0, block.i1),
        v0: between(&grid.v0, block.j0, block.j1),
        v1: between(&grid.v1, block.k0, block.k1),
    }
}
