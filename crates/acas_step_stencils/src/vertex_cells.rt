//! The cell above each vertex, found once for all stencils that begin there.
ghost use Rattle.std.specs.Prelude.{◌≡◌, ◌<◌, length, IfOk};
ghost use Rattle.acas_spec.specs.Limits.{IsGrid};
ghost use Rattle.acas_spec.specs.Model.{vertices};
ghost use Rattle.acas_grid.specs.States as numbers;
ghost use Rattle.acas_step_stencils.specs.Units.{AreUnits, DivideGaps};
ghost use Rattle.acas_step_stencils.specs.Cells.{AreVertexCells, IsVertexCell};

use crate::units::{Units, gap_in};
use acas_frac::Divisor;
use acas_grid::{Grid, vertex_at};
use acas_step::product;
use std::alloc::{AllocError, Global};

/// The places of a vertex, the gaps from them to the next places in the units of the axes, 1 at a last place, and the product of
/// the gaps as a divisor. It takes 40 bytes.
#[derive(Clone, Copy)]
pub(crate) struct VertexCell {
    pub(crate) i: u8,
    pub(crate) j: u8,
    pub(crate) k: u8,
    pub(crate) h: u32,
    pub(crate) v0: u32,
    pub(crate) v1: u32,
    pub(crate) divisor: Divisor,
}

// The cell above the vertex of a number.
fn cell_above(grid: &Grid, units: Units, number: u32) -> VertexCell
    requires grid { IsGrid grid.now }
    requires units { AreUnits units }
    requires gaps { DivideGaps grid.now units }
    requires number { number < vertices grid.now }
    ensures { IsVertexCell grid.now units (numbers.vertex_at grid.now number) result }
{
    let vertex = vertex_at(grid, number);
    let h = gap_in(&grid.h, units.h, vertex.i);
    let v0 = gap_in(&grid.v0, units.v0, vertex.j);
    let v1 = gap_in(&grid.v1, units.v1, vertex.k);
    VertexCell {
        i: vertex.i as u8,
        j: vertex.j as u8,
        k: vertex.k as u8,
        h: h as u32,
        v0: v0 as u32,
        v1: v1 as u32,
        divisor: Divisor::new(product(h, v0, v1)),
    }
}

// Writes the cells above the vertices of a grid.
fn fill_cells(grid: &Grid, units: Units, cells: &mut [VertexCell])
    requires grid { IsGrid grid.now }
    requires units { AreUnits units }
    requires gaps { DivideGaps grid.now units }
    requires cells { length cells.old ≡ vertices grid.now }
    ensures { AreVertexCells grid.now units cells.new }
{
    for number in 0..grid.vertices() {
        cells[number as usize] = cell_above(grid, units, number);
    }
}

/// The cells above the vertices of a grid, by the numbers of the vertices, in units that divide its gaps. It fails only for want of
/// memory.
pub(crate) fn vertex_cells(
    alloc: Global,
    grid: &Grid,
    units: Units,
) -> Result<Vec<VertexCell>, AllocError>
    requires grid { IsGrid grid.now }
    requires units { AreUnits units }
    requires gaps { DivideGaps grid.now units }
    ensures { IfOk result (λ cells. AreVertexCells grid.now units cells.items) }
{
    let none = VertexCell {
        i: 0,
        j: 0,
        k: 0,
        h: 1,
        v0: 1,
        v1: 1,
        divisor: Divisor::new(1),
    };
    let mut cells = vec![in alloc; none; grid.vertices() as usize]?;
    fill_cells(grid, units, &mut cells);
    Ok(cells)
}
