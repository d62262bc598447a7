//! The advices at the corners of a cell.
ghost use Rattle.std.specs.Prelude.{◌≡◌, ◌+◌, ◌==◌, ◌&&◌, ◌||◌, ◌<◌, ℕ};
ghost use Rattle.acas_units.specs.declared.limits.TheConstants.{GREATEST_ADVISORIES};
ghost use Rattle.acas_base.specs.Advices.{AreAdvicesOf};
ghost use Rattle.acas_grid.specs.Grid.{IsVertex};
ghost use Rattle.acas_cells.specs.Cells.{IsCellOf, cell_at};
ghost use Rattle.acas_cells.specs.Corners.{advice_at_vertex, is_at_corner, is_clear_cell, vertex_at};
ghost use Rattle.acas_cells.specs.Sets.{has_no_advisory, holds};

use crate::set::AdviceSet;
use acas_base::{Advices, Model};
use acas_grid::Vertex;

/// The advice at a vertex in layer n + 1, under a present advisory.
fn advice_at_vertex(model: &Model, advices: &Advices, n: u32, present: u8, vertex: Vertex) -> u8
    requires advices { AreAdvicesOf model.now advices.now }
    requires n { n < model.now.grid.horizon }
    requires present { present < model.now.grid.advisories }
    requires vertex { IsVertex model.now.grid vertex }
    ensures value { result ≡ advice_at_vertex model.now advices.now n present vertex }
    ensures known { result < GREATEST_ADVISORIES }
{
    let grid = model.grid();
    advices.at(
        n + 1,
        grid.state_number(present, grid.vertex_number(vertex)),
    )
}

// A set with the advices at a vertex and at the next one along the axis of the intruder's rate.
fn with_edge(
    set: AdviceSet,
    model: &Model,
    advices: &Advices,
    n: u32,
    present: u8,
    vertex: Vertex,
) -> AdviceSet
    requires advices { AreAdvicesOf model.now advices.now }
    requires n { n < model.now.grid.horizon }
    requires present { present < model.now.grid.advisories }
    requires vertex { IsVertex model.now.grid vertex }
    requires next { IsVertex model.now.grid (vertex_at vertex.i vertex.j (vertex.k + 1)) }
    ensures more { (a : ℕ) → holds result a ≡ (a == advice_at_vertex model.now advices.now n present vertex
        || (a == advice_at_vertex model.now advices.now n present (vertex_at vertex.i vertex.j (vertex.k + 1)) || holds set a)) }
    ensures clear { has_no_advisory result ≡ (advice_at_vertex model.now advices.now n present vertex == 0
        && (advice_at_vertex model.now advices.now n present (vertex_at vertex.i vertex.j (vertex.k + 1)) == 0 && has_no_advisory set)) }
{
    // Opens the grid: its axes are so short that the next place fits.
    let _ = model.grid();
    let next = Vertex {
        k: vertex.k + 1,
        ..vertex
    };
    let more = set.with(advice_at_vertex(model, advices, n, present, next));
    more.with(advice_at_vertex(model, advices, n, present, vertex))
}

/// The advices at the eight corners of a cell of n seconds under a present advisory, in layer n + 1, clear included. The lower
/// corner has the places i, j, k.
pub fn advices_at(
    model: &Model,
    advices: &Advices,
    n: u32,
    present: u8,
    i: u32,
    j: u32,
    k: u32,
) -> AdviceSet
    requires advices { AreAdvicesOf model.now advices.now }
    requires cell { IsCellOf model.now (cell_at n present i j k) }
    ensures exact { (a : ℕ) →
        holds result a ≡ is_at_corner model.now advices.now (cell_at n present i j k) a }
    ensures clear { has_no_advisory result ≡ is_clear_cell model.now advices.now (cell_at n present i j k) }
{
    // Opens the grid: its axes are so short that the next places fit.
    let _ = model.grid();
    let (above, faster) = (i + 1, j + 1);
    let set = AdviceSet::empty();
    let set = with_edge(
        set,
        model,
        advices,
        n,
        present,
        Vertex {
            i: above,
            j: faster,
            k,
        },
    );
    let set = with_edge(set, model, advices, n, present, Vertex { i: above, j, k });
    let set = with_edge(set, model, advices, n, present, Vertex { i, j: faster, k });
    with_edge(set, model, advices, n, present, Vertex { i, j, k })
}
