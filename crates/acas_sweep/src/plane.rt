//! One layer of the compiled table, written into a block column by column, there vertex by vertex, and at a vertex present advisory
//! by present advisory.
ghost use Rattle.std.specs.Prelude.{◌≡◌, ℕ, ◌+◌, ◌*◌, ◌<◌, ◌≤◌, ◌^◌, length};
ghost use Rattle.acas_spec.specs.Model.{states, vertices};
ghost use Rattle.acas_process.specs.Compiled.{compiled};
ghost use Rattle.acas_sweep.specs.Best.{AreColumnEntries};
ghost use Rattle.acas_means.specs.Columns.{columns};
ghost use Rattle.acas_means.specs.Entries.{IsStateEntry};
ghost use Rattle.acas_sweep.specs.Entries.{AreOver, AreWritten, IsWhole, SameElsewhere, listed_entry};
ghost use Rattle.acas_sweep.specs.Filled.{IsFilledTo, pairs_in};
ghost use Rattle.acas_sweep.specs.Layers.{layer_backups};
ghost use Rattle.acas_sweep.specs.Turns.{turn};

use crate::backups::Backups;
use crate::ending::terminal_entry;
use crate::entries::{ColumnEntries, VertexEntries, fill_entries};
use crate::order::vertex_after;
use acas_base::Model;
use acas_means::{ColumnMeans, LayerMeans, column_count, reach_of, state_among, vertex_in_column};
use acas_plane::PlaneBlock;
use acas_units::GREATEST_ADVISORIES;

/// Writes the layer with no second to go.
pub(crate) fn put_first(model: &Model, block: &mut PlaneBlock, advice: &mut [u8])
    requires filled { IsFilledTo model.now.grid 0 0 block.old }
    requires advice { states model.now.grid ≤ length advice.old }
    ensures entries { (s : ℕ) → s < states model.now.grid
        → IsStateEntry model.now (compiled model.now) 0 s (listed_entry (pairs_in block.new.work) advice.new s) }
    ensures filled { IsFilledTo model.now.grid (vertices model.now.grid) 0 block.new }
{
    for count in 0..model.grid().vertices() {
        let vertex = vertex_after(model.grid(), count);
        let entries = [terminal_entry(model, vertex); GREATEST_ADVISORIES as usize];
        put_vertex(model, vertex, &entries, block, advice);
    }
}

// Writes the entries of a vertex under all present advisories.
fn put_vertex(
    model: &Model,
    vertex: u32,
    entries: &VertexEntries,
    block: &mut PlaneBlock,
    advice: &mut [u8],
)
    requires vertex { vertex < vertices model.now.grid }
    requires filled { IsFilledTo model.now.grid (turn model.now.grid vertex) 0 block.old }
    requires advice { states model.now.grid ≤ length advice.old }
    ensures written { AreWritten model.now.grid vertex model.now.grid.advisories entries.now
        (pairs_in block.new.work) advice.new }
    ensures others { SameElsewhere model.now.grid vertex (pairs_in block.old.work) advice.old
        (pairs_in block.new.work) advice.new }
    ensures filled { IsFilledTo model.now.grid (turn model.now.grid vertex + 1) 0 block.new }
    ensures finished { block.new.finished ≡ block.old.finished }
{
    let grid = model.grid();
    let width = grid.vertices();
    for present in 0..grid.advisories as u8 {
        let best = entries[usize::from(present)];
        let state = state_among(grid, width, present, vertex);
        block.put(state, best.pair);
        advice[state as usize] = best.advice;
    }
}

// Writes the entries of the vertices of a column under all present advisories.
fn put_column(
    model: &Model,
    column: u32,
    entries: &ColumnEntries,
    block: &mut PlaneBlock,
    advice: &mut [u8],
)
    requires column { column < columns model.now.grid }
    requires entries { AreColumnEntries model.now block.old.finished column entries.now }
    requires over { AreOver model.now block.old.finished (column * length model.now.grid.h)
        (pairs_in block.old.work) advice.old }
    requires filled { IsFilledTo model.now.grid (column * length model.now.grid.h) 0 block.old }
    requires advice { states model.now.grid ≤ length advice.old }
    ensures over { AreOver model.now block.old.finished ((column + 1) * length model.now.grid.h)
        (pairs_in block.new.work) advice.new }
    ensures filled { IsFilledTo model.now.grid ((column + 1) * length model.now.grid.h) 0 block.new }
    ensures finished { block.new.finished ≡ block.old.finished }
{
    let grid = model.grid();
    for i in 0..grid.h.len() {
        let vertex = vertex_in_column(grid, column, i);
        put_vertex(model, vertex, &entries[i as usize], block, advice);
    }
}

/// Writes a layer over the finished one, by room for the means and the entries of a column. It takes no memory.
pub(crate) fn put_over<M: LayerMeans>(
    model: &Model,
    layer_means: &M,
    block: &mut PlaneBlock,
    advice: &mut [u8],
    means: &mut ColumnMeans,
    entries: &mut ColumnEntries,
    count: &mut Backups,
)
    requires fits { M.fits layer_means.now model.now }
    requires horizon { 0 < model.now.grid.horizon }
    requires below { IsWhole model.now block.old.finished }
    requires filled { IsFilledTo model.now.grid 0 0 block.old }
    requires advice { states model.now.grid ≤ length advice.old }
    requires count { count.old + layer_backups model.now < 2 ^ 64 }
    ensures over { AreOver model.now block.old.finished (vertices model.now.grid) (pairs_in block.new.work)
        advice.new }
    ensures filled { IsFilledTo model.now.grid (vertices model.now.grid) 0 block.new }
    ensures count { count.new ≡ count.old + layer_backups model.now }
{
    let reach = reach_of(model, block.finished());
    for column in 0..column_count(model.grid()) {
        fill_entries(
            model,
            layer_means,
            reach,
            column,
            block.finished(),
            means,
            entries,
            count,
        );
        put_column(model, column, entries, block, advice);
    }
}
