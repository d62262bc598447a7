//! The best entries over a layer: those at a vertex under each present advisory, by the means of the layer there.
ghost use Rattle.std.specs.Prelude.{◌≡◌, ◌+◌, ◌*◌, ◌<◌, ◌≤◌, ◌^◌, length, replicate};
ghost use Rattle.acas_spec.specs.Model.{choices_at, states};
ghost use Rattle.acas_sweep.specs.Best.{AreBest, AreBestUnder, AreColumnEntries, ColumnLeavesRoom, IsBest, LeaveColumnOthers, LeaveOthers, LeaveRoom, entry_at, no_entry};
ghost use Rattle.acas_sweep.specs.Priced.{IsPricedAt, IsPricedIn};
ghost use Rattle.acas_means.specs.Choices.{choice_count};
ghost use Rattle.acas_means.specs.Columns.{columns};
ghost use Rattle.acas_means.specs.Layer.{AreWithin};
ghost use Rattle.acas_means.specs.Reach.{IsReach};
ghost use Rattle.acas_means.specs.declared.layer.Side.{Side};

use crate::backups::Backups;
use crate::best::best_choice;
use crate::priced::{PricedList, priced_list};
use crate::two::best_of_two;
use acas_base::Model;
use acas_means::{ColumnMeans, LayerMeans, Reach, VertexMeans, advisory_count};
use acas_units::{Entry, GREATEST_ADVISORIES, GREATEST_VERTICES, Pair};
use std::array;

/// An entry for each present advisory by its number.
pub type VertexEntries = [Entry; GREATEST_ADVISORIES as usize];

/// Those at the vertices of a column, by the place of the altitude.
pub type ColumnEntries = [VertexEntries; GREATEST_VERTICES as usize];

// Room for the entries at a vertex.
fn blank_vertex() -> VertexEntries
    ensures { result ≡ replicate GREATEST_ADVISORIES no_entry }
{
    let none = Entry {
        pair: Pair { upper: 0, lower: 0 },
        advice: 0,
    };
    [none; GREATEST_ADVISORIES as usize]
}

/// Room for the entries of a column: an entry of noughts at each place. It is made vertex by vertex, since the compiler makes a store of
/// its own for each field of a literal.
pub fn blank_entries() -> ColumnEntries
    ensures blank { result ≡ replicate GREATEST_VERTICES (replicate GREATEST_ADVISORIES no_entry) }
{
    array::from_fn(
        |_|
            ensures { result ≡ replicate GREATEST_ADVISORIES no_entry }
        { blank_vertex() },
    )
}

// Writes the entry under one present advisory at a vertex, and leaves those under the others.
fn put_entry(present: u8, entry: Entry, entries: &mut VertexEntries)
    requires known { present < 16 }
    ensures written { entry_at entries.new present ≡ entry }
    ensures others { LeaveOthers present entries.old entries.new }
{
    entries[usize::from(present)] = entry;
}

// Writes the best entry under one present advisory at a vertex, by its choices and by the means there. It counts a backup for each
// choice.
fn write_best(
    model: &Model,
    present: u8,
    list: &PricedList,
    vertex_means: &VertexMeans,
    entries: &mut VertexEntries,
    count: &mut Backups,
)
    requires priced { IsPricedAt model.now present list.now vertex_means.now }
    requires count { count.old + length (choices_at model.now present) < 2 ^ 64 }
    ensures best { let choices = choices_at model.now present in
        IsBest model.now vertex_means.now present choices (entry_at entries.new present) }
    ensures others { LeaveOthers present entries.old entries.new }
    ensures count { count.new ≡ count.old + length (choices_at model.now present) }
{
    let entry = best_choice(model, present, list, vertex_means, count);
    put_entry(present, entry, entries);
}

/// Writes the best entries at a vertex, by the means there, with one list of choices at a time. It counts a backup for each choice.
pub(crate) fn fill_best(
    model: &Model,
    vertex_means: &VertexMeans,
    entries: &mut VertexEntries,
    count: &mut Backups,
)
    requires means { LeaveRoom model.now vertex_means.now }
    requires count { count.old + choice_count model.now < 2 ^ 64 }
    ensures best { AreBest model.now vertex_means.now model.now.grid.advisories entries.new }
    ensures count { count.new ≡ count.old + choice_count model.now }
{
    // A model within its limits has a list of choices under each present advisory.
    let _ = model.grid();
    for present in 0..advisory_count(model) {
        let list = priced_list(model, present);
        write_best(model, present, &list, vertex_means, entries, count);
    }
}

// Writes the best entries under one present advisory at two places of a column that follow those already filled, and leaves those
// under the others. It counts a backup for each choice at each of the two.
fn write_two(
    model: &Model,
    present: u8,
    list: &PricedList,
    place: usize,
    means: &ColumnMeans,
    entries: &mut ColumnEntries,
    count: &mut Backups,
)
    requires priced { IsPricedIn model.now present list.now means.now }
    requires inside { place + 1 < length model.now.grid.h }
    requires so_far { AreBestUnder model.now means.now present place entries.old }
    requires count { count.old + 2 * length (choices_at model.now present) < 2 ^ 64 }
    ensures best { AreBestUnder model.now means.now present (place + 2) entries.new }
    ensures others { LeaveColumnOthers present entries.old entries.new }
    ensures count { count.new ≡ count.old + 2 * length (choices_at model.now present) }
{
    // A model within its limits has no more altitudes than a column has places.
    let _ = model.grid();
    let two = best_of_two(
        model,
        present,
        list,
        &means[place],
        &means[place + 1],
        count,
    );
    put_entry(present, two.first, &mut entries[place]);
    put_entry(present, two.second, &mut entries[place + 1]);
}

// Writes the best entries under one present advisory at so many places of a column, two at a time, and leaves those under the others.
// It counts a backup for each choice at each of them.
fn fill_twos(
    model: &Model,
    present: u8,
    list: &PricedList,
    twos: usize,
    means: &ColumnMeans,
    entries: &mut ColumnEntries,
    count: &mut Backups,
)
    requires priced { IsPricedIn model.now present list.now means.now }
    requires inside { 2 * twos ≤ length model.now.grid.h }
    requires count { count.old + 2 * twos * length (choices_at model.now present) < 2 ^ 64 }
    ensures best { AreBestUnder model.now means.now present (2 * twos) entries.new }
    ensures others { LeaveColumnOthers present entries.old entries.new }
    ensures count { count.new ≡ count.old + 2 * twos * length (choices_at model.now present) }
{
    let _ = model.grid();
    for n in 0..twos {
        write_two(model, present, list, 2 * n, means, entries, count);
    }
}

// Writes the best entries under one present advisory at the vertices of a column, by the means there, and leaves those under the
// others. It counts a backup for each vertex and choice.
fn fill_present(
    model: &Model,
    present: u8,
    means: &ColumnMeans,
    entries: &mut ColumnEntries,
    count: &mut Backups,
)
    requires known { present < model.now.grid.advisories }
    requires means { ColumnLeavesRoom model.now means.now }
    requires count { count.old + length model.now.grid.h * length (choices_at model.now present) < 2 ^ 64 }
    ensures best { AreBestUnder model.now means.now present (length model.now.grid.h) entries.new }
    ensures others { LeaveColumnOthers present entries.old entries.new }
    ensures count { count.new ≡ count.old + length model.now.grid.h * length (choices_at model.now present) }
{
    let altitudes = model.grid().h.len() as usize;
    let list = priced_list(model, present);
    fill_twos(model, present, &list, altitudes / 2, means, entries, count);
    if altitudes % 2 == 1 {
        let last = altitudes - 1;
        write_best(
            model,
            present,
            &list,
            &means[last],
            &mut entries[last],
            count,
        );
    }
}

/// Writes the best entries at the vertices of a column over the layer below, and the means that they are formed of, by what forms the
/// model's means and the layer's reach. It counts a backup for each vertex and choice, and takes
/// no memory.
pub fn fill_entries<M: LayerMeans>(
    model: &Model,
    layer_means: &M,
    reach: Reach,
    column: u32,
    below: &[Pair],
    means: &mut ColumnMeans,
    entries: &mut ColumnEntries,
    count: &mut Backups,
)
    requires fits { M.fits layer_means.now model.now }
    requires horizon { 0 < model.now.grid.horizon }
    requires reach { IsReach model.now.grid below.now reach }
    requires column { column < columns model.now.grid }
    requires below { length below.now ≡ states model.now.grid }
    requires small { (side : Side) → AreWithin (2 ^ 62) side below.now }
    requires count { count.old + length model.now.grid.h * choice_count model.now < 2 ^ 64 }
    ensures entries { AreColumnEntries model.now below.now column entries.new }
    ensures count { count.new ≡ count.old + length model.now.grid.h * choice_count model.now }
{
    let _ = model.grid();
    layer_means.fill_column(model, reach, column, below, means);
    for present in 0..advisory_count(model) {
        fill_present(model, present, means, entries, count);
    }
}
