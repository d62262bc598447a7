//! Both means of a layer at the vertices, under each advisory by its number.
ghost use Rattle.std.specs.Prelude.{◌≡◌, ◌≤◌, replicate};
ghost use Rattle.acas_means.specs.Layer.{no_pair};

use acas_base::Model;
use acas_units::{GREATEST_ADVISORIES, GREATEST_VERTICES, Pair};

/// Both means at a vertex, under each advisory by its number.
pub type VertexMeans = [Pair; GREATEST_ADVISORIES as usize];

/// Those at the vertices of a column, by the place of the altitude.
pub type ColumnMeans = [VertexMeans; GREATEST_VERTICES as usize];

/// Room for the means of a column: a pair of noughts at each place.
pub fn blank_means() -> ColumnMeans
    ensures blank { result ≡ replicate GREATEST_VERTICES (replicate GREATEST_ADVISORIES no_pair) }
{
    let none = Pair { upper: 0, lower: 0 };
    [[none; GREATEST_ADVISORIES as usize]; GREATEST_VERTICES as usize]
}

/// How many advisories the model has.
pub fn advisory_count(model: &Model) -> u8
    ensures value { result ≡ model.now.grid.advisories }
    ensures few { result ≤ GREATEST_ADVISORIES }
{
    model.grid().advisories as u8
}
