//! One second of small models.
ghost use Rattle.std.specs.Prelude.{◌≡◌, ◌<◌, length};
ghost use Rattle.acas_spec.specs.Model.{states, vertices};
ghost use Rattle.acas_means.specs.Columns.{columns};
ghost use Rattle.acas_step_stencils.specs.Stencils.{AreStencilsOf};

use crate::models::{FOUR, LAST_OF_FOUR, LAST_OF_NOISY, NOISY, NONE, WIDE};
use acas_base::{Choice, Model};
use acas_frac::{Down, Up};
use acas_grid::{Point, state_present};
use acas_means::{
    ColumnMeans, LayerMeans, Side, column_count, reach_of, terminal, vertex_in_column,
};
use acas_plain::{backup, mean, means_at};
use acas_step::{Corner, corners, moved};
use acas_step_columns::StencilMeans;
use acas_step_stencils::Stencils;
use acas_sweep::Backups;
use acas_tests_data::model_of;
use acas_units::{GREATEST_ADVISORIES, GREATEST_VERTICES, Pair};
use std::alloc::Global;

// Where a sigma point leads, if the numbers are those of a vertex, an advisory and a sigma point.
fn moved_in(model: &Model, vertex: u32, advisory: u8, sigma: u32) -> Option<(i64, i64, i64)> {
    let grid = model.grid();
    if vertex < grid.vertices()
        && u32::from(advisory) < grid.advisories
        && (sigma as usize) < model.points().len()
    {
        let end = moved(model, vertex, advisory, sigma);
        Some((end.h, end.v0, end.v1))
    } else {
        None
    }
}

// A model, a vertex, an advisory, a sigma point, and where it leads.
const ENDS: [(&str, u32, u8, u32, Option<(i64, i64, i64)>); 13] = [
    (NOISY, 1, 0, 0, Some((1200, 0, 600))),
    (NOISY, 5, 0, 0, Some((3600, 0, 600))),
    (NOISY, 1, 0, 1, Some((1800, 0, 600))),
    (NOISY, 1, 0, 2, Some((600, 0, 0))),
    (NOISY, 3, 0, 0, Some((0, 600, 600))),
    (NOISY, 4, 0, 2, Some((3000, 0, 0))),
    (NOISY, 8, 0, 0, None),
    (NOISY, 0, 2, 0, None),
    (NOISY, 0, 0, 3, None),
    // up and down by the pull, and by less to a rate
    (FOUR, 13, 1, 0, Some((5520, 480, 3000))),
    (FOUR, 15, 2, 0, Some((3480, 1020, 3000))),
    (FOUR, 15, 1, 0, Some((3000, 1500, 3000))),
    (FOUR, 14, 3, 0, Some((-2520, 1020, 0))),
];

// Whether a sigma point of the model of a text leads where it should.
fn leads_to(
    alloc: Global,
    text: &str,
    vertex: u32,
    advisory: u8,
    sigma: u32,
    end: Option<(i64, i64, i64)>,
) -> Option<bool> {
    let model = model_of(alloc, text)?;
    Some(moved_in(&model, vertex, advisory, sigma) == end)
}

#[test]
fn a_second_leads_to_points(rt: HostRuntime) {
    for (text, vertex, advisory, sigma, end) in ENDS {
        assert!(rt;
            leads_to(rt.alloc(), text, vertex, advisory, sigma, end) == Some(true),
            "{vertex} {advisory} {sigma}"
        );
    }
}

// A model, a point, what the weights of the corners sum to of the cell that holds the nearest point of the grid, and of each corner
// the vertex and the weight.
const CORNERS: [(&str, (i64, i64, i64), i128, [(u32, i128); 8]); 2] = [
    (
        NOISY,
        (1200, 0, 600),
        1_296_000_000,
        [
            (0, 0),
            (1, 864_000_000),
            (2, 0),
            (3, 0),
            (4, 0),
            (5, 432_000_000),
            (6, 0),
            (7, 0),
        ],
    ),
    // in the cell from vertex 7: a quarter up, a third on, half on
    (
        FOUR,
        (-60_300, 500, 1500),
        80_400 * 1500 * 3000,
        [
            (6, 60_300 * 1000 * 1500),
            (7, 60_300 * 1000 * 1500),
            (8, 60_300 * 500 * 1500),
            (9, 60_300 * 500 * 1500),
            (12, 20_100 * 1000 * 1500),
            (13, 20_100 * 1000 * 1500),
            (14, 20_100 * 500 * 1500),
            (15, 20_100 * 500 * 1500),
        ],
    ),
];

// Whether corners have these vertices and weights.
fn are_corners(found: &[Corner; 8], wanted: &[(u32, i128); 8]) -> bool {
    let mut same = true;
    for i in 0..8 {
        same = same && (found[i].vertex, found[i].weight) == wanted[i];
    }
    same
}

// Whether the corners near a point are those that it should have.
fn are_near(
    model: &Model,
    (h, v0, v1): (i64, i64, i64),
    total: i128,
    wanted: &[(u32, i128); 8],
) -> bool {
    let found = corners(model, model.grid().clamp(Point { h, v0, v1 }));
    found.total == total && are_corners(&found.corners, wanted)
}

fn has_corners(
    alloc: Global,
    text: &str,
    point: (i64, i64, i64),
    total: i128,
    wanted: &[(u32, i128); 8],
) -> Option<bool> {
    let model = model_of(alloc, text)?;
    Some(are_near(&model, point, total, wanted))
}

#[test]
fn points_have_corners(rt: HostRuntime) {
    for (text, point, total, wanted) in CORNERS {
        assert!(rt;
            has_corners(rt.alloc(), text, point, total, &wanted) == Some(true),
            "{total}"
        );
    }
}

// The cost at the end, if the vertex is one of the model's.
fn ending(model: &Model, vertex: u32) -> Option<i64> {
    if vertex < model.grid().vertices() {
        Some(terminal(model, vertex))
    } else {
        None
    }
}

// A vertex of `FOUR`, which has six at each altitude, the third of which is that of contact; and the cost there at the end.
const COSTS: [(u32, Option<i64>); 6] = [
    (0, Some(0)),
    (11, Some(0)),
    (12, Some(5)),
    (17, Some(5)),
    (18, Some(0)),
    (24, None),
];

fn has_ending(alloc: Global, vertex: u32, cost: Option<i64>) -> Option<bool> {
    let four = model_of(alloc, FOUR)?;
    Some(ending(&four, vertex) == cost)
}

#[test]
fn contact_costs_at_the_end(rt: HostRuntime) {
    for (vertex, cost) in COSTS {
        assert!(rt; has_ending(rt.alloc(), vertex, cost) == Some(true));
    }
}

// Both values of a choice, if it is one of the model's and the layer has the model's states.
fn values_of(
    model: &Model,
    vertex: u32,
    choice: &Choice,
    below: &[Pair],
    count: &mut Backups,
) -> Option<(i128, i128)> {
    let grid = model.grid();
    if vertex < grid.vertices()
        && u32::from(choice.advisory) < grid.advisories
        && choice.cost.unsigned_abs() <= 1_000_000_000
        && below.len() == grid.states() as usize
        && count.count() <= 1_000_000
    {
        let upper = backup::<Up>(model, vertex, choice, Side::Upper, below, count);
        let lower = backup::<Down>(model, vertex, choice, Side::Lower, below, count);
        Some((upper, lower))
    } else {
        None
    }
}

// The means under an advisory, if the numbers are the model's.
fn means_of(model: &Model, vertex: u32, advisory: u8, below: &[Pair]) -> Option<(i64, i64)> {
    let grid = model.grid();
    if vertex < grid.vertices()
        && u32::from(advisory) < grid.advisories
        && below.len() == grid.states() as usize
    {
        let upper = mean::<Up>(model, vertex, advisory, Side::Upper, below);
        let lower = mean::<Down>(model, vertex, advisory, Side::Lower, below);
        Some((upper, lower))
    } else {
        None
    }
}

// A vertex of `FOUR`, an advisory and its cost, and the upper and the lower value of that choice over the last layer.
const CHOICES: [(u32, u8, i64, Option<(i128, i128)>); 7] = [
    // 50 of 670 ft up to contact of cost 5; from contact; past the lower end; a cost of -3
    (7, 0, 0, Some((373_135, 373_134))),
    (7, 0, 1, Some((1_373_135, 1_373_134))),
    (12, 3, 1, Some((6_000_000, 6_000_000))),
    (4, 0, -3, Some((-3_000_000, -3_000_000))),
    (24, 0, 0, None),
    (7, 4, 0, None),
    (7, 0, 1_000_000_001, None),
];

// A vertex of `FOUR`, an advisory, and the means under it over the last layer.
const MEANS: [(u32, u8, Option<(i64, i64)>); 3] = [
    // 54 of 670 ft up to contact, since the pilot descends by 480 ft/min
    (7, 2, Some((402_986, 402_985))),
    (7, 0, Some((373_135, 373_134))),
    (24, 0, None),
];

fn has_values(
    alloc: Global,
    vertex: u32,
    choice: &Choice,
    count: &mut Backups,
    values: Option<(i128, i128)>,
) -> Option<bool> {
    let four = model_of(alloc, FOUR)?;
    Some(values_of(&four, vertex, choice, &LAST_OF_FOUR, count) == values)
}

fn has_means(alloc: Global, vertex: u32, advisory: u8, means: Option<(i64, i64)>) -> Option<bool> {
    let four = model_of(alloc, FOUR)?;
    Some(means_of(&four, vertex, advisory, &LAST_OF_FOUR) == means)
}

#[test]
fn choices_have_values(rt: HostRuntime) {
    let mut count = Backups::new();
    for (vertex, advisory, cost, values) in CHOICES {
        let choice = Choice { advisory, cost };
        assert!(rt; has_values(rt.alloc(), vertex, &choice, &mut count, values) == Some(true));
    }
    assert!(rt; count.count() == 4);
}

#[test]
fn advisories_have_means(rt: HostRuntime) {
    for (vertex, advisory, means) in MEANS {
        assert!(rt; has_means(rt.alloc(), vertex, advisory, means) == Some(true));
    }
}

// Whether the stencils of a model give the corners of each point to which a second leads from a vertex under an advisory, and there
// is a second to go.
fn same_corners_from(model: &Model, stencils: &Stencils, vertex: u32, advisory: u8) -> bool
    requires stencils { AreStencilsOf model.now stencils.now }
    requires vertex { vertex < vertices model.now.grid }
    requires advisory { advisory < model.now.grid.advisories }
{
    let grid = model.grid();
    if grid.horizon == 0 {
        return false;
    }
    let mut same = true;
    for sigma in 0..model.points().len() as u32 {
        let plain = corners(model, moved(model, vertex, advisory, sigma));
        same = same && stencils.corners(model, vertex, advisory, sigma) == plain;
    }
    same
}

// The same from each vertex under each advisory.
fn same_corners(model: &Model, stencils: &Stencils) -> bool
    requires { AreStencilsOf model.now stencils.now }
{
    let grid = model.grid();
    let mut same = true;
    for state in 0..grid.states() {
        let advisory = state_present(grid, state);
        let vertex = state % grid.vertices();
        same = same && same_corners_from(model, stencils, vertex, advisory);
    }
    same
}

// Whether the means at the vertices of a column are the plain ones.
fn are_plain(model: &Model, column: u32, means: &ColumnMeans, below: &[Pair]) -> bool
    requires column { column < columns model.now.grid }
    requires below { length below.now ≡ states model.now.grid }
{
    let grid = model.grid();
    let mut same = true;
    for i in 0..grid.h.len() {
        let plain = means_at(model, vertex_in_column(grid, column, i), below);
        same = same && means[i as usize] == plain;
    }
    same
}

// Whether the means that are formed for a model are the plain ones in each column, and there is a second to go.
fn same_means<M: LayerMeans>(model: &Model, layer_means: &M, below: &[Pair]) -> bool
    requires { M.fits layer_means.now model.now }
{
    let grid = model.grid();
    if grid.horizon == 0 || below.len() != grid.states() as usize {
        return false;
    }
    let reach = reach_of(model, below);
    let none = [NONE; GREATEST_ADVISORIES as usize];
    let mut means = [none; GREATEST_VERTICES as usize];
    let mut same = true;
    for column in 0..column_count(grid) {
        layer_means.fill_column(model, reach, column, below, &mut means);
        same = same && are_plain(model, column, &means, below);
    }
    same
}

// Whether the stencils of a model give the plain step over a layer.
fn gives_the_plain_step(alloc: Global, text: &str, below: &[Pair]) -> Option<bool> {
    let model = model_of(alloc, text)?;
    let Ok(stencils) = Stencils::make(alloc, &model) else {
        return None;
    };
    let Ok(stencil_means) = StencilMeans::make(alloc, &model) else {
        return None;
    };
    Some(same_corners(&model, &stencils) && same_means(&model, &stencil_means, below))
}

// Models and their last layers.
const LAYERS: [(&str, &[Pair]); 3] = [
    (FOUR, &LAST_OF_FOUR),
    (NOISY, &LAST_OF_NOISY),
    (WIDE, &[NONE; 16]),
];

#[test]
fn stencils_give_the_plain_step(rt: HostRuntime) {
    for (text, below) in LAYERS {
        let met = gives_the_plain_step(rt.alloc(), text, below);
        assert!(rt; met == Some(true), "{text}");
    }
}
