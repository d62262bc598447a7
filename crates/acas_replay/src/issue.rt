//! The advice that a table issues at a state.
ghost use Rattle.std.specs.Prelude.{◌<◌, MatchOption};
ghost use Rattle.acas_units.specs.declared.limits.TheConstants.{GREATEST_SECONDS};
ghost use Rattle.acas_grid.specs.Grid.{IsInside};
ghost use Rattle.acas_base.specs.Advices.{AreAdvicesOf};
ghost use Rattle.acas_replay.specs.Flown.{IsReached};
ghost use Rattle.acas_replay.specs.Issue.{IsAdvisedIn, IsIssued, IsLayerOf, IsNearestVertex, IsNotAdvised};

use crate::axis_place::nearest_place;
use crate::state::EncounterState;
use acas_base::{Advices, Model};
use acas_grid::Grid;
use acas_spec::{Point, Vertex};

// The least number of seconds, of at least 1, in which the range comes within the radius.
fn layer_of(model: &Model, state: &EncounterState) -> u64
    requires { IsReached GREATEST_SECONDS state.now }
    ensures { IsLayerOf model.now state.now result }
{
    // Opens the model's limits: the radius is small.
    let _ = model.grid();
    let outside = state.range - model.radius();
    if outside <= state.closing {
        return 1;
    }
    (outside as u64).div_ceil(state.closing as u64)
}

// The layer that advises a state, if one does.
fn advised_in(model: &Model, state: &EncounterState) -> Option<u32>
    requires { IsReached GREATEST_SECONDS state.now }
    ensures { MatchOption result (IsNotAdvised model.now state.now) (λ layer.
        IsAdvisedIn model.now state.now layer) }
{
    let horizon = model.grid().horizon;
    if state.range < -model.radius() {
        return None;
    }
    let layer = layer_of(model, state);
    if u64::from(horizon) < layer {
        return None;
    }
    Some(layer as u32)
}

// The vertex of the greatest share at a point, and of several the one of the least number.
fn nearest_vertex(grid: &Grid, point: Point) -> Vertex
    requires { IsInside grid.now point }
    ensures { IsNearestVertex grid.now point result }
{
    Vertex {
        i: nearest_place(&grid.h, point.h),
        j: nearest_place(&grid.v0, point.v0),
        k: nearest_place(&grid.v1, point.v1),
    }
}

/// The advice that is issued at a state: clear of conflict where no layer of the table advises it, and else what is tabled for it.
pub(crate) fn issued_advice(model: &Model, advices: &Advices, state: &EncounterState) -> u8
    requires advices { AreAdvicesOf model.now advices.now }
    requires present { state.now.present < model.now.grid.advisories }
    requires reached { IsReached GREATEST_SECONDS state.now }
    ensures issued { IsIssued model.now advices.now state.now result }
    ensures known { result < model.now.grid.advisories }
{
    let grid = model.grid();
    match advised_in(model, state) {
        None => 0,
        Some(layer) => {
            let vertex = nearest_vertex(grid, grid.clamp(state.point));
            let number = grid.vertex_number(vertex);
            advices.at(layer, grid.state_number(state.present, number))
        }
    }
}
