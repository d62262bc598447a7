//! The model of a drill.
ghost use Rattle.std.specs.Prelude.{◌≡◌, ◌≤◌, IfOk};
ghost use Rattle.acas_drill_model.specs.DrilledModel.{drilled_grid, drilled_model};

use crate::axes::axis_about_zero;
use crate::parts::{ADVISORIES, advisories, choices, sigmas};
use acas_base::{Closing, Model, Numbers, Pilot, Puck};
use acas_grid::Grid;
use acas_units::{GREATEST_DRILL_NUMBER, TICKS_PER_FOOT};
use std::alloc::{AllocError, Global};

/// The model of a drill by its number, part by part and without a text. It has seven advisories and three sigma points, 13 to 25
/// altitudes by 100 ft, 5 to 11 rates by 500 ft/min on each of the two axes of rates, and goes back 10 to 40 seconds. Its
/// pilot holds no rate before following.
pub fn drill_model(alloc: Global, number: u32) -> Result<Model, AllocError>
    requires { number ≤ GREATEST_DRILL_NUMBER }
    ensures { IfOk result (λ model. model ≡ drilled_model number) }
{
    let numbers = Numbers {
        puck: Puck {
            radius: 500,
            half: 100 * TICKS_PER_FOOT,
        },
        closing: Closing {
            least: 500,
            greatest: 1_500,
        },
        pilot: Pilot {
            pull: 480,
            limit: 960,
            delay: 0,
        },
        contact: i64::from(1_000 + number % 9_000),
    };
    let advisories = advisories(alloc)?;
    let choices = choices(alloc)?;
    let sigmas = sigmas(alloc)?;
    let grid = drill_grid(alloc, number)?;
    Ok(Model::new(grid, numbers, advisories, choices, sigmas))
}

// The grid: each axis has as many steps as a part of the number says.
fn drill_grid(alloc: Global, number: u32) -> Result<Grid, AllocError>
    ensures { IfOk result (λ grid. grid ≡ drilled_grid number) }
{
    let h = axis_about_zero(alloc, 100 * TICKS_PER_FOOT, 6 + number % 7)?;
    let v0 = axis_about_zero(alloc, 500, 2 + number / 7 % 4)?;
    let v1 = axis_about_zero(alloc, 500, 2 + number / 28 % 4)?;
    Ok(Grid {
        h,
        v0,
        v1,
        advisories: ADVISORIES,
        horizon: 10 + number / 112 % 31,
    })
}
