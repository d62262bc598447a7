//! The axes of a drilled model.
ghost use Rattle.std.specs.Prelude.{◌≡◌, ◌<◌, ◌≤◌, IfOk};
ghost use Rattle.acas_drill_model.specs.DrilledModel.{about_zero};

use acas_grid::Axis;
use std::alloc::{AllocError, Global};

/// The greatest step of an axis.
const GREATEST_STEP: u32 = 12_000;

/// The greatest number of steps on each side of 0.
const GREATEST_STEPS: u32 = 12;

/// The axis of the numbers by a step, from so many steps below 0 to so many above it.
pub(crate) fn axis_about_zero(alloc: Global, step: u32, steps: u32) -> Result<Axis, AllocError>
    requires some_step { 0 < step }
    requires step { step ≤ GREATEST_STEP }
    requires some_steps { 0 < steps }
    requires steps { steps ≤ GREATEST_STEPS }
    ensures { IfOk result (λ axis. axis ≡ about_zero step steps) }
{
    match Axis::new(numbers_about_zero(alloc, step, steps)?) {
        Ok(axis) => Ok(axis),
        // The numbers rise, and they are few.
        Err(_) => unreachable!(),
    }
}

// The numbers of the axis.
fn numbers_about_zero(alloc: Global, step: u32, steps: u32) -> Result<Vec<i64>, AllocError>
    requires step { step ≤ GREATEST_STEP }
    requires steps { steps ≤ GREATEST_STEPS }
    ensures { IfOk result (λ numbers. numbers.items ≡ about_zero step steps) }
{
    let least = -i64::from(step * steps);
    (0..2 * steps + 1)
        .map(|place| least + i64::from(step * place))
        .collect(alloc)
}
