//! Courses in fractions.
ghost use Rattle.std.specs.Prelude.{◌≤◌, unsigned_abs};
ghost use Rattle.acas_areas.specs.Sizes.{altitude_size};

use acas_frac::Frac;
use acas_witness_plans::Plan;

/// What an intruder does for a time in seconds: it goes from a rate to a goal, both in ft/min, and then keeps the goal.
#[derive(Drop, Clone, Copy)]
pub struct Turn {
    pub time: Frac,
    pub intruder: Frac,
    pub goal: Frac,
}

/// A course as flown: the own plan and the intruder's turn.
#[derive(Drop, Clone, Copy)]
pub struct Flown {
    pub plan: Plan,
    pub turn: Turn,
}

/// Such a course, and the climb of each aircraft in ticks.
#[derive(Drop, Clone, Copy)]
pub(crate) struct Outcome {
    pub flown: Flown,
    pub climb: Frac,
    pub ascent: Frac,
    ghost low: { unsigned_abs flown.plan.altitude ≤ altitude_size },
}
