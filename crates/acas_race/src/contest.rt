//! A curve against an intruder that goes to a rate of its own.
ghost use Rattle.acas_race.specs.Intruder.{GoesUp};

use acas_areas::Chase;

/// A curve against an intruder. Both start as those of the chase do, and the intruder goes up from its rate to the goal with the
/// acceleration.
#[derive(Clone, Copy)]
pub struct Contest {
    pub chase: Chase,
    pub goal: i64,
    pub accel: u64,
    ghost fits: { GoesUp chase.rate goal accel },
}
