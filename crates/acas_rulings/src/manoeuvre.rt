//! What an intruder may do.
ghost use Rattle.acas_rulings.specs.ManoeuvreLimits.{IsManoeuvre};

/// What an intruder may do that changes its rate: its greatest acceleration, from 1 to 2,000 ft/min per second, and its greatest rate,
/// from 1 to 10,000 ft/min, both upward and downward.
#[derive(Clone, Copy)]
pub struct Manoeuvre {
    pub accel: i64,
    pub rate: i64,
    ghost within: { IsManoeuvre accel rate },
}
