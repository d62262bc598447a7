//! Flights of the search in fractions.
ghost use Rattle.acas_region_curves.specs.Ratios.{IsShort};

use acas_frac::Frac;
use acas_region_curves::Ratio;

/// A flight of the search: how long it lasts in seconds; how far the intruder is above at its start, in ticks; the own and the
/// intruder's rate then, in ft/min; the aim in ft/min to which the pilot goes with the pull in ft/min per second; and the seconds for
/// which the pilot holds the own rate first.
#[derive(Drop, Clone, Copy)]
pub struct Plan {
    pub time: Frac,
    pub altitude: i64,
    pub own: Frac,
    pub intruder: Frac,
    pub aim: Frac,
    pub pull: Frac,
    pub hold: Frac,
}

/// A plan, with its climb and where the intruder ends, in ticks over the own start. Both are left as they are formed, since an outcome
/// is only compared.
#[derive(Drop, Clone, Copy)]
pub struct Outcome {
    pub plan: Plan,
    pub climb: Ratio,
    pub intruder_end: Ratio,
    ghost short: { IsShort intruder_end },
}
