//! What the search goes through.
ghost use Rattle.std.specs.Prelude.{◌*◌, ◌≤◌};
ghost use Rattle.acas_units.specs.declared.limits.TheConstants.{GREATEST_HALF_HEIGHT};
ghost use Rattle.acas_units.specs.declared.ticks.TheConstants.{TICKS_PER_FOOT};
ghost use Rattle.acas_areas.specs.Chases.{IsAsked, demand_from};
ghost use Rattle.acas_areas.specs.Limits.{IsEnd};
ghost use Rattle.acas_areas.specs.Value.{thinnest};

use acas_areas::BoxState;
use acas_frac::Frac;

/// An area under what an advisory asks, with the half height of the puck in ticks, and the times in seconds of the low flight and of
/// the high flight.
#[derive(Clone, Copy)]
pub struct Survey {
    pub half: u64,
    pub lo: i64,
    pub hi: i64,
    pub pull: u64,
    pub limit: u64,
    pub delay: u64,
    pub area: BoxState,
    pub low: Frac,
    pub high: Frac,
    ghost thick: { thinnest ≤ 2 * half },
    ghost most: { half ≤ TICKS_PER_FOOT * GREATEST_HALF_HEIGHT },
    ghost asked: { IsAsked (demand_from lo hi pull limit delay) },
    ghost low_end: { IsEnd low },
    ghost high_end: { IsEnd high },
}
