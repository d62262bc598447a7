//! Windows and boxes, what is found in them, and what the search of it takes.
ghost use Rattle.acas_flight.specs.Border.{border_of};
ghost use Rattle.acas_areas.specs.Chases.{IsAsked, IsChase, demand_from};
ghost use Rattle.acas_areas.specs.Limits.{AreEnds, IsArea, area_from, times_from};
ghost use Rattle.acas_areas.specs.Sizes.{IsMoment};

use acas_frac::Frac;
use acas_units::Span;

/// The times from one to another, both included, in seconds. They are from 0 to 600 and in order, and their denominators are at most
/// 5000.
#[derive(Clone, Copy)]
pub struct Window {
    pub from: Frac,
    pub to: Frac,
    ghost ends: { AreEnds (times_from from to) },
}

/// A box of states: relative altitudes of at most 1,200,000 ticks, and own and intruder rates of at most 10,000 ft/min, in size.
#[derive(Clone, Copy)]
pub struct BoxState {
    pub h: Span,
    pub v0: Span,
    pub v1: Span,
    ghost fits: { IsArea (area_from h v0 v1) },
}

/// A time in seconds, and the gap at it in ticks.
#[derive(Clone, Copy)]
pub struct Extreme {
    pub time: Frac,
    pub value: Frac,
}

/// What an advisory asks of a pilot: a rate from lo to hi in ft/min, approached with an acceleration from the pull to the limit in
/// ft/min per second, after a hold of at most the delay in seconds.
#[derive(Clone, Copy)]
pub struct Asked {
    pub lo: i64,
    pub hi: i64,
    pub pull: u64,
    pub limit: u64,
    pub delay: u64,
    ghost within: { IsAsked (demand_from lo hi pull limit delay) },
}

/// A curve against an intruder. The curve holds its start rate, then goes to the aim with the pull; the intruder starts at the height,
/// in ticks, and flies at the rate.
#[derive(Clone, Copy)]
pub struct Chase {
    pub start: i64,
    pub aim: i64,
    pub pull: u64,
    pub hold: u64,
    pub height: i64,
    pub rate: i64,
    ghost fits: { IsChase (border_of start aim pull hold height rate) },
}

/// A time of num/den seconds, from 0 to 600, with a denominator from 1 to 5000. It need not be in lowest terms.
#[derive(Clone, Copy)]
pub struct Moment {
    pub num: u64,
    pub den: u64,
    ghost within: { IsMoment num den },
}
