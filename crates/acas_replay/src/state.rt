//! The states of an encounter.
ghost use Rattle.std.specs.Prelude.{◌≡◌, ◌+◌, ◌≤◌, ℕ, pos, ◌+ℤ◌, ◌-ℤ◌, ◌*ℤ◌, unsigned_abs};
ghost use Rattle.acas_units.specs.declared.limits.TheConstants.{GREATEST_SECONDS};
ghost use Rattle.acas_replay.specs.declared.limits.TheConstants.{GREATEST_ACCELERATION};
ghost use Rattle.acas_replay.specs.Seconds.{IsSecond};
ghost use Rattle.acas_replay.specs.declared.second.TheConstants.{LARGEST_ALTITUDE, LARGEST_RATE};

use crate::second::Second;
use crate::{Encounter, GREATEST_ACCELERATION};
use acas_spec::Point;
use acas_units::GREATEST_SECONDS;

/// The state of an encounter as a second begins: the advisory that was issued last, the range in ft, below 0 once the intruder has
/// passed, the closing speed in ft/s, and the relative altitude in ticks with both rates in ft/min.
#[derive(Clone, Copy)]
pub struct EncounterState {
    pub present: u8,
    pub range: i64,
    pub closing: i64,
    pub point: Point,
}

impl EncounterState {
    ghost use Rattle.acas_replay.specs.States.{second_from, start_of, state_after};
    ghost use Rattle.acas_replay.specs.Flown.{IsReached};

    /// The state at which an encounter starts.
    pub(crate) fn start_of(encounter: &Encounter) -> EncounterState
        ensures value { result ≡ start_of encounter.now }
        ensures reached { IsReached 0 result }
    {
        let start = encounter.start();
        EncounterState {
            present: start.advisory,
            range: start.range,
            closing: start.closing,
            point: Point {
                h: start.altitude,
                v0: start.own,
                v1: start.intruder,
            },
        }
    }

    /// The second that begins here, with the own and the intruder's acceleration.
    pub(crate) fn second(&self, own: i64, intruder: i64) -> Second
        requires own { unsigned_abs own ≤ unsigned_abs GREATEST_ACCELERATION }
        requires intruder { unsigned_abs intruder ≤ unsigned_abs GREATEST_ACCELERATION }
        requires reached { IsReached GREATEST_SECONDS self.now }
        ensures value { result ≡ second_from self.now own intruder }
        ensures small { IsSecond result }
    {
        Second {
            range: self.range,
            closing: self.closing,
            altitude: self.point.h,
            rate: self.point.v1 - self.point.v0,
            change: intruder - own,
        }
    }

    /// The state at the end of that second: the advice that was issued is present.
    pub(crate) fn after(&self, advice: u8, own: i64, intruder: i64) -> EncounterState
        requires own { unsigned_abs own ≤ unsigned_abs GREATEST_ACCELERATION }
        requires intruder { unsigned_abs intruder ≤ unsigned_abs GREATEST_ACCELERATION }
        requires reached { IsReached GREATEST_SECONDS self.now }
        ensures value { result ≡ state_after self.now advice own intruder }
        ensures reached { (k : ℕ) → IsReached k self.now → IsReached (k + 1) result }
    {
        EncounterState {
            present: advice,
            range: self.range - self.closing,
            closing: self.closing,
            point: Point {
                h: altitude_after(self.point.h, self.point.v1 - self.point.v0, own, intruder),
                v0: self.point.v0 + own,
                v1: self.point.v1 + intruder,
            },
        }
    }
}

// The relative altitude at the end of a second that begins at this one, with this relative rate and these accelerations.
fn altitude_after(altitude: i64, rate: i64, own: i64, intruder: i64) -> i64
    requires altitude { unsigned_abs altitude ≤ LARGEST_ALTITUDE }
    requires rate { unsigned_abs rate ≤ LARGEST_RATE }
    requires own { unsigned_abs own ≤ unsigned_abs GREATEST_ACCELERATION }
    requires intruder { unsigned_abs intruder ≤ unsigned_abs GREATEST_ACCELERATION }
    ensures { result ≡ altitude +ℤ pos 2 *ℤ rate +ℤ intruder -ℤ own }
{
    altitude + 2 * rate + intruder - own
}
