//! The laws of limits and of what the structs stand for. The functions do nothing: each clause is a law.
ghost use Rattle.std.specs.Prelude.{◌≡◌, ℕ, ◌*◌, ◌<◌, ◌≤◌, pos, ◌*ℤ◌, ◌≤ℤ◌, unsigned_abs};
ghost use Rattle.acas_flight.specs.Clear.{Area};
ghost use Rattle.acas_flight.specs.Window.{Times};
ghost use Rattle.acas_units.specs.declared.span.Span.{Span};
ghost use Rattle.acas_areas.specs.Limits.{AreEnds, IsArea, interval_of};
ghost use Rattle.acas_areas.specs.View.{area_of, demand_in, times_of};
ghost use Rattle.acas_areas.specs.declared.parts.Asked.{Asked};
ghost use Rattle.acas_areas.specs.declared.parts.BoxState.{BoxState};
ghost use Rattle.acas_areas.specs.declared.parts.Window.{Window};

/// The limits of a window and of an area in numbers. The times of a window are from 0 to 600 s, in order, and over 5000 at most; the
/// altitudes of an area are of 1,200,000 ticks at most, up or down, and its rates of 10,000 ft/min.
pub fn limits_in_numbers()
    ensures from { (w : Times) → AreEnds w → pos 0 ≤ℤ w.from.num }
    ensures to { (w : Times) → AreEnds w → w.to.num ≤ℤ pos (600 * w.to.den) }
    ensures order { (w : Times) → AreEnds w →
        (w.from.num *ℤ pos w.to.den) ≤ℤ (w.to.num *ℤ pos w.from.den) }
    ensures fine { (w : Times) → AreEnds w →
        (0 < w.from.den) × (w.from.den ≤ 5_000) × (0 < w.to.den) × (w.to.den ≤ 5_000) }
    ensures altitudes { (area : Area) → IsArea area →
        (unsigned_abs area.altitude.least ≤ 1_200_000) × (unsigned_abs area.altitude.greatest ≤ 1_200_000) }
    ensures own_rates { (area : Area) → IsArea area →
        (unsigned_abs area.own.least ≤ 10_000) × (unsigned_abs area.own.greatest ≤ 10_000) }
    ensures intruder_rates { (area : Area) → IsArea area →
        (unsigned_abs area.intruder.least ≤ 10_000) × (unsigned_abs area.intruder.greatest ≤ 10_000) }
{}

/// A span stands for its two ends, a window for its two times, a box of states for the intervals of its three spans, and what is asked for
/// its five numbers.
pub fn structs_stand_for_their_numbers()
    ensures span { (s : Span) → ((interval_of s).least ≡ s.least) × ((interval_of s).greatest ≡ s.greatest) }
    ensures window { (w : Window) → ((times_of w).from ≡ w.from) × ((times_of w).to ≡ w.to) }
    ensures area { (b : BoxState) → ((area_of b).altitude ≡ interval_of b.h)
        × ((area_of b).own ≡ interval_of b.v0) × ((area_of b).intruder ≡ interval_of b.v1) }
    ensures asked { (a : Asked) → ((demand_in a).lo ≡ a.lo) × ((demand_in a).hi ≡ a.hi)
        × ((demand_in a).pull ≡ a.pull) × ((demand_in a).limit ≡ a.limit) × ((demand_in a).delay ≡ a.delay) }
{}
