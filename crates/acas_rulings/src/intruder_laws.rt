//! What the definitions of an intruder that may change its rate say, in numbers. The functions do nothing: each clause is a law.
ghost use Rattle.std.specs.Prelude.{◌≡◌, ℕ, ◌*◌, ◌<◌, ◌≤◌, ◌↔◌, ℤ, pos, neg_ℤ, ◌+ℤ◌, ◌-ℤ◌, ◌*ℤ◌, unsigned_abs, List, [], ◌∷◌};
ghost use Rattle.acas_spec.specs.Model.{ModelData};
ghost use Rattle.acas_flight.specs.Clear.{Area};
ghost use Rattle.acas_flight.specs.Curves.{approach, held};
ghost use Rattle.acas_flight.specs.Response.{Demand, Meets, Segment, climb, demand_of, lasting, scaled};
ghost use Rattle.acas_flight.specs.State.{Box, IsInBox, State};
ghost use Rattle.acas_rulings.specs.Intruder.{IsFlown, Manoeuvre, over};
ghost use Rattle.acas_rulings.specs.Meeting.{IsMeeting};
ghost use Rattle.acas_rulings.specs.Race.{Race, high_race, low_race, race_gap};

/// An intruder may fly a segment whose acceleration is no greater than one number, and which begins and ends at rates that are no
/// greater than another, and then the next from there. Over q an acceleration is times q, and a rate times q^2.
pub fn intruders_fly_within_two_numbers()
    ensures none { (may : Manoeuvre) (v : ℤ) → IsFlown may v [] }
    ensures some { (may : Manoeuvre) (v : ℤ) (s : Segment) (rest : List Segment) →
        let w = v +ℤ s.acceleration *ℤ pos s.duration in
        IsFlown may v (s ∷ rest)
        ↔ ((0 < s.duration) × (unsigned_abs s.acceleration ≤ may.accel)
        × (unsigned_abs v ≤ may.rate) × (unsigned_abs w ≤ may.rate) × IsFlown may w rest) }
    ensures finer { (may : Manoeuvre) (q : ℕ) →
        ((over q may).accel ≡ may.accel * q) × ((over q may).rate ≡ may.rate * (q * q)) }
{}

/// A meeting is a state of the box, a response that meets the advisory and a flight that the intruder may fly, which last as long, such
/// that then the range is within the radius, and the intruder, after both climbs, within the half height.
pub fn meetings_in_numbers()
    ensures { (m : ModelData) (advisory : ℕ) (may : Manoeuvre) (box : Box) (q : ℕ) (s : State)
        (response flight : List Segment) →
        let t = lasting response in
        IsMeeting m advisory may box q s response flight
        ↔ ((0 < q) × IsInBox box q s × Meets (scaled q (demand_of m advisory)) (s.own *ℤ pos q) response
        × IsFlown (over q may) (s.intruder *ℤ pos q) flight × (lasting flight ≡ t)
        × (unsigned_abs (s.range *ℤ pos q -ℤ s.closing *ℤ pos t) ≤ m.radius * (q * q))
        × (unsigned_abs (s.altitude *ℤ pos (q * q) +ℤ climb (s.intruder *ℤ pos q) flight -ℤ climb (s.own *ℤ pos q) response)
        ≤ m.half * (q * q * q))) }
{}

/// The low curve flies from the least own rate against an intruder that starts highest and goes up, the high curve from the greatest
/// against one that starts lowest and goes down; and how far a curve is above its intruder.
pub fn races_in_numbers()
    ensures low { (a : Demand) (may : Manoeuvre) (area : Area) → let r = low_race a may area in
        (r.start ≡ area.own.least) × (r.aim ≡ a.lo) × (r.height ≡ area.altitude.greatest)
        × (r.rate ≡ area.intruder.greatest) × (r.goal ≡ pos may.rate) × (r.accel ≡ may.accel) }
    ensures high { (a : Demand) (may : Manoeuvre) (area : Area) → let r = high_race a may area in
        (r.start ≡ area.own.greatest) × (r.aim ≡ a.hi) × (r.height ≡ area.altitude.least)
        × (r.rate ≡ area.intruder.least) × (r.goal ≡ neg_ℤ (pos may.rate)) × (r.accel ≡ may.accel) }
    ensures gap { (r : Race) (q t : ℕ) →
        race_gap r q t
        ≡ held (r.start *ℤ pos (q * q)) (r.aim *ℤ pos (q * q)) (r.pull * q) (r.hold * q) t *ℤ pos (r.accel * q)
        -ℤ (r.height *ℤ pos (q * q * q * (r.accel * q))
        +ℤ approach (r.rate *ℤ pos (q * q)) (r.goal *ℤ pos (q * q)) (r.accel * q) t) *ℤ pos (r.pull * q) }
{}
