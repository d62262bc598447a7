//! The laws of an intruder that may change its rate. The functions do nothing: each clause is a law.
ghost use Rattle.std.specs.Prelude.{ℕ, ◌*◌, ◌<◌, ◌≤◌, ◌<ℤ◌, ◌↔◌, ℤ, pos, neg_ℤ, ◌*ℤ◌, ◌≤ℤ◌, unsigned_abs, List};
ghost use Rattle.acas_spec.specs.Model.{ModelData};
ghost use Rattle.acas_flight.specs.Response.{Demand, Meets, Segment, climb, demand_of, lasting};
ghost use Rattle.acas_flight.specs.State.{Box};
ghost use Rattle.acas_flight.specs.Contact.{IsEndangeredBox};
ghost use Rattle.acas_flight.specs.Parts.{CanBeMet};
ghost use Rattle.acas_flight.specs.Curves.{approach};
ghost use Rattle.acas_flight.specs.Window.{IsWindowOfBox, Times};
ghost use Rattle.acas_flight.specs.Clear.{Area, area_of_box};
ghost use Rattle.acas_rulings.specs.Intruder.{IsFlown, Manoeuvre, RatesFit, pilot_of};
ghost use Rattle.acas_rulings.specs.Meeting.{IsEndangeredBy, IsEndangeredDuringBy};
ghost use Rattle.acas_rulings.specs.Race.{Race, turned};
ghost use Rattle.acas_rulings.specs.Apart.{IsApart, StaysAbove, StaysBelow};
ghost use Rattle.acas_rulings.specs.Least.{IsFirstLeastTime};
ghost use Rattle.acas_rulings.specs.Turns.{Instant, IsFirstOf, IsLooked, IsSoonerOrSame, fraction_of, race_number, times_of};

/// From a rate that it may have, an intruder may fly exactly what a pilot may who is asked for its rates and accelerations alone.
pub fn intruders_fly_as_pilots()
    ensures { (may : Manoeuvre) (v : ℤ) (flight : List Segment) → unsigned_abs v ≤ may.rate →
        IsFlown may v flight ↔ Meets (pilot_of may) v flight }
{}

/// An intruder climbs at most as one that goes at once to the greatest rate with the greatest acceleration, and at least as one that
/// goes to the least. A curve is times the acceleration.
pub fn intruders_stay_between_curves()
    ensures high { (may : Manoeuvre) (v : ℤ) (flight : List Segment) → 0 < may.accel →
        unsigned_abs v ≤ may.rate → IsFlown may v flight →
        (climb v flight *ℤ pos may.accel) ≤ℤ approach v (pos may.rate) may.accel (lasting flight) }
    ensures low { (may : Manoeuvre) (v : ℤ) (flight : List Segment) → 0 < may.accel →
        unsigned_abs v ≤ may.rate → IsFlown may v flight →
        approach v (neg_ℤ (pos may.rate)) may.accel (lasting flight) ≤ℤ (climb v flight *ℤ pos may.accel) }
{}

/// An intruder that holds its rate is one that may change it. So a box that is endangered while the intruder holds its rate is
/// endangered by each manoeuvre that allows the box's rates, and a box that no such manoeuvre endangers is safe while it holds.
pub fn steady_intruders_may_manoeuvre()
    ensures danger { (m : ModelData) (box : Box) (advisory : ℕ) (may : Manoeuvre) →
        RatesFit may box.intruder → IsEndangeredBox m box advisory → IsEndangeredBy m advisory may box }
    ensures safe { (m : ModelData) (box : Box) (advisory : ℕ) (may : Manoeuvre) →
        RatesFit may box.intruder → ¬ IsEndangeredBy m advisory may box → ¬ IsEndangeredBox m box advisory }
{}

/// What a manoeuvre endangers is endangered by each that is as great or greater.
pub fn greater_manoeuvres_endanger_more()
    ensures { (m : ModelData) (box : Box) (advisory : ℕ) (may more : Manoeuvre) →
        may.accel ≤ more.accel → may.rate ≤ more.rate →
        IsEndangeredBy m advisory may box → IsEndangeredBy m advisory more box }
{}

/// A box is endangered by a manoeuvre exactly where its area is during its window.
pub fn danger_by_a_manoeuvre_is_in_the_window()
    ensures { (m : ModelData) (box : Box) (advisory : ℕ) (may : Manoeuvre) (w : Times) →
        IsWindowOfBox m box.range box.closing w →
        IsEndangeredBy m advisory may box ↔
        IsEndangeredDuringBy m.half (demand_of m advisory) may (area_of_box box) w }
{}

/// Where an area is apart from an intruder that may change its rate, no manoeuvre endangers it.
pub fn apart_areas_are_safe()
    ensures { (half : ℕ) (a : Demand) (may : Manoeuvre) (area : Area) (w : Times) → CanBeMet a →
        0 < may.accel → IsApart half a may area w → ¬ IsEndangeredDuringBy half a may area w }
{}

/// The gap of a race is first least, in a window, at the first of three times: the two ends, and the one between at which a rising
/// curve comes to be as fast as the intruder. There it is tested in whole numbers whether the curve stays above. It stays below where
/// the race upside down stays above.
pub fn least_gaps_are_found()
    ensures first { (r : Race) (from place to best : Instant) → 0 < r.pull → 0 < r.accel → r.rate ≤ℤ r.goal →
        0 < from.den → 0 < place.den → 0 < to.den →
        IsSoonerOrSame from place → IsSoonerOrSame place to → IsSoonerOrSame from to →
        IsLooked r from to place → IsFirstOf r from place to best →
        IsFirstLeastTime r (times_of from to) (fraction_of best) }
    ensures above { (half : ℕ) (r : Race) (w : Times) (p : Instant) → 0 < p.den →
        IsFirstLeastTime r w (fraction_of p) →
        (pos (half * (p.den * p.den * r.pull * r.accel)) <ℤ race_number r p) ↔ StaysAbove half r w }
    ensures turned { (half : ℕ) (r : Race) (w : Times) → StaysAbove half (turned r) w ↔ StaysBelow half r w }
{}
