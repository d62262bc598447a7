//! Laws of flights under an advisory: curves, cuts, bounds, windows, dangers and extremes. The functions do nothing: each clause is a law.
ghost use Rattle.std.specs.Prelude.{◌≡◌, ℕ, ◌-◌, ◌*◌, ◌<◌, ◌≤◌, ◌↔◌, ℤ, pos, ◌*ℤ◌, ◌≤ℤ◌, List, [], ◌∷◌};
ghost use Rattle.acas_frac.specs.Fraction.{Fraction};
ghost use Rattle.acas_spec.specs.Limits.{IsModel};
ghost use Rattle.acas_spec.specs.Model.{ModelData};
ghost use Rattle.acas_flight.specs.Response.{Demand, Meets, Segment, climb, demand_of, lasting, scaled};
ghost use Rattle.acas_flight.specs.State.{Box, IsInBox, IsInCell, State};
ghost use Rattle.acas_flight.specs.Contact.{IsEndangeredBox, IsEndangeredCell, IsInContact};
ghost use Rattle.acas_flight.specs.Parts.{CanBeMet, finer, until};
ghost use Rattle.acas_flight.specs.Curves.{held, high_pull, highest, low_pull, lowest};
ghost use Rattle.acas_flight.specs.Window.{IsDuring, IsWindowOfBox, IsWindowOfCell, Times};
ghost use Rattle.acas_flight.specs.Clear.{Area, IsClear, IsEndangeredDuring, area_of_box, area_of_cell};
ghost use Rattle.acas_flight.specs.Extremes.{IsHighExtreme, IsLowExtreme};

/// What an advisory of a model asks can be met, in numbers over every denominator.
pub fn advisories_can_be_met()
    ensures { (m : ModelData) (advisory q : ℕ) → IsModel m → advisory < m.grid.advisories → 0 < q →
        CanBeMet (scaled q (demand_of m advisory)) }
{}

/// Holding longer never helps: a curve that rises to its aim is no higher at any time after a longer hold, and one that falls to it
/// is no lower.
pub fn holding_longer_never_helps()
    ensures rising { (v k : ℤ) (b g longer t : ℕ) → v ≤ℤ k → g ≤ longer
        → held v k b longer t ≤ℤ held v k b g t }
    ensures falling { (v k : ℤ) (b g longer t : ℕ) → k ≤ℤ v → g ≤ longer →
        held v k b g t ≤ℤ held v k b longer t }
{}

/// A response that is cut at a time has the segments before it whole, and of the one at it the part before. It lasts that time, and
/// where the response meets an advisory it meets it.
pub fn cut_responses_meet()
    ensures none { (response : List Segment) → until 0 response ≡ [] }
    ensures part { (s : Segment) (rest : List Segment) (t : ℕ) → 0 < t → t ≤ s.duration →
        until t (s ∷ rest) ≡ record { duration = t; acceleration = s.acceleration } ∷ [] }
    ensures whole { (s : Segment) (rest : List Segment) (t : ℕ) → s.duration < t →
        until t (s ∷ rest) ≡ s ∷ until (t - s.duration) rest }
    ensures lasts { (a : Demand) (v : ℤ) (response : List Segment) (t : ℕ) → CanBeMet a → Meets a v response →
        t ≤ lasting response →
        lasting (until t response) ≡ t }
    ensures meets { (a : Demand) (v : ℤ) (response : List Segment) (t : ℕ) → CanBeMet a → Meets a v response →
        t ≤ lasting response →
        Meets a v (until t response) }
{}

/// A response in finer numbers, over m times the denominator, is the same flight: it lasts as long, climbs as much, and meets the
/// advisory where the response does. So a response may be cut at any fraction.
pub fn finer_numbers_change_no_flight()
    ensures lasts { (m : ℕ) (response : List Segment) → lasting (finer m response) ≡ lasting response * m }
    ensures climbs { (m : ℕ) (v : ℤ) (response : List Segment) →
        climb (v *ℤ pos (m * m)) (finer m response) ≡ climb v response *ℤ pos (m * m * m) }
    ensures meets { (m : ℕ) (a : Demand) (v : ℤ) (response : List Segment) → 0 < m → Meets a v response →
        Meets (scaled m a) (v *ℤ pos (m * m)) (finer m response) }
{}

/// At each time of a response that meets an advisory, of any number of segments, the climb so far is between the lowest and the
/// highest curve from the start rate. A curve is times its pull.
pub fn curves_bound_climbs()
    ensures low { (a : Demand) (v : ℤ) (response : List Segment) (t : ℕ) → CanBeMet a → Meets a v response →
        t ≤ lasting response →
        lowest a v t ≤ℤ (climb v (until t response) *ℤ pos (low_pull a v)) }
    ensures high { (a : Demand) (v : ℤ) (response : List Segment) (t : ℕ) → CanBeMet a → Meets a v response →
        t ≤ lasting response →
        (climb v (until t response) *ℤ pos (high_pull a v)) ≤ℤ highest a v t }
{}

/// A cell is endangered exactly where the area of its corners is endangered during its window, and so is a box.
pub fn danger_is_in_the_window()
    ensures cells { (m : ModelData) (n i j k advisory : ℕ) (w : Times) → IsWindowOfCell m n w →
        IsEndangeredCell m n i j k advisory
        ↔ IsEndangeredDuring m.half (demand_of m advisory) (area_of_cell m i j k) w }
    ensures boxes { (m : ModelData) (box : Box) (advisory : ℕ) (w : Times) →
        IsWindowOfBox m box.range box.closing w →
        IsEndangeredBox m box advisory
        ↔ IsEndangeredDuring m.half (demand_of m advisory) (area_of_box box) w }
{}

/// Contact at any time of a flight from a cell or a box endangers it, not only contact at the end of its response.
pub fn contact_on_the_way_endangers()
    ensures cells { (m : ModelData) (n i j k advisory q : ℕ) (s : State) (response : List Segment) (t : ℕ) →
        let v = s.own *ℤ pos q in
        IsModel m → advisory < m.grid.advisories → 0 < q → IsInCell m n i j k q s →
        Meets (scaled q (demand_of m advisory)) v response → t ≤ lasting response →
        IsInContact m q s t (climb v (until t response)) →
        IsEndangeredCell m n i j k advisory }
    ensures boxes { (m : ModelData) (box : Box) (advisory q : ℕ) (s : State) (response : List Segment)
        (t : ℕ) → let v = s.own *ℤ pos q in
        IsModel m → advisory < m.grid.advisories → 0 < q → IsInBox box q s →
        Meets (scaled q (demand_of m advisory)) v response → t ≤ lasting response →
        IsInContact m q s t (climb v (until t response)) →
        IsEndangeredBox m box advisory }
{}

/// A clear area is not endangered during its window. So a cell or a box whose area is clear during its window is not endangered.
pub fn clear_areas_are_safe()
    ensures area { (half : ℕ) (a : Demand) (area : Area) (w : Times) → CanBeMet a → IsClear half a area w →
        ¬ IsEndangeredDuring half a area w }
    ensures cells { (m : ModelData) (n i j k advisory : ℕ) (w : Times) → IsModel m →
        advisory < m.grid.advisories → IsWindowOfCell m n w →
        IsClear m.half (demand_of m advisory) (area_of_cell m i j k) w
        → ¬ IsEndangeredCell m n i j k advisory }
    ensures boxes { (m : ModelData) (box : Box) (advisory : ℕ) (w : Times) → IsModel m →
        advisory < m.grid.advisories →
        IsWindowOfBox m box.range box.closing w →
        IsClear m.half (demand_of m advisory) (area_of_box box) w → ¬ IsEndangeredBox m box advisory }
{}

/// There is at most one earliest time of the least gap, and one of the greatest, and no other numbers say it. They depend on the times
/// of a window, not on how its ends are written.
pub fn extremes_are_one()
    ensures low { (a : Demand) (area : Area) (w : Times) (s t : Fraction) → IsLowExtreme a area w s →
        IsLowExtreme a area w t → s ≡ t }
    ensures high { (a : Demand) (area : Area) (w : Times) (s t : Fraction) → IsHighExtreme a area w s →
        IsHighExtreme a area w t → s ≡ t }
    ensures windows { (a : Demand) (area : Area) (v w : Times) (time : Fraction) →
        ((q t : ℕ) → 0 < q → IsDuring q v t ↔ IsDuring q w t) →
        (IsLowExtreme a area v time → IsLowExtreme a area w time)
        × (IsHighExtreme a area v time → IsHighExtreme a area w time) }
{}
