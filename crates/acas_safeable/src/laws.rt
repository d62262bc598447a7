//! Laws of cells that are safe by a later advisory. The functions do nothing: each clause is a law.
ghost use Rattle.std.specs.Prelude.{◌≡◌, ℕ, ◌+◌, ◌-◌, ◌*◌, ◌<◌, ◌≤◌, ◌⊎◌, ◌↔◌, ℤ, pos, ◌+ℤ◌, ◌-ℤ◌, ◌*ℤ◌, ◌<ℤ◌, ◌≤ℤ◌, unsigned_abs, List, [], ◌∷◌, Contains, get_or, length};
ghost use Rattle.acas_spec.specs.Limits.{IsModel};
ghost use Rattle.acas_spec.specs.Model.{ModelData};
ghost use Rattle.acas_base.specs.Advices.{AdvicesData};
ghost use Rattle.acas_cells.specs.Cells.{Cell, IsCellOf};
ghost use Rattle.acas_flight.specs.Clear.{Area, IsClear};
ghost use Rattle.acas_flight.specs.Contact.{IsEndangeredCell, vertical_separation};
ghost use Rattle.acas_flight.specs.Parts.{finer};
ghost use Rattle.acas_flight.specs.Response.{Meets, Segment, climb, demand_of, lasting, scaled};
ghost use Rattle.acas_flight.specs.State.{IsInCell, IsInside, IsSecondsAway, State, from_place};
ghost use Rattle.acas_flight.specs.Window.{IsWindowOfCell, Times};
ghost use Rattle.acas_safeable.specs.Outlooks.{IsOutlook, IsShown, candidates};
ghost use Rattle.acas_safeable.specs.Reached.{IsWithinAltitudes, reached_area};
ghost use Rattle.acas_safeable.specs.Safe.{EndsInContactLater, IsSafeBy, rate_left};
ghost use Rattle.acas_safeable.specs.SafeableText.{IsSafeableReport};
ghost use Rattle.acas_safeable.specs.Seconds.{FliesASecond, altitude_after};
ghost use Rattle.acas_safeable.specs.declared.counts.SafeCounts.{SafeCounts};
ghost use Rattle.acas_safeable.specs.declared.outlook.Outlook.{Outlook};
ghost use Rattle.acas_safeable.specs.declared.outlook.Outlook.TheVariants.{Safeable, Unshown};

/// A range and a closing speed that lose horizontal separation in n + 1 to n + 2 seconds lose it, a second later, in n to n + 1.
pub fn cells_follow_cells()
    ensures { (m : ModelData) (n q : ℕ) (range closing : ℤ) → IsModel m → 0 < q →
        IsSecondsAway m (n + 1) q range closing → IsSecondsAway m n q (range -ℤ closing) closing }
{}

/// Whatever a pilot does for a second who is clear of conflict: the altitude and the rates that are reached, over q^3, are in the area that
/// is reached from the cell.
pub fn reached_areas_hold()
    ensures { (m : ModelData) (n i j k q : ℕ) (s : State) (first : List Segment) →
        let v = s.own *ℤ pos q in let area = reached_area m i j k in
        IsModel m → 0 < q → IsInCell m n i j k q s →
        Meets (scaled q (demand_of m 0)) v first → lasting first ≡ q →
        IsInside (q * q * q) area.altitude (vertical_separation q s.altitude s.intruder q (climb v first))
        × IsInside (q * q) area.own (rate_left v first)
        × IsInside q area.intruder s.intruder }
{}

/// Each end of that area is reached: an altitude but for its rounding to a tick, and an own rate outside those of clear of conflict where a
/// pilot may hold it for a second.
pub fn reached_ends_are_reached()
    ensures lowest { (m : ModelData) (c : Cell) → IsModel m → IsCellOf m c →
        let area = reached_area m c.i c.j c.k in
        (q : ℕ) × (s : State) × (first : List Segment) × FliesASecond m c q s first
        × (altitude_after q s first <ℤ ((area.altitude.least +ℤ pos 1) *ℤ pos (q * q * q))) }
    ensures highest { (m : ModelData) (c : Cell) → IsModel m → IsCellOf m c →
        let area = reached_area m c.i c.j c.k in
        (q : ℕ) × (s : State) × (first : List Segment) × FliesASecond m c q s first
        × (((area.altitude.greatest -ℤ pos 1) *ℤ pos (q * q * q)) <ℤ altitude_after q s first) }
    ensures slowest { (m : ModelData) (c : Cell) → IsModel m → IsCellOf m c →
        let area = reached_area m c.i c.j c.k in let own = from_place m.grid.v0 c.j in
        ((demand_of m 0).lo ≤ℤ own.least) ⊎ (0 < m.delay) →
        (q : ℕ) × (s : State) × (first : List Segment) × FliesASecond m c q s first
        × (rate_left (s.own *ℤ pos q) first ≡ area.own.least *ℤ pos (q * q)) }
    ensures fastest { (m : ModelData) (c : Cell) → IsModel m → IsCellOf m c →
        let area = reached_area m c.i c.j c.k in let own = from_place m.grid.v0 c.j in
        (own.greatest ≤ℤ (demand_of m 0).hi) ⊎ (0 < m.delay) →
        (q : ℕ) × (s : State) × (first : List Segment) × FliesASecond m c q s first
        × (rate_left (s.own *ℤ pos q) first ≡ area.own.greatest *ℤ pos (q * q)) }
    ensures descending { (m : ModelData) (c : Cell) → IsModel m → IsCellOf m c →
        let area = reached_area m c.i c.j c.k in
        (q : ℕ) × (s : State) × (first : List Segment) × FliesASecond m c q s first
        × (s.intruder ≡ area.intruder.least *ℤ pos q) }
    ensures climbing { (m : ModelData) (c : Cell) → IsModel m → IsCellOf m c →
        let area = reached_area m c.i c.j c.k in
        (q : ℕ) × (s : State) × (first : List Segment) × FliesASecond m c q s first
        × (s.intruder ≡ area.intruder.greatest *ℤ pos q) }
{}

/// The rate that a response leaves, segment by segment. Contact a second later is a state of the cell, a response to clear of conflict of
/// one second, and one to the advisory from the rate that it leaves, such that at the end of both the range is within the radius, and the
/// intruder, after the climbs of both, within the half height. A cell is safe by an advisory exactly where there is none.
pub fn later_contacts_in_numbers()
    ensures none_left { (v : ℤ) → rate_left v [] ≡ v }
    ensures left { (v : ℤ) (s : Segment) (rest : List Segment) →
        rate_left v (s ∷ rest) ≡ rate_left (v +ℤ s.acceleration *ℤ pos s.duration) rest }
    ensures contact { (m : ModelData) (n i j k advisory q : ℕ) (s : State) (first second : List Segment) →
        let v = s.own *ℤ pos q in let w = rate_left v first in let t = q + lasting second in
        EndsInContactLater m n i j k advisory q s first second
        ↔ ((0 < q) × IsInCell m n i j k q s × Meets (scaled q (demand_of m 0)) v first × (lasting first ≡ q)
        × Meets (scaled q (demand_of m advisory)) w second
        × (unsigned_abs (s.range *ℤ pos q -ℤ s.closing *ℤ pos t) ≤ m.radius * (q * q))
        × (unsigned_abs (s.altitude *ℤ pos (q * q) +ℤ pos 2 *ℤ s.intruder *ℤ pos t *ℤ pos q
        -ℤ (climb v first +ℤ climb w second)) ≤ m.half * (q * q * q))) }
    ensures safe { (m : ModelData) (n i j k advisory : ℕ) →
        IsSafeBy m n i j k advisory
        ↔ ((q : ℕ) (s : State) (first second : List Segment) →
        ¬ EndsInContactLater m n i j k advisory q s first second) }
{}

/// What is shown is so: the cell is safe by each advisory that is shown. Of each cell one outlook is found, and one alone, and a table
/// has one report alone.
pub fn outlooks_are_one()
    ensures safe { (m : ModelData) (c : Cell) (advisory : ℕ) → IsModel m → IsCellOf m c → 0 < c.n →
        advisory < m.grid.advisories → IsShown m c advisory → IsSafeBy m c.n c.i c.j c.k advisory }
    ensures one { (m : ModelData) (c : Cell) (found other : Outlook) → IsModel m → IsCellOf m c → 0 < c.n →
        IsOutlook m c found → IsOutlook m c other → found ≡ other }
    ensures some { (m : ModelData) (c : Cell) → IsModel m → IsCellOf m c → 0 < c.n →
        (found : Outlook) × IsOutlook m c found }
    ensures one_report { (m : ModelData) (a : AdvicesData) (counts counts' : SafeCounts)
        (text text' : List ℕ) →
        IsModel m → IsSafeableReport m a counts text → IsSafeableReport m a counts' text' →
        (counts ≡ counts') × (text ≡ text') }
{}

/// An advisory is shown where the area that is reached has its altitudes within 1,200,000 ticks, and is clear under it in the window of a
/// second less, however that is written. What is found names the first candidate that is shown, by which the cell is safe, or says that
/// none is.
pub fn outlooks_in_words()
    ensures within { (area : Area) → IsWithinAltitudes area
        ↔ ((unsigned_abs area.altitude.least ≤ 1_200_000)
        × (unsigned_abs area.altitude.greatest ≤ 1_200_000)) }
    ensures shown { (m : ModelData) (c : Cell) (advisory : ℕ) (w : Times) → IsWindowOfCell m (c.n - 1) w →
        let area = reached_area m c.i c.j c.k in
        IsShown m c advisory ↔ (IsWithinAltitudes area × IsClear m.half (demand_of m advisory) area w) }
    ensures named { (m : ModelData) (c : Cell) (advisory : ℕ) → let from = candidates m in
        IsOutlook m c (Safeable advisory)
        ↔ ((place : ℕ) × (place < length from) × (get_or from place 0 ≡ advisory) × IsShown m c advisory
        × ((k : ℕ) → k < place → ¬ IsShown m c (get_or from k 0))
        × IsSafeBy m c.n c.i c.j c.k advisory) }
    ensures open { (m : ModelData) (c : Cell) →
        IsOutlook m c Unshown
        ↔ ((advisory : ℕ) → Contains (candidates m) advisory → ¬ IsShown m c advisory) }
{}

/// This report and an audit, joined. Where the state that is reached, over q^3, is in a cell of a second less that is not endangered under
/// an advisory, no flight that is given that advisory then ends in contact.
pub fn certified_cells_keep_safe()
    ensures { (m : ModelData) (n i j k i' j' k' advisory q : ℕ) (s later : State)
        (first second : List Segment) →
        let v = s.own *ℤ pos q in
        IsModel m → advisory < m.grid.advisories →
        EndsInContactLater m (n + 1) i j k advisory q s first second →
        later.range ≡ (s.range -ℤ s.closing) *ℤ pos (q * q) → later.closing ≡ s.closing *ℤ pos (q * q) →
        later.altitude ≡ vertical_separation q s.altitude s.intruder q (climb v first) →
        later.own ≡ rate_left v first *ℤ pos q → later.intruder ≡ s.intruder *ℤ pos (q * q) →
        IsInCell m n i' j' k' (q * q * q) later → IsEndangeredCell m n i' j' k' advisory }
{}
