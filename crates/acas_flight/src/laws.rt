//! What the definitions of flights say, in numbers. The functions do nothing: each clause is a law.
ghost use Rattle.std.specs.Prelude.{◌≡◌, ℕ, ◌+◌, ◌-◌, ◌*◌, ◌<◌, ◌≤◌, ◌⊎◌, ◌↔◌, ℤ, pos, neg_ℤ, ◌+ℤ◌, ◌-ℤ◌, ◌*ℤ◌, ◌<ℤ◌, ◌≤ℤ◌, unsigned_abs, List, [], ◌∷◌, length};
ghost use Rattle.acas_spec.specs.Axis.{place_value};
ghost use Rattle.acas_spec.specs.Limits.{IsModel};
ghost use Rattle.acas_spec.specs.Model.{ModelData, advisory_at};
ghost use Rattle.acas_flight.specs.Response.{Demand, Follows, FollowsThroughout, Meets, Segment, climb, demand_of, lasting, scaled};
ghost use Rattle.acas_flight.specs.State.{Box, IsInBox, IsInCell, IsInside, IsSecondsAway, State, closing_speeds};
ghost use Rattle.acas_flight.specs.Contact.{IsInContact};
ghost use Rattle.acas_flight.specs.Curves.{approach, held, high_pull, highest, low_pull, lowest};

/// A response lasts as long as its segments do, and climbs what they do, one after another. A segment flies its mean rate: a tick is
/// 1/120 ft, so it climbs as many ticks in a second as the rates at its start and its end sum to in ft/min.
pub fn segments_fly_mean_rates()
    ensures no_time { lasting [] ≡ 0 }
    ensures lasts { (s : Segment) (rest : List Segment) → lasting (s ∷ rest) ≡ s.duration + lasting rest }
    ensures no_climb { (v : ℤ) → climb v [] ≡ pos 0 }
    ensures climbs { (v : ℤ) (s : Segment) (rest : List Segment) →
        let w = v +ℤ s.acceleration *ℤ pos s.duration in
        climb v (s ∷ rest) ≡ (v +ℤ w) *ℤ pos s.duration +ℤ climb w rest }
{}

/// What an advisory of a model asks, in numbers over q.
pub fn demands_in_numbers()
    ensures { (m : ModelData) (advisory q : ℕ) → let a = scaled q (demand_of m advisory) in
        (a.lo ≡ (advisory_at m advisory).lo *ℤ pos (q * q))
        × (a.hi ≡ (advisory_at m advisory).hi *ℤ pos (q * q))
        × (a.pull ≡ m.pull * q) × (a.limit ≡ m.limit * q) × (a.delay ≡ m.delay * q) }
{}

/// A segment follows an advisory by the row of the table for the rate at its start: from below the interval back with at least the
/// pull and not past its upper end, from above it back with at least the pull and not past its lower end, and from within it stays
/// within; always within the limit.
pub fn segments_follow_by_the_table()
    ensures below { (a : Demand) (v : ℤ) (s : Segment) → v <ℤ a.lo → a.lo ≤ℤ a.hi →
        Follows a v s
        ↔ ((0 < s.duration) × (unsigned_abs s.acceleration ≤ a.limit)
        × (pos a.pull ≤ℤ s.acceleration) × ((v +ℤ s.acceleration *ℤ pos s.duration) ≤ℤ a.hi)) }
    ensures above { (a : Demand) (v : ℤ) (s : Segment) → a.hi <ℤ v → a.lo ≤ℤ a.hi →
        Follows a v s
        ↔ ((0 < s.duration) × (unsigned_abs s.acceleration ≤ a.limit)
        × (s.acceleration ≤ℤ neg_ℤ (pos a.pull)) × (a.lo ≤ℤ (v +ℤ s.acceleration *ℤ pos s.duration))) }
    ensures within { (a : Demand) (v : ℤ) (s : Segment) → a.lo ≤ℤ v → v ≤ℤ a.hi →
        Follows a v s
        ↔ ((0 < s.duration) × (unsigned_abs s.acceleration ≤ a.limit)
        × (a.lo ≤ℤ (v +ℤ s.acceleration *ℤ pos s.duration))
        × ((v +ℤ s.acceleration *ℤ pos s.duration) ≤ℤ a.hi)) }
{}

/// A response meets an advisory where each segment follows it from the rate at which the one before ended. Or its first segment
/// holds the rate for at most the delay, and each later one follows.
pub fn responses_meet_at_once_or_after_a_hold()
    ensures none { (a : Demand) (v : ℤ) → Meets a v [] }
    ensures no_more { (a : Demand) (v : ℤ) → FollowsThroughout a v [] }
    ensures follows { (a : Demand) (v : ℤ) (s : Segment) (rest : List Segment) →
        FollowsThroughout a v (s ∷ rest)
        ↔ (Follows a v s × FollowsThroughout a (v +ℤ s.acceleration *ℤ pos s.duration) rest) }
    ensures some { (a : Demand) (v : ℤ) (s : Segment) (rest : List Segment) →
        Meets a v (s ∷ rest)
        ↔ (FollowsThroughout a v (s ∷ rest)
        ⊎ ((0 < s.duration) × (s.duration ≤ a.delay) × (s.acceleration ≡ pos 0)
        × FollowsThroughout a v rest)) }
{}

/// Where there is no delay, a response meets an advisory exactly where each segment follows it.
pub fn no_response_holds_without_delay()
    ensures { (a : Demand) (v : ℤ) (response : List Segment) → a.delay ≡ 0 → Meets a v response ↔
        FollowsThroughout a v response }
{}

/// The curves in numbers, times the pull b: an approach before and after the rate reaches its aim, from below it and from above it;
/// the same after a hold; and which pull and hold the lowest and the highest flight have.
pub fn curves_in_numbers()
    ensures rising { (v k : ℤ) (b t : ℕ) → v ≤ℤ k → (v +ℤ pos (b * t)) ≤ℤ k →
        approach v k b t ≡ (pos 2 *ℤ v *ℤ pos t +ℤ pos (b * t * t)) *ℤ pos b }
    ensures risen { (v k : ℤ) (b t : ℕ) → v ≤ℤ k → k ≤ℤ (v +ℤ pos (b * t)) →
        approach v k b t ≡ pos 2 *ℤ k *ℤ pos t *ℤ pos b -ℤ (k -ℤ v) *ℤ (k -ℤ v) }
    ensures falling { (v k : ℤ) (b t : ℕ) → k ≤ℤ v → k ≤ℤ (v -ℤ pos (b * t)) →
        approach v k b t ≡ (pos 2 *ℤ v *ℤ pos t -ℤ pos (b * t * t)) *ℤ pos b }
    ensures fallen { (v k : ℤ) (b t : ℕ) → k ≤ℤ v → (v -ℤ pos (b * t)) ≤ℤ k →
        approach v k b t ≡ pos 2 *ℤ k *ℤ pos t *ℤ pos b +ℤ (k -ℤ v) *ℤ (k -ℤ v) }
    ensures holding { (v k : ℤ) (b g t : ℕ) → t ≤ g → held v k b g t ≡ pos 2 *ℤ v *ℤ pos t *ℤ pos b }
    ensures held { (v k : ℤ) (b g t : ℕ) → g ≤ t →
        held v k b g t ≡ pos 2 *ℤ v *ℤ pos g *ℤ pos b +ℤ approach v k b (t - g) }
    ensures lowest_from_below { (a : Demand) (v : ℤ) (t : ℕ) → v <ℤ a.lo →
        (low_pull a v ≡ a.pull) × (lowest a v t ≡ held v a.lo a.pull a.delay t) }
    ensures lowest_from_lo_on { (a : Demand) (v : ℤ) (t : ℕ) → a.lo ≤ℤ v →
        (low_pull a v ≡ a.limit) × (lowest a v t ≡ held v a.lo a.limit 0 t) }
    ensures highest_from_above { (a : Demand) (v : ℤ) (t : ℕ) → a.hi <ℤ v →
        (high_pull a v ≡ a.pull) × (highest a v t ≡ held v a.hi a.pull a.delay t) }
    ensures highest_up_to_hi { (a : Demand) (v : ℤ) (t : ℕ) → v ≤ℤ a.hi →
        (high_pull a v ≡ a.limit) × (highest a v t ≡ held v a.hi a.limit 0 t) }
{}

/// A range outside the radius is as many seconds away as what is left of it is flown in, and one within the radius is 0 seconds away.
/// There is none behind.
pub fn seconds_in_numbers()
    ensures outside { (m : ModelData) (n q : ℕ) (range closing : ℤ) →
        let left = range -ℤ pos (m.radius * q) in
        pos 0 ≤ℤ left →
        IsSecondsAway m n q range closing
        ↔ ((pos (m.least_closing * q) ≤ℤ closing) × (closing ≤ℤ pos (m.greatest_closing * q))
        × ((pos n *ℤ closing) ≤ℤ left) × (left ≤ℤ (pos (n + 1) *ℤ closing))) }
    ensures behind { (m : ModelData) (n q : ℕ) (range closing : ℤ) → range <ℤ pos 0 →
        ¬ IsSecondsAway m n q range closing }
    ensures within { (m : ModelData) (n q : ℕ) (range closing : ℤ) → IsModel m → 0 < q →
        pos 0 ≤ℤ range → range ≤ℤ pos (m.radius * q) →
        IsSecondsAway m n q range closing
        ↔ ((pos (m.least_closing * q) ≤ℤ closing) × (closing ≤ℤ pos (m.greatest_closing * q)) × (n ≡ 0)) }
{}

/// Cells and boxes in numbers: what a state of one has, over q. The corners of a cell are at a place of each axis and at the next.
pub fn cells_and_boxes_in_numbers()
    ensures cells { (m : ModelData) (n i j k q : ℕ) (s : State) → let g = m.grid in
        IsInCell m n i j k q s
        ↔ (IsSecondsAway m n q s.range s.closing
        × ((place_value g.h i *ℤ pos q) ≤ℤ s.altitude) × (s.altitude ≤ℤ (place_value g.h (i + 1) *ℤ pos q))
        × ((place_value g.v0 j *ℤ pos q) ≤ℤ s.own) × (s.own ≤ℤ (place_value g.v0 (j + 1) *ℤ pos q))
        × ((place_value g.v1 k *ℤ pos q) ≤ℤ s.intruder)
        × (s.intruder ≤ℤ (place_value g.v1 (k + 1) *ℤ pos q))) }
    ensures boxes { (box : Box) (q : ℕ) (s : State) →
        IsInBox box q s
        ↔ (((box.range.least *ℤ pos q) ≤ℤ s.range) × (s.range ≤ℤ (box.range.greatest *ℤ pos q))
        × ((box.closing.least *ℤ pos q) ≤ℤ s.closing) × (s.closing ≤ℤ (box.closing.greatest *ℤ pos q))
        × ((box.altitude.least *ℤ pos q) ≤ℤ s.altitude) × (s.altitude ≤ℤ (box.altitude.greatest *ℤ pos q))
        × ((box.own.least *ℤ pos q) ≤ℤ s.own) × (s.own ≤ℤ (box.own.greatest *ℤ pos q))
        × ((box.intruder.least *ℤ pos q) ≤ℤ s.intruder) × (s.intruder ≤ℤ (box.intruder.greatest *ℤ pos q))) }
{}

/// The cells of a model leave no gap: a state ahead, at a closing speed of the model, that loses horizontal separation within the
/// horizon, and whose altitude and rates are between the ends of their axes, is in a cell.
pub fn cells_leave_no_gap()
    ensures { (m : ModelData) (q : ℕ) (s : State) → let g = m.grid in let h = g.h in let v0 = g.v0 in
        let v1 = g.v1 in
        IsModel m → 0 < g.horizon → pos 0 ≤ℤ s.range → IsInside q (closing_speeds m) s.closing →
        (s.range -ℤ pos (m.radius * q)) ≤ℤ (pos g.horizon *ℤ s.closing) →
        (place_value h 0 *ℤ pos q) ≤ℤ s.altitude → s.altitude ≤ℤ (place_value h (length h - 1) *ℤ pos q) →
        (place_value v0 0 *ℤ pos q) ≤ℤ s.own → s.own ≤ℤ (place_value v0 (length v0 - 1) *ℤ pos q) →
        (place_value v1 0 *ℤ pos q) ≤ℤ s.intruder → s.intruder ≤ℤ (place_value v1 (length v1 - 1) *ℤ pos q) →
        (n : ℕ) × (i : ℕ) × (j : ℕ) × (k : ℕ) × (n < g.horizon) × (i + 1 < length h) × (j + 1 < length v0)
        × (k + 1 < length v1)
        × IsInCell m n i j k q s }
{}

/// Contact in numbers: at the time t, after an own climb of z, the range is from the radius behind to the radius ahead, and the
/// intruder from half the puck's height below to half of it above, with both ends.
pub fn contact_in_numbers()
    ensures { (m : ModelData) (q : ℕ) (s : State) (t : ℕ) (z : ℤ) →
        let ahead = s.range *ℤ pos q -ℤ s.closing *ℤ pos t in
        let above = s.altitude *ℤ pos (q * q) +ℤ pos 2 *ℤ s.intruder *ℤ pos t *ℤ pos q -ℤ z in
        IsInContact m q s t z
        ↔ ((neg_ℤ (pos (m.radius * q * q)) ≤ℤ ahead) × (ahead ≤ℤ pos (m.radius * q * q))
        × (neg_ℤ (pos (m.half * q * q * q)) ≤ℤ above) × (above ≤ℤ pos (m.half * q * q * q))) }
{}
