//! The laws of the decision process. The functions do nothing: each clause is a law.
ghost use Rattle.std.specs.Prelude.{◌≡◌, ◌≢◌, ℕ, ◌+◌, ◌*◌, ◌<◌, ◌≤◌, ◌^◌, ℤ, pos, neg_ℤ, ◌+ℤ◌, ◌-ℤ◌, ◌<ℤ◌, ◌≤ℤ◌, unsigned_abs, List, length, get_or};
ghost use Rattle.acas_spec.specs.Axis.{IsAxis, place_value};
ghost use Rattle.acas_spec.specs.Limits.{IsModel};
ghost use Rattle.acas_spec.specs.Model.{ModelData, choices_at};
ghost use Rattle.acas_spec.specs.declared.parts.Choice.{Choice};
ghost use Rattle.acas_spec.specs.declared.place.Point.{Point};
ghost use Rattle.acas_spec.specs.declared.place.Vertex.{Vertex};
ghost use Rattle.acas_grid.specs.Axis.{IsBetweenEnds, clamp_to};
ghost use Rattle.acas_grid.specs.Grid.{IsInside};
ghost use Rattle.acas_process.specs.Axis.{gap_product, tent};
ghost use Rattle.acas_process.specs.Compiled.{compiled, first_least, least};
ghost use Rattle.acas_process.specs.Cost.{IsEntry, cost_of, terminal_cost, transition_total, transition_weight};
ghost use Rattle.acas_process.specs.Step.{after_second, command, grid_product, moved, over_vertices, share};
ghost use Rattle.acas_process.specs.Sums.{sum_below};

/// Where an advisory asks for the rates from `lo` to `hi`, a pilot at one of them keeps it. One at another rate goes to the nearer
/// end of them, or by the pull towards it where it is farther away than that.
pub fn pilots_heed_their_advisory()
    ensures keeps { (lo hi rate : ℤ) (pull : ℕ) → lo ≤ℤ rate → rate ≤ℤ hi →
        command lo hi (pos pull) rate ≡ pos 0 }
    ensures climbs { (lo hi rate : ℤ) (pull : ℕ) → lo ≤ℤ hi → (rate +ℤ pos pull) ≤ℤ lo →
        command lo hi (pos pull) rate ≡ pos pull }
    ensures reaches_low { (lo hi rate : ℤ) (pull : ℕ) → lo ≤ℤ hi → rate ≤ℤ lo → lo ≤ℤ (rate +ℤ pos pull) →
        rate +ℤ command lo hi (pos pull) rate ≡ lo }
    ensures descends { (lo hi rate : ℤ) (pull : ℕ) → lo ≤ℤ hi → hi ≤ℤ (rate -ℤ pos pull) →
        command lo hi (pos pull) rate ≡ neg_ℤ (pos pull) }
    ensures reaches_high { (lo hi rate : ℤ) (pull : ℕ) → lo ≤ℤ hi → hi ≤ℤ rate → (rate -ℤ pos pull) ≤ℤ hi →
        rate +ℤ command lo hi (pos pull) rate ≡ hi }
{}

/// A second changes each rate by what it is given, and flies the mean of the rate before and the rate after: the intruder's up,
/// the own one down. A tick is 1/120 ft, so that mean flies as many ticks in a second as the two rates sum to in ft/min.
pub fn seconds_fly_mean_rates()
    ensures own { (s : Point) (own intruder : ℤ) → (after_second s own intruder).v0 ≡ s.v0 +ℤ own }
    ensures intruder { (s : Point) (own intruder : ℤ) → (after_second s own intruder).v1 ≡ s.v1 +ℤ intruder }
    ensures altitude { (s : Point) (own intruder : ℤ) → let t = after_second s own intruder in
        t.h ≡ s.h +ℤ (s.v1 +ℤ t.v1) -ℤ (s.v0 +ℤ t.v0) }
{}

/// A clamped number is between the ends of its axis, and a number between them stays as it is. So each point that a second leads
/// to is inside the grid.
pub fn points_stay_inside()
    ensures clamped { (axis : List ℤ) (x : ℤ) → IsAxis axis → IsBetweenEnds axis (clamp_to axis x) }
    ensures unchanged { (axis : List ℤ) (x : ℤ) → IsAxis axis → IsBetweenEnds axis x → clamp_to axis x ≡ x }
    ensures moved { (m : ModelData) (x : Vertex) (a q : ℕ) → IsModel m → IsInside m.grid (moved m x a q) }
{}

/// A tent is the hat function of its place, times the gap product: that product at the number of its own place, 0 at the other
/// numbers of the axis, and between two neighbours on the straight line, weighted by the distances to them.
pub fn tents_are_hat_functions()
    ensures own { (axis : List ℤ) (i : ℕ) → IsAxis axis → i < length axis →
        tent axis i (place_value axis i) ≡ gap_product axis }
    ensures other { (axis : List ℤ) (i k : ℕ) → IsAxis axis → i ≢ k → k < length axis →
        tent axis i (place_value axis k) ≡ 0 }
    ensures between { (axis : List ℤ) (i k : ℕ) (x : ℤ) → IsAxis axis → k + 1 < length axis →
        let low = place_value axis k in let high = place_value axis (k + 1) in low ≤ℤ x → x ≤ℤ high →
        unsigned_abs (high -ℤ low) * tent axis i x
        ≡ unsigned_abs (high -ℤ x) * tent axis i low + unsigned_abs (x -ℤ low) * tent axis i high }
{}

/// Between the ends of an axis the tents of all places sum to the gap product. The shares of all vertices at a point inside the grid
/// sum to the product of all gaps. The transition weights from one vertex under one advisory are at least 0 and sum to the total,
/// which is above 0: over it they are probabilities.
pub fn weights_sum_to_the_total()
    ensures tents { (axis : List ℤ) (x : ℤ) → IsAxis axis → IsBetweenEnds axis x →
        sum_below (length axis) (λ i. pos (tent axis i x)) ≡ pos (gap_product axis) }
    ensures shares { (m : ModelData) (s : Point) → IsModel m → IsInside m.grid s →
        over_vertices m.grid (λ y. pos (share m.grid s y)) ≡ pos (grid_product m.grid) }
    ensures transitions { (m : ModelData) (x : Vertex) (a : ℕ) → IsModel m →
        over_vertices m.grid (transition_weight m x a) ≡ pos (transition_total m) }
    ensures not_negative { (m : ModelData) (x y : Vertex) (a : ℕ) → pos 0 ≤ℤ transition_weight m x a y }
    ensures some { (m : ModelData) → IsModel m → 0 < transition_total m }
{}

/// Each choice stands in its list with the cost that a second under its advisory has.
pub fn choices_have_their_cost()
    ensures { (m : ModelData) (p place : ℕ) (d : Choice) → IsModel m → p < m.grid.advisories →
        let choices = choices_at m p in place < length choices →
        cost_of m p (get_or choices place d).advisory ≡ (get_or choices place d).cost }
{}

/// At the end contact costs where the altitude is at most half the puck's height away, above or below, and nothing costs where it
/// is farther away.
pub fn contact_ends_at_half_the_height()
    ensures within { (m : ModelData) (x : Vertex) → let h = place_value m.grid.h x.i in
        neg_ℤ (pos m.half) ≤ℤ h → h ≤ℤ pos m.half → terminal_cost m x ≡ m.contact }
    ensures above { (m : ModelData) (x : Vertex) → let h = place_value m.grid.h x.i in
        pos m.half <ℤ h → terminal_cost m x ≡ pos 0 }
    ensures below { (m : ModelData) (x : Vertex) → let h = place_value m.grid.h x.i in
        h <ℤ neg_ℤ (pos m.half) → terminal_cost m x ≡ pos 0 }
{}

/// The entries of a table are those with no second to go up to the horizon, the horizon included, under every advisory and at every
/// place of the three axes, and no others.
pub fn entries_reach_the_horizon()
    ensures every { (m : ModelData) (n p : ℕ) (x : Vertex) → let g = m.grid in
        n ≤ g.horizon → p < g.advisories →
        x.i < length g.h → x.j < length g.v0 → x.k < length g.v1 → IsEntry m n p x }
    ensures no_other { (m : ModelData) (n p : ℕ) (x : Vertex) → let g = m.grid in IsEntry m n p x →
        (n ≤ g.horizon) × (p < g.advisories)
        × (x.i < length g.h) × (x.j < length g.v0) × (x.k < length g.v1) }
{}

/// Of a list of choices that is not empty, the least value is at most that of each choice, by its place, and is that of one. The
/// first choice of the least value stands at a place of the list, has that value, and each choice before it has a greater one.
pub fn first_choices_of_the_least_value_win()
    ensures at_most { (f : ℕ → ℤ) (choices : List Choice) (k : ℕ) (d : Choice) → k < length choices →
        least f choices ≤ℤ f (get_or choices k d).advisory }
    ensures of_one { (f : ℕ → ℤ) (choices : List Choice) (d : Choice) → 0 < length choices →
        (k : ℕ) × (k < length choices) × (f (get_or choices k d).advisory ≡ least f choices) }
    ensures first { (f : ℕ → ℤ) (choices : List Choice) (d : Choice) → 0 < length choices →
        (k : ℕ) × (k < length choices) × ((get_or choices k d).advisory ≡ first_least f choices)
        × (f (first_least f choices) ≡ least f choices)
        × ((before : ℕ) → before < k → least f choices <ℤ f (get_or choices before d).advisory) }
{}

/// The values of the compiled table are at most 10^15 for each second to go and one more, so they fit 64 bits.
pub fn compiled_values_fit()
    ensures upper_size { (m : ModelData) (n p : ℕ) (x : Vertex) → IsModel m → IsEntry m n p x →
        unsigned_abs ((compiled m).upper n p x) ≤ (n + 1) * 10 ^ 15 }
    ensures lower_size { (m : ModelData) (n p : ℕ) (x : Vertex) → IsModel m → IsEntry m n p x →
        unsigned_abs ((compiled m).lower n p x) ≤ (n + 1) * 10 ^ 15 }
    ensures upper { (m : ModelData) (n p : ℕ) (x : Vertex) → IsModel m → IsEntry m n p x →
        unsigned_abs ((compiled m).upper n p x) < 2 ^ 63 }
    ensures lower { (m : ModelData) (n p : ℕ) (x : Vertex) → IsModel m → IsEntry m n p x →
        unsigned_abs ((compiled m).lower n p x) < 2 ^ 63 }
{}
