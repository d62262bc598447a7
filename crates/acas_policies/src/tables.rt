//! The laws of tables: what their values bound. The functions do nothing: each clause is a law.
ghost use Rattle.std.specs.Prelude.{ℕ, ◌*◌, ◌<◌, ◌≤◌, ◌^◌, ℤ, pos, ◌+ℤ◌, ◌*ℤ◌, ◌≤ℤ◌, Contains, length};
ghost use Rattle.acas_spec.specs.Limits.{IsModel};
ghost use Rattle.acas_spec.specs.Model.{ModelData, choices_at};
ghost use Rattle.acas_spec.specs.Table.{Policy, Table};
ghost use Rattle.acas_spec.specs.declared.place.Vertex.{Vertex};
ghost use Rattle.acas_policies.specs.Bounds.{HasTwoSidedBounds, IsSound, IsTight};
ghost use Rattle.acas_process.specs.Compiled.{compiled};
ghost use Rattle.acas_process.specs.Cost.{IsPolicy, advisories_of, expected_cost, transition_total};

/// A table whose entries are all sound bounds costs from both sides: its advice costs at most its upper values, and no policy costs
/// less than its lower values.
pub fn sound_tables_have_two_sided_bounds()
    ensures { (m : ModelData) (t : Table) → IsModel m → IsSound m t → HasTwoSidedBounds m t }
{}

/// The compiled table of a model is sound and has two-sided bounds, and its two values are within two millionths for each second to go.
pub fn compiled_tables_are_sound_and_tight()
    ensures sound { (m : ModelData) → IsModel m → IsSound m (compiled m) }
    ensures bounds { (m : ModelData) → IsModel m → HasTwoSidedBounds m (compiled m) }
    ensures tight { (m : ModelData) → IsModel m → IsTight m (compiled m) }
{}

/// What two-sided and tight bounds say of each entry, in numbers: for each number of seconds up to the horizon, each advisory and
/// each place of the three axes. What every list of choices allows is a policy.
pub fn bounds_in_numbers()
    ensures policy { (m : ModelData) (policy : Policy) → let g = m.grid in
        ((n p : ℕ) (x : Vertex) → 0 < n → n ≤ g.horizon → p < g.advisories →
        x.i < length g.h → x.j < length g.v0 → x.k < length g.v1 →
        Contains (advisories_of (choices_at m p)) (policy n p x)) →
        IsPolicy m policy }
    ensures allowed { (m : ModelData) (t : Table) (n p : ℕ) (x : Vertex) → let g = m.grid in
        HasTwoSidedBounds m t → 0 < n → n ≤ g.horizon → p < g.advisories →
        x.i < length g.h → x.j < length g.v0 → x.k < length g.v1 →
        Contains (advisories_of (choices_at m p)) (t.advice n p x) }
    ensures above { (m : ModelData) (t : Table) (n p : ℕ) (x : Vertex) → let g = m.grid in
        HasTwoSidedBounds m t → n ≤ g.horizon → p < g.advisories →
        x.i < length g.h → x.j < length g.v0 → x.k < length g.v1 →
        (pos 1_000_000 *ℤ expected_cost m t.advice n p x) ≤ℤ (pos (transition_total m ^ n) *ℤ t.upper n p x) }
    ensures below { (m : ModelData) (t : Table) (policy : Policy) (n p : ℕ) (x : Vertex) → let g = m.grid in
        HasTwoSidedBounds m t → IsPolicy m policy → n ≤ g.horizon → p < g.advisories →
        x.i < length g.h → x.j < length g.v0 → x.k < length g.v1 →
        (pos (transition_total m ^ n) *ℤ t.lower n p x) ≤ℤ (pos 1_000_000 *ℤ expected_cost m policy n p x) }
    ensures tight { (m : ModelData) (t : Table) (n p : ℕ) (x : Vertex) → let g = m.grid in
        IsTight m t → n ≤ g.horizon → p < g.advisories →
        x.i < length g.h → x.j < length g.v0 → x.k < length g.v1 →
        t.upper n p x ≤ℤ (t.lower n p x +ℤ pos (2 * n)) }
{}
