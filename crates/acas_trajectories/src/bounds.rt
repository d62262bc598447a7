//! The laws of policies with memory. The functions do nothing: each clause is a law.
ghost use Rattle.std.specs.Prelude.{◌≡◌, ℕ, ◌<◌, ◌≤◌, ◌^◌, ℤ, pos, ◌*ℤ◌, ◌≤ℤ◌, Contains, List, length};
ghost use Rattle.acas_spec.specs.Limits.{IsModel};
ghost use Rattle.acas_spec.specs.Model.{ModelData, choices_at};
ghost use Rattle.acas_spec.specs.Table.{Policy, Table};
ghost use Rattle.acas_spec.specs.declared.place.Vertex.{Vertex};
ghost use Rattle.acas_policies.specs.Bounds.{HasTwoSidedBounds, IsSound};
ghost use Rattle.acas_process.specs.Compiled.{compiled};
ghost use Rattle.acas_process.specs.Cost.{IsEntry, IsPolicy, advisories_of, expected_cost, transition_total};
ghost use Rattle.acas_trajectories.specs.Memory.{GridState, IsMemoryPolicy, MemoryPolicy, without_memory};
ghost use Rattle.acas_trajectories.specs.Trajectories.{cost_over_trajectories};

/// What every list of choices allows, whatever the states before, is a policy with memory. So is each policy without memory, and its
/// cost is the same.
pub fn policies_without_memory_are_policies_with_memory()
    ensures with_memory { (m : ModelData) (policy : MemoryPolicy) → let g = m.grid in
        ((earlier : List GridState) (n p : ℕ) (x : Vertex) → 0 < n → n ≤ g.horizon → p < g.advisories →
        x.i < length g.h → x.j < length g.v0 → x.k < length g.v1 →
        Contains (advisories_of (choices_at m p)) (policy earlier n p x)) →
        IsMemoryPolicy m policy }
    ensures without_memory { (m : ModelData) (policy : Policy) →
        IsPolicy m policy → IsMemoryPolicy m (without_memory policy) }
    ensures same_cost { (m : ModelData) (policy : Policy) (n p : ℕ) (x : Vertex) → IsModel m →
        cost_over_trajectories m (without_memory policy) n p x ≡ expected_cost m policy n p x }
{}

/// One policy without memory costs, from every entry, no more than any policy with memory: to remember does not pay.
pub fn one_policy_without_memory_is_best()
    ensures { (m : ModelData) → IsModel m →
        (best : Policy) × IsPolicy m best
        × ((policy : MemoryPolicy) (n p : ℕ) (x : Vertex) → IsMemoryPolicy m policy → IsEntry m n p x →
        expected_cost m best n p x ≤ℤ cost_over_trajectories m policy n p x) }
{}

/// No policy with memory costs less than the lower values of a table with two-sided bounds. So none costs less than those of a table
/// whose entries are all sound, or than those of the compiled table.
pub fn no_policy_with_memory_costs_less()
    ensures bounded { (m : ModelData) (t : Table) (policy : MemoryPolicy) (n p : ℕ) (x : Vertex) →
        IsModel m → HasTwoSidedBounds m t → IsMemoryPolicy m policy → IsEntry m n p x →
        (pos (transition_total m ^ n) *ℤ t.lower n p x)
        ≤ℤ (pos 1_000_000 *ℤ cost_over_trajectories m policy n p x) }
    ensures sound { (m : ModelData) (t : Table) (policy : MemoryPolicy) (n p : ℕ) (x : Vertex) →
        IsModel m → IsSound m t → IsMemoryPolicy m policy → IsEntry m n p x →
        (pos (transition_total m ^ n) *ℤ t.lower n p x)
        ≤ℤ (pos 1_000_000 *ℤ cost_over_trajectories m policy n p x) }
    ensures compiled { (m : ModelData) (policy : MemoryPolicy) (n p : ℕ) (x : Vertex) →
        IsModel m → IsMemoryPolicy m policy → IsEntry m n p x →
        (pos (transition_total m ^ n) *ℤ (compiled m).lower n p x)
        ≤ℤ (pos 1_000_000 *ℤ cost_over_trajectories m policy n p x) }
{}

/// Where two tables of one model have two-sided bounds, whoever made them, each one's lower values are at most the other's upper values.
/// So it is where the entries of both are all sound.
pub fn sound_bounds_never_contradict()
    ensures bounded { (m : ModelData) (one other : Table) (n p : ℕ) (x : Vertex) →
        IsModel m → HasTwoSidedBounds m one → HasTwoSidedBounds m other → IsEntry m n p x →
        (one.lower n p x ≤ℤ other.upper n p x) × (other.lower n p x ≤ℤ one.upper n p x) }
    ensures sound { (m : ModelData) (one other : Table) (n p : ℕ) (x : Vertex) →
        IsModel m → IsSound m one → IsSound m other → IsEntry m n p x →
        (one.lower n p x ≤ℤ other.upper n p x) × (other.lower n p x ≤ℤ one.upper n p x) }
{}
