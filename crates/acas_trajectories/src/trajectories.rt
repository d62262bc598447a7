//! The laws of trajectories. The functions do nothing: each clause is a law.
ghost use Rattle.std.specs.Prelude.{◌≡◌, ◌≢◌, ℕ, ◌<◌, ◌^◌, ℤ, pos, ◌+ℤ◌, ◌*ℤ◌, ◌≤ℤ◌, List, [], ◌∷◌, length, All};
ghost use Rattle.acas_spec.specs.Limits.{IsModel};
ghost use Rattle.acas_spec.specs.Model.{GridData, ModelData, vertices};
ghost use Rattle.acas_spec.specs.Table.{Policy};
ghost use Rattle.acas_spec.specs.declared.place.Vertex.{Vertex};
ghost use Rattle.acas_grid.specs.Grid.{IsVertex};
ghost use Rattle.acas_process.specs.Cost.{cost_of, expected_cost, terminal_cost, transition_total, transition_weight};
ghost use Rattle.acas_trajectories.specs.Memory.{MemoryPolicy, grid_state, without_memory};
ghost use Rattle.acas_trajectories.specs.Trajectories.{Trajectory, cost_over_trajectories, over_trajectories, trajectory_cost, trajectory_weight};

/// What a trajectory weighs and costs, spelled out for no second and for three. The advisory of each second is that for the number of
/// seconds to go, the state where it begins and the list of all states before, and it is present in the next. The expected cost of a
/// policy with memory is the sum over all trajectories of weight times cost.
pub fn trajectories_in_numbers()
    ensures no_second_weight { (m : ModelData) (policy : MemoryPolicy) (p : ℕ) (x : Vertex) →
        trajectory_weight m policy p x [] ≡ pos 1 }
    ensures no_second_cost { (m : ModelData) (policy : MemoryPolicy) (p : ℕ) (x : Vertex) →
        trajectory_cost m policy p x [] ≡ terminal_cost m x }
    ensures weight { (m : ModelData) (policy : MemoryPolicy) (p : ℕ) (x y z end : Vertex) →
        let a = policy [] 3 p x in
        let b = policy (grid_state p x ∷ []) 2 a y in
        let c = policy (grid_state a y ∷ grid_state p x ∷ []) 1 b z in
        trajectory_weight m policy p x (y ∷ z ∷ end ∷ [])
        ≡ transition_weight m x a y *ℤ transition_weight m y b z *ℤ transition_weight m z c end }
    ensures cost { (m : ModelData) (policy : MemoryPolicy) (p : ℕ) (x y z end : Vertex) →
        let a = policy [] 3 p x in
        let b = policy (grid_state p x ∷ []) 2 a y in
        let c = policy (grid_state a y ∷ grid_state p x ∷ []) 1 b z in
        trajectory_cost m policy p x (y ∷ z ∷ end ∷ [])
        ≡ cost_of m p a +ℤ cost_of m a b +ℤ cost_of m b c +ℤ terminal_cost m end }
    ensures sum { (m : ModelData) (policy : MemoryPolicy) (n p : ℕ) (x : Vertex) →
        cost_over_trajectories m policy n p x
        ≡ over_trajectories m.grid n (λ path. trajectory_weight m policy p x path *ℤ trajectory_cost m policy p x path) }
{}

/// A sum over trajectories has each list of so many vertices of the grid once, and no other: it is the value at one of them where the
/// function is 0 at all others. A sum of two functions is the sum of their sums. There are as many trajectories of n seconds as the n-th
/// power of the number of vertices.
pub fn trajectories_stand_once_in_a_sum()
    ensures once { (g : GridData) (f : Trajectory → ℤ) (path : Trajectory) → All (IsVertex g) path →
        ((other : Trajectory) → length other ≡ length path → All (IsVertex g) other → other ≢ path →
        f other ≡ pos 0) →
        over_trajectories g (length path) f ≡ f path }
    ensures no_other { (g : GridData) (n : ℕ) (f : Trajectory → ℤ) →
        ((path : Trajectory) → length path ≡ n → All (IsVertex g) path → f path ≡ pos 0) →
        over_trajectories g n f ≡ pos 0 }
    ensures added { (g : GridData) (n : ℕ) (f h : Trajectory → ℤ) →
        over_trajectories g n (λ path. f path +ℤ h path)
        ≡ over_trajectories g n f +ℤ over_trajectories g n h }
    ensures count { (g : GridData) (n : ℕ) → over_trajectories g n (λ path. pos 1) ≡ pos (vertices g ^ n) }
{}

/// The weights of all trajectories of n seconds are at least 0 and sum to the n-th power of the total: over it they are probabilities.
pub fn weights_of_trajectories_sum_to_a_power()
    ensures sum { (m : ModelData) (policy : MemoryPolicy) (n p : ℕ) (x : Vertex) → IsModel m →
        over_trajectories m.grid n (trajectory_weight m policy p x) ≡ pos (transition_total m ^ n) }
    ensures not_negative { (m : ModelData) (policy : MemoryPolicy) (p : ℕ) (x : Vertex) (path : Trajectory) →
        pos 0 ≤ℤ trajectory_weight m policy p x path }
{}

/// The expected cost of a policy, which a recursion defines, is the sum over all trajectories of weight times cost.
pub fn expected_costs_are_sums_over_trajectories()
    ensures { (m : ModelData) (policy : Policy) (n p : ℕ) (x : Vertex) → IsModel m →
        expected_cost m policy n p x
        ≡ over_trajectories m.grid n (λ path.
        trajectory_weight m (without_memory policy) p x path *ℤ trajectory_cost m (without_memory policy) p x path) }
{}
