//! The law of chances of contact. The function does nothing: its clause is the law.
ghost use Rattle.std.specs.Prelude.{◌≡◌, ℕ, pos, if◌then◌else◌};
ghost use Rattle.acas_spec.specs.Limits.{IsModel};
ghost use Rattle.acas_spec.specs.Model.{ModelData};
ghost use Rattle.acas_spec.specs.Table.{Policy};
ghost use Rattle.acas_spec.specs.declared.place.Vertex.{Vertex};
ghost use Rattle.acas_policies.specs.Policies.{contact_chance, in_contact};
ghost use Rattle.acas_trajectories.specs.Memory.{without_memory};
ghost use Rattle.acas_trajectories.specs.Trajectories.{end_of, over_trajectories, trajectory_weight};

/// The chance of contact under a policy, which a recursion defines, is the weight of all trajectories that end in contact.
pub fn chances_are_weights_of_trajectories_into_contact()
    ensures { (m : ModelData) (policy : Policy) (n p : ℕ) (x : Vertex) → IsModel m →
        contact_chance m policy n p x
        ≡ over_trajectories m.grid n (λ path.
        if in_contact m (end_of x path) then trajectory_weight m (without_memory policy) p x path else pos 0) }
{}
