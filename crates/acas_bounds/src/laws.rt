//! Laws of the definitions. The functions do nothing: each clause is a law.
ghost use Rattle.std.specs.Prelude.{◌≡◌, ◌<◌, ℕ, Some, None, ◌↔◌};
ghost use Rattle.acas_spec.specs.Limits.{IsModel};
ghost use Rattle.acas_spec.specs.Model.{ModelData};
ghost use Rattle.acas_spec.specs.Table.{Table};
ghost use Rattle.acas_spec.specs.declared.place.Vertex.{Vertex};
ghost use Rattle.acas_policies.specs.Bounds.{IsSoundEntry};
ghost use Rattle.acas_bounds.specs.First.{IsFirstFault};
ghost use Rattle.acas_bounds.specs.Sound.{bound_fault};
ghost use Rattle.acas_spec.specs.declared.fault.BoundFault.{BoundFault};

/// An entry of a table, in whatever layer, has no fault exactly where it is sound.
pub fn sound_entries_have_no_fault()
    ensures { (m : ModelData) (t : Table) (n p : ℕ) (x : Vertex) → IsModel m → p < m.grid.advisories
        → (bound_fault m t n p x ≡ None) ↔ IsSoundEntry m t n p x }
{}

/// The fault of an entry is the first part of soundness that it fails: the advice, then the upper value, then the lower.
pub fn faults_are_first()
    ensures { (m : ModelData) (t : Table) (n p : ℕ) (x : Vertex) (fault : BoundFault)
        → (bound_fault m t n p x ≡ Some fault) ↔ IsFirstFault m t n p x fault }
{}
