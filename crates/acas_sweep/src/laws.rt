//! Laws of compiled layers. The functions do nothing: each clause is a law.
ghost use Rattle.std.specs.Prelude.{ℕ, ◌≤◌, List};
ghost use Rattle.acas_spec.specs.Limits.{IsModel};
ghost use Rattle.acas_spec.specs.Model.{ModelData};
ghost use Rattle.acas_units.specs.declared.pair.Pair.{Pair};
ghost use Rattle.acas_process.specs.Compiled.{compiled};
ghost use Rattle.acas_means.specs.Layer.{IsLayer};
ghost use Rattle.acas_sweep.specs.Layers.{IsAdvised, backup_count};

/// In a layer of the compiled table above layer 0, each advice is an advisory of the model.
pub fn advices_are_advisories()
    ensures { (m : ModelData) (n : ℕ) (pairs : List Pair) (advice : List ℕ)
        → IsModel m → IsLayer m (compiled m) n pairs advice → IsAdvised m.grid n advice }
{}

/// A compiled table takes at most 122,880,000,000 backups: no more than 120 layers, 4,000,000 vertices and 16 choices under each
/// of 16 advisories. So a counter that starts at 0 can count them.
pub fn backups_are_few()
    ensures { (m : ModelData) → IsModel m → backup_count m ≤ 122_880_000_000 }
{}
