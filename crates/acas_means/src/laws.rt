//! Laws of the definitions. The functions do nothing: each clause is a law.
ghost use Rattle.std.specs.Prelude.{◌≡◌, ℕ, ◌<◌, ℤ, length};
ghost use Rattle.acas_spec.specs.Limits.{IsModel};
ghost use Rattle.acas_spec.specs.Model.{ModelData, choices_at};
ghost use Rattle.acas_spec.specs.declared.place.Vertex.{Vertex};
ghost use Rattle.acas_spec.specs.Table.{Values};
ghost use Rattle.acas_process.specs.Values.{choice_value};
ghost use Rattle.acas_means.specs.Choices.{listed_choice};
ghost use Rattle.acas_means.specs.Values.{value_with_cost};

/// In each model, the value of a choice with the cost that stands beside it in its list is the value of choosing its advisory.
pub fn choices_have_their_values()
    ensures { (round : ℤ → ℤ → ℤ) (m : ModelData) (below : Values) (x : Vertex) (p place : ℕ)
        → IsModel m → p < m.grid.advisories → place < length (choices_at m p)
        → value_with_cost round m below x (listed_choice m p place)
        ≡ choice_value round m below p x (listed_choice m p place).advisory }
{}
