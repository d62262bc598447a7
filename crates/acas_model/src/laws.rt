//! Laws of the text of models. The functions do nothing: their clauses are the laws.
ghost use Rattle.std.specs.Prelude.{◌≡◌, ◌↔◌, ℕ, List, Ok};
ghost use Rattle.acas_spec.specs.Model.{ModelData};
ghost use Rattle.acas_model.specs.Whole.{model_of};
ghost use Rattle.acas_model.specs.Text.{IsModelText};

/// A text is read as a model exactly where each of its keys holds the model's value, it has no other keys, and
/// the model is within its limits. No order of the keys or of the rules plays a part.
pub fn texts_say_their_models()
    ensures { (bytes : List ℕ) (m : ModelData) → (model_of bytes ≡ Ok m) ↔ IsModelText bytes m }
{}
