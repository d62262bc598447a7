//! Laws of drills. The functions do nothing: their clauses are the laws.
ghost use Rattle.std.specs.Prelude.{◌≡◌, ◌↔◌, ◌<◌, ◌≤◌, ◌^◌, ℕ, List, Some};
ghost use Rattle.std.specs.Fmt.{decimal};
ghost use Rattle.acas_spec.specs.Limits.{IsModel};
ghost use Rattle.acas_spec.specs.Model.{entries};
ghost use Rattle.acas_drill_model.specs.DrilledModel.{drilled_model};
ghost use Rattle.acas_drill_model.specs.Word.{drill_number, number_within};

use acas_units::GREATEST_DRILL_NUMBER;

/// The model of each number is within its limits, and its table has at most 868,175 entries.
pub fn drilled_models_are_within_limits()
    ensures within { (number : ℕ) → IsModel (drilled_model number) }
    ensures few { (number : ℕ) → entries (drilled_model number).grid ≤ 868_175 }
{}

/// A word names a number exactly where the number is within the limit and the word is its decimal text.
pub fn drill_words_are_decimal()
    ensures { (word : List ℕ) (number : ℕ) →
        (drill_number word ≡ Some number) ↔ ((number ≤ GREATEST_DRILL_NUMBER) × (word ≡ decimal number)) }
{}

/// A word names a number from a least to a greatest one of 32 bits exactly where the number is within them and the word is its decimal
/// text.
pub fn number_words_are_decimal()
    ensures { (least greatest : ℕ) (word : List ℕ) (number : ℕ) → greatest < 2 ^ 32 →
        ((number_within least greatest word ≡ Some number)
        ↔ ((least ≤ number) × (number ≤ greatest) × (word ≡ decimal number))) }
{}
