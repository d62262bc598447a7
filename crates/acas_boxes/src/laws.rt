//! Laws of the text of boxes. The functions do nothing: their clauses are the laws.
ghost use Rattle.std.specs.Prelude.{◌≡◌, ◌↔◌, ℕ, List, Ok};
ghost use Rattle.acas_spec.specs.Model.{ModelData};
ghost use Rattle.acas_spec.specs.Limits.{IsModel};
ghost use Rattle.acas_rulings.specs.Boxes.{AuditedBox};
ghost use Rattle.acas_rulings.specs.Intruder.{Manoeuvre};
ghost use Rattle.acas_boxes.specs.Rates.{AllRatesFit, fitting_boxes_of};
ghost use Rattle.acas_boxes.specs.Whole.{boxes_of};
ghost use Rattle.acas_boxes.specs.Text.{IsBoxesText};

/// A text is read as boxes exactly where each of its keys holds the numbers of a box, it has no other keys, and each box is within its
/// limits and one that the model can audit. No order of the keys or of the rules plays a part.
pub fn texts_say_their_boxes()
    ensures { (m : ModelData) (bytes : List ℕ) (boxes : List AuditedBox) → IsModel m →
        (boxes_of m bytes ≡ Ok boxes) ↔ IsBoxesText m bytes boxes }
{}

/// It is read as boxes whose intruder's rates are within what it may do exactly where it says boxes and their rates are.
pub fn fitting_texts_say_their_boxes()
    ensures { (m : ModelData) (may : Manoeuvre) (bytes : List ℕ) (boxes : List AuditedBox) → IsModel m →
        (fitting_boxes_of m may bytes ≡ Ok boxes) ↔ (IsBoxesText m bytes boxes × AllRatesFit may boxes) }
{}
