//! What a witness that shows danger is worth. The function does nothing: its clauses are the laws.
ghost use Rattle.std.specs.Prelude.{ℕ};
ghost use Rattle.acas_spec.specs.Model.{ModelData};
ghost use Rattle.acas_flight.specs.State.{Box, IsInBox, IsInCell};
ghost use Rattle.acas_flight.specs.Contact.{IsEndangeredBox, IsEndangeredCell};
ghost use Rattle.acas_rulings.specs.declared.flight.Witness.{Witness};
ghost use Rattle.acas_rulings.specs.Rulings.{ShowsDanger};

/// A witness that shows danger is a flight that endangers: some flight from a state of the cell, or of the box, that meets the advisory
/// ends in contact.
pub fn shown_danger_endangers()
    ensures cells { (m : ModelData) (n i j k advisory : ℕ) (w : Witness) →
        ShowsDanger m advisory (IsInCell m n i j k) w → IsEndangeredCell m n i j k advisory }
    ensures boxes { (m : ModelData) (box : Box) (advisory : ℕ) (w : Witness) →
        ShowsDanger m advisory (IsInBox box) w → IsEndangeredBox m box advisory }
{}
