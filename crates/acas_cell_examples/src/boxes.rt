//! Boxes by their places, and those that the model can audit.
ghost use Rattle.std.specs.Prelude.{◌≡◌, pos, [], ◌∷◌};
ghost use Rattle.acas_rulings.specs.Boxes.{AreBoxesOf, IsBoxOf, audited, box_at};
ghost use Rattle.acas_rulings.specs.declared.audit_box.AuditBox.{AuditBox};
ghost use Rattle.acas_report_lines.specs.Regions.{places};
ghost use Rattle.acas_flight_examples.specs.Flown.{near_box};
ghost use Rattle.acas_flight_examples.specs.Numbers.{from_to};
ghost use Rattle.acas_cell_examples.specs.Tabled.{stacked};
ghost use Rattle.acas_cell_examples.specs.Witnesses.{around};

/// Boxes are counted from 0.
pub fn boxes_are_at_their_places()
    ensures first { box_at (around ∷ record { advisory = 0; states = near_box } ∷ []) 0 ≡ around }
    ensures second { box_at (around ∷ record { advisory = 0; states = near_box } ∷ []) 1
        ≡ record { advisory = 0; states = near_box } }
    ensures places { places (around ∷ record { advisory = 0; states = near_box } ∷ []) ≡ 0 ∷ 1 ∷ [] }
{}

/// The model has the advisories 0 and 1. At 250 ft/s or more a range of 149,500 ft and the radius are flown in the seconds of a window, and
/// a foot more is not. Each box counts, the last one too.
pub fn boxes_are_those_of_a_model_or_not()
    ensures one { IsBoxOf stacked around }
    ensures third_advisory { IsBoxOf stacked (record around { advisory = 2 }) → ⊥ }
    ensures far { IsBoxOf stacked
        (record { advisory = 1; states = record near_box { range = from_to (pos 0) (pos 149_501) } }) → ⊥ }
    ensures both { AreBoxesOf stacked (around ∷ record { advisory = 0; states = near_box } ∷ []) }
    ensures not_the_last { AreBoxesOf stacked (around ∷ record { advisory = 2; states = near_box } ∷ []) → ⊥ }
{}

/// A box stands for its own spans, each in its place.
pub fn boxes_stand_for_their_spans()
    ensures advisory { (b : AuditBox) → (audited b).advisory ≡ b.advisory }
    ensures range { (b : AuditBox) → let s = (audited b).states.range in
        (s.least ≡ b.range.least) × (s.greatest ≡ b.range.greatest) }
    ensures closing { (b : AuditBox) → let s = (audited b).states.closing in
        (s.least ≡ b.closing.least) × (s.greatest ≡ b.closing.greatest) }
    ensures altitude { (b : AuditBox) → let s = (audited b).states.altitude in
        (s.least ≡ b.area.h.least) × (s.greatest ≡ b.area.h.greatest) }
    ensures own { (b : AuditBox) → let s = (audited b).states.own in
        (s.least ≡ b.area.v0.least) × (s.greatest ≡ b.area.v0.greatest) }
    ensures intruder { (b : AuditBox) → let s = (audited b).states.intruder in
        (s.least ≡ b.area.v1.least) × (s.greatest ≡ b.area.v1.greatest) }
{}
