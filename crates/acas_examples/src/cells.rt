//! The cell of a number of an axis.
ghost use Rattle.std.specs.Prelude.{pos, [], ◌∷◌};
ghost use Rattle.acas_spec.specs.Axis.{IsAxis};
ghost use Rattle.acas_grid.specs.Axis.{IsCell};

/// A number of the axis begins its cell, but for the last, which ends the last cell. A number between two others is in theirs.
pub fn cells_begin_at_their_numbers()
    ensures between { IsCell (pos 0 ∷ pos 120 ∷ pos 240 ∷ []) 0 (pos 119) }
    ensures at_number { IsCell (pos 0 ∷ pos 120 ∷ pos 240 ∷ []) 1 (pos 120) }
    ensures not_before { IsCell (pos 0 ∷ pos 120 ∷ pos 240 ∷ []) 0 (pos 120) → ⊥ }
    ensures at_last { IsCell (pos 0 ∷ pos 120 ∷ pos 240 ∷ []) 1 (pos 240) }
    ensures not_past { IsCell (pos 0 ∷ pos 120 ∷ pos 240 ∷ []) 2 (pos 240) → ⊥ }
{}

/// Two numbers make an axis where the second is above the first.
pub fn axes_rise()
    ensures rising { IsAxis (pos 0 ∷ pos 1 ∷ []) }
    ensures still { IsAxis (pos 0 ∷ pos 0 ∷ []) → ⊥ }
    ensures falling { IsAxis (pos 1 ∷ pos 0 ∷ []) → ⊥ }
    ensures one_number { IsAxis (pos 0 ∷ []) → ⊥ }
{}
