//! Sound entries, and entries that are a millionth or an advice away from it.
ghost use Rattle.std.specs.Prelude.{pos};
ghost use Rattle.acas_policies.specs.Bounds.{IsSoundEntry};
ghost use Rattle.acas_process.specs.Compiled.{compiled};
ghost use Rattle.acas_examples.specs.Models.{four_advisories, noisy, switching};
ghost use Rattle.acas_examples.specs.Parts.{minus, vertex};
ghost use Rattle.acas_examples.specs.Tables.{altered};

/// A compiled entry is sound, and so is one whose two values are further apart. One whose upper value is a millionth less or whose
/// lower value is a millionth more is not, nor is one whose advice may not be chosen.
pub fn entries_are_sound_or_not()
    ensures compiled { IsSoundEntry switching (compiled switching) 2 0 (vertex 0 0 1) }
    ensures wider { IsSoundEntry noisy (altered noisy 2 (pos 5) (minus 7) 0) 2 0 (vertex 0 0 1) }
    ensures upper { IsSoundEntry noisy (altered noisy 2 (minus 1) (pos 0) 0) 2 0 (vertex 0 0 1) → ⊥ }
    ensures lower { IsSoundEntry noisy (altered noisy 2 (pos 0) (pos 1) 0) 2 0 (vertex 0 0 1) → ⊥ }
    ensures advice { IsSoundEntry noisy (altered noisy 2 (pos 0) (pos 0) 1) 2 0 (vertex 0 0 1) → ⊥ }
    // the upper and the lower values of the layer below are worse here by more than the rounding
    ensures upper_below { IsSoundEntry noisy (altered noisy 1 (pos 9) (pos 0) 0) 2 0 (vertex 0 0 1) → ⊥ }
    ensures lower_below { IsSoundEntry noisy (altered noisy 1 (pos 0) (minus 9) 0) 2 0 (vertex 0 0 1) → ⊥ }
    // sound by the advised choice alone, which costs 1 more than clear
    ensures other_choice { IsSoundEntry four_advisories
        (altered four_advisories 1 (pos 1_000_000) (pos 900_000) 3) 1 0 (vertex 1 0 1) → ⊥ }
{}

/// With no second to go the cost at the end is to be between the two values, both included.
pub fn ends_are_sound_or_not()
    ensures compiled { IsSoundEntry noisy (compiled noisy) 0 0 (vertex 0 0 0) }
    ensures upper { IsSoundEntry noisy (altered noisy 0 (minus 1) (minus 1) 255) 0 0 (vertex 0 0 0) → ⊥ }
    ensures lower { IsSoundEntry noisy (altered noisy 0 (pos 1) (pos 1) 255) 0 0 (vertex 0 0 0) → ⊥ }
{}
