//! How many decisions rule on the cells of the model.
ghost use Rattle.std.specs.Prelude.{◌≡◌, ℕ, [], ◌∷◌};
ghost use Rattle.acas_cells.specs.Blocks.{all_cells};
ghost use Rattle.acas_audit_blocks.specs.Audits.{AreExact, AreSetsOf};
ghost use Rattle.acas_audit_blocks.specs.Decisions.{AreAuditsDecisions, AreDecisionsOf, AreDecisionsUnder, IsDecidedBy, IsTabledIn};
ghost use Rattle.acas_cells.specs.DecisionCounts.{most_decisions};
ghost use Rattle.acas_cell_examples.specs.Tabled.{audit_of, block, sets_of, stacked, tabled};

/// Climb is tabled at a corner of both cells of 0 seconds, and both are endangered: one decision for the two, and one for each. Where
/// climb is present it is tabled at a corner of the upper one alone: one for the two, and one for that. Of 1 second it is tabled at the
/// lower one. An advice that is tabled nowhere takes none, nor does clear of conflict. That makes 3, 2, 2 and 0, which are 7.
pub fn blocks_are_decided()
    ensures lower { IsTabledIn stacked tabled 0 0 1 (block 0 1 0 1 0 1) }
    ensures not_lower { IsTabledIn stacked tabled 0 1 1 (block 0 1 0 1 0 1) → ⊥ }
    ensures one { IsDecidedBy stacked tabled 0 0 1 (block 0 1 0 1 0 1) 1 }
    ensures none { IsDecidedBy stacked tabled 0 1 1 (block 0 1 0 1 0 1) 0 }
    ensures both { IsDecidedBy stacked tabled 0 0 1 (all_cells stacked) 3 }
    ensures upper { IsDecidedBy stacked tabled 0 1 1 (all_cells stacked) 2 }
    ensures later { IsDecidedBy stacked tabled 1 0 1 (all_cells stacked) 2 }
    ensures nowhere { IsDecidedBy stacked tabled 1 1 1 (all_cells stacked) 0 }
{}

/// No other numbers are theirs: not fewer, where the one for the two is left out, and not more.
pub fn decided_numbers_are_one()
    ensures both { (number : ℕ) → IsDecidedBy stacked tabled 0 0 1 (all_cells stacked) number → number ≡ 3 }
    ensures upper { (number : ℕ) → IsDecidedBy stacked tabled 0 1 1 (all_cells stacked) number → number ≡ 2 }
    ensures lower { (number : ℕ) → IsDecidedBy stacked tabled 0 0 1 (block 0 1 0 1 0 1) number → number ≡ 1 }
    ensures nowhere { (number : ℕ) → IsDecidedBy stacked tabled 1 1 1 (all_cells stacked) number →
        number ≡ 0 }
{}

/// Climb is in the second set of a cell of 0 seconds, which is endangered, and not in the first. Where climb is present it is tabled at no
/// corner of the lower one, and is in neither.
pub fn sets_are_exact_or_not()
    ensures reported { AreExact stacked tabled 0 0 0 0 0 1 (sets_of 0 2) }
    ensures certified { AreExact stacked tabled 0 0 0 0 0 1 (sets_of 2 0) → ⊥ }
    ensures certified_too { AreExact stacked tabled 0 0 0 0 0 1 (sets_of 2 2) → ⊥ }
    ensures neither { AreExact stacked tabled 0 1 0 0 0 1 (sets_of 0 0) }
    ensures not_tabled { AreExact stacked tabled 0 1 0 0 0 1 (sets_of 0 2) → ⊥ }
{}

/// Both cells of 0 seconds are endangered under climb, which is tabled at a corner of each: both have it in their second set. There are two
/// sets for each of the two cells, and an advice that the model does not have is in none.
pub fn audits_are_exact_or_not()
    ensures both { AreSetsOf stacked tabled 0 0 (audit_of (sets_of 0 2 ∷ sets_of 0 2 ∷ [])) }
    ensures one_left_out { AreSetsOf stacked tabled 0 0 (audit_of (sets_of 0 2 ∷ [])) → ⊥ }
    ensures one_too_many { AreSetsOf stacked tabled 0 0 (audit_of (sets_of 0 2 ∷ sets_of 0 2 ∷ sets_of 0 2 ∷ [])) → ⊥ }
    ensures one_certified { AreSetsOf stacked tabled 0 0 (audit_of (sets_of 0 2 ∷ sets_of 2 0 ∷ [])) → ⊥ }
    ensures no_such_advice { AreSetsOf stacked tabled 0 0 (audit_of (sets_of 0 2 ∷ sets_of 0 6 ∷ [])) → ⊥ }
{}

/// The decisions summed up. No second and present advisory takes more than two for each of 2 cells under each of 2 advices.
pub fn decisions_are_summed()
    ensures clear { AreDecisionsUnder stacked tabled 0 0 0 0 }
    ensures both { AreDecisionsOf stacked tabled 0 0 3 }
    ensures all { AreAuditsDecisions stacked tabled 7 }
    ensures most { most_decisions stacked ≡ 8 }
{}
