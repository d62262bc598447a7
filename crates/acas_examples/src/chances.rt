//! Chances of contact, and bounds of chances and costs.
ghost use Rattle.std.specs.Prelude.{◌≡◌, true, false, pos};
ghost use Rattle.acas_policies.specs.Policies.{AreBounds, AreChanceBounds, always_clear, contact_chance, in_contact};
ghost use Rattle.acas_process.specs.Compiled.{compiled};
ghost use Rattle.acas_examples.specs.Models.{at_edge, at_radius, evading, four_advisories, noisy, past_edge};
ghost use Rattle.acas_examples.specs.Parts.{minus, vertex};

/// Half of the puck's height away is contact, and a tick more is none, above the own aircraft and far below it.
pub fn contact_is_within_half_the_height()
    ensures same_altitude { in_contact noisy (vertex 0 1 1) ≡ true }
    ensures edge { in_contact at_edge (vertex 1 0 0) ≡ true }
    ensures past_edge { in_contact past_edge (vertex 1 0 0) ≡ false }
    ensures radius { in_contact at_radius (vertex 1 0 0) ≡ false }
    ensures far_below { in_contact four_advisories (vertex 0 0 0) ≡ false }
{}

/// With no second to go the chance is 1 or 0. In the noisy model contact costs 1 and nothing else costs anything, so the chance is what
/// clear costs there: 2/3 with one second to go and 85/162 with two, over powers of the total. In the evading model clear stays in
/// contact, and a descent, which costs 1, is in contact with a chance of 6/10; without any advice nobody descends, whatever is present.
pub fn chances_are_exact()
    ensures contact { contact_chance noisy always_clear 0 1 (vertex 0 1 0) ≡ pos 1 }
    ensures apart { contact_chance noisy always_clear 0 1 (vertex 1 1 0) ≡ pos 0 }
    ensures one { contact_chance noisy always_clear 1 0 (vertex 0 0 1) ≡ pos 2_592_000_000 }
    ensures two { contact_chance noisy always_clear 2 0 (vertex 0 0 1)
        ≡ pos 7_931_520_000_000_000_000 }
    ensures clear { contact_chance evading always_clear 1 0 (vertex 0 0 0) ≡ pos 432_000_000 }
    ensures still_clear { contact_chance evading always_clear 1 1 (vertex 0 0 0) ≡ pos 432_000_000 }
    ensures descent { contact_chance evading (compiled evading).advice 1 0 (vertex 0 0 0)
        ≡ pos 259_200_000 }
{}

/// 2/3 of the noisy model's total, with one second to go, is between 666,666 and 666,667 millionths, and within two millionths for that
/// second: not below the one, not above the other, and not three apart. Bounds of a chance are no less than 0 and no more than 1.
pub fn numbers_have_bounds_or_not()
    ensures bounds { AreBounds noisy 1 (pos 2_592_000_000) (pos 666_666) (pos 666_667) }
    ensures too_high { AreBounds noisy 1 (pos 2_592_000_000) (pos 666_667) (pos 666_668) → ⊥ }
    ensures too_low { AreBounds noisy 1 (pos 2_592_000_000) (pos 666_665) (pos 666_666) → ⊥ }
    ensures too_wide { AreBounds noisy 1 (pos 2_592_000_000) (pos 666_665) (pos 666_668) → ⊥ }
    ensures chance { AreChanceBounds noisy 1 (pos 2_592_000_000) (pos 666_666) (pos 666_667) }
    ensures chance_too_low { AreChanceBounds noisy 1 (pos 2_592_000_000) (pos 666_665) (pos 666_666) → ⊥ }
    ensures below_zero { AreChanceBounds noisy 1 (pos 0) (minus 1) (pos 0) → ⊥ }
    ensures above_one { AreChanceBounds noisy 1 (pos 3_888_000_000) (pos 1_000_000) (pos 1_000_001) → ⊥ }
{}
