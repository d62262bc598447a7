//! Fractions, and quotients rounded to whole numbers.
ghost use Rattle.std.specs.Prelude.{◌≡◌, pos, codes};
ghost use Rattle.acas_frac.specs.Fraction.{IsReduced, fraction_text, whole_of};
ghost use Rattle.acas_frac.specs.Rounding.{down, up};
ghost use Rattle.acas_examples.specs.Parts.{fraction, minus};

/// Seven halves are between 3 and 4, and as far below 0 between -4 and -3. Six halves are 3 either way.
pub fn quotients_are_rounded_both_ways()
    ensures down { down (pos 7) (pos 2) ≡ pos 3 }
    ensures up { up (pos 7) (pos 2) ≡ pos 4 }
    ensures down_below_zero { down (minus 7) (pos 2) ≡ minus 4 }
    ensures up_below_zero { up (minus 7) (pos 2) ≡ minus 3 }
    ensures down_whole { down (minus 6) (pos 2) ≡ minus 3 }
    ensures up_whole { up (pos 6) (pos 2) ≡ pos 3 }
{}

/// One half is in lowest terms, above 0 and below; two quarters are not. Nothing is 0 over 1, and over 0 there is no fraction.
pub fn fractions_are_in_lowest_terms_or_not()
    ensures half { IsReduced (fraction (pos 1) 2) }
    ensures below_zero { IsReduced (fraction (minus 1) 2) }
    ensures two_quarters { IsReduced (fraction (pos 2) 4) → ⊥ }
    ensures zero { IsReduced (fraction (pos 0) 1) }
    ensures zero_halves { IsReduced (fraction (pos 0) 2) → ⊥ }
    ensures over_zero { IsReduced (fraction (pos 1) 0) → ⊥ }
    ensures whole { whole_of (pos 5) ≡ fraction (pos 5) 1 }
{}

/// A fraction is printed with its denominator, unless that is 1.
pub fn fractions_are_printed()
    ensures halves { fraction_text (fraction (pos 25) 8) ≡ codes "25/8" }
    ensures below_zero { fraction_text (fraction (minus 3) 2) ≡ codes "-3/2" }
    ensures whole { fraction_text (fraction (pos 135) 1) ≡ codes "135" }
    ensures zero { fraction_text (fraction (pos 0) 1) ≡ codes "0" }
{}
