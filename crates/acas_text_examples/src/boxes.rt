//! The texts of boxes.
ghost use Rattle.std.specs.Prelude.{◌≡◌, pos, codes, [], ◌∷◌};
ghost use Rattle.acas_boxes.specs.Rates.{AllRatesFit, IsFirstUnfit};
ghost use Rattle.acas_boxes.specs.Spans.{in_ticks, interval};
ghost use Rattle.acas_boxes.specs.Text.{HoldsAltitudes, HoldsInterval, IsBoxText};
ghost use Rattle.acas_examples.specs.Parts.{minus};
ghost use Rattle.acas_text_examples.specs.Boxes.{at_rate, between, box_keys, box_of, three_boxes};
ghost use Rattle.acas_text_examples.specs.Documents.{said};

/// Each key of a box holds its two ends, of which the first is not above the second. Altitudes are in feet, of 120 ticks.
pub fn boxes_are_said_or_not()
    ensures interval { interval (pos 3) (pos 5) ≡ between (pos 3) (pos 5) }
    ensures ticks { in_ticks (between (minus 1) (pos 3)) ≡ between (minus 120) (pos 360) }
    ensures holds { HoldsInterval box_keys (codes "own") (pos 0) (pos 60) (between (pos 0) (pos 60)) }
    ensures too_low { HoldsInterval box_keys (codes "own") (pos 1) (pos 60) (between (pos 0) (pos 60)) → ⊥ }
    ensures too_high { HoldsInterval box_keys (codes "own") (pos 0) (pos 59) (between (pos 0) (pos 60)) → ⊥ }
    ensures other { HoldsInterval box_keys (codes "own") (pos 0) (pos 60) (between (pos 0) (pos 59)) → ⊥ }
    ensures altitudes { HoldsAltitudes box_keys (codes "altitude") (between (pos 1200) (pos 2400)) }
    ensures feet { HoldsAltitudes box_keys (codes "altitude") (between (pos 10) (pos 20)) → ⊥ }
    ensures whole { IsBoxText said (box_of (between (minus 60) (pos 60))) box_keys }
    ensures other_advisory { IsBoxText said (record (box_of (between (minus 60) (pos 60))) { advisory = 0 }) box_keys → ⊥ }
    ensures other_rates { IsBoxText said (box_of (between (minus 60) (pos 61))) box_keys → ⊥ }
{}

/// Rates fit up to the greatest, climbing and descending. The first box that does not fit is named.
pub fn intruders_fit_or_not()
    ensures one { AllRatesFit (at_rate 60) (box_of (between (minus 60) (pos 60)) ∷ []) }
    ensures descent { AllRatesFit (at_rate 60) (box_of (between (minus 61) (pos 60)) ∷ []) → ⊥ }
    ensures climb { AllRatesFit (at_rate 60) (box_of (between (minus 60) (pos 61)) ∷ []) → ⊥ }
    ensures last { AllRatesFit (at_rate 60) three_boxes → ⊥ }
    ensures first { IsFirstUnfit (at_rate 60) three_boxes 1 }
    ensures fits { IsFirstUnfit (at_rate 60) three_boxes 0 → ⊥ }
    ensures later { IsFirstUnfit (at_rate 60) three_boxes 2 → ⊥ }
    ensures past_the_last { IsFirstUnfit (at_rate 61) three_boxes 3 → ⊥ }
{}
