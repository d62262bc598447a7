//! What is printed of flights, segment by segment and fraction by fraction.
ghost use Rattle.std.specs.Prelude.{◌≡◌, pos, [], ◌∷◌, Some, None};
ghost use Rattle.acas_rulings.specs.Printed.{AreParts, IsPart, flight_fractions, fractions_of, hold_part, level, segments_of, some_part};
ghost use Rattle.acas_rulings.specs.PrintedMeetings.{against_of, meeting_fractions};
ghost use Rattle.acas_flight_examples.specs.Numbers.{minus, over, segment};
ghost use Rattle.acas_cell_examples.specs.Witnesses.{at_once, part, sinking, turning};

/// Over 6 a duration of 3 is half a second, and an acceleration of -50 is -25/3. Each segment is printed, one by one, and no more.
pub fn segments_are_printed_or_not()
    ensures one { IsPart 6 (segment 3 (minus 50)) (part (over (pos 1) 2) (over (minus 25) 3)) }
    ensures upward { IsPart 6 (segment 3 (minus 50)) (part (over (pos 1) 2) (over (pos 25) 3)) → ⊥ }
    ensures longer { IsPart 6 (segment 3 (minus 50)) (part (over (pos 1) 1) (over (minus 25) 3)) → ⊥ }
    ensures both { AreParts 6 (segment 3 (minus 50) ∷ segment 6 (pos 0) ∷ [])
        (part (over (pos 1) 2) (over (minus 25) 3) ∷ part (over (pos 1) 1) (over (pos 0) 1) ∷ []) }
    ensures one_is_missing { AreParts 6 (segment 3 (minus 50) ∷ segment 6 (pos 0) ∷ [])
        (part (over (pos 1) 2) (over (minus 25) 3) ∷ []) → ⊥ }
    ensures one_more { AreParts 6 (segment 3 (minus 50) ∷ [])
        (part (over (pos 1) 2) (over (minus 25) 3) ∷ part (over (pos 1) 1) (over (pos 0) 1) ∷ []) → ⊥ }
    ensures another { AreParts 6 (segment 3 (minus 50) ∷ [])
        (part (over (pos 1) 2) (over (pos 25) 3) ∷ []) → ⊥ }
{}

/// A hold is printed as a segment of acceleration 0, before the others, and what there is not is left out.
pub fn responses_are_printed_in_order()
    ensures level { level (over (pos 1) 2) ≡ part (over (pos 1) 2) (over (pos 0) 1) }
    ensures hold { hold_part (Some (over (pos 1) 2)) ≡ part (over (pos 1) 2) (over (pos 0) 1) ∷ [] }
    ensures no_hold { hold_part None ≡ [] }
    ensures some { some_part (Some (part (over (pos 2) 1) (over (minus 100) 3)))
        ≡ part (over (pos 2) 1) (over (minus 100) 3) ∷ [] }
    ensures none { some_part None ≡ [] }
    ensures response { segments_of sinking.flight
        ≡ part (over (pos 1) 2) (over (pos 0) 1) ∷ part (over (pos 2) 1) (over (minus 100) 3)
        ∷ part (over (pos 1) 1) (over (pos 0) 1) ∷ [] }
    ensures no_response { segments_of at_once.flight ≡ [] }
    ensures against { against_of turning
        ≡ part (over (pos 11_863) 7680) (over (pos 960) 1) ∷ part (over (pos 12_713) 7680) (over (pos 0) 1) ∷ [] }
{}

/// Every fraction is listed: those of the start, and two of each segment.
pub fn fractions_are_listed()
    ensures flight { flight_fractions sinking.flight
        ≡ over (pos 7) 2 ∷ over (pos 1000) 3 ∷ over (minus 5) 4
        ∷ over (pos 1) 2 ∷ over (pos 0) 1 ∷ over (pos 2) 1 ∷ over (minus 100) 3
        ∷ over (pos 1) 1 ∷ over (pos 0) 1 ∷ [] }
    ensures witness { fractions_of at_once
        ≡ over (pos 9001) 2 ∷ over (pos 250) 1 ∷ over (pos 7) 2 ∷ over (pos 1000) 3 ∷ over (minus 5) 4 ∷ [] }
    ensures meeting { meeting_fractions turning
        ≡ over (pos 15_500) 1 ∷ over (pos 5000) 1 ∷ over (pos 16) 5 ∷ over (pos 1500) 1 ∷ over (pos 0) 1
        ∷ over (pos 16) 5 ∷ over (pos 0) 1 ∷ over (pos 11_863) 7680 ∷ over (pos 960) 1
        ∷ over (pos 12_713) 7680 ∷ over (pos 0) 1 ∷ [] }
{}
