//! Segments and responses under the advisory climb of the small model, which asks for 1000 to 2000 ft/min.
ghost use Rattle.std.specs.Prelude.{◌≡◌, pos, [], ◌∷◌};
ghost use Rattle.acas_flight.specs.Parts.{finer, until};
ghost use Rattle.acas_flight.specs.Response.{Follows, Holds, Meets, climb, climb_within, demand_of, lasting, rate_after, scaled};
ghost use Rattle.acas_flight_examples.specs.Flown.{climbing, small};
ghost use Rattle.acas_flight_examples.specs.Numbers.{minus, segment};

/// From 1000 ft/min, 3 s at 100 ft/min per second end at 1300: the mean of 1150 for 3 s is 57.5 ft, which are 6900 ticks. Then 2 s at
/// -50 end at 1200: the mean of 1250 for 2 s is 5000 ticks. Over 3 the rates are times 9, the pulls and the delay times 3. In numbers
/// over 3 times the denominator each duration and each acceleration is times 3. The first 4 s are the 3 s and 1 s at -50, and the first
/// 3 s are the first segment.
pub fn climbs_are_worked_out()
    ensures rate { rate_after (pos 1000) (segment 3 (pos 100)) ≡ pos 1300 }
    ensures first { climb_within (pos 1000) (segment 3 (pos 100)) ≡ pos 6900 }
    ensures both { climb (pos 1000) (segment 3 (pos 100) ∷ segment 2 (minus 50) ∷ []) ≡ pos 11_900 }
    ensures lasts { lasting (segment 3 (pos 100) ∷ segment 2 (minus 50) ∷ []) ≡ 5 }
    ensures asked { demand_of small 1 ≡ climbing }
    ensures over_three { scaled 3 climbing
        ≡ record { lo = pos 9000; hi = pos 18_000; pull = 300; limit = 600; delay = 6 } }
    ensures finer { finer 3 (segment 3 (pos 100) ∷ segment 2 (minus 50) ∷ [])
        ≡ segment 9 (pos 300) ∷ segment 6 (minus 150) ∷ [] }
    ensures cut { until 4 (segment 3 (pos 100) ∷ segment 2 (minus 50) ∷ [])
        ≡ segment 3 (pos 100) ∷ segment 1 (minus 50) ∷ [] }
    ensures cut_between { until 3 (segment 3 (pos 100) ∷ segment 2 (minus 50) ∷ []) ≡
        segment 3 (pos 100) ∷ [] }
{}

/// From 500 ft/min a pilot pulls up by 100 to 200 ft/min per second, to at most 2000: at 200 that is reached after 7.5 s, which is 15
/// over 2. From 2500 a pilot goes down, to at least 1000. From 1000 on no segment ends below it, and from 2000 none above.
pub fn segments_follow_or_not()
    ensures pull { Follows climbing (pos 500) (segment 5 (pos 100)) }
    ensures less { Follows climbing (pos 500) (segment 5 (pos 99)) → ⊥ }
    ensures limit { Follows climbing (pos 500) (segment 5 (pos 200)) }
    ensures more { Follows climbing (pos 500) (segment 5 (pos 201)) → ⊥ }
    ensures up_to_hi { Follows (scaled 2 climbing) (pos 2000) (segment 15 (pos 400)) }
    ensures past_hi { Follows (scaled 2 climbing) (pos 2000) (segment 16 (pos 400)) → ⊥ }
    ensures down { Follows climbing (pos 2500) (segment 15 (minus 100)) }
    ensures past_lo { Follows climbing (pos 2500) (segment 16 (minus 100)) → ⊥ }
    ensures less_down { Follows climbing (pos 2500) (segment 5 (minus 99)) → ⊥ }
    ensures more_down { Follows climbing (pos 2500) (segment 5 (minus 201)) → ⊥ }
    ensures stays { Follows climbing (pos 1000) (segment 1 (pos 0)) }
    ensures falls_out { Follows climbing (pos 1000) (segment 1 (minus 1)) → ⊥ }
    ensures at_hi { Follows climbing (pos 2000) (segment 1 (pos 0)) }
    ensures rises_out { Follows climbing (pos 2000) (segment 1 (pos 1)) → ⊥ }
    ensures no_time { Follows climbing (pos 1000) (segment 0 (pos 0)) → ⊥ }
{}

/// The rate may be held for 2 s, and not for longer, nor later, nor once more, nor by a segment that changes it. Each segment begins at
/// the rate at which the one before it ends: from 1900 ft/min a second at 100 ft/min per second ends at 2000, and another one past that.
pub fn responses_meet_or_not()
    ensures holds { Holds climbing (segment 2 (pos 0)) }
    ensures longer { Holds climbing (segment 3 (pos 0)) → ⊥ }
    ensures no_time { Holds climbing (segment 0 (pos 0)) → ⊥ }
    ensures sinking { Holds climbing (segment 1 (minus 1)) → ⊥ }
    ensures nothing { Meets climbing (pos 500) [] }
    ensures after_a_hold { Meets climbing (pos 500) (segment 2 (pos 0) ∷ segment 5 (pos 100) ∷ []) }
    ensures after_a_long_hold { Meets climbing (pos 500) (segment 3 (pos 0) ∷ segment 5 (pos 100) ∷ []) → ⊥ }
    ensures one_to_hi { Meets climbing (pos 1900) (segment 1 (pos 100) ∷ []) }
    ensures two_past_hi { Meets climbing (pos 1900) (segment 1 (pos 100) ∷ segment 1 (pos 100) ∷ []) → ⊥ }
    ensures hold_once_more { Meets climbing (pos 500) (segment 2 (pos 0) ∷ segment 2 (pos 0) ∷ []) → ⊥ }
    ensures hold_later { Meets climbing (pos 500) (segment 2 (pos 100) ∷ segment 1 (pos 0) ∷ []) → ⊥ }
{}
