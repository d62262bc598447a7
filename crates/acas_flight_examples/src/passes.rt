//! Values of flights, the halving, and passes.
ghost use Rattle.std.specs.Prelude.{◌≡◌, ℕ, pos, [], ◌∷◌, true, false, nat_lt};
ghost use Rattle.acas_areas.specs.Flights.{Flight, intruder_end, value};
ghost use Rattle.acas_areas.specs.Halving.{HalvesTo};
ghost use Rattle.acas_areas.specs.Passes.{EndsAt, IsFound, IsLast, Pass, falling, moving, moving_down, moving_up, rising, toward};
ghost use Rattle.acas_areas.specs.Value.{IsLessThanAbove, IsWithinHalf, is_below, thinnest};
ghost use Rattle.acas_flight_examples.specs.Numbers.{minus, over};
ghost use Rattle.acas_flight_examples.specs.Searched.{after_a_hold, at_start, far_below, first_or_third, lasting_for, over_two, stepping, up_to_it};

/// The flight has climbed 9500 ticks after 7 s, and the intruder is at 2600: 6900 are 690,000 over the pull of 100. Over 2 they are
/// 11,040,000 over 8 * 200. The thinnest puck is 2 ft thick, which are 240 ticks.
#[tactic(auto, unfolding(acas_flight::specs::Curves::approach))]
pub fn values_are_worked_out()
    ensures intruder { intruder_end 1 (after_a_hold 7) ≡ pos 2600 }
    ensures intruder_over_two { intruder_end 2 over_two ≡ pos 20_800 }
    ensures value { value 1 (after_a_hold 7) ≡ over (pos 690_000) 100 }
    ensures value_over_two { value 2 over_two ≡ over (pos 11_040_000) 1600 }
    ensures thinnest { thinnest ≡ 240 }
{}

/// Half of the puck's height is 120 ticks. From 0 to 239 ticks it is less than 240, and to 240 it is not; from 1/2 to 479/2 too.
pub fn flights_are_below_or_not()
    ensures at_edge { is_below 120 (over (minus 240) 2) ≡ false }
    ensures below { is_below 120 (over (minus 241) 2) ≡ true }
    ensures above { is_below 120 (over (pos 500) 2) ≡ false }
    ensures low { IsWithinHalf 120 (over (minus 240) 2) }
    ensures too_low { IsWithinHalf 120 (over (minus 241) 2) → ⊥ }
    ensures high { IsWithinHalf 120 (over (pos 240) 2) }
    ensures too_high { IsWithinHalf 120 (over (pos 241) 2) → ⊥ }
    ensures less { IsLessThanAbove 240 (over (pos 0) 1) (over (pos 239) 1) }
    ensures not_less { IsLessThanAbove 240 (over (pos 0) 1) (over (pos 240) 1) → ⊥ }
    ensures less_in_halves { IsLessThanAbove 240 (over (pos 1) 2) (over (pos 480) 2) }
    ensures not_less_in_halves { IsLessThanAbove 240 (over (pos 1) 2) (over (pos 481) 2) → ⊥ }
{}

/// Of the points 0 to 3, where 0 and 1 are below, the halving ends at 2. Where 0 and 2 are, the middle of 0 and 3 is 1, which is not
/// below, and the halving ends there; with a middle of 2 it would end at 3.
pub fn halving_takes_the_lower_middle()
    ensures third { HalvesTo (λ i. nat_lt i 2) 0 3 2 }
    ensures third_alone { (at : ℕ) → HalvesTo (λ i. nat_lt i 2) 0 3 at → at ≡ 2 }
    ensures second { HalvesTo first_or_third 0 3 1 }
    ensures second_alone { (at : ℕ) → HalvesTo first_or_third 0 3 at → at ≡ 1 }
{}

/// A quantity goes from 3 to 10 or back, and no farther: in 4 from 3 to 7, and from 10 to 6. So does one that may be below 0. A pass
/// from 3 to 10 by 2 has a way of 7, and its flight of number 2 is at 7; from 10 to 3 it is at 6.
pub fn quantities_move_toward_their_ends()
    ensures up { toward 3 10 4 ≡ 7 }
    ensures up_to_the_end { toward 3 10 9 ≡ 10 }
    ensures down { toward 10 3 4 ≡ 6 }
    ensures down_to_the_end { toward 10 3 9 ≡ 3 }
    ensures rising { rising (minus 3) (pos 2) 4 ≡ pos 1 }
    ensures risen { rising (minus 3) (pos 2) 9 ≡ pos 2 }
    ensures falling { falling (pos 2) (minus 3) 4 ≡ minus 2 }
    ensures fallen { falling (pos 2) (minus 3) 9 ≡ minus 3 }
    ensures moving { Pass.point (moving lasting_for 3 10 2) 2 ≡ lasting_for 7 }
    ensures moving_back { Pass.point (moving lasting_for 10 3 2) 2 ≡ lasting_for 6 }
    ensures way { Pass.way (moving lasting_for 3 10 2) ≡ 7 }
    ensures way_back { Pass.way (moving lasting_for 10 3 2) ≡ 7 }
    ensures step { Pass.step (moving lasting_for 3 10 2) ≡ 2 }
    ensures moving_up { Pass.point (moving_up at_start (minus 3) (pos 2) 2) 2 ≡ at_start (pos 1) }
    ensures way_up { Pass.way (moving_up at_start (minus 3) (pos 2) 2) ≡ 5 }
    ensures moving_down { Pass.point (moving_down at_start (pos 2) (minus 3) 2) 2 ≡ at_start (minus 2) }
    ensures way_down { Pass.way (moving_down at_start (pos 2) (minus 3) 2) ≡ 5 }
{}

/// By steps of 4, a way of 10 ends at the flight of number 3, and one of 8 at that of number 2. No way ends where it begins.
pub fn passes_have_last_flights()
    ensures third { IsLast (stepping 10 4) 3 }
    ensures not_there_yet { IsLast (stepping 10 4) 2 → ⊥ }
    ensures past { IsLast (stepping 10 4) 4 → ⊥ }
    ensures second { IsLast (stepping 8 4) 2 }
    ensures second_past { IsLast (stepping 8 4) 3 → ⊥ }
    ensures no_way { IsLast (stepping 0 4) 0 }
{}

/// Flights of no time from 300 ticks below to none, by 100, of which those of 300 and 200 are below the puck: the search ends at 100.
/// A pass from 500 to 300, whose last flight is below, is passed over.
pub fn passes_end_at_the_first_flight()
    ensures one { EndsAt (value 1) 120 (up_to_it ∷ []) (at_start (pos 100)) }
    ensures two { EndsAt (value 1) 120 (far_below ∷ up_to_it ∷ []) (at_start (pos 100)) }
    ensures below { (c : Flight) → EndsAt (value 1) 120 (far_below ∷ []) c → ⊥ }
{}

/// From 100 ticks below and from 100 above both flights are in contact, and it is the low one that is found. From 500 below it is the
/// high one. From 300 below to 300 above neither is, and the passes are tried.
pub fn low_flights_are_found_first()
    ensures low { IsFound (value 1) 120 (at_start (pos 100)) (at_start (minus 100)) [] (at_start (pos 100)) }
    ensures not_high { IsFound (value 1) 120 (at_start (pos 100)) (at_start (minus 100)) []
        (at_start (minus 100)) → ⊥ }
    ensures high { IsFound (value 1) 120 (at_start (pos 500)) (at_start (minus 100)) []
        (at_start (minus 100)) }
    ensures between { IsFound (value 1) 120 (at_start (pos 300)) (at_start (minus 300)) (up_to_it ∷ [])
        (at_start (pos 100)) }
{}
