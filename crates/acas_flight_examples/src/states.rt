//! States of the cells of the small model, and of a box.
ghost use Rattle.std.specs.Prelude.{◌≡◌, pos};
ghost use Rattle.acas_flight.specs.State.{IsInBox, IsInCell, IsInside, IsSecondsAway};
ghost use Rattle.acas_flight.specs.Values.{IsAtMost, IsOver, negated};
ghost use Rattle.acas_areas.specs.Limits.{IsFlownInTime};
ghost use Rattle.acas_flight_examples.specs.Flown.{near_box, slow_intruders, small};
ghost use Rattle.acas_flight_examples.specs.Numbers.{from_to, minus, over, state};

/// At 250 ft/s a range of 1000 ft is exactly 2 s from the radius of 500 ft: it is of the cells of 1 s and of 2 s. A foot more is not
/// of 1 s, and a foot less is not of 2 s. Within the radius it is 0 s, also at range 0, and behind it is none. Over 2 the numbers are
/// twice as large.
pub fn states_are_seconds_away_or_not()
    ensures one { IsSecondsAway small 1 1 (pos 1000) (pos 250) }
    ensures two { IsSecondsAway small 2 1 (pos 1000) (pos 250) }
    ensures not_three { IsSecondsAway small 3 1 (pos 1000) (pos 250) → ⊥ }
    ensures not_none { IsSecondsAway small 0 1 (pos 1000) (pos 250) → ⊥ }
    ensures farther { IsSecondsAway small 1 1 (pos 1001) (pos 250) → ⊥ }
    ensures nearer { IsSecondsAway small 2 1 (pos 999) (pos 250) → ⊥ }
    ensures at_radius { IsSecondsAway small 0 1 (pos 500) (pos 250) }
    ensures within { IsSecondsAway small 1 1 (pos 500) (pos 250) → ⊥ }
    ensures at_range_0 { IsSecondsAway small 0 1 (pos 0) (pos 250) }
    ensures behind { IsSecondsAway small 0 1 (minus 1) (pos 250) → ⊥ }
    ensures slow { IsSecondsAway small 0 1 (pos 500) (pos 249) → ⊥ }
    ensures fastest { IsSecondsAway small 0 1 (pos 500) (pos 500) }
    ensures fast { IsSecondsAway small 0 1 (pos 500) (pos 501) → ⊥ }
    ensures over_two { IsSecondsAway small 2 2 (pos 2000) (pos 500) }
    ensures over_two_nearer { IsSecondsAway small 2 2 (pos 1999) (pos 500) → ⊥ }
{}

/// The cell of 1 s at the lower corner goes from 0 to 1200 ticks and from 0 to 600 ft/min of each rate, with both ends.
pub fn states_are_in_cells_or_not()
    ensures upper { IsInCell small 1 0 0 0 1 (state (pos 1000) (pos 250) (pos 1200) (pos 600) (pos 600)) }
    ensures lower { IsInCell small 1 0 0 0 1 (state (pos 1000) (pos 250) (pos 0) (pos 0) (pos 0)) }
    ensures too_near { IsInCell small 1 0 0 0 1 (state (pos 749) (pos 250) (pos 0) (pos 0) (pos 0)) → ⊥ }
    ensures too_high { IsInCell small 1 0 0 0 1 (state (pos 1000) (pos 250) (pos 1201) (pos 0) (pos 0)) → ⊥ }
    ensures too_low { IsInCell small 1 0 0 0 1 (state (pos 1000) (pos 250) (minus 1) (pos 0) (pos 0)) → ⊥ }
    ensures own { IsInCell small 1 0 0 0 1 (state (pos 1000) (pos 250) (pos 0) (pos 601) (pos 0)) → ⊥ }
    ensures own_below { IsInCell small 1 0 0 0 1 (state (pos 1000) (pos 250) (pos 0) (minus 1) (pos 0)) → ⊥ }
    ensures intruder { IsInCell small 1 0 0 0 1 (state (pos 1000) (pos 250) (pos 0) (pos 0) (pos 601)) → ⊥ }
    ensures intruder_below { IsInCell small 1 0 0 0 1
        (state (pos 1000) (pos 250) (pos 0) (pos 0) (minus 1)) → ⊥ }
    ensures over_two { IsInCell small 1 0 0 0 2
        (state (pos 2000) (pos 500) (pos 2400) (pos 1200) (pos 1200)) }
{}

/// Where the axis of the intruder's rate ends at 300 ft/min, the cell still goes to 600 ft/min of the own rate, and no farther than
/// 300 of the intruder's.
pub fn rates_are_on_their_own_axes()
    ensures own { IsInCell slow_intruders 1 0 0 0 1 (state (pos 1000) (pos 250) (pos 0) (pos 600) (pos 300)) }
    ensures intruder { IsInCell slow_intruders 1 0 0 0 1 (state (pos 1000) (pos 250) (pos 0) (pos 600)
        (pos 301)) → ⊥ }
{}

/// The box has ranges from 1000 to 1200, closing speeds from 250 to 500, altitudes from 10 to 1200, own rates from 500 to 600 and
/// intruder rates from 20 to 100, with both ends of each.
pub fn states_are_in_boxes_or_not()
    ensures least { IsInBox near_box 1 (state (pos 1000) (pos 250) (pos 10) (pos 500) (pos 20)) }
    ensures greatest { IsInBox near_box 1 (state (pos 1200) (pos 500) (pos 1200) (pos 600) (pos 100)) }
    ensures range { IsInBox near_box 1 (state (pos 1201) (pos 500) (pos 1200) (pos 600) (pos 100)) → ⊥ }
    ensures closing { IsInBox near_box 1 (state (pos 1200) (pos 501) (pos 1200) (pos 600) (pos 100)) → ⊥ }
    ensures altitude { IsInBox near_box 1 (state (pos 1200) (pos 500) (pos 1201) (pos 600) (pos 100)) → ⊥ }
    ensures own { IsInBox near_box 1 (state (pos 1200) (pos 500) (pos 1200) (pos 601) (pos 100)) → ⊥ }
    ensures intruder { IsInBox near_box 1 (state (pos 1200) (pos 500) (pos 1200) (pos 600) (pos 101)) → ⊥ }
    ensures range_below { IsInBox near_box 1 (state (pos 999) (pos 250) (pos 10) (pos 500) (pos 20)) → ⊥ }
    ensures closing_below { IsInBox near_box 1 (state (pos 1000) (pos 249) (pos 10) (pos 500) (pos 20)) → ⊥ }
    ensures altitude_below { IsInBox near_box 1 (state (pos 1000) (pos 250) (pos 9) (pos 500) (pos 20)) → ⊥ }
    ensures own_below { IsInBox near_box 1 (state (pos 1000) (pos 250) (pos 10) (pos 499) (pos 20)) → ⊥ }
    ensures intruder_below { IsInBox near_box 1 (state (pos 1000) (pos 250) (pos 10) (pos 500) (pos 19)) → ⊥ }
{}

/// At 250 ft/s or more 150,000 ft are flown in the 600 seconds of a window: the greatest range and the radius of 500 ft. Ranges begin at
/// 0 and closing speeds at 1 ft/s, and these end at 5000.
pub fn boxes_are_flown_in_time_or_not()
    ensures in_time { IsFlownInTime small (from_to (pos 0) (pos 149_500)) (from_to (pos 250) (pos 5000)) }
    ensures far { IsFlownInTime small (from_to (pos 0) (pos 149_501)) (from_to (pos 250) (pos 5000)) → ⊥ }
    ensures behind { IsFlownInTime small (from_to (minus 1) (pos 149_500)) (from_to (pos 250) (pos 5000)) → ⊥ }
    ensures slow { IsFlownInTime small (from_to (pos 0) (pos 100)) (from_to (pos 1) (pos 5000)) }
    ensures standing { IsFlownInTime small (from_to (pos 0) (pos 100)) (from_to (pos 0) (pos 5000)) → ⊥ }
    ensures fast { IsFlownInTime small (from_to (pos 0) (pos 149_500)) (from_to (pos 250) (pos 5001)) → ⊥ }
{}

/// 3 over 6 is 1/2, which is 2/4, and more than 1/3.
pub fn fractions_are_compared()
    ensures over { IsOver 6 (pos 3) (over (pos 1) 2) }
    ensures not_over { IsOver 6 (pos 4) (over (pos 1) 2) → ⊥ }
    ensures at_most { IsAtMost (over (pos 1) 2) (over (pos 2) 4) }
    ensures less { IsAtMost (over (pos 1) 3) (over (pos 1) 2) }
    ensures more { IsAtMost (over (pos 1) 2) (over (pos 1) 3) → ⊥ }
    ensures negated { negated (over (pos 1) 2) ≡ over (minus 1) 2 }
    ensures inside { IsInside 2 (from_to (minus 1) (pos 3)) (minus 2) }
    ensures not_inside { IsInside 2 (from_to (minus 1) (pos 3)) (pos 7) → ⊥ }
{}
