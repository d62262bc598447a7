//! Contact, and flights of the small model that end in it.
ghost use Rattle.std.specs.Prelude.{◌≡◌, pos, [], ◌∷◌};
ghost use Rattle.acas_flight.specs.Clear.{EndsInVerticalContact, IsClear, IsEndangeredDuring};
ghost use Rattle.acas_flight.specs.Contact.{EndsInContact, IsEndangeredBox, IsEndangeredCell, IsHorizontalContact, IsInContact, IsVerticalContact, vertical_separation};
ghost use Rattle.acas_flight.specs.State.{IsInCell};
ghost use Rattle.acas_flight_examples.specs.Flown.{climbing, near_area, near_box, small};
ghost use Rattle.acas_flight_examples.specs.Numbers.{area, from_to, minus, over, segment, state, times};

/// At 250 ft/s a range of 1000 ft comes to the radius of 500 ft after 2 s, and leaves it after 6 s; over 2 the two are 4 and 12. An
/// intruder that starts at 100 ticks and flies at 60 ft/min is at 340 ticks after 2 s, 40 above an own climb of 300. Over 2 that is 8
/// times as much. Half of the puck's height is 120 ticks.
pub fn contact_ends_at_the_edge()
    ensures comes { IsHorizontalContact 500 1 (pos 1000) (pos 250) 2 }
    ensures not_yet { IsHorizontalContact 500 1 (pos 1000) (pos 250) 1 → ⊥ }
    ensures leaves { IsHorizontalContact 500 1 (pos 1000) (pos 250) 6 }
    ensures no_more { IsHorizontalContact 500 1 (pos 1000) (pos 250) 7 → ⊥ }
    ensures comes_over_two { IsHorizontalContact 500 2 (pos 2000) (pos 500) 4 }
    ensures not_yet_over_two { IsHorizontalContact 500 2 (pos 2000) (pos 500) 3 → ⊥ }
    ensures leaves_over_two { IsHorizontalContact 500 2 (pos 2000) (pos 500) 12 }
    ensures no_more_over_two { IsHorizontalContact 500 2 (pos 2000) (pos 500) 13 → ⊥ }
    ensures above { vertical_separation 1 (pos 100) (pos 60) 2 (pos 300) ≡ pos 40 }
    ensures above_over_two { vertical_separation 2 (pos 200) (pos 120) 4 (pos 2400) ≡ pos 320 }
    ensures half_above { IsVerticalContact 120 1 (pos 120) (pos 0) 0 (pos 0) }
    ensures more_above { IsVerticalContact 120 1 (pos 121) (pos 0) 0 (pos 0) → ⊥ }
    ensures half_below { IsVerticalContact 120 1 (minus 120) (pos 0) 0 (pos 0) }
    ensures more_below { IsVerticalContact 120 1 (minus 121) (pos 0) 0 (pos 0) → ⊥ }
    ensures both { IsInContact small 1 (state (pos 500) (pos 250) (pos 120) (pos 0) (pos 0)) 0 (pos 0) }
    ensures too_far { IsInContact small 1 (state (pos 501) (pos 250) (pos 120) (pos 0) (pos 0)) 0
        (pos 0) → ⊥ }
    ensures too_high { IsInContact small 1 (state (pos 500) (pos 250) (pos 121) (pos 0) (pos 0)) 0
        (pos 0) → ⊥ }
{}

/// In a hold of 2 s at 500 ft/min an aircraft climbs 2000 ticks, and a range of 1000 ft comes to the radius. An intruder that starts
/// at 1200 ticks and flies at 230 ft/min is at 2120 then, half the puck's height above; at 231 ft/min it is at 2124. The same over 2.
/// A climb that is not asked is none of the flights, nor is one from another cell.
pub fn flights_end_in_contact_or_not()
    ensures edge { EndsInContact small 1 (IsInCell small 1 0 0 0) 1 (state (pos 1000) (pos 250) (pos 1200)
        (pos 500) (pos 230)) (segment 2 (pos 0) ∷ []) }
    ensures past { EndsInContact small 1 (IsInCell small 1 0 0 0) 1 (state (pos 1000) (pos 250) (pos 1200)
        (pos 500) (pos 231)) (segment 2 (pos 0) ∷ []) → ⊥ }
    ensures over_two { EndsInContact small 1 (IsInCell small 1 0 0 0) 2 (state (pos 2000) (pos 500) (pos 2400)
        (pos 1000) (pos 460)) (segment 4 (pos 0) ∷ []) }
    ensures past_over_two { EndsInContact small 1 (IsInCell small 1 0 0 0) 2 (state (pos 2000) (pos 500)
        (pos 2400) (pos 1000) (pos 461)) (segment 4 (pos 0) ∷ []) → ⊥ }
    ensures too_short { EndsInContact small 1 (IsInCell small 1 0 0 0) 1
        (state (pos 1000) (pos 250) (pos 1200)
        (pos 500) (pos 230)) (segment 1 (pos 0) ∷ []) → ⊥ }
    ensures not_asked { EndsInContact small 1 (IsInCell small 1 0 0 0) 1
        (state (pos 1000) (pos 250) (pos 1200)
        (pos 500) (pos 230)) (segment 2 (pos 1) ∷ []) → ⊥ }
    ensures other_cell { EndsInContact small 1 (IsInCell small 0 0 0 0) 1
        (state (pos 1000) (pos 250) (pos 1200)
        (pos 500) (pos 230)) (segment 2 (pos 0) ∷ []) → ⊥ }
{}

/// That flight endangers the cell. In a hold of 1 s at 500 ft/min an aircraft climbs 1000 ticks, a range of 1000 ft at 500 ft/s comes to
/// the radius, and an intruder that starts at 920 ticks and flies at 100 ft/min is at 1120, half the puck's height above: the box and
/// its area are endangered. One that starts at 921 is at 1121. An area from 130 ticks below to 100 above is not clear at the start, nor
/// is one from 100 below to 130 above.
#[tactic(auto, unfolding(acas_flight::specs::Curves::approach))]
pub fn areas_are_endangered()
    ensures the_cell { IsEndangeredCell small 1 0 0 0 1 }
    ensures the_box { IsEndangeredBox small near_box 1 }
    ensures edge { EndsInVerticalContact 120 climbing near_area (times (over (pos 1) 1) (over (pos 1) 1)) 1
        (pos 920) (pos 500) (pos 100) (segment 1 (pos 0) ∷ []) }
    ensures past { EndsInVerticalContact 120 climbing near_area (times (over (pos 1) 1) (over (pos 1) 1)) 1
        (pos 921) (pos 500) (pos 100) (segment 1 (pos 0) ∷ []) → ⊥ }
    ensures the_area { IsEndangeredDuring 120 climbing near_area (times (over (pos 0) 1) (over (pos 1) 1)) }
    ensures not_clear { IsClear 120 climbing
        (area (from_to (minus 130) (pos 100)) (from_to (pos 500) (pos 500))
        (from_to (pos 0) (pos 0))) (times (over (pos 0) 1) (over (pos 0) 1)) → ⊥ }
    ensures not_clear_either { IsClear 120 climbing
        (area (from_to (minus 100) (pos 130)) (from_to (pos 500) (pos 500))
        (from_to (pos 0) (pos 0))) (times (over (pos 0) 1) (over (pos 0) 1)) → ⊥ }
{}
