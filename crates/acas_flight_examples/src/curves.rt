//! The two curves and the gaps of an area, under the advisory climb of the small model.
ghost use Rattle.std.specs.Prelude.{◌≡◌, pos};
ghost use Rattle.acas_frac.specs.Fraction.{Fraction, Same};
ghost use Rattle.acas_flight.specs.Clear.{greatest_gap, high_pull_of, least_gap, low_pull_of};
ghost use Rattle.acas_flight.specs.Curves.{approach, held, high_hold, high_pull, highest, low_hold, low_pull, lowest};
ghost use Rattle.acas_flight.specs.Values.{IsApproach, IsHeld, IsHighestClimb, IsLowestClimb};
ghost use Rattle.acas_flight_examples.specs.Flown.{climbing, near_area};
ghost use Rattle.acas_flight_examples.specs.Numbers.{over};
ghost use Rattle.acas_flight_examples.specs.Searched.{past_hi};

/// A curve is the climb times the pull. From 500 ft/min at 100 ft/min per second: 800 after 3 s, so 3900 ticks; 1000 after 5 s and
/// 7500 ticks, and 4000 more in 2 s. From 2500 down: 14,100 in 3 s, and 22,500 in 5 s and 8000 in 2 s. After a hold of 2 s, which
/// climbs 2000, 7 s from 500 are 9500. The lowest from 1500 falls at 200 for 2.5 s and 6250 ticks, and has 9000 in 4.5 s. The highest
/// from 500 is at 1900 after 7 s at 200, so 16,800; that from 2500 holds for 10,000 ticks and falls for 22,500.
#[tactic(auto, unfolding(acas_flight::specs::Curves::approach))]
pub fn curves_are_worked_out()
    ensures rising { approach (pos 500) (pos 1000) 100 3 ≡ pos 390_000 }
    ensures risen { approach (pos 500) (pos 1000) 100 7 ≡ pos 1_150_000 }
    ensures falling { approach (pos 2500) (pos 2000) 100 3 ≡ pos 1_410_000 }
    ensures fallen { approach (pos 2500) (pos 2000) 100 7 ≡ pos 3_050_000 }
    ensures holding { held (pos 500) (pos 1000) 100 2 1 ≡ pos 100_000 }
    ensures held { held (pos 500) (pos 1000) 100 2 7 ≡ pos 950_000 }
    ensures lowest_from_below { lowest climbing (pos 500) 7 ≡ pos 950_000 }
    ensures lowest_from_within { lowest climbing (pos 1500) 7 ≡ pos 3_050_000 }
    ensures highest_from_below { highest climbing (pos 500) 7 ≡ pos 3_360_000 }
    ensures highest_from_above { highest climbing (pos 2500) 7 ≡ pos 3_250_000 }
    ensures pull_below { low_pull climbing (pos 999) ≡ 100 }
    ensures pull_at_lo { low_pull climbing (pos 1000) ≡ 200 }
    ensures hold_below { low_hold climbing (pos 999) ≡ 2 }
    ensures hold_at_lo { low_hold climbing (pos 1000) ≡ 0 }
    ensures pull_at_hi { high_pull climbing (pos 2000) ≡ 200 }
    ensures pull_above { high_pull climbing (pos 2001) ≡ 100 }
    ensures hold_at_hi { high_hold climbing (pos 2000) ≡ 0 }
    ensures hold_above { high_hold climbing (pos 2001) ≡ 2 }
{}

/// The same climbs as fractions. From 500 ft/min the lowest in 7 s is 9500 ticks and the highest 16,800: no other number is one.
#[tactic(auto, unfolding(acas_flight::specs::Curves::approach))]
pub fn climbs_of_curves_are_one()
    ensures lowest { (y : Fraction) → IsLowestClimb climbing (over (pos 500) 1) (over (pos 7) 1) y →
        Same y (over (pos 9500) 1) }
    ensures highest { (y : Fraction) → IsHighestClimb climbing (over (pos 500) 1) (over (pos 7) 1) y →
        Same y (over (pos 16_800) 1) }
    ensures approach { (y : Fraction) →
        IsApproach (over (pos 500) 1) (over (pos 1000) 1) (over (pos 100) 1) (over (pos 7) 1) y →
        Same y (over (pos 11_500) 1) }
    ensures held { (y : Fraction) →
        IsHeld (over (pos 500) 1) (over (pos 1000) 1) (over (pos 100) 1) (over (pos 2) 1) (over (pos 7) 1) y →
        Same y (over (pos 9500) 1) }
{}

/// After 7 s the lowest flight from 500 ft/min has climbed 9500 ticks, and the highest intruder, from 1200 at 100 ft/min, is at 2600:
/// 6900, times the pull of 100. The highest flight from 600 ft/min has climbed 18,200, and the lowest intruder, from 10 at 20 ft/min,
/// is at 290: 17,910, times 200. Over 2 a gap is 16 times as large. Where own rates go on to 2500 ft/min, the lowest flight still goes up
/// from 500 by 100, and the highest comes down from 2500 by 100.
#[tactic(auto, unfolding(acas_flight::specs::Curves::approach))]
pub fn gaps_are_worked_out()
    ensures low_pull { low_pull_of 1 climbing near_area ≡ 100 }
    ensures high_pull { high_pull_of 1 climbing near_area ≡ 200 }
    ensures least { least_gap 1 climbing near_area 7 ≡ pos 690_000 }
    ensures greatest { greatest_gap 1 climbing near_area 7 ≡ pos 3_582_000 }
    ensures least_over_two { least_gap 2 climbing near_area 14 ≡ pos 11_040_000 }
    ensures greatest_over_two { greatest_gap 2 climbing near_area 14 ≡ pos 57_312_000 }
    ensures low_pull_to_2500 { low_pull_of 1 climbing past_hi.area ≡ 100 }
    ensures high_pull_to_2500 { high_pull_of 1 climbing past_hi.area ≡ 100 }
{}
