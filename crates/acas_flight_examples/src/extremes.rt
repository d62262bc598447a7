//! The times of the least and of the greatest gap.
ghost use Rattle.std.specs.Prelude.{◌≡◌, pos};
ghost use Rattle.acas_frac.specs.Fraction.{Fraction};
ghost use Rattle.acas_flight.specs.Extremes.{IsHighExtreme, IsLowExtreme};
ghost use Rattle.acas_flight_examples.specs.Flown.{climbing, level, level_area, near_area};
ghost use Rattle.acas_flight_examples.specs.Numbers.{minus, over, times};

/// At the start the lowest flight is 1200 ticks below the highest intruder, and after 7 s it is 6900 above; the highest flight is 10
/// below the lowest intruder and then 17,910 above. So the least gap is not that of 7 s, nor the greatest that of the start. Where both
/// fly level at one altitude, all gaps are the same, and the earliest time from 1 s to 6 s is 1 s: not 2 s, nor a time before.
#[tactic(auto, unfolding(acas_flight::specs::Curves::approach))]
pub fn other_times_are_no_extremes()
    ensures not_the_last { IsLowExtreme climbing near_area (times (over (pos 0) 1) (over (pos 7) 1)) (over
        (pos 7) 1) → ⊥ }
    ensures not_the_first { IsHighExtreme climbing near_area (times (over (pos 0) 1) (over (pos 7) 1)) (over
        (pos 0) 1) → ⊥ }
    ensures low_later { IsLowExtreme level level_area (times (over (pos 1) 1) (over (pos 6) 1))
        (over (pos 2) 1) → ⊥ }
    ensures high_later { IsHighExtreme level level_area (times (over (pos 1) 1) (over (pos 6) 1))
        (over (pos 2) 1) → ⊥ }
    ensures low_before { IsLowExtreme level level_area (times (over (pos 1) 1) (over (pos 6) 1))
        (over (pos 0) 1) → ⊥ }
    ensures high_before { IsHighExtreme level level_area (times (over (pos 1) 1) (over (pos 6) 1)) (over
        (pos 0) 1) → ⊥ }
    ensures low_after { IsLowExtreme level level_area (times (over (pos 1) 1) (over (pos 6) 1))
        (over (pos 7) 1) → ⊥ }
    ensures negative { IsLowExtreme level level_area (times (over (minus 1) 1) (over (pos 6) 1)) (over
        (minus 1) 1) → ⊥ }
    ensures not_lowest_terms { IsLowExtreme level level_area (times (over (pos 1) 1) (over (pos 6) 1)) (over
        (pos 2) 2) → ⊥ }
    ensures no_denominator { IsLowExtreme level level_area (times (over (pos 1) 1) (over (pos 6) 1)) (over
        (pos 1) 0) → ⊥ }
{}

/// And 1 s is that time, and no other is.
pub fn the_first_of_equal_times_is_extreme()
    ensures low { IsLowExtreme level level_area (times (over (pos 1) 1) (over (pos 6) 1)) (over (pos 1) 1) }
    ensures high { IsHighExtreme level level_area (times (over (pos 1) 1) (over (pos 6) 1)) (over (pos 1) 1) }
    ensures low_alone { (f : Fraction) → IsLowExtreme level level_area (times (over (pos 1) 1) (over (pos 6) 1)) f
        → f ≡ over (pos 1) 1 }
    ensures high_alone { (f : Fraction) → IsHighExtreme level level_area (times (over (pos 1) 1) (over (pos 6) 1)) f
        → f ≡ over (pos 1) 1 }
{}
