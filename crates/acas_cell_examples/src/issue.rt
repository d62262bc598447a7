//! The advice that the table issues.
ghost use Rattle.std.specs.Prelude.{◌≡◌, ℕ, pos};
ghost use Rattle.acas_replay.specs.Issue.{IsAdvisedIn, IsIssued, IsLayerOf, IsNearAfter, IsNearestVertex, IsNotAdvised, IsTabledFor};
ghost use Rattle.acas_flight_examples.specs.Numbers.{minus};
ghost use Rattle.acas_cell_examples.specs.Encounters.{at, point};
ghost use Rattle.acas_cell_examples.specs.Tabled.{stacked, tabled, vertex};

/// At 250 ft/s a range of 750 ft comes within the radius of 500 ft in 1 s, and a foot more takes 2 s. A range of 1000 ft takes 2 s,
/// which is the horizon, and a foot more takes 3 s. Within the radius it is layer 1 that advises, up to 500 ft behind.
pub fn layers_advise_or_not()
    ensures near { IsNearAfter stacked (at 0 (pos 750) (point (pos 0) (pos 0) (pos 0))) 1 }
    ensures not_near { IsNearAfter stacked (at 0 (pos 751) (point (pos 0) (pos 0) (pos 0))) 1 → ⊥ }
    ensures first { IsLayerOf stacked (at 0 (pos 750) (point (pos 0) (pos 0) (pos 0))) 1 }
    ensures not_second { IsLayerOf stacked (at 0 (pos 750) (point (pos 0) (pos 0) (pos 0))) 2 → ⊥ }
    ensures not_first { IsLayerOf stacked (at 0 (pos 751) (point (pos 0) (pos 0) (pos 0))) 1 → ⊥ }
    ensures second { IsLayerOf stacked (at 0 (pos 751) (point (pos 0) (pos 0) (pos 0))) 2 }
    ensures within { IsLayerOf stacked (at 0 (pos 0) (point (pos 0) (pos 0) (pos 0))) 1 }
    ensures none_is_zero { IsLayerOf stacked (at 0 (pos 0) (point (pos 0) (pos 0) (pos 0))) 0 → ⊥ }
    ensures at_horizon { IsAdvisedIn stacked (at 0 (pos 1000) (point (pos 0) (pos 0) (pos 0))) 2 }
    ensures not_unadvised { IsNotAdvised stacked (at 0 (pos 1000) (point (pos 0) (pos 0) (pos 0))) → ⊥ }
    ensures past_horizon { IsNotAdvised stacked (at 0 (pos 1001) (point (pos 0) (pos 0) (pos 0))) }
    ensures not_in_three { IsAdvisedIn stacked (at 0 (pos 1001) (point (pos 0) (pos 0) (pos 0))) 3 → ⊥ }
    ensures behind { IsAdvisedIn stacked (at 0 (minus 500) (point (pos 0) (pos 0) (pos 0))) 1 }
    ensures not_left { IsNotAdvised stacked (at 0 (minus 500) (point (pos 0) (pos 0) (pos 0))) → ⊥ }
    ensures left { IsNotAdvised stacked (at 0 (minus 501) (point (pos 0) (pos 0) (pos 0))) }
    ensures left_is_unadvised { IsAdvisedIn stacked (at 0 (minus 501) (point (pos 0) (pos 0) (pos 0))) 1 → ⊥ }
{}

/// At 59 ticks of 120 the lower vertex is nearest, and at 61 the upper one. At 60 both have the same share, and it is the lower one,
/// whose number is less. On the axis of a rate it is the same at 300 of 600 ft/min.
pub fn vertices_are_nearest_or_not()
    ensures below { IsNearestVertex stacked.grid (point (pos 59) (pos 600) (pos 600)) (vertex 0 1 1) }
    ensures not_above { IsNearestVertex stacked.grid (point (pos 59) (pos 600) (pos 600)) (vertex 1 1 1) → ⊥ }
    ensures middle { IsNearestVertex stacked.grid (point (pos 60) (pos 600) (pos 600)) (vertex 0 1 1) }
    ensures not_the_later { IsNearestVertex stacked.grid (point (pos 60) (pos 600) (pos 600))
        (vertex 1 1 1) → ⊥ }
    ensures above { IsNearestVertex stacked.grid (point (pos 61) (pos 600) (pos 600)) (vertex 1 1 1) }
    ensures not_below { IsNearestVertex stacked.grid (point (pos 61) (pos 600) (pos 600)) (vertex 0 1 1) → ⊥ }
    ensures middle_rates { IsNearestVertex stacked.grid (point (pos 240) (pos 300) (pos 300)) (vertex 2 0 0) }
    ensures past_middle { IsNearestVertex stacked.grid (point (pos 240) (pos 301) (pos 300)) (vertex 2 1 0) }
{}

/// At 750 ft layer 1 is asked, and at a foot more layer 2. At 60 ticks the advice is that of the lower vertex. A point above the grid is
/// at its highest altitude. What is tabled depends on the present advisory. At 1001 ft nothing advises, nor 501 ft behind.
pub fn advices_are_issued()
    ensures first_layer { IsIssued stacked tabled (at 0 (pos 750) (point (pos 0) (pos 600) (pos 600))) 1 }
    ensures second_layer { IsIssued stacked tabled (at 0 (pos 751) (point (pos 0) (pos 600) (pos 600))) 0 }
    ensures at_horizon { IsIssued stacked tabled (at 0 (pos 1000) (point (pos 0) (pos 0) (pos 0))) 1 }
    ensures past_horizon { IsIssued stacked tabled (at 0 (pos 1001) (point (pos 0) (pos 0) (pos 0))) 0 }
    ensures middle { IsIssued stacked tabled (at 0 (pos 750) (point (pos 60) (pos 600) (pos 600))) 1 }
    ensures past_middle { IsIssued stacked tabled (at 0 (pos 750) (point (pos 61) (pos 600) (pos 600))) 0 }
    ensures above_the_grid { IsIssued stacked tabled (at 0 (pos 750) (point (pos 999) (pos 0) (pos 0))) 1 }
    ensures under_climb { IsIssued stacked tabled (at 1 (pos 750) (point (pos 240) (pos 600) (pos 600))) 1 }
    ensures under_clear { IsIssued stacked tabled (at 0 (pos 750) (point (pos 240) (pos 600) (pos 600))) 0 }
    ensures behind { IsIssued stacked tabled (at 0 (minus 500) (point (pos 0) (pos 600) (pos 600))) 1 }
    ensures left { IsIssued stacked tabled (at 0 (minus 501) (point (pos 0) (pos 600) (pos 600))) 0 }
{}

/// No other advice is issued there: past the horizon no climb, in the middle and above the grid no clear of conflict.
pub fn issued_advices_are_one()
    ensures past_horizon { (advice : ℕ) →
        IsIssued stacked tabled (at 0 (pos 1001) (point (pos 0) (pos 0) (pos 0))) advice → advice ≡ 0 }
    ensures at_horizon { (advice : ℕ) →
        IsIssued stacked tabled (at 0 (pos 1000) (point (pos 0) (pos 0) (pos 0))) advice → advice ≡ 1 }
    ensures middle { (advice : ℕ) →
        IsIssued stacked tabled (at 0 (pos 750) (point (pos 60) (pos 600) (pos 600))) advice → advice ≡ 1 }
    ensures past_middle { (advice : ℕ) →
        IsIssued stacked tabled (at 0 (pos 750) (point (pos 61) (pos 600) (pos 600))) advice → advice ≡ 0 }
    ensures above_the_grid { (advice : ℕ) →
        IsIssued stacked tabled (at 0 (pos 750) (point (pos 999) (pos 0) (pos 0))) advice → advice ≡ 1 }
{}
