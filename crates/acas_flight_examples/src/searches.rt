//! A search over an area of the small model, from 1/2 s to 7/3 s, under the advisory climb.
ghost use Rattle.std.specs.Prelude.{◌≡◌, pos, neg_ℤ, ◌*◌, [], ◌∷◌};
ghost use Rattle.acas_flight.specs.Values.{IsOver};
ghost use Rattle.acas_areas.specs.Flights.{Flight, flight};
ghost use Rattle.acas_areas.specs.Responses.{IsApproachFor, IsFlightFrom, IsHoldFor, IsResponse, IsToward, acceleration, fine, scale};
ghost use Rattle.acas_areas.specs.Search.{IsFound, grain, high_flight, high_time, low_flight, low_time, over_square, own_pass, pull_step, rate_step, time_step, unit};
ghost use Rattle.acas_flight_examples.specs.Flown.{climbing, near_area};
ghost use Rattle.acas_flight_examples.specs.Numbers.{minus, over, segment, times};
ghost use Rattle.acas_flight_examples.specs.Searched.{after_a_hold, eighth, level_search, past_hi, searched, seconds, square, steps, ways};

/// The denominators 2 and 3 make the grain 6, and over 2048 times that, 12,288, the two times are 6144 and 28,672. A 256th of a second
/// is 48 then, and a 2048th of a ft/min per second is 6. An eighth of a ft/min is 12,288 * 12,288 / 8, that is 18,874,368. Pulls of 100
/// and 200 are 1,228,800 and 2,457,600, and the hold of 2 s is 24,576. The low flight is that of the least own rate against the
/// highest intruder, and the high flight the other way round.
pub fn searches_are_worked_out()
    ensures grain { grain searched ≡ 6 }
    ensures unit { unit searched ≡ 12_288 }
    ensures low_time { low_time searched ≡ 6144 }
    ensures high_time { high_time searched ≡ 28_672 }
    ensures rate { over_square searched (minus 8) ≡ minus 1_207_959_552 }
    ensures time_step { time_step searched ≡ 48 }
    ensures pull_step { pull_step searched ≡ 6 }
    ensures rate_step { rate_step searched ≡ 18_874_368 }
    ensures low { low_flight searched
        ≡ flight 6144 (pos 1200) (pos (500 * square)) (pos (100 * square)) (pos (1000 * square)) 1_228_800 24_576 }
    ensures high { high_flight searched
        ≡ flight 28_672 (pos 10) (pos (600 * square)) (pos (20 * square)) (pos (2000 * square)) 2_457_600 0 }
{}

/// The passes go over the time, the altitude, the intruder's rate, the aim, the pull, the hold and the own rate: 22,528 of 12,288 parts
/// of a second, 1190 ticks, 80 ft/min, 1000 ft/min, 1,228,800 of the pull, 24,576 of the hold and 100 ft/min. A step is a 256th of a
/// second for time and hold, one tick, an eighth of a ft/min for each rate, and a 2048th of a ft/min per second for the pull. Each pass
/// begins where the one before it ends, so that its second flight is a step further.
pub fn passes_of_a_search_are_worked_out()
    ensures ways { ways searched
        ≡ 22_528 ∷ 1190 ∷ 80 * square ∷ 1000 * square ∷ 1_228_800 ∷ 24_576 ∷ 100 * square ∷ [] }
    ensures steps { steps searched ≡ 48 ∷ 1 ∷ 18_874_368 ∷ 18_874_368 ∷ 6 ∷ 48 ∷ 18_874_368 ∷ [] }
    ensures seconds { let own = pos (500 * square) in let highest = pos (100 * square) in let lowest = pos
        (20 * square) in
        let lo = pos (1000 * square) in let hi = pos (2000 * square) in
        seconds searched
        ≡ flight 6192 (pos 1200) own highest lo 1_228_800 24_576
        ∷ flight 28_672 (pos 1199) own highest lo 1_228_800 24_576
        ∷ flight 28_672 (pos 10) own (pos (799 * eighth)) lo 1_228_800 24_576
        ∷ flight 28_672 (pos 10) own lowest (pos (8001 * eighth)) 1_228_800 24_576
        ∷ flight 28_672 (pos 10) own lowest hi 1_228_806 24_576
        ∷ flight 28_672 (pos 10) own lowest hi 2_457_600 24_528
        ∷ flight 28_672 (pos 10) (pos (4001 * eighth)) lowest hi 2_457_600 0
        ∷ [] }
{}

/// Where own rates go on to 2500 ft/min, past the 2000 that climb asks, the high flight goes down by the pull after the whole hold. Each
/// flight of the pass over the own rate is the high flight from its own rate: an eighth of a ft/min above 500 it goes up by the limit at
/// once. The last is 16,000 eighths farther.
pub fn own_rates_have_their_own_pull()
    ensures high { high_flight past_hi
        ≡ flight 28_672 (pos 10) (pos (2500 * square)) (pos (20 * square)) (pos (2000 * square)) 1_228_800 24_576 }
    ensures second { (own_pass past_hi).point 1
        ≡ flight 28_672 (pos 10) (pos (4001 * eighth)) (pos (20 * square)) (pos (2000 * square)) 2_457_600 0 }
    ensures last { (own_pass past_hi).point 16_000 ≡ high_flight past_hi }
{}

/// Where both fly level at one altitude, the low flight, of 1 s, and the high flight, of 2 s, are in contact at once. The low one is
/// tried first: it is found, and no other.
#[tactic(auto, unfolding(acas_flight::specs::Curves::approach))]
pub fn the_low_flight_is_tried_first()
    ensures found { IsFound 120 level_search (low_flight level_search) }
    ensures alone { (c : Flight) → IsFound 120 level_search c → c ≡ low_flight level_search }
    ensures not_high { IsFound 120 level_search (high_flight level_search) → ⊥ }
{}

/// Over 3 a flight from the area lasts at most 21 for 7 s, starts at 10 to 1200 ticks, at own rates of 4500 to 5400 and intruder rates
/// of 180 to 900, goes to an aim from 9000 to 18,000 with a pull from 300 to 600, and holds for at most 6.
pub fn flights_are_from_an_area_or_not()
    ensures greatest { IsFlightFrom climbing near_area (times (over (pos 1) 1) (over (pos 7) 1)) 3 (flight 21
        (pos 1200) (pos 5400) (pos 900) (pos 18_000) 600 6) }
    ensures least { IsFlightFrom climbing near_area (times (over (pos 1) 1) (over (pos 7) 1)) 3
        (flight 3 (pos 10)
        (pos 4500) (pos 180) (pos 9000) 300 0) }
    ensures early { IsFlightFrom climbing near_area (times (over (pos 1) 1) (over (pos 7) 1)) 3
        (flight 2 (pos 10)
        (pos 4500) (pos 180) (pos 9000) 300 0) → ⊥ }
    ensures late { IsFlightFrom climbing near_area (times (over (pos 1) 1) (over (pos 7) 1)) 3
        (flight 22 (pos 10)
        (pos 4500) (pos 180) (pos 9000) 300 0) → ⊥ }
    ensures low { IsFlightFrom climbing near_area (times (over (pos 1) 1) (over (pos 7) 1)) 3
        (flight 21 (pos 9)
        (pos 4500) (pos 180) (pos 9000) 300 0) → ⊥ }
    ensures high { IsFlightFrom climbing near_area (times (over (pos 1) 1) (over (pos 7) 1)) 3 (flight 21
        (pos 1201) (pos 4500) (pos 180) (pos 9000) 300 0) → ⊥ }
    ensures own { IsFlightFrom climbing near_area (times (over (pos 1) 1) (over (pos 7) 1)) 3 (flight 21
        (pos 1200) (pos 5401) (pos 180) (pos 9000) 300 0) → ⊥ }
    ensures intruder { IsFlightFrom climbing near_area (times (over (pos 1) 1) (over (pos 7) 1)) 3 (flight 21
        (pos 1200) (pos 5400) (pos 901) (pos 9000) 300 0) → ⊥ }
    ensures aim_below { IsFlightFrom climbing near_area (times (over (pos 1) 1) (over (pos 7) 1)) 3 (flight 21
        (pos 1200) (pos 5400) (pos 900) (pos 8999) 300 0) → ⊥ }
    ensures aim_above { IsFlightFrom climbing near_area (times (over (pos 1) 1) (over (pos 7) 1)) 3 (flight 21
        (pos 1200) (pos 5400) (pos 900) (pos 18_001) 300 0) → ⊥ }
    ensures small_pull { IsFlightFrom climbing near_area (times (over (pos 1) 1) (over (pos 7) 1)) 3
        (flight 21
        (pos 1200) (pos 5400) (pos 900) (pos 9000) 299 0) → ⊥ }
    ensures large_pull { IsFlightFrom climbing near_area (times (over (pos 1) 1) (over (pos 7) 1)) 3
        (flight 21
        (pos 1200) (pos 5400) (pos 900) (pos 9000) 601 0) → ⊥ }
    ensures long_hold { IsFlightFrom climbing near_area (times (over (pos 1) 1) (over (pos 7) 1)) 3 (flight 21
        (pos 1200) (pos 5400) (pos 900) (pos 9000) 300 7) → ⊥ }
{}

/// A response is over the square of q times the pull: over 100 here, where the way of 500 ft/min to the aim takes 500 and a pull of
/// 100 is 10,000. In 7 s the hold of 2 s is 200, and the 5 s to the aim are 500; in 9 s there are 200 at the aim. In 1 s there is a
/// hold of 100 alone.
pub fn responses_are_worked_out()
    ensures scale { scale 3 (after_a_hold 7) ≡ 300 }
    ensures fine { fine 3 (after_a_hold 7) ≡ 900 }
    ensures up { acceleration 1 (after_a_hold 7) ≡ pos 10_000 }
    ensures down { acceleration 1 (flight 7 (pos 0) (pos 1000) (pos 0) (pos 999) 100 0) ≡ minus 10_000 }
    ensures to_the_aim { IsResponse 1 (after_a_hold 7) (segment 200 (pos 0) ∷ [])
        (segment 500 (pos 10_000) ∷ []) }
    ensures at_the_aim { IsResponse 1 (after_a_hold 9) (segment 200 (pos 0) ∷ []) (segment 500
        (pos 10_000) ∷ segment 200 (pos 0) ∷ []) }
    ensures hold_alone { IsResponse 1 (after_a_hold 1) (segment 100 (pos 0) ∷ []) [] }
    ensures no_hold { IsResponse 1 (after_a_hold 7) [] (segment 500 (pos 10_000) ∷ []) → ⊥ }
    ensures toward_up { IsToward (pos 500) (pos 1000) 100 5 (pos 100) }
    ensures toward_down { IsToward (pos 1000) (pos 500) 100 5 (minus 100) }
    ensures not_toward { IsToward (pos 500) (pos 1000) 100 5 (minus 100) → ⊥ }
{}
