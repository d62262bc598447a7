//! Witnesses that show danger, and which rulings they are not.
ghost use Rattle.std.specs.Prelude.{pos};
ghost use Rattle.acas_frac.specs.Fraction.{Same};
ghost use Rattle.acas_flight.specs.Clear.{area_of_cell};
ghost use Rattle.acas_flight.specs.State.{IsInCell};
ghost use Rattle.acas_flight_examples.specs.Flown.{climbing, level, level_area};
ghost use Rattle.acas_flight_examples.specs.Numbers.{over, times};
ghost use Rattle.acas_rulings.specs.declared.flight.Flight.{Flight};
ghost use Rattle.acas_rulings.specs.Witness.{IsFlightInContact, IsWitnessOf};
ghost use Rattle.acas_rulings.specs.Rulings.{IsRulingOfCell, IsWitnessOfCell, ShowsDanger};
ghost use Rattle.acas_rulings.specs.declared.ruling.Ruling.TheVariants.{Certified, Reported};
ghost use Rattle.acas_cell_examples.specs.Tabled.{stacked, under_climb};
ghost use Rattle.acas_cell_examples.specs.Witnesses.{half_a_second, seen, seen_in_halves};

/// In a hold of 1 s at 0 ft/min and 1 s at 100 ft/min per second an aircraft climbs 100 ticks, which is where the intruder flies, and a
/// range of 1000 ft at 250 ft/s comes to the radius of 500 ft. At 500 ft/s one of 1500 ft does. At 249 ft/s, which is no closing speed of
/// the model, it is no danger that is shown, nor in a fraction that is not in lowest terms, nor after another time. At 250 ft/s a range of
/// 625 ft comes to the radius after half a second; 120 ticks, where the upper cell begins, are 240 over 2.
pub fn danger_is_shown_or_not()
    ensures shown { ShowsDanger stacked 1 (IsInCell stacked 1 0 0 0) (seen (pos 1000) 1 (pos 250) (pos 2)) }
    ensures faster { ShowsDanger stacked 1 (IsInCell stacked 1 0 0 0) (seen (pos 1500) 1 (pos 500) (pos 2)) }
    ensures over_two { ShowsDanger stacked 1 (IsInCell stacked 0 1 0 0) half_a_second }
    ensures slow { ShowsDanger stacked 1 (IsInCell stacked 1 0 0 0)
        (seen (pos 1000) 1 (pos 249) (pos 2)) → ⊥ }
    ensures behind { ShowsDanger stacked 1 (IsInCell stacked 1 0 0 0)
        (seen (pos 250) 1 (pos 500) (pos 2)) → ⊥ }
    ensures not_lowest_terms { ShowsDanger stacked 1 (IsInCell stacked 1 0 0 0) (seen (pos 2000) 2 (pos 250)
        (pos 2)) → ⊥ }
    ensures shorter { ShowsDanger stacked 1 (IsInCell stacked 1 0 0 0)
        (seen (pos 1000) 1 (pos 250) (pos 1)) → ⊥ }
{}

/// Over 2 the state has twice the numbers that are printed: 1501 and 501, 200 ticks for 100, and 1 for each rate. In 3 of 2 parts of a
/// second the aircraft climbs 26.5 ticks, and the intruder 1.5. An altitude of 240 ticks is above the cell, of which 120 are the end, and
/// so it is above the area of the cell.
pub fn danger_is_shown_over_two_or_not()
    ensures shown { ShowsDanger stacked 1 (IsInCell stacked 1 0 0 0) (seen_in_halves (pos 100)) }
    ensures too_high { ShowsDanger stacked 1 (IsInCell stacked 1 0 0 0) (seen_in_halves (pos 240)) → ⊥ }
    ensures flight { IsFlightInContact 120 climbing (area_of_cell stacked 0 0 0) (times (over (pos 1) 1) (over (pos 3) 1))
        (seen_in_halves (pos 100)).flight }
    ensures flight_too_high { IsFlightInContact 120 climbing (area_of_cell stacked 0 0 0) (times (over (pos 1) 1) (over (pos 3) 1))
        (seen_in_halves (pos 240)).flight → ⊥ }
    ensures flight_too_late { IsFlightInContact 120 climbing (area_of_cell stacked 0 0 0) (times (over (pos 2) 1) (over (pos 3) 1))
        (seen_in_halves (pos 100)).flight → ⊥ }
    ensures flight_not_lowest_terms { IsFlightInContact 120 climbing (area_of_cell stacked 0 0 0)
        (times (over (pos 1) 1) (over (pos 3) 1)) (record (seen_in_halves (pos 100)).flight { time = over (pos 6) 4 }) → ⊥ }
{}

/// Where both fly level at one altitude all gaps are the same, so that a witness of the window from 1 s to 6 s is one of 1 s: of the first
/// time at which the gap is least.
pub fn witnesses_are_of_the_first_time()
    ensures { (f : Flight) → IsWitnessOf 120 level level_area (times (over (pos 1) 1) (over (pos 6) 1)) f →
        Same f.time (over (pos 1) 1) }
{}

/// So the lower cell of 1 second is not certified under climb. The witness of the rule has the least closing speed: the danger at
/// 500 ft/s is shown, and is no ruling.
pub fn rulings_are_by_the_rule()
    ensures certified { IsRulingOfCell stacked (under_climb 1 0 0) Certified → ⊥ }
    ensures reported { IsRulingOfCell stacked (under_climb 1 0 0)
        (Reported (seen (pos 1500) 1 (pos 500) (pos 2))) → ⊥ }
    ensures by_rule { IsWitnessOfCell stacked (under_climb 1 0 0) (seen (pos 1500) 1 (pos 500) (pos 2)) → ⊥ }
{}
