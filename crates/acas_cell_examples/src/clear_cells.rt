//! Cells in which nothing is advised: what is reached from them within a second, whether an advisory that is given then keeps them safe,
//! and what is printed.
ghost use Rattle.std.specs.Prelude.{◌≡◌, pos, [], ◌∷◌, codes, true, false};
ghost use Rattle.acas_cells.specs.Cells.{cell_at};
ghost use Rattle.acas_flight_examples.specs.Numbers.{area, from_to, minus, segment};
ghost use Rattle.acas_safeable.specs.Outlooks.{candidates, is_looked_at};
ghost use Rattle.acas_safeable.specs.Reached.{IsWithinAltitudes, reached_area, reached_from};
ghost use Rattle.acas_safeable.specs.Safe.{EndsInContactLater, IsSafeBy, rate_left};
ghost use Rattle.acas_safeable.specs.SafeableText.{cell_line, cell_text, counts_of, counts_text, is_near, safeable_text};
ghost use Rattle.acas_safeable.specs.declared.outlook.Outlook.TheVariants.{Safeable, Unshown};
ghost use Rattle.acas_cell_examples.specs.ClearCells.{far_below, held_narrow, level_at, lower_alone, narrow, near_below};
ghost use Rattle.acas_cell_examples.specs.Tabled.{stacked, tabled};

/// From 60 ft/min the highest flight climbs 120 ticks and, at 960 ft/min per second, 960 more, and the lowest intruder descends 120: so
/// the intruder is 361,200 ticks below at the most, and, as the lowest flight from 0 descends 960 ticks, 239,040 at the least. The own
/// rates go from -960 to 1020. Under a clear of conflict of 1000 to 2000 ft/min a rate outside is left for it at 480 ft/min per second: from
/// 999, that climbs 2000 ticks but for a 480th, and from 2001 it climbs 4000 and a 480th. Altitudes are rounded outward. Where the rate may
/// be held the two climb 1998 and 4002. A rate of 1500 falls no further than to 1000, and one of 1800 rises no further than to 2000.
#[tactic(auto, unfolding(acas_flight::specs::Curves::approach))]
pub fn reached_areas_are_worked_out()
    ensures far { reached_area far_below 0 0 0
        ≡ area (from_to (minus 361_200) (minus 239_040)) (from_to (minus 960) (pos 1020)) (from_to (minus 60) (pos 0)) }
    ensures outside { reached_from narrow (from_to (pos 0) (pos 0)) (from_to (pos 999) (pos 2001)) (from_to (minus 30) (pos 40))
        ≡ area (from_to (minus 4061) (minus 1919)) (from_to (pos 999) (pos 2001)) (from_to (minus 30) (pos 40)) }
    ensures held { reached_from held_narrow (from_to (pos 0) (pos 0)) (from_to (pos 999) (pos 2001)) (from_to (pos 0) (pos 0))
        ≡ area (from_to (minus 4002) (minus 1998)) (from_to (pos 999) (pos 2001)) (from_to (pos 0) (pos 0)) }
    ensures inside { reached_from narrow (from_to (pos 0) (pos 0)) (from_to (pos 1500) (pos 1800)) (from_to (pos 0) (pos 0))
        ≡ area (from_to (minus 3959) (minus 2260)) (from_to (pos 1000) (pos 2000)) (from_to (pos 0) (pos 0)) }
    ensures within { IsWithinAltitudes (area (from_to (minus 1_200_000) (pos 1_200_000)) (from_to (pos 0) (pos 0)) (from_to (pos 0) (pos 0))) }
    ensures too_low { IsWithinAltitudes (area (from_to (minus 1_200_001) (pos 0)) (from_to (pos 0) (pos 0)) (from_to (pos 0) (pos 0))) → ⊥ }
    ensures too_high { IsWithinAltitudes (area (from_to (pos 0) (pos 1_200_001)) (from_to (pos 0) (pos 0)) (from_to (pos 0) (pos 0))) → ⊥ }
{}

/// At one altitude and 500 ft/s, a range of 1000 ft comes to the radius of 500 ft after a second of clear of conflict, before anything is
/// flown under climb, and one of 1500 ft after a second more, in which a pilot who starts to climb is still within 100 ft. So climb, given
/// a second later, keeps no cell safe there. A rate is left segment by segment.
pub fn cells_are_not_safe_by_each_advisory()
    ensures at_once { EndsInContactLater near_below 1 0 0 0 1 1 (level_at (pos 1000)) (segment 1 (pos 0) ∷ []) [] }
    ensures later { EndsInContactLater near_below 1 0 0 0 1 1 (level_at (pos 1500)) (segment 1 (pos 0) ∷ []) (segment 1 (pos 480) ∷ []) }
    ensures not_safe { IsSafeBy near_below 1 0 0 0 1 → ⊥ }
    ensures left { rate_left (pos 60) (segment 2 (pos 10) ∷ segment 3 (minus 5) ∷ []) ≡ pos 65 }
{}

/// What may be given is what may be chosen under clear of conflict, in that order and without clear. Of the cells in which nothing is
/// advised those of a second or more are looked at, and the one of 0 seconds is near.
pub fn clear_cells_are_printed()
    ensures candidates { candidates far_below ≡ 2 ∷ 1 ∷ [] }
    ensures looked_at { is_looked_at stacked tabled (cell_at 1 1 0 0 0) ≡ true }
    ensures advised { is_looked_at stacked tabled (cell_at 1 0 0 0 0) ≡ false }
    ensures no_second { is_looked_at stacked tabled (cell_at 0 1 0 0 0) ≡ false }
    ensures near { is_near stacked tabled (cell_at 0 1 0 0 0) ≡ true }
    ensures not_near { is_near stacked tabled (cell_at 1 1 0 0 0) ≡ false }
    ensures advised_is_not_near { is_near stacked tabled (cell_at 0 0 0 0 0) ≡ false }
    ensures named { cell_line far_below (cell_at 12 2 3 4 5) (Safeable 1) ≡ codes "cell 12 descend 3 4 5 safeable climb\n" }
    ensures open { cell_line far_below (cell_at 1 0 0 0 0) Unshown ≡ codes "cell 1 clear 0 0 0 open\n" }
    ensures line { cell_text stacked tabled lower_alone (cell_at 1 1 0 0 0) ≡ codes "cell 1 climb 0 0 0 safeable climb\n" }
    ensures no_line { cell_text stacked tabled lower_alone (cell_at 0 1 0 0 0) ≡ [] }
    ensures counts { counts_of stacked tabled lower_alone ≡ record { safeable = 1; unshown = 2; near = 1 } }
    ensures counts_line { counts_text (record { safeable = 12; unshown = 34; near = 56 })
        ≡ codes "safeable 12 open 34 near 56\n" }
    ensures text { safeable_text stacked tabled lower_alone
        ≡ codes "cell 1 clear 1 0 0 open\ncell 1 climb 0 0 0 safeable climb\ncell 1 climb 1 0 0 open\nsafeable 1 open 2 near 1\n" }
{}
