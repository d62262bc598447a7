//! Values and advices of compiled tables.
ghost use Rattle.std.specs.Prelude.{pos, [], ◌∷◌};
ghost use Rattle.acas_examples.specs.Models.{at_edge, at_radius, calm, evading, four_advisories, gusty, noisy, past_edge, switching, tied};
ghost use Rattle.acas_examples.specs.Parts.{vertex};
ghost use Rattle.acas_examples.specs.Tables.{HasEntry, HasRows};

/// The values of the noisy model under clear at own rate 0: at the three sigma points and of the entry, above and below.
pub fn noisy_values_are_rounded_twice()
    ensures bottom_climbing { HasRows noisy 0 (vertex 0 0 1)
        (pos 666_667 ∷ pos 500_000 ∷ pos 833_334 ∷ pos 666_667 ∷ [])
        (pos 666_666 ∷ pos 500_000 ∷ pos 833_333 ∷ pos 666_666 ∷ []) }
    ensures top_climbing { HasRows noisy 0 (vertex 1 0 1)
        (pos 0 ∷ pos 0 ∷ pos 0 ∷ pos 0 ∷ []) (pos 0 ∷ pos 0 ∷ pos 0 ∷ pos 0 ∷ []) }
    ensures bottom_level { HasRows noisy 0 (vertex 0 0 0)
        (pos 1_000_000 ∷ pos 833_334 ∷ pos 1_000_000 ∷ pos 944_445 ∷ [])
        (pos 1_000_000 ∷ pos 833_333 ∷ pos 1_000_000 ∷ pos 944_444 ∷ []) }
    ensures top_level { HasRows noisy 0 (vertex 1 0 0)
        (pos 0 ∷ pos 0 ∷ pos 166_667 ∷ pos 55_556 ∷ []) (pos 0 ∷ pos 0 ∷ pos 166_666 ∷ pos 55_555 ∷ []) }
    ensures later { HasRows noisy 1 (vertex 0 0 1)
        (pos 444_445 ∷ pos 333_334 ∷ pos 796_297 ∷ pos 524_692 ∷ [])
        (pos 444_444 ∷ pos 333_333 ∷ pos 796_295 ∷ pos 524_690 ∷ []) }
{}

/// Of two advisories with the same value the first in the list is the advice. Without noise a point lands on a vertex, and upper
/// equals lower. Below the bottom a point is clamped. The cost of a second depends on the present advisory, and the next one begins
/// under the chosen advisory: 3 and then 5 are 8. A descent that leads 4 ft of 10 away from contact saves 2.8 at the cost of 1. The
/// mean of 2/3 and 7/10 by the weights 1 and 3 is 83/120. With four advisories, at -670 ft and the intruder climbing at 3000 ft/min,
/// a second leads 50 of 670 ft up to contact, so clear costs 5*50/670, and no other advisory is worth its cost. Nor is one where both
/// climb at 3000 ft/min at the same altitude, at the edge of the grid.
pub fn entries_are_worked_out()
    ensures tied { HasEntry tied 2 0 (vertex 0 0 1) (pos 524_692) (pos 524_690) 1 }
    ensures contact { HasEntry calm 1 0 (vertex 0 0 0) (pos 8_000_000) (pos 8_000_000) 0 }
    ensures no_contact { HasEntry calm 1 0 (vertex 0 0 1) (pos 1_000_000) (pos 1_000_000) 0 }
    ensures past_bottom { HasEntry noisy 1 0 (vertex 0 1 0) (pos 1_000_000) (pos 1_000_000) 0 }
    ensures switching_once { HasEntry switching 1 0 (vertex 0 0 1) (pos 3_000_000) (pos 3_000_000) 1 }
    ensures switching_twice { HasEntry switching 2 0 (vertex 0 0 1) (pos 8_000_000) (pos 8_000_000) 1 }
    ensures evading { HasEntry evading 1 0 (vertex 0 0 0) (pos 5_200_000) (pos 5_200_000) 1 }
    ensures weights { HasEntry gusty 1 0 (vertex 0 0 1) (pos 691_667) (pos 691_666) 0 }
    ensures four { HasEntry four_advisories 1 0 (vertex 1 0 1) (pos 373_135) (pos 373_134) 0 }
    ensures four_climbing { HasEntry four_advisories 1 0 (vertex 2 2 1) (pos 5_000_000) (pos 5_000_000) 0 }
{}

/// With no second to go there is no advice. Contact costs at the own altitude, still at half the puck's height, and no more a tick
/// past it. The puck's radius plays no part, nor does contact come from far below.
pub fn contact_ends_at_the_edge()
    ensures same_altitude { HasEntry noisy 0 0 (vertex 0 0 0) (pos 1_000_000) (pos 1_000_000) 255 }
    ensures at_edge { HasEntry at_edge 0 0 (vertex 1 0 0) (pos 7_000_000) (pos 7_000_000) 255 }
    ensures past_edge { HasEntry past_edge 0 0 (vertex 1 0 0) (pos 0) (pos 0) 255 }
    ensures at_radius { HasEntry at_radius 0 0 (vertex 1 0 0) (pos 0) (pos 0) 255 }
    ensures far_below { HasEntry four_advisories 0 0 (vertex 0 0 0) (pos 0) (pos 0) 255 }
{}
