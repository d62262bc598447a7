//! Where a second of flight leads.
ghost use Rattle.std.specs.Prelude.{◌≡◌, pos, [], ◌∷◌};
ghost use Rattle.acas_process.specs.Step.{moved};
ghost use Rattle.acas_examples.specs.Models.{four_advisories, gusty, noisy, small_climb};
ghost use Rattle.acas_examples.specs.Parts.{point, vertex};
ghost use Rattle.acas_examples.specs.Tables.{shares};

/// At 0 ft with the intruder climbing at 600 ft/min, a second leads 10 ft up, a third of the way to the top at 30 ft: the vertex
/// below has two thirds of the share, the vertex above one third. From the top the point is clamped.
pub fn a_second_leads_a_third_up()
    ensures moved { moved noisy (vertex 0 0 1) 0 0 ≡ point (pos 1200) (pos 0) (pos 600) }
    ensures shares { shares noisy (point (pos 1200) (pos 0) (pos 600))
        ≡ 0 ∷ 864_000_000 ∷ 0 ∷ 0 ∷ 0 ∷ 432_000_000 ∷ 0 ∷ 0 ∷ [] }
    ensures clamped { moved noisy (vertex 1 0 1) 0 0 ≡ point (pos 3600) (pos 0) (pos 600) }
{}

/// A pilot at 600 ft/min whose advisory asks for at most 500 goes down by 100, and one whose advisory asks for at least 900 goes up
/// by 300, which the grid cuts to its highest rate. One at 0 whose advisory asks for at least 1500 goes up by the pull of 480, and
/// one at 1500 whose advisory asks for at most -1500 goes down by it. Noise moves both rates and the altitude.
pub fn commands_are_worked_out()
    ensures down_by_less { moved noisy (vertex 0 1 1) 1 0 ≡ point (pos 100) (pos 500) (pos 600) }
    ensures up_by_less { moved small_climb (vertex 1 1 1) 1 0 ≡ point (pos 3300) (pos 600) (pos 600) }
    ensures up { moved four_advisories (vertex 2 0 1) 1 0 ≡ point (pos 5520) (pos 480) (pos 3000) }
    ensures down { moved four_advisories (vertex 2 1 1) 2 0 ≡ point (pos 3480) (pos 1020) (pos 3000) }
    ensures noise { moved gusty (vertex 0 0 1) 0 1 ≡ point (pos 1080) (pos 60) (pos 540) }
{}
