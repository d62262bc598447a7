//! Seconds of two aircraft.
ghost use Rattle.std.specs.Prelude.{◌≡◌, pos};
ghost use Rattle.acas_replay.specs.Contact.{HasContact, IsContactAt, separation};
ghost use Rattle.acas_replay.specs.Seconds.{near_fractions};
ghost use Rattle.acas_flight_examples.specs.Numbers.{minus};
ghost use Rattle.acas_cell_examples.specs.Encounters.{changing, steady};

/// In half a second a relative rate of 5 ft/min that changes by 4 in a second is 6 in the mean, which is 6 ticks: from 100 to 106, which
/// is 424 over 4. In the whole second it is 7 in the mean, and 14 ticks.
pub fn separations_are_worked_out()
    ensures half { separation changing 2 1 ≡ pos 424 }
    ensures whole { separation changing 1 1 ≡ pos 114 }
{}

/// At 400 ft/s a range of 600 ft comes to the radius of 500 ft after a quarter of the second, and one of 900 ft at its end. A fraction
/// of 2 is not of the second. Half of the puck's height is 120 ticks.
pub fn contact_is_within_the_second()
    ensures quarter { IsContactAt 500 120 (steady (pos 600) (pos 400) (pos 120)) 4 1 }
    ensures eighth { IsContactAt 500 120 (steady (pos 600) (pos 400) (pos 120)) 8 1 → ⊥ }
    ensures end { IsContactAt 500 120 (steady (pos 900) (pos 400) (minus 120)) 1 1 }
    ensures past_the_end { IsContactAt 500 120 (steady (pos 900) (pos 400) (pos 120)) 1 2 → ⊥ }
    ensures too_far { IsContactAt 500 120 (steady (pos 901) (pos 400) (pos 120)) 1 1 → ⊥ }
    ensures start { IsContactAt 500 120 (steady (minus 500) (pos 400) (pos 120)) 1 0 }
    ensures gone { IsContactAt 500 120 (steady (minus 501) (pos 400) (pos 120)) 1 0 → ⊥ }
    ensures too_high { IsContactAt 500 120 (steady (pos 0) (pos 400) (pos 121)) 1 0 → ⊥ }
    ensures too_low { IsContactAt 500 120 (steady (pos 0) (pos 400) (minus 121)) 1 0 → ⊥ }
    ensures no_parts { IsContactAt 500 120 (steady (pos 0) (pos 400) (pos 120)) 0 0 → ⊥ }
    ensures some { HasContact 500 120 (steady (pos 900) (pos 400) (pos 120)) }
    ensures none { HasContact 500 120 (steady (pos 901) (pos 400) (pos 120)) → ⊥ }
{}

/// At 1000 ft/s a range of 100 ft is within 500 ft from the start to 600 of 1000 parts of the second, and one of 700 ft from 200 on.
pub fn fractions_are_near()
    ensures start { near_fractions 500 (steady (pos 100) (pos 1000) (pos 0))
        ≡ record { parts = pos 1000; first = pos 0; last = pos 600 } }
    ensures end { near_fractions 500 (steady (pos 700) (pos 1000) (pos 0))
        ≡ record { parts = pos 1000; first = pos 200; last = pos 1000 } }
{}
