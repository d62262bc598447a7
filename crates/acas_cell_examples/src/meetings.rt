//! Meetings with an intruder that may change its rate.
ghost use Rattle.std.specs.Prelude.{pos};
ghost use Rattle.acas_rulings.specs.Meeting.{IsEndangeredBy};
ghost use Rattle.acas_rulings.specs.Verdicts.{IsMeetVerdict, ShowsMeeting};
ghost use Rattle.acas_rulings.specs.declared.verdict.MeetVerdict.TheVariants.{Certified};
ghost use Rattle.acas_cell_examples.specs.Tabled.{stacked};
ghost use Rattle.acas_cell_examples.specs.Witnesses.{around, gentle, met};

/// In 2 s the own aircraft climbs 100 ticks, and the intruder, which starts 10 ticks below at 20 ft/min, climbs 90 and then 140: it is
/// 120 above, half the puck's height, and a range of 1000 ft at 250 ft/s is at the radius of 500 ft. At 249 ft/s, which is none of the box, no
/// meeting is shown, nor in a fraction that is not in lowest terms.
pub fn meetings_are_shown_or_not()
    ensures shown { ShowsMeeting stacked gentle around (met (pos 1000) 1 (pos 250)) }
    ensures slow { ShowsMeeting stacked gentle around (met (pos 1000) 1 (pos 249)) → ⊥ }
    ensures not_lowest_terms { ShowsMeeting stacked gentle around (met (pos 2000) 2 (pos 250)) → ⊥ }
{}

/// So the box is endangered by such an intruder, and not certified.
pub fn boxes_are_endangered_by_a_manoeuvre()
    ensures the_box { IsEndangeredBy stacked 1 gentle around.states }
    ensures not_certified { IsMeetVerdict stacked gentle around Certified → ⊥ }
{}
