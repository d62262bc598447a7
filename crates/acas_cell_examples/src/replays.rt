//! The states, counts and lines of a replay.
ghost use Rattle.std.specs.Prelude.{◌≡◌, pos, codes, true, false};
ghost use Rattle.acas_replay.specs.declared.second.Second.{Second};
ghost use Rattle.acas_replay.specs.Audited.{IsAudited, IsOfCells, flight_state, own_climb};
ghost use Rattle.acas_replay.specs.Replay.{IsCourse, contacts, counts_line, line_of, replay_text, second_at, second_line, state_at};
ghost use Rattle.acas_replay.specs.States.{second_from, start_of, state_after};
ghost use Rattle.acas_flight_examples.specs.Numbers.{minus, state};
ghost use Rattle.acas_cell_examples.specs.Encounters.{apart_under, at, course, encounter, far_away, point};
ghost use Rattle.acas_cell_examples.specs.Tabled.{stacked, tabled};

/// The encounter starts under climb. In its first second the range of 1000 ft closes by 250; the intruder, 2 ft/min faster, gains 4
/// ticks, and by the changes of 20 and 10 another 10, from 60 to 74. The rates are 15 and 27 then, so that in the second second it
/// gains 24. Clear of conflict and then climb are issued.
pub fn states_follow_one_another()
    ensures start { start_of encounter ≡ at 1 (pos 1000) (point (pos 60) (pos 5) (pos 7)) }
    ensures second { second_from (at 1 (pos 1000) (point (pos 60) (pos 5) (pos 7))) (pos 10) (pos 20)
        ≡ record { range = pos 1000; closing = pos 250; altitude = pos 60; rate = pos 2; change = pos 10 } }
    ensures after { state_after (at 1 (pos 1000) (point (pos 60) (pos 5) (pos 7))) 0 (pos 10) (pos 20)
        ≡ at 0 (pos 750) (point (pos 74) (pos 15) (pos 27)) }
    ensures first { state_at encounter course 0 ≡ at 1 (pos 1000) (point (pos 60) (pos 5) (pos 7)) }
    ensures next { state_at encounter course 1 ≡ at 0 (pos 750) (point (pos 74) (pos 15) (pos 27)) }
    ensures last { state_at encounter course 2 ≡ at 1 (pos 500) (point (pos 98) (pos 15) (pos 27)) }
    ensures second_second { second_at encounter course 1
        ≡ record { range = pos 750; closing = pos 250; altitude = pos 74; rate = pos 12; change = pos 0 } }
{}

/// Of the first seconds, of which the second alone is in contact, none, then none, and then one and one more are.
pub fn contacts_are_counted()
    ensures none { contacts course 0 ≡ 0 }
    ensures not_the_first { contacts course 1 ≡ 0 }
    ensures the_second { contacts course 2 ≡ 1 }
    ensures no_more { contacts course 3 ≡ 1 }
{}

/// Far away nothing advises, so that a course with climb in its only second, which is its last, is none.
pub fn last_seconds_are_issued()
    ensures { IsCourse stacked tabled far_away (apart_under 1) → ⊥ }
{}

/// A line has each number once, in its place.
pub fn lines_are_worked_out()
    ensures apart { line_of stacked 3 (at 0 (minus 700) (point (pos 60) (minus 5) (pos 7))) 1 false
        ≡ codes "3 climb range -700 ticks 60 own -5 intruder 7 apart\n" }
    ensures contact { line_of stacked 12 (at 1 (pos 0) (point (minus 60) (pos 5) (minus 7))) 0 true
        ≡ codes "12 clear range 0 ticks -60 own 5 intruder -7 contact\n" }
    ensures counts { counts_line 12 3 ≡ codes "seconds 12 contact 3\n" }
    ensures line { second_line stacked encounter course 1
        ≡ codes "1 climb range 750 ticks 74 own 15 intruder 27 contact\n" }
    ensures text { replay_text stacked encounter course
        ≡ codes "0 clear range 1000 ticks 60 own 5 intruder 7 apart\n1 climb range 750 ticks 74 own 15 intruder 27 contact\nseconds 2 contact 1\n" }
{}

/// Over 2 a state's numbers are twice as large. In half a second with 10 ft/min per second from 5 ft/min the mean is 7.5, which climbs
/// 7.5 ticks; over 8 they are 60. A state may be in a cell from range 0 on, at a closing speed of the model, and inside the grid. One
/// in the lower cell of 0 seconds is audited under climb, and none is that is outside the grid.
pub fn states_are_audited_or_not()
    ensures over_two { flight_state 2 (at 0 (pos 750) (point (pos 60) (pos 5) (pos 7)))
        ≡ state (pos 1500) (pos 500) (pos 120) (pos 10) (pos 14) }
    ensures climb { own_climb (at 0 (pos 750) (point (pos 60) (pos 5) (pos 7))) (pos 10) 2 1 ≡ pos 60 }
    ensures at_range_0 { IsOfCells stacked (at 0 (pos 0) (point (pos 240) (pos 600) (pos 600))) }
    ensures behind { IsOfCells stacked (at 0 (minus 1) (point (pos 240) (pos 600) (pos 600))) → ⊥ }
    ensures slow { IsOfCells stacked (record (at 0 (pos 0) (point (pos 240) (pos 600)
        (pos 600))) { closing = pos 249 }) → ⊥ }
    ensures outside { IsOfCells stacked (at 0 (pos 0) (point (pos 241) (pos 600) (pos 600))) → ⊥ }
    ensures audited { IsAudited stacked tabled (at 0 (pos 750) (point (pos 120) (pos 600) (pos 600))) 1 }
    ensures outside_cells { IsAudited stacked tabled
        (at 0 (pos 750) (point (pos 241) (pos 600) (pos 600))) 1 → ⊥ }
    ensures not_clear { IsAudited stacked tabled
        (at 0 (pos 750) (point (pos 120) (pos 600) (pos 600))) 0 → ⊥ }
{}
