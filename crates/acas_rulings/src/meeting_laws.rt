//! What the definitions of meetings say, in numbers and in words. The functions do nothing: each clause is a law.
ghost use Rattle.std.specs.Prelude.{◌≡◌, ℕ, ◌*◌, ℤ, pos, neg_ℤ, ◌+ℤ◌, ◌-ℤ◌, ◌*ℤ◌, List, [], ◌∷◌};
ghost use Rattle.acas_spec.specs.Model.{ModelData};
ghost use Rattle.acas_flight.specs.Curves.{approach, held};
ghost use Rattle.acas_areas.specs.Search.{aim_pass, altitude_pass, high_flight, hold_pass, intruder_pass, low_flight, own_pass, over_square, pull_pass, time_pass};
ghost use Rattle.acas_rulings.specs.Boxes.{AuditedBox};
ghost use Rattle.acas_rulings.specs.Intruder.{Manoeuvre};
ghost use Rattle.acas_rulings.specs.Hunt.{Course, Hunt, course, goal_pass, high_course, low_course, passes, toward, value};
ghost use Rattle.acas_rulings.specs.Verdicts.{IsMeetVerdict};
ghost use Rattle.acas_rulings.specs.declared.meeting.Meeting.{Meeting};
ghost use Rattle.acas_rulings.specs.declared.verdict.MeetVerdict.TheVariants.{Certified, Reported};

/// The value of a course is the own climb less the intruder's altitude and climb; the low course goes against an intruder that goes to its
/// greatest rate, and the high course against one that goes to its least.
pub fn courses_in_numbers()
    ensures value { (q a : ℕ) (c : Course) → (value q a c).num
        ≡ held c.own.own c.own.aim c.own.pull c.own.hold c.own.time *ℤ pos a
        -ℤ (c.own.altitude *ℤ pos (q * q * q * a) +ℤ approach c.own.intruder c.goal a c.own.time) *ℤ pos c.own.pull }
    ensures den { (q a : ℕ) (c : Course) → (value q a c).den ≡ q * q * q * c.own.pull * a }
    ensures low { (h : Hunt)
        → low_course h ≡ course (low_flight h.search) (over_square h.search (pos h.may.rate)) }
    ensures high { (h : Hunt) →
        high_course h ≡ course (high_flight h.search) (over_square h.search (neg_ℤ (pos h.may.rate))) }
{}

/// The passes of a hunt in their order: the intruder's goal moves behind the altitude and before its rate at the start. Until then it goes
/// to its greatest rate, and from then on to its least.
pub fn hunts_pass_in_order()
    ensures { (h : Hunt) → let up = over_square h.search (pos h.may.rate) in
        let down = over_square h.search (neg_ℤ (pos h.may.rate)) in
        passes h
        ≡ toward up (time_pass h.search) ∷ toward up (altitude_pass h.search) ∷ goal_pass h
        ∷ toward down (intruder_pass h.search) ∷ toward down (aim_pass h.search) ∷ toward down (pull_pass h.search)
        ∷ toward down (hold_pass h.search) ∷ toward down (own_pass h.search) ∷ [] }
{}

/// No box is certified and reported.
pub fn verdicts_exclude_each_other()
    ensures { (m : ModelData) (may : Manoeuvre) (b : AuditedBox) (meeting : Meeting) →
        IsMeetVerdict m may b Certified → IsMeetVerdict m may b (Reported meeting) → ⊥ }
{}
