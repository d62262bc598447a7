//! What holds of the passes of each hunt of a meeting, and of the course that it finds. The functions do nothing: each clause is a law.
ghost use Rattle.std.specs.Prelude.{◌≡◌, ℕ, ◌*◌, ◌≤◌, pos, ◌*ℤ◌, List, ◌++◌};
ghost use Rattle.std.specs.List.{All};
ghost use Rattle.acas_spec.specs.Model.{ModelData};
ghost use Rattle.acas_frac.specs.Fraction.{IsReduced};
ghost use Rattle.acas_flight.specs.Response.{Demand, Segment, demand_of};
ghost use Rattle.acas_flight.specs.Parts.{finer};
ghost use Rattle.acas_flight.specs.Window.{Times};
ghost use Rattle.acas_flight.specs.Clear.{Area, area_of_box};
ghost use Rattle.acas_areas.specs.Value.{thinnest};
ghost use Rattle.acas_areas.specs.Passes.{AreJoined, Each, IsGentle, IsLast, Pass};
ghost use Rattle.acas_areas.specs.Search.{IsTimed, own_pass, time_pass, unit};
ghost use Rattle.acas_areas.specs.Responses.{fine};
ghost use Rattle.acas_rulings.specs.Boxes.{AuditedBox};
ghost use Rattle.acas_rulings.specs.Ranges.{IsContactOfBox};
ghost use Rattle.acas_rulings.specs.Intruder.{Manoeuvre};
ghost use Rattle.acas_rulings.specs.Meeting.{IsEndangeredBy, IsEndangeredDuringBy, MeetsDuring};
ghost use Rattle.acas_rulings.specs.Race.{high_race, low_race, turned};
ghost use Rattle.acas_rulings.specs.Apart.{IsApart};
ghost use Rattle.acas_rulings.specs.Least.{IsFirstLeastTime};
ghost use Rattle.acas_rulings.specs.Hunt.{CanMeet, Course, Finds, Hunt, IsFlownBy, IsHunt, accel, bottom, high_course, low_course, passes, top, toward, value};
ghost use Rattle.acas_rulings.specs.PrintedMeetings.{PrintsCourse, course_fractions};
ghost use Rattle.acas_rulings.specs.Verdicts.{IsMeetingInContact, IsMeetingOf, ShowsMeeting, hunt_between};
ghost use Rattle.acas_rulings.specs.declared.meeting.Meeting.{Meeting};

/// One step of each pass raises the value of the course by less than the thinnest puck is thick.
pub fn hunts_are_gentle()
    ensures { (h : Hunt) → IsHunt h → Each (IsGentle (value (unit h.search) (accel h))) (passes h) }
{}

/// The first pass begins at the low course, the last point of each pass is the first of the next, and the last pass ends at the
/// high course.
pub fn hunts_are_joined()
    ensures first { (h : Hunt) → Pass.point (toward (top h) (time_pass h.search)) 0 ≡ low_course h }
    ensures next { (h : Hunt) → IsHunt h → AreJoined (passes h) }
    ensures last { (h : Hunt) (last : ℕ) → IsHunt h → IsLast (toward (bottom h) (own_pass h.search)) last →
        Pass.point (toward (bottom h) (own_pass h.search)) last ≡ high_course h }
{}

/// The course that a hunt finds, with its response and the intruder's flight, is a meeting: it starts in the area, the response
/// meets the demand, the intruder may fly its flight, both last the same time of the window, and they end in contact.
pub fn found_courses_are_meetings()
    ensures { (half : ℕ) (h : Hunt) (w : Times) (c : Course) (hold rest turn : List Segment) →
        thinnest ≤ 2 * half → IsHunt h → IsTimed h.search w → CanMeet half h → Finds half h c →
        IsFlownBy (unit h.search) (accel h) c hold rest turn →
        let q = fine (unit h.search) c.own * accel h in
        MeetsDuring half h.search.demand h.may h.search.area w q (c.own.altitude *ℤ pos q)
        (c.own.own *ℤ pos c.own.pull *ℤ pos (accel h)) (c.own.intruder *ℤ pos c.own.pull *ℤ pos (accel h))
        (finer (accel h) (hold ++ rest)) (finer c.own.pull turn) }
{}

/// A hunt finds one course: the rule leaves no choice.
pub fn found_courses_are_one()
    ensures { (half : ℕ) (h : Hunt) (c d : Course) → Finds half h c → Finds half h d → c ≡ d }
{}

/// A hunt that can meet finds a course, and each course has a response and a flight of the intruder.
pub fn hunts_find_a_course()
    ensures found { (half : ℕ) (h : Hunt) → IsHunt h → CanMeet half h → (c : Course) × Finds half h c }
    ensures flown { (q a : ℕ) (c : Course) →
        (hold : List Segment) × (rest : List Segment) × (turn : List Segment)
        × IsFlownBy q a c hold rest turn }
{}

/// An area that is not apart is endangered by a manoeuvre, and the hunt at the first times of the two least gaps can meet.
pub fn areas_that_are_not_apart_are_endangered()
    ensures can { (half : ℕ) (h : Hunt) (w : Times) → IsHunt h →
        IsFirstLeastTime (low_race h.search.demand h.may h.search.area) w h.search.low →
        IsFirstLeastTime (turned (high_race h.search.demand h.may h.search.area)) w h.search.high →
        ¬ IsApart half h.search.demand h.may h.search.area w → CanMeet half h }
    ensures danger { (half : ℕ) (h : Hunt) (w : Times) → IsHunt h →
        IsFirstLeastTime (low_race h.search.demand h.may h.search.area) w h.search.low →
        IsFirstLeastTime (turned (high_race h.search.demand h.may h.search.area)) w h.search.high →
        thinnest ≤ 2 * half → IsTimed h.search w →
        ¬ IsApart half h.search.demand h.may h.search.area w →
        IsEndangeredDuringBy half h.search.demand h.may h.search.area w }
{}

/// What is printed in lowest terms of the course that a hunt finds is in contact: over some denominator the printed response and the
/// intruder's printed segments are those of a meeting of the area in the window. So is the meeting that the rule fixes for an area that
/// is not apart.
pub fn printed_meetings_show_contact()
    ensures found { (half : ℕ) (h : Hunt) (w : Times) (c : Course) (meeting : Meeting) →
        thinnest ≤ 2 * half → IsHunt h → IsTimed h.search w → CanMeet half h → Finds half h c →
        PrintsCourse (unit h.search) (accel h) c meeting → All IsReduced (course_fractions meeting) →
        IsMeetingInContact half h.search.demand h.may h.search.area w meeting }
    ensures rule { (half : ℕ) (a : Demand) (may : Manoeuvre) (area : Area) (w : Times) (meeting : Meeting)
        (of : IsMeetingOf half a may area w meeting) →
        thinnest ≤ 2 * half → IsHunt (hunt_between a may area of.low of.high) →
        ¬ IsApart half a may area w → All IsReduced (course_fractions meeting) →
        IsMeetingInContact half a may area w meeting }
{}

/// A meeting of a box's area in contact, with a range and a speed in lowest terms that are of the box and in contact at its time, shows
/// the meeting of the box; and what shows a meeting endangers the box.
pub fn meetings_in_contact_are_shown()
    ensures shown { (m : ModelData) (may : Manoeuvre) (b : AuditedBox) (w : Times) (meeting : Meeting) →
        IsMeetingInContact m.half (demand_of m b.advisory) may (area_of_box b.states) w meeting →
        let seen = meeting.witness in
        IsContactOfBox m.radius b.states.range b.states.closing seen.flight.time seen.range seen.speed →
        IsReduced seen.range → IsReduced seen.speed → ShowsMeeting m may b meeting }
    ensures danger { (m : ModelData) (may : Manoeuvre) (b : AuditedBox) (meeting : Meeting) →
        ShowsMeeting m may b meeting → IsEndangeredBy m b.advisory may b.states }
{}
