//! What is printed of a course.
ghost use Rattle.std.specs.List.{All};
ghost use Rattle.acas_frac.specs.Fraction.{IsReduced, whole_of};
ghost use Rattle.acas_areas.specs.Limits.{IsFlownInTime, interval_of};
ghost use Rattle.acas_rulings.specs.Ranges.{IsContactOf, IsRangeOf, IsTimeOfBox};
ghost use Rattle.acas_rulings.specs.PrintedMeetings.{meeting_fractions};
ghost use Rattle.acas_witness_plans.specs.Plans.{CanBeFlown};
ghost use Rattle.acas_witness_response.specs.PrintedPlans.{AreSegmentsFor, PrintsPlan};
ghost use Rattle.acas_meeting_search.specs.Turns.{CanBeFlownWith};
ghost use Rattle.acas_intruder.specs.Courses.{PrintsTurn};

use acas_base::Model;
use acas_frac::Frac;
use acas_meeting_search::{Flown, Turn};
use acas_rulings::{AuditBox, Manoeuvre, Meeting, Segment};
use acas_witness::flight_of;
use acas_witness_response::{of_box, open_part, open_witness, segments_of};

// The intruder's segments, with its greatest acceleration.
fn against_of(turn: &Turn, may: &Manoeuvre) -> (Option<Segment>, Option<Segment>)
    requires { CanBeFlownWith may.now.accel turn.now }
    ensures { let t = turn.now in
        AreSegmentsFor t.intruder t.goal (whole_of may.now.accel) t.time result.0 result.1 }
{
    let accel = Frac::whole(may.accel);
    segments_of(&turn.intruder, &turn.goal, &accel, &turn.time)
}

// Opens each fraction of a meeting.
fn open_meeting(meeting: &Meeting)
    ensures { All IsReduced (meeting_fractions meeting.now) }
{
    open_witness(&meeting.witness);
    open_part(&meeting.intruder_first);
    open_part(&meeting.intruder_second);
}

/// The meeting of a box with a course, of which the time is one of horizontal contact of the box: the response of the plan, the
/// intruder's segments, and a range and a closing speed.
pub(crate) fn meeting_of(model: &Model, area: &AuditBox, may: &Manoeuvre, flown: &Flown) -> Meeting
    requires spans { IsFlownInTime model.now (interval_of area.now.range) (interval_of area.now.closing) }
    requires plan { CanBeFlown flown.now.plan }
    requires turn { CanBeFlownWith may.now.accel flown.now.turn }
    requires during { let time = flown.now.plan.time in
        IsTimeOfBox model.now.radius (interval_of area.now.range) (interval_of area.now.closing) time }
    ensures own { PrintsPlan flown.now.plan result.witness.flight }
    ensures against { PrintsTurn may.now.accel flown.now.turn result }
    ensures rule { let w = result.witness in
        IsRangeOf model.now area.now.range area.now.closing w.flight.time w.range w.speed }
    ensures contact { let w = result.witness in
        IsContactOf model.now area.now.range area.now.closing w.flight.time w.range w.speed }
    ensures reduced { All IsReduced (meeting_fractions result) }
{
    let flight = flight_of(&flown.plan);
    let (first, second) = against_of(&flown.turn, may);
    let meeting = Meeting {
        witness: of_box(model, area.range, area.closing, flight),
        intruder_first: first,
        intruder_second: second,
    };
    open_meeting(&meeting);
    meeting
}
