//! Verdicts on boxes against an intruder that may change its rate.
ghost use Rattle.acas_rulings.specs.Intruder.{RatesFit};
ghost use Rattle.acas_rulings.specs.MeetingView.{may_of};
ghost use Rattle.acas_rulings.specs.Boxes.{IsBoxOf, audited};
ghost use Rattle.acas_rulings.specs.Verdicts.{IsMeetVerdict};

use crate::courses::course_in;
use crate::prints::meeting_of;
use acas_base::Model;
use acas_race::{Conflict, is_apart};
use acas_region::window_of_box;
use acas_rulings::{AuditBox, Manoeuvre, MeetVerdict};

/// Whether a box is certified under its advisory or reported, against an intruder that may change its rate. The advisory is one of the
/// model's, the greatest range and the radius are flown within the seconds of a window at the least closing speed, and the intruder
/// may have each of the box's rates.
pub fn meet_verdict(model: &Model, area: &AuditBox, may: &Manoeuvre) -> MeetVerdict
    requires area { IsBoxOf model.now (audited area.now) }
    requires rates { RatesFit (may_of may.now) (audited area.now).states.intruder }
    ensures { IsMeetVerdict model.now (may_of may.now) (audited area.now) result }
{
    // Opens the model's limits: what an advisory of it asks can be met.
    let _ = model.grid();
    let window = window_of_box(model, area.range, area.closing);
    let conflict = Conflict {
        model,
        may,
        area: &area.area,
        window: &window,
        advisory: area.advisory,
    };
    if is_apart(&conflict) {
        return MeetVerdict::Certified;
    }
    let flown = course_in(&conflict);
    MeetVerdict::Reported(meeting_of(model, area, may, &flown))
}
