//! What a verdict says.
ghost use Rattle.std.specs.Prelude.{ℕ, List};
ghost use Rattle.acas_spec.specs.Model.{ModelData};
ghost use Rattle.acas_flight.specs.Contact.{IsEndangeredBox, IsEndangeredCell};
ghost use Rattle.acas_rulings.specs.Boxes.{AuditedBox, box_at};
ghost use Rattle.acas_cells.specs.declared.name.CellName.{CellName};
ghost use Rattle.acas_rulings.specs.declared.ruling.Ruling.TheVariants.{Certified, Reported};
ghost use Rattle.acas_rulings.specs.declared.flight.Witness.{Witness};
ghost use Rattle.acas_rulings.specs.Intruder.{Manoeuvre};
ghost use Rattle.acas_rulings.specs.Meeting.{IsEndangeredBy};
ghost use Rattle.acas_rulings.specs.declared.meeting.Meeting.{Meeting};
ghost use Rattle.acas_rulings.specs.declared.verdict.MeetVerdict.TheVariants as meet;
ghost use Rattle.acas_report.specs.Verdicts.{IsVerdictOnBox, IsVerdictOnCell};
ghost use Rattle.acas_box_commands.specs.ManoeuvreWorth as meetings;

/// A cell that is certified is not endangered, and one that is reported is. So is a box, and one against an intruder that may change its
/// rate.
pub fn verdicts_tell_danger()
    ensures certified_cell { (m : ModelData) (name : CellName) → IsVerdictOnCell m name Certified
        → ¬ IsEndangeredCell m name.n name.i name.j name.k name.advice }
    ensures reported_cell { (m : ModelData) (name : CellName) (w : Witness) →
        IsVerdictOnCell m name (Reported w)
        → IsEndangeredCell m name.n name.i name.j name.k name.advice }
    ensures certified_box { (m : ModelData) (boxes : List AuditedBox) (place : ℕ) →
        IsVerdictOnBox m boxes place Certified
        → ¬ IsEndangeredBox m (box_at boxes place).states (box_at boxes place).advisory }
    ensures reported_box { (m : ModelData) (boxes : List AuditedBox) (place : ℕ) (w : Witness)
        → IsVerdictOnBox m boxes place (Reported w)
        → IsEndangeredBox m (box_at boxes place).states (box_at boxes place).advisory }
    ensures certified_meeting { (m : ModelData) (may : Manoeuvre) (boxes : List AuditedBox) (place : ℕ) →
        meetings.IsVerdictOnBox m may boxes place meet.Certified
        → ¬ IsEndangeredBy m (box_at boxes place).advisory may (box_at boxes place).states }
    ensures reported_meeting { (m : ModelData) (may : Manoeuvre) (boxes : List AuditedBox) (place : ℕ)
        (w : Meeting) →
        meetings.IsVerdictOnBox m may boxes place (meet.Reported w)
        → IsEndangeredBy m (box_at boxes place).advisory may (box_at boxes place).states }
{}
