//! What boxes and what an intruder may do stand for. The function does nothing: each clause is a law.
ghost use Rattle.std.specs.Prelude.{◌≡◌, unsigned_abs};
ghost use Rattle.acas_areas.specs.Limits.{interval_of};
ghost use Rattle.acas_rulings.specs.Boxes.{audited};
ghost use Rattle.acas_rulings.specs.MeetingView.{may_of};
ghost use Rattle.acas_rulings.specs.declared.audit_box.AuditBox.{AuditBox};
ghost use Rattle.acas_rulings.specs.declared.manoeuvre.Manoeuvre.{Manoeuvre};

/// A box under an advisory stands for the number of its advisory, and for the states of its ranges, closing speeds, altitudes, own rates
/// and intruder rates; what an intruder may do for its greatest acceleration and its greatest rate.
pub fn boxes_stand_for_their_numbers()
    ensures advisory { (b : AuditBox) → (audited b).advisory ≡ b.advisory }
    ensures range { (b : AuditBox) → (audited b).states.range ≡ interval_of b.range }
    ensures closing { (b : AuditBox) → (audited b).states.closing ≡ interval_of b.closing }
    ensures altitude { (b : AuditBox) → (audited b).states.altitude ≡ interval_of b.area.h }
    ensures own { (b : AuditBox) → (audited b).states.own ≡ interval_of b.area.v0 }
    ensures intruder { (b : AuditBox) → (audited b).states.intruder ≡ interval_of b.area.v1 }
    ensures may { (may : Manoeuvre) → ((may_of may).accel ≡ unsigned_abs may.accel)
        × ((may_of may).rate ≡ unsigned_abs may.rate) }
{}
