//! Whether the intruder's rates of boxes are within what it may do.
ghost use Rattle.std.specs.Prelude.{◌≡◌, ◌↔◌, ℕ, Ok, Err, IfOk};
ghost use Rattle.acas_rulings.specs.MeetingView.{may_of};
ghost use Rattle.acas_areas.specs.Limits.{interval_of};
ghost use Rattle.acas_rulings.specs.Boxes.{AreBoxesOf};
ghost use Rattle.acas_doc.specs.InputAnswers.{Gives};
ghost use Rattle.acas_doc.specs.declared.input_fault.InputFault.TheVariants.{Rate};
ghost use Rattle.acas_boxes.specs.Rates.{AllRatesFit, IsFirstUnfit};
ghost use Rattle.acas_boxes.specs.Rates as rules;

use crate::whole::read_boxes;
use acas_base::Model;
use acas_doc::InputFault;
use acas_rulings::{Boxes, Manoeuvre};
use acas_units::Span;
use std::alloc::Global;

/// That the intruder's rates of each box are within what it may do, from its greatest rate downward to its greatest rate upward, or the
/// first box whose are not. This is looked at after all other rules of a text of boxes. It takes no memory.
pub fn rates_fit(boxes: &Boxes, may: &Manoeuvre) -> Result<(), InputFault>
    ensures value { result ≡ rules.rates_in (may_of may.now) boxes.now }
    ensures ok { (result ≡ Ok tt) ↔ AllRatesFit (may_of may.now) boxes.now }
    ensures first { (place : ℕ)
        → (result ≡ Err (Rate place)) ↔ IsFirstUnfit (may_of may.now) boxes.now place }
{
    for place in 0..boxes.len() {
        if !are_within(may, &boxes.at(place).area.v1) {
            return Err(InputFault::Rate { place });
        }
    }
    Ok(())
}

/// The boxes that a text says, as [`read_boxes`] reads them, whose intruder's rates are within what it may do, or the first rule that
/// the text fails: the rates are the last.
#[tactic(auto, unfolding(crate::specs::Rates::fitting_boxes_of))]
pub fn read_fitting_boxes(
    alloc: Global,
    model: &Model,
    may: &Manoeuvre,
    bytes: &[u8],
) -> Result<Boxes, InputFault>
    ensures value { Gives (λ b. b) result (rules.fitting_boxes_of model.now (may_of may.now) bytes.now) }
    ensures fits { IfOk result (AreBoxesOf model.now) }
    ensures rates { IfOk result (AllRatesFit (may_of may.now)) }
{
    let boxes = read_boxes(alloc, model, bytes)?;
    rates_fit(&boxes, may)?;
    Ok(boxes)
}

// Whether rates are within what an intruder may do.
fn are_within(may: &Manoeuvre, rates: &Span) -> bool
    ensures { result ≡ rules.are_within (may_of may.now) (interval_of rates.now) }
{
    let greatest = may.rate.unsigned_abs();
    rates.least.unsigned_abs() <= greatest && rates.greatest.unsigned_abs() <= greatest
}
