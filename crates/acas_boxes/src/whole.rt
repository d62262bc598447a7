//! The rules of a text of boxes, in their order.
ghost use Rattle.std.specs.Prelude.{◌≡◌, ◌≤◌, length, map, IfErr, IfOk};
ghost use Rattle.std.specs.List.{AllByRecursion};
ghost use Rattle.toml.specs.View.{table_view};
ghost use Rattle.acas_model.specs.View.{data_of};
ghost use Rattle.acas_rulings.specs.Boxes.{AreBoxesOf, IsBoxOf, audited};
ghost use Rattle.acas_doc.specs.InputAnswers.{Gives};
ghost use Rattle.acas_boxes.specs.Whole as rules;

use crate::one_box::box_item;
use acas_base::Model;
use acas_doc::{InputFault, document_of, list, only_keys, version_of};
use acas_rulings::{AuditBox, Boxes};
use acas_units::{GREATEST_BOXES, LEAST_BOXES};
use std::alloc::Global;
use toml::{Table, Value};

/// The boxes of a list.
fn box_items(alloc: Global, model: &Model, items: &[Value]) -> Result<Vec<AuditBox>, InputFault>
    requires { length items.now ≤ GREATEST_BOXES }
    ensures value { Gives (λ v. map audited v.items) result (rules.box_items model.now (data_of items.now)) }
    ensures fits { IfOk result (λ v. AllByRecursion (IsBoxOf model.now) (map audited v.items)) }
    ensures count { IfOk result (λ v. length v.items ≡ length items.now) }
{
    let mut boxes = Vec::new(alloc);
    for place in 0..items.len() as u32 {
        let one = box_item(alloc, model, items, place)?;
        boxes.push(one)?;
    }
    Ok(boxes)
}

/// The boxes of a document.
#[tactic(auto, unfolding(crate::specs::Whole::boxes_in))]
fn boxes_in(alloc: Global, model: &Model, document: &Table) -> Result<Boxes, InputFault>
    ensures value { Gives (λ b. b) result (rules.boxes_in model.now (table_view document.now)) }
    ensures fits { IfOk result (AreBoxesOf model.now) }
{
    only_keys(alloc, document, b"", "version box")?;
    version_of(alloc, document)?;
    let items = list(alloc, document, b"", "box", LEAST_BOXES, GREATEST_BOXES)?;
    let boxes = box_items(alloc, model, items)?;
    Ok(Boxes::new(boxes))
}

/// The boxes that a text says, or the first rule that the text fails. The bytes are those of a TOML document with the keys `version`
/// and `box`. Each table of the list `box` has the keys `advisory`, the name of one of the model's advisories, and `range` in ft,
/// `closing` in ft/s, `altitude` in ft, `own` and `intruder` in ft/min, each two whole numbers of which the second is at least the
/// first. It never answers [`Rate`](InputFault::Rate).
#[tactic(auto, unfolding(crate::specs::Whole::boxes_of))]
pub fn read_boxes(alloc: Global, model: &Model, bytes: &[u8]) -> Result<Boxes, InputFault>
    ensures value { Gives (λ b. b) result (rules.boxes_of model.now bytes.now) }
    ensures fits { IfOk result (AreBoxesOf model.now) }
    ensures fault { IfErr result rules.IsOfBoxes }
{
    let document = document_of(alloc, bytes)?;
    boxes_in(alloc, model, &document)
}
