//! A table of the list `box`: one box.
ghost use Rattle.std.specs.Prelude.{◌≡◌, ◌<◌, pos, ◌+ℤ◌, ◌*ℤ◌, ◌≤ℤ◌, int_le, IfOk, OnOk, length};
ghost use Rattle.toml.specs.View.{table_view};
ghost use Rattle.acas_units.specs.declared.limits.TheConstants.{GREATEST_RADIUS};
ghost use Rattle.acas_areas.specs.Limits.{IsFlownInTime, interval_of};
ghost use Rattle.acas_model.specs.View.{item_at};
ghost use Rattle.acas_rulings.specs.Boxes.{IsBoxOf, audited};
ghost use Rattle.acas_doc.specs.InputAnswers.{Gives};
ghost use Rattle.acas_model.specs.Named.{advisory_at};
ghost use Rattle.acas_boxes.specs.OneBox as rules;

use crate::spans::{altitudes_at, closings_at, ranges_at, rates_at};
use acas_areas::BoxState;
use acas_base::Model;
use acas_doc::{InputFault, only_keys, path_of_item, table_item, text};
use acas_model::advisory_named;
use acas_rulings::AuditBox;
use acas_units::{
    GREATEST_BOX_RANGE, GREATEST_CLOSING, LEAST_BOX_RANGE, LEAST_CLOSING, Span, WINDOW_SECONDS,
};
use std::alloc::Global;
use toml::{Table, Value};

/// Whether at a closing speed a range and the radius are flown within the window.
fn is_flown(range: i64, radius: i64, closing: i64) -> bool
    requires far { range ≤ℤ GREATEST_BOX_RANGE }
    requires near { LEAST_BOX_RANGE ≤ℤ range }
    requires some { pos 0 ≤ℤ radius }
    requires radius { radius ≤ℤ pos GREATEST_RADIUS }
    requires slow { pos LEAST_CLOSING ≤ℤ closing }
    requires fast { closing ≤ℤ pos GREATEST_CLOSING }
    ensures { result ≡ int_le (range +ℤ radius) (pos WINDOW_SECONDS *ℤ closing) }
{
    range + radius <= i64::from(WINDOW_SECONDS) * closing
}

/// That at the least closing speed the greatest range and the radius are flown within the window.
#[tactic(auto, unfolding(crate::specs::OneBox::window))]
fn window(model: &Model, place: u32, range: &Span, closing: &Span) -> Result<(), InputFault>
    requires near { LEAST_BOX_RANGE ≤ℤ range.now.least }
    requires far { range.now.greatest ≤ℤ GREATEST_BOX_RANGE }
    requires slow { pos LEAST_CLOSING ≤ℤ closing.now.least }
    requires fast { closing.now.greatest ≤ℤ pos GREATEST_CLOSING }
    ensures value { result ≡ rules.window model.now place (interval_of range.now) (interval_of closing.now) }
    ensures flown { OnOk result (IsFlownInTime model.now (interval_of range.now) (interval_of closing.now)) }
{
    // Opens the model: its radius is so small that the sum fits.
    let _ = model.grid();
    if is_flown(range.greatest, model.radius(), closing.least) {
        Ok(())
    } else {
        Err(InputFault::Window { place })
    }
}

/// The advisory that a table names.
#[tactic(auto, unfolding(acas_model::specs::Named::advisory_at))]
fn advisory_at(
    alloc: Global,
    model: &Model,
    table: &Table,
    path: &[u8],
    place: u32,
) -> Result<u8, InputFault>
    ensures value { Gives (λ a. a) result (advisory_at model.now (table_view table.now) path.now place) }
    ensures known { IfOk result (λ a. a < model.now.grid.advisories) }
{
    let name = text(alloc, table, path, "advisory")?;
    advisory_named(model, name.as_bytes(), place)
}

/// The box that a table says.
#[tactic(auto, unfolding(crate::specs::OneBox::box_of))]
fn box_of(
    alloc: Global,
    model: &Model,
    table: &Table,
    path: &[u8],
    place: u32,
) -> Result<AuditBox, InputFault>
    ensures value { Gives audited result (rules.box_of model.now (table_view table.now) path.now place) }
    ensures fits { IfOk result (λ b. IsBoxOf model.now (audited b)) }
{
    only_keys(
        alloc,
        table,
        path,
        "advisory range closing altitude own intruder",
    )?;
    let advisory = advisory_at(alloc, model, table, path, place)?;
    let range = ranges_at(alloc, table, path)?;
    let closing = closings_at(alloc, table, path)?;
    let h = altitudes_at(alloc, table, path)?;
    let v0 = rates_at(alloc, table, path, "own")?;
    let v1 = rates_at(alloc, table, path, "intruder")?;
    window(model, place, &range, &closing)?;
    Ok(AuditBox {
        advisory,
        range,
        closing,
        area: BoxState { h, v0, v1 },
    })
}

/// The box at a place of the list.
#[tactic(auto, unfolding(crate::specs::OneBox::box_item))]
pub(crate) fn box_item(
    alloc: Global,
    model: &Model,
    items: &[Value],
    place: u32,
) -> Result<AuditBox, InputFault>
    requires { place < length items.now }
    ensures value { Gives audited result (rules.box_item model.now place (item_at items.now place)) }
    ensures fits { IfOk result (λ b. IsBoxOf model.now (audited b)) }
{
    let table = table_item(alloc, items, b"box", place)?;
    let path = path_of_item(alloc, b"box", place)?;
    box_of(alloc, model, table, path.bytes(), place)
}
