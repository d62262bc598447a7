//! Verdicts on cells and boxes.
ghost use Rattle.std.specs.Prelude.{◌≡◌, ◌<◌};
ghost use Rattle.acas_frac.specs.Fraction.{IsReduced};
ghost use Rattle.acas_flight.specs.Clear.{area_of_cell};
ghost use Rattle.acas_flight.specs.Contact.{IsEndangeredCell};
ghost use Rattle.acas_flight.specs.Window.{IsWindowOfCell};
ghost use Rattle.acas_areas.specs.View.{area_of, times_of};
ghost use Rattle.acas_rulings.specs.Witness.{IsClearIn};
ghost use Rattle.acas_rulings.specs.Boxes.{IsBoxOf, audited};
ghost use Rattle.acas_cells.specs.Cells.{IsCellOf};
ghost use Rattle.acas_cells.specs.Order.{cell_of};
ghost use Rattle.acas_rulings.specs.Rulings.{IsRulingOfBox, IsRulingOfCell};

use crate::contact::contact_in;
use crate::finding::find;
use acas_areas::{BoxState, Window};
use acas_base::Model;
use acas_cells::CellName;
use acas_region::{is_clear, window_of_box, window_of_cell};
use acas_rulings::{AuditBox, Ruling, Witness, area_of_cell};
use acas_witness_response::{of_box, of_cell};

/// The same witness. It opens the range and the speed: they are in lowest terms.
fn opened(witness: Witness) -> Witness
    ensures same { result ≡ witness }
    ensures range { IsReduced witness.range }
    ensures speed { IsReduced witness.speed }
{
    let _ = witness.range.den();
    let _ = witness.speed.den();
    witness
}

// The area of a cell, and its window.
fn states_of(model: &Model, name: &CellName) -> (BoxState, Window)
    requires { IsCellOf model.now (cell_of name.now) }
    ensures area { area_of result.0 ≡ area_of_cell model.now name.now.i name.now.j name.now.k }
    ensures window { IsWindowOfCell model.now name.now.n (times_of result.1) }
{
    let area = area_of_cell(model, name.i, name.j, name.k);
    let window = window_of_cell(model, name.n);
    (area, window)
}

// The witness of a cell whose area is not clear in its window.
fn witness_in(model: &Model, name: &CellName, area: &BoxState, window: &Window) -> Witness
    requires n { name.now.n < model.now.grid.horizon }
    requires advice { name.now.advice < model.now.grid.advisories }
    requires area { area_of area.now ≡ area_of_cell model.now name.now.i name.now.j name.now.k }
    requires window { IsWindowOfCell model.now name.now.n (times_of window.now) }
    requires not_clear { ¬ IsClearIn model.now name.now.advice area.now window.now }
    ensures { IsRulingOfCell model.now name.now (Ruling.Reported result) }
{
    let flight = find(model, area, window, name.advice);
    opened(of_cell(model, name.n, flight))
}

/// Whether a cell is certified under an advice or reported. The cell is one of the model's, and the advice the number of one of its
/// advisories.
pub fn verdict(model: &Model, name: &CellName) -> Ruling
    requires cell { IsCellOf model.now (cell_of name.now) }
    requires advice { name.now.advice < model.now.grid.advisories }
    ensures { IsRulingOfCell model.now name.now result }
{
    let (area, window) = states_of(model, name);
    if is_clear(model, &area, &window, name.advice) {
        Ruling::Certified
    } else {
        Ruling::Reported(witness_in(model, name, &area, &window))
    }
}

/// The witness of a cell that is endangered under an advice: that with which [`verdict`] reports it. It looks for no clearness first.
pub fn witness_of(model: &Model, name: &CellName) -> Witness
    requires cell { IsCellOf model.now (cell_of name.now) }
    requires advice { name.now.advice < model.now.grid.advisories }
    requires danger { let cell = name.now in
        IsEndangeredCell model.now cell.n cell.i cell.j cell.k cell.advice }
    ensures { IsRulingOfCell model.now name.now (Ruling.Reported result) }
{
    // Opens the model's limits: what an advisory of it asks can be met.
    let _ = model.grid();
    let (area, window) = states_of(model, name);
    witness_in(model, name, &area, &window)
}

/// Whether a box is certified under its advisory or reported. The advisory is one of the model's, and the greatest range and the radius
/// are flown within the seconds of a window at the least closing speed.
pub fn box_verdict(model: &Model, area: &AuditBox) -> Ruling
    requires { IsBoxOf model.now (audited area.now) }
    ensures { IsRulingOfBox model.now (audited area.now) result }
{
    let window = window_of_box(model, area.range, area.closing);
    match contact_in(model, &area.area, &window, area.advisory) {
        None => Ruling::Certified,
        Some(flight) => {
            Ruling::Reported(opened(of_box(model, area.range, area.closing, flight)))
        }
    }
}
