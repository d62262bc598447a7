//! Verdicts on cells by their places.
ghost use Rattle.std.specs.Prelude.{◌<◌, IfSome};
ghost use Rattle.acas_cells.specs.Cells.{IsCellOf};
ghost use Rattle.acas_cells.specs.Order.{cell_of};

use crate::print::tell_witness;
use acas_base::Model;
use acas_cells::CellName;
use acas_rulings::Ruling;
use acas_tests_data::{model_of, numbers};
use acas_witness::verdict;
use std::alloc::Global;

// A row's cell under an advice, if it is one of the model's: its seconds, present advisory and three places, and the advice.
fn name_in(model: &Model, row: &[i64]) -> Option<CellName>
    ensures cell { IfSome result (λ name. IsCellOf model.now (cell_of name)) }
    ensures advice { IfSome result (λ name. name.advice < model.now.grid.advisories) }
{
    let name = CellName {
        n: u32::try_from(*row.get(0)?).ok()?,
        present: u8::try_from(*row.get(1)?).ok()?,
        i: u32::try_from(*row.get(2)?).ok()?,
        j: u32::try_from(*row.get(3)?).ok()?,
        k: u32::try_from(*row.get(4)?).ok()?,
        advice: u8::try_from(*row.get(5)?).ok()?,
    };
    let grid = model.grid();
    let is_in_time = name.n < grid.horizon;
    let is_known = u32::from(name.present.max(name.advice)) < grid.advisories;
    let is_low = name.i < grid.h.len() - 1;
    let is_slow = name.j < grid.v0.len() - 1 && name.k < grid.v1.len() - 1;
    if is_in_time && is_known && is_low && is_slow {
        Some(name)
    } else {
        None
    }
}

// What is said of a cell: that it is certified, or its witness.
fn said_of(alloc: Global, model: &Model, row: &[i64]) -> Option<Vec<u8>> {
    let mut said = Vec::new(alloc);
    match verdict(model, &name_in(model, row)?) {
        Ruling::Certified => said.extend_from_slice(b"\ncertified").ok()?,
        Ruling::Reported(witness) => tell_witness(&mut said, &witness)?,
    }
    Some(said)
}

// Models, cells under an advice, and what is said. Of the first the least gap is 80,400 ticks less 3000 in a second, and so 11,400 at 23 s,
// the end of the window: within the half height of 12,000. A second nearer, in the window from 19 s to 22 s, it is 14,400 at the end.
const CELLS: &str =
    "d : 20 0 0 1 0 1 : time 23 range 11000 speed 500 ticks -80400 own 1500 intruder 3000 response 23@0
d : 19 0 0 1 0 1 : certified
c : 0 0 0 0 0 1 : certified
c : 0 0 0 0 0 2 : time 3 range 1000 speed 500 ticks -20400 own 0 intruder 0 response 3@-960";

// Whether a line is so.
fn is_said(alloc: Global, line: &str) -> Option<bool> {
    let (recipe, rest) = line.split_once(" : ")?;
    let (row, wanted) = rest.split_once(" : ")?;
    let model = model_of(alloc, recipe)?;
    let said = said_of(alloc, &model, &numbers(alloc, row)?)?;
    let said = std::str::from_utf8(&said).ok()?;
    Some(said.trim_start() == wanted)
}

#[test]
fn cells_are_ruled_on_by_their_places(rt: HostRuntime) {
    for line in CELLS.lines() {
        let said = is_said(rt.alloc(), line);
        assert!(rt; said == Some(true), "{line}");
    }
}
