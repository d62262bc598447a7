//! Which advisory keeps a cell safe that is given a second later.
ghost use Rattle.std.specs.Prelude.{◌<◌};
ghost use Rattle.acas_cells.specs.Cells.{IsCellOf};
ghost use Rattle.acas_flight.specs.Clear.{IsClear};
ghost use Rattle.acas_flight.specs.Response.{demand_of};
ghost use Rattle.acas_areas.specs.View.{area_of, times_of};
ghost use Rattle.acas_safeable.specs.Firsts.{IsFound};
ghost use Rattle.acas_safeable.specs.Outlooks.{IsOutlook, candidates};
ghost use Rattle.acas_safeable.specs.View.{cell_of};

use crate::outlook::{ClearCell, Outlook};
use crate::reaching::reached;
use acas_areas::{BoxState, Window};
use acas_base::Model;
use acas_region::{is_clear, window_of_cell};

// The first choice of clear of conflict, clear left out, under which the area is clear in the window.
fn first_clear(model: &Model, area: &BoxState, window: &Window) -> Outlook
    ensures { IsFound (λ a. IsClear model.now.half (demand_of model.now a) (area_of area.now) (times_of window.now))
        (candidates model.now) result }
{
    // The choices of a model within its limits are advisories of it.
    let _ = model.grid();
    for choice in model.choices(0) {
        if choice.advisory != 0 && is_clear(model, area, window, choice.advisory) {
            return Outlook::Safeable(choice.advisory);
        }
    }
    Outlook::Unshown
}

/// The first choice of clear of conflict, clear left out, that is shown to keep the two apart where it is given a second later: the area
/// that is reached is clear under it in the window of a second later. It takes no memory.
pub fn standing(model: &Model, cell: &ClearCell) -> Outlook
    requires cell { IsCellOf model.now (cell_of cell.now) }
    requires later { 0 < cell.now.n }
    ensures { IsOutlook model.now (cell_of cell.now) result }
{
    // Opens the model's limits: each choice is an advisory that can be met.
    let _ = model.grid();
    match reached(model, cell) {
        Some(area) => first_clear(model, &area, &window_of_cell(model, cell.n - 1)),
        None => Outlook::Unshown,
    }
}
