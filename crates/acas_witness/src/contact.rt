//! Whether an area is in danger of contact: clear exactly where no flight from it that meets the advisory ends in contact.
ghost use Rattle.std.specs.Prelude.{◌≡◌, ℕ, ◌<◌, ◌↔◌, MatchOption, IfSome};
ghost use Rattle.acas_flight.specs.State.{Box};
ghost use Rattle.acas_flight.specs.Contact.{IsEndangeredBox, IsEndangeredCell};
ghost use Rattle.acas_flight.specs.Window.{IsWindowOfBox, IsWindowOfCell};
ghost use Rattle.acas_flight.specs.Clear.{area_of_box, area_of_cell};
ghost use Rattle.acas_areas.specs.Limits.{IsTime};
ghost use Rattle.acas_areas.specs.View.{area_of, times_of};
ghost use Rattle.acas_rulings.specs.Witness.{IsClearIn, IsEndangeredIn, IsInContactIn, IsTimeOf, IsWitnessIn};

use crate::finding::find;
use acas_areas::{BoxState, Window};
use acas_base::Model;
use acas_region::is_clear;
use acas_rulings::Flight;

/// The flight into the puck of an area, if the area is not clear in the window. So an area is clear exactly where no flight from it
/// that meets the advisory ends within the half height at a time of the window; and where the area and the window are those of a cell
/// or a box, exactly where none ends in contact.
pub fn contact_in(model: &Model, area: &BoxState, window: &Window, advisory: u8) -> Option<Flight>
    requires { advisory < model.now.grid.advisories }
    ensures exact { let danger = IsEndangeredIn model.now advisory area.now window.now in
        IsClearIn model.now advisory area.now window.now ↔ (¬ danger) }
    ensures danger { let danger = IsEndangeredIn model.now advisory area.now window.now in
        MatchOption result (¬ danger) (λ flight. danger) }
    ensures cell { (n i j k : ℕ) → area_of area.now ≡ area_of_cell model.now i j k →
        IsWindowOfCell model.now n (times_of window.now) →
        let danger = IsEndangeredCell model.now n i j k advisory in
        MatchOption result (¬ danger) (λ flight. danger) }
    ensures in_box { (box : Box) → area_of area.now ≡ area_of_box box →
        IsWindowOfBox model.now box.range box.closing (times_of window.now) →
        let danger = IsEndangeredBox model.now box advisory in
        MatchOption result (¬ danger) (λ flight. danger) }
    ensures rule { IfSome result (λ flight. IsWitnessIn model.now advisory area.now window.now flight) }
    ensures contact { IfSome result (λ flight. IsInContactIn model.now advisory area.now window.now flight) }
    ensures time { IfSome result (λ flight. IsTime flight.time) }
    ensures during { IfSome result (λ flight. IsTimeOf window.now flight.time) }
{
    if is_clear(model, area, window, advisory) {
        None
    } else {
        Some(find(model, area, window, advisory))
    }
}
