//! Where the rulings of cells come from.
ghost use Rattle.std.specs.Prelude.{◌≡◌, ◌+◌, ◌<◌, ◌≤◌, ◌^◌, ℕ, true, false};
ghost use Rattle.acas_spec.specs.Model.{ModelData};
ghost use Rattle.acas_base.specs.Advices.{AdvicesData, AreAdvicesOf};
ghost use Rattle.acas_cells.specs.Cells.{IsCellOf};
ghost use Rattle.acas_cells.specs.Corners.{is_advised};
ghost use Rattle.acas_cells.specs.DecisionCounts.{most_decisions};
ghost use Rattle.acas_cells.specs.Order.{cell_of};
ghost use Rattle.acas_cells.specs.Sets.{holds};
ghost use Rattle.acas_rulings.specs.Rulings.{IsRulingOfCell};
ghost use Rattle.acas_rulings.specs.declared.ruling.Ruling.{Ruling};
ghost use Rattle.acas_report_lines.specs.Text.{is_certified};
ghost use Rattle.acas_report_lines.specs.Plans.{place_cell};

use crate::audit::Place;
use acas_base::{Advices, Model};
use acas_cells::{AdviceSet, CellName};
use acas_rulings::Ruling;
use acas_units::Counter;

/// A source of rulings on cells.
pub trait Rulings {
    /// The work that is one decision.
    type Decision;

    /// It was made for a model.
    ghost fits: { Self → ModelData → Type 0 };

    /// The cells of n seconds and a present advisory are prepared for a model and the advices of its table.
    ghost ready: { Self → ModelData → AdvicesData → ℕ → ℕ → Type 0 };

    /// So many decisions prepare the cells of n seconds and a present advisory, for a model and the advices of its table.
    ghost takes: { ModelData → AdvicesData → ℕ → ℕ → ℕ → Type 0 };

    /// Prepares the cells of a place's seconds and present advisory. It counts each decision.
    fn prepare(
        &mut self,
        model: &Model,
        advices: &Advices,
        at: Place,
        count: &mut Counter<Self::Decision>,
    )
        requires fits { fits self.old model.now }
        requires advices { AreAdvicesOf model.now advices.now }
        requires n { at.n < model.now.grid.horizon }
        requires present { at.present < model.now.grid.advisories }
        requires room { count.old + most_decisions model.now < 2 ^ 64 }
        ensures fits { fits self.new model.now }
        ensures ready { ready self.new model.now advices.now at.n at.present }
        ensures counted { (number : ℕ) × takes model.now advices.now at.n at.present number
            × (count.new ≡ count.old + number) }
        ensures most { count.new ≤ count.old + most_decisions model.now }
        ensures rising { count.old ≤ count.new };

    /// The advices other than clear of conflict that are tabled at the corners of a cell.
    fn advised(&self, model: &Model, advices: &Advices, at: Place) -> AdviceSet
        requires advices { AreAdvicesOf model.now advices.now }
        requires ready { ready self.now model.now advices.now at.n at.present }
        requires cell { IsCellOf model.now (place_cell at) }
        ensures { (a : ℕ) → holds result a ≡ is_advised model.now advices.now (place_cell at) a };

    /// Whether a cell is certified under an advice.
    fn certifies(&self, model: &Model, name: &CellName) -> bool
        requires ready { (a : AdvicesData) × ready self.now model.now a name.now.n name.now.present }
        requires cell { IsCellOf model.now (cell_of name.now) }
        requires advice { name.now.advice < model.now.grid.advisories }
        ensures certified { result ≡ true → IsRulingOfCell model.now name.now Ruling.Certified }
        ensures reported { result ≡ false → (r : Ruling) → IsRulingOfCell model.now name.now r
            → is_certified r ≡ false };

    /// The ruling of a cell under an advice.
    fn ruling(&self, model: &Model, name: &CellName) -> Ruling
        requires ready { (a : AdvicesData) × ready self.now model.now a name.now.n name.now.present }
        requires cell { IsCellOf model.now (cell_of name.now) }
        requires advice { name.now.advice < model.now.grid.advisories }
        ensures { IsRulingOfCell model.now name.now result };
}
