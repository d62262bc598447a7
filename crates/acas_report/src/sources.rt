//! Rulings by verdicts: each cell and each box by one of its own, or cells by blocks that are decided first.
ghost use Rattle.std.specs.Prelude.{◌≡◌};
ghost use Rattle.acas_rulings.specs.Boxes.{IsBoxOf};
ghost use Rattle.acas_rulings.specs.Rulings.{IsRulingOfBox};
ghost use Rattle.acas_audit_blocks.specs.Audits.{IsAuditOf};
ghost use Rattle.acas_audit_blocks.specs.Decisions.{AreDecisionsOf};
ghost use Rattle.acas_report.specs.Ready.{IsReady};

use acas_audit_blocks::{BlockAudit, DecidedBlock, Decisions};
use acas_base::{Advices, Model};
use acas_cells::{AdviceSet, CellName, advices_at};
use acas_report_lines::{BoxSource, Place, Rulings};
use acas_rulings::{AuditBox, Ruling};
use acas_witness::{box_verdict, verdict, witness_of};

/// The source that gives each cell and each box a verdict of its own. It decides no block.
#[derive(Drop)]
pub struct OneByOne;

impl Rulings for OneByOne {
    type Decision = DecidedBlock;

    ghost fits = { λ it m. Unit {0} };

    ghost ready = { λ it m a n present. Unit {0} };

    ghost takes = { λ m a n present number. number ≡ 0 };

    fn prepare(&mut self, _model: &Model, _advices: &Advices, _at: Place, _count: &mut Decisions) {}

    fn advised(&self, model: &Model, advices: &Advices, at: Place) -> AdviceSet {
        let Place {
            n,
            present,
            i,
            j,
            k,
        } = at;
        advices_at(model, advices, n, present, i, j, k).without(0)
    }

    fn certifies(&self, model: &Model, name: &CellName) -> bool {
        matches!(verdict(model, name), Ruling::Certified)
    }

    fn ruling(&self, model: &Model, name: &CellName) -> Ruling {
        verdict(model, name)
    }
}

impl BoxSource for OneByOne {
    type Ruling = Ruling;

    ghost takes = { λ it m b. IsBoxOf m b };

    ghost rules = { λ it m b ruling. IsRulingOfBox m b ruling };

    fn ruling(&self, model: &Model, area: &AuditBox) -> Ruling {
        box_verdict(model, area)
    }
}

/// The source that decides whole blocks of cells first, and takes the rulings of cells from what was decided.
#[derive(Drop)]
pub struct ByBlocks(pub BlockAudit);

impl Rulings for ByBlocks {
    type Decision = DecidedBlock;

    ghost fits = { λ it m. IsAuditOf m it.0 };

    ghost ready = { λ it m a n present. IsReady m a n present it.0 };

    ghost takes = { AreDecisionsOf };

    fn prepare(&mut self, model: &Model, advices: &Advices, at: Place, count: &mut Decisions) {
        self.0.decide(model, advices, at.n, at.present, count);
    }

    fn advised(&self, _model: &Model, _advices: &Advices, at: Place) -> AdviceSet {
        let sets = self.0.sets(at.i, at.j, at.k);
        sets.certified.union(sets.reported)
    }

    fn certifies(&self, model: &Model, name: &CellName) -> bool {
        // Opens the grid: the advice is one of a set's.
        let _ = model.grid();
        let CellName {
            i,
            j,
            k,
            advice,
            ..
        } = *name;
        let sets = self.0.sets(i, j, k);
        if sets.certified.has(advice) {
            return true;
        }
        if sets.reported.has(advice) {
            return false;
        }
        // The advice is tabled at no corner of the cell, and was not decided.
        matches!(verdict(model, name), Ruling::Certified)
    }

    fn ruling(&self, model: &Model, name: &CellName) -> Ruling {
        // Opens the grid: the advice is one of a set's.
        let _ = model.grid();
        let sets = self.0.sets(name.i, name.j, name.k);
        if sets.certified.has(name.advice) {
            return Ruling::Certified;
        }
        if sets.reported.has(name.advice) {
            return Ruling::Reported(witness_of(model, name));
        }
        // The advice is tabled at no corner of the cell, and was not decided.
        verdict(model, name)
    }
}
