//! What a report of an audit that was begun is worth. The function does nothing: its clause is the law.
ghost use Rattle.std.specs.Prelude.{ℕ, List, Option, All};
ghost use Rattle.acas_spec.specs.Model.{ModelData};
ghost use Rattle.acas_base.specs.Advices.{AdvicesData};
ghost use Rattle.acas_outside.specs.Bytes.{AppendsPart};
ghost use Rattle.acas_cells.specs.Corners.{advisory_cells};
ghost use Rattle.acas_rulings.specs.Rulings.{IsRulingOfCell};
ghost use Rattle.acas_rulings.specs.declared.ruling.Ruling.{Ruling};
ghost use Rattle.acas_report_lines.specs.declared.counts.Counts.{Counts};
ghost use Rattle.acas_report_lines.specs.declared.counts.Which.{Which};
ghost use Rattle.acas_report_lines.specs.CellReport.{IsReport, IsReportBegun};

/// Where each advisory cell has a ruling, what went out of a report of an audit that was begun is a proper prefix of a whole one.
pub fn begun_reports_go_on()
    ensures { (m : ModelData) (a : AdvicesData) (which : Which) (old new : Option (List ℕ)) →
        All (λ name. (ruling : Ruling) × IsRulingOfCell m name ruling) (advisory_cells m a) →
        IsReportBegun m a which old new →
        (counts : Counts) × (text : List ℕ) × IsReport m a which counts text × AppendsPart old new text }
{}
