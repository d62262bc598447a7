//! What reports of box files that were begun are worth. The functions do nothing: their clauses are the laws.
ghost use Rattle.std.specs.Prelude.{ℕ, List, Option, All};
ghost use Rattle.acas_spec.specs.Model.{ModelData};
ghost use Rattle.acas_outside.specs.Bytes.{AppendsPart};
ghost use Rattle.acas_rulings.specs.Boxes.{AuditedBox};
ghost use Rattle.acas_rulings.specs.declared.ruling.Ruling.{Ruling};
ghost use Rattle.acas_rulings.specs.Intruder.{Manoeuvre};
ghost use Rattle.acas_rulings.specs.declared.verdict.MeetVerdict.{MeetVerdict};
ghost use Rattle.acas_report_lines.specs.Meetings.{IsMeetVerdictAt, IsMeetingsBegun, IsMeetingsReport};
ghost use Rattle.acas_report_lines.specs.Regions.{IsRegionsReport, IsRegionsReportBegun, IsRulingAt, places};
ghost use Rattle.acas_report_lines.specs.declared.counts.Counts.{Counts};
ghost use Rattle.acas_report_lines.specs.declared.meet_counts.MeetCounts.{MeetCounts};

/// Where each box has a ruling, what went out of a report of a box file that was begun is a proper prefix of a whole one.
pub fn begun_regions_reports_go_on()
    ensures { (m : ModelData) (boxes : List AuditedBox) (old new : Option (List ℕ)) →
        All (λ place. (ruling : Ruling) × IsRulingAt m boxes place ruling) (places boxes) →
        IsRegionsReportBegun m boxes old new →
        (counts : Counts) × (text : List ℕ) × IsRegionsReport m boxes counts text × AppendsPart old new text }
{}

/// The same against an intruder that may change its rate, where there is a verdict on each box.
pub fn begun_meetings_reports_go_on()
    ensures { (m : ModelData) (may : Manoeuvre) (boxes : List AuditedBox) (old new : Option (List ℕ)) →
        All (λ place. (verdict : MeetVerdict) × IsMeetVerdictAt m may boxes place verdict) (places boxes) →
        IsMeetingsBegun m may boxes old new →
        (counts : MeetCounts) × (text : List ℕ) × IsMeetingsReport m may boxes counts text
        × AppendsPart old new text }
{}
