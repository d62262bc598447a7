//! The laws of reports. The functions do nothing: each clause is a law.
ghost use Rattle.std.specs.Prelude.{◌≡◌, ℕ, ◌<◌, ◌^◌, List, All, Option, length, map};
ghost use Rattle.std.specs.List.Sorted.{IsStrictlySortedBy};
ghost use Rattle.acas_spec.specs.Limits.{IsModel};
ghost use Rattle.acas_spec.specs.Model.{ModelData};
ghost use Rattle.acas_base.specs.Advices.{AdvicesData};
ghost use Rattle.acas_outside.specs.Bytes.{AppendsPart};
ghost use Rattle.acas_flight.specs.Clear.{area_of_box};
ghost use Rattle.acas_areas.specs.Limits.{IsArea};
ghost use Rattle.acas_rulings.specs.Boxes.{AreBoxesOf, AuditedBox, box_at};
ghost use Rattle.acas_cells.specs.Corners.{advisory_cells};
ghost use Rattle.acas_cells.specs.Order.{by_numbers};
ghost use Rattle.acas_cells.specs.declared.name.CellName.{CellName};
ghost use Rattle.acas_rulings.specs.declared.ruling.Ruling.{Ruling};
ghost use Rattle.acas_rulings.specs.Intruder.{Manoeuvre};
ghost use Rattle.acas_rulings.specs.declared.verdict.MeetVerdict.{MeetVerdict};
ghost use Rattle.acas_report_lines.specs.Meetings.{IsMeetVerdictAt, IsMeetingsBegun, IsMeetingsReport, meetings_text};
ghost use Rattle.acas_report_lines.specs.Regions.{IsRegionsReport, IsRegionsReportBegun, places, regions_text};
ghost use Rattle.acas_report_lines.specs.Report.{Ruled};
ghost use Rattle.acas_report_lines.specs.declared.counts.Counts.{Counts};
ghost use Rattle.acas_report_lines.specs.declared.counts.Which.{Which};
ghost use Rattle.acas_report_lines.specs.declared.counts.Which.TheVariants as which;
ghost use Rattle.acas_report_lines.specs.declared.meet_counts.MeetCounts.{MeetCounts};
ghost use Rattle.acas_report_lines.specs.CellReport.{IsReport, IsReportBegun, report_text};
ghost use Rattle.acas_report_laws.specs.Told.{IsNameOf, IsShortRuling, IsShortVerdict, names_of, told, told_met};
ghost use Rattle.acas_report_laws.specs.Holds.{HoldsOfBox, HoldsOfCell, HoldsOfMeeting};

/// The text of a report gives its rulings back, line by line: two lists of cells under advices of a model that print the same say the
/// same of the same, where no number of one of them has more than 63 digits. Where the certified lines are left out, so do two lists
/// of the same cells in order. And so do boxes, also against an intruder that may change its rate.
pub fn lines_say_their_rulings()
    ensures all { (m : ModelData) (a : AdvicesData) (ruled other : List (Ruled CellName Ruling)) → IsModel m →
        All (IsNameOf m) (names_of ruled) → All (IsNameOf m) (names_of other) →
        All (λ r. IsShortRuling r.ruling) ruled →
        report_text m a which.All ruled ≡ report_text m a which.All other → map told ruled ≡ map told other }
    ensures reported { (m : ModelData) (a : AdvicesData) (ruled other : List (Ruled CellName Ruling)) →
        IsModel m →
        All (IsNameOf m) (names_of ruled) → IsStrictlySortedBy by_numbers (names_of ruled) →
        names_of ruled ≡ names_of other →
        All (λ r. IsShortRuling r.ruling) ruled →
        report_text m a which.Reported ruled ≡ report_text m a which.Reported other
        → map told ruled ≡ map told other }
    ensures boxes { (ruled other : List (Ruled ℕ Ruling)) →
        All (λ place. place < 10 ^ 63) (names_of ruled) → All (λ place. place < 10 ^ 63) (names_of other) →
        All (λ r. IsShortRuling r.ruling) ruled → regions_text ruled ≡ regions_text other
        → map told ruled ≡ map told other }
    ensures meetings { (ruled other : List (Ruled ℕ MeetVerdict)) →
        All (λ place. place < 10 ^ 63) (names_of ruled) → All (λ place. place < 10 ^ 63) (names_of other) →
        All (λ r. IsShortVerdict r.ruling) ruled → meetings_text ruled ≡ meetings_text other →
        map told_met ruled ≡ map told_met other }
{}

/// Whoever finds rulings of the advisory cells, in order, that print as a report has found what is so: each cell that is certified is
/// not endangered, and each that is reported is, by a flight that is printed so. The same of boxes.
pub fn printed_rulings_hold()
    ensures cells { (m : ModelData) (a : AdvicesData) (lines : Which) (counts : Counts) (text : List ℕ)
        (ruled : List (Ruled CellName Ruling)) →
        IsModel m → IsReport m a lines counts text → names_of ruled ≡ advisory_cells m a →
        report_text m a lines ruled ≡ text →
        All (HoldsOfCell m) ruled }
    ensures boxes { (m : ModelData) (boxes : List AuditedBox) (counts : Counts) (text : List ℕ)
        (ruled : List (Ruled ℕ Ruling)) →
        IsRegionsReport m boxes counts text → names_of ruled ≡ places boxes → regions_text ruled ≡ text →
        All (HoldsOfBox m boxes) ruled }
    ensures meetings { (m : ModelData) (may : Manoeuvre) (boxes : List AuditedBox) (counts : MeetCounts)
        (text : List ℕ)
        (ruled : List (Ruled ℕ MeetVerdict)) →
        IsMeetingsReport m may boxes counts text → names_of ruled ≡ places boxes →
        meetings_text ruled ≡ text →
        All (HoldsOfMeeting m may boxes) ruled }
{}

/// There is a report of an audit under the advices of a table, and one alone: its counts and its text, byte by byte. So is there of a
/// box file, where the altitudes and the rates of its boxes are within the limits.
pub fn reports_are_one()
    ensures audits_some { (m : ModelData) (a : AdvicesData) (lines : Which) → IsModel m →
        (counts : Counts) × (text : List ℕ) × IsReport m a lines counts text }
    ensures audits_one { (m : ModelData) (a : AdvicesData) (lines : Which) (counts c : Counts)
        (text t : List ℕ) → IsModel m →
        IsReport m a lines counts text → IsReport m a lines c t → (counts ≡ c) × (text ≡ t) }
    ensures boxes_some { (m : ModelData) (boxes : List AuditedBox) → IsModel m → AreBoxesOf m boxes →
        ((place : ℕ) → place < length boxes → IsArea (area_of_box (box_at boxes place).states)) →
        (counts : Counts) × (text : List ℕ) × IsRegionsReport m boxes counts text }
    ensures boxes_one { (m : ModelData) (boxes : List AuditedBox) (counts c : Counts) (text t : List ℕ) →
        IsModel m → AreBoxesOf m boxes →
        IsRegionsReport m boxes counts text → IsRegionsReport m boxes c t → (counts ≡ c) × (text ≡ t) }
{}

/// What went out of a report that was begun is a proper prefix of the report.
pub fn begun_reports_begin_the_report()
    ensures audits { (m : ModelData) (a : AdvicesData) (lines : Which) (old new : Option (List ℕ))
        (counts : Counts) (text : List ℕ) →
        IsModel m → IsReportBegun m a lines old new → IsReport m a lines counts text
        → AppendsPart old new text }
    ensures boxes { (m : ModelData) (boxes : List AuditedBox) (old new : Option (List ℕ)) (counts : Counts)
        (text : List ℕ) →
        IsModel m → AreBoxesOf m boxes → IsRegionsReportBegun m boxes old new →
        IsRegionsReport m boxes counts text →
        AppendsPart old new text }
{}

/// Where there is a verdict on each box against an intruder that may change its rate, there is a report. Where there is no other, there
/// is no other report, and what went out of one that was begun is a proper prefix of it.
pub fn verdicts_make_one_report()
    ensures some { (m : ModelData) (may : Manoeuvre) (boxes : List AuditedBox) →
        ((place : ℕ) → place < length boxes →
        (verdict : MeetVerdict) × IsMeetVerdictAt m may boxes place verdict) →
        (counts : MeetCounts) × (text : List ℕ) × IsMeetingsReport m may boxes counts text }
    ensures one { (m : ModelData) (may : Manoeuvre) (boxes : List AuditedBox) (counts c : MeetCounts)
        (text t : List ℕ) →
        ((place : ℕ) → place < length boxes → (v w : MeetVerdict) →
        IsMeetVerdictAt m may boxes place v → IsMeetVerdictAt m may boxes place w → v ≡ w) →
        IsMeetingsReport m may boxes counts text → IsMeetingsReport m may boxes c t
        → (counts ≡ c) × (text ≡ t) }
    ensures begun { (m : ModelData) (may : Manoeuvre) (boxes : List AuditedBox) (old new : Option (List ℕ))
        (counts : MeetCounts) (text : List ℕ) →
        ((place : ℕ) → place < length boxes → (v w : MeetVerdict) →
        IsMeetVerdictAt m may boxes place v → IsMeetVerdictAt m may boxes place w → v ≡ w) →
        IsMeetingsBegun m may boxes old new → IsMeetingsReport m may boxes counts text
        → AppendsPart old new text }
{}
