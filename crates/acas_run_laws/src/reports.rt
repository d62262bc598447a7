//! What the headline says of the forms that print a report or a replay, spelled out. The functions do nothing: their clauses are the laws.
ghost use Rattle.std.specs.Prelude.{◌≡◌, ◌≢◌, ◌<◌, ◌≤◌, ℕ, suc, List, length, Option, Some};
ghost use Rattle.std.specs.Io.KnownBytes.{append_known};
ghost use Rattle.std.specs.FinMap.{get};
ghost use Rattle.std.specs.Fmt.{decimal};
ghost use Rattle.sha2.specs.Sha256.{sha256};
ghost use Rattle.acas_units.specs.declared.limits.TheConstants.{TEXT_BYTES};
ghost use Rattle.acas_spec.specs.Limits.{IsModel};
ghost use Rattle.acas_spec.specs.Model.{ModelData};
ghost use Rattle.acas_spec.specs.Table.{Table};
ghost use Rattle.acas_spec.specs.declared.place.Vertex.{Vertex};
ghost use Rattle.acas_grid.specs.Grid.{state_number, vertex_number};
ghost use Rattle.acas_base.specs.Advices.{AdvicesData, advice_at};
ghost use Rattle.acas_doc.specs.declared.input_fault.InputFault.{InputFault};
ghost use Rattle.acas_doc.specs.declared.input_fault.InputFault.TheVariants.{Rate};
ghost use Rattle.acas_outside.specs.Files.{Files};
ghost use Rattle.acas_outside.specs.Outside.{Outside};
ghost use Rattle.acas_process.specs.Cost.{IsEntry};
ghost use Rattle.acas_policies.specs.Bounds.{HasTwoSidedBounds, IsTight};
ghost use Rattle.acas_table_text.specs.Layers.{table_text};
ghost use Rattle.acas_table_text.specs.declared.format.Format.TheVariants.{Layered};
ghost use Rattle.acas_accept.specs.Accepted.{IsAcceptedTable};
ghost use Rattle.acas_cells.specs.Cells.{Cell};
ghost use Rattle.acas_cells.specs.Corners.{advisory_cells};
ghost use Rattle.acas_rulings.specs.Boxes.{AuditedBox};
ghost use Rattle.acas_rulings.specs.Intruder.{Manoeuvre as Intruder};
ghost use Rattle.acas_boxes.specs.Rates.{AllRatesFit, IsFirstUnfit};
ghost use Rattle.acas_boxes.specs.Text.{IsBoxesText};
ghost use Rattle.acas_replay.specs.Audited.{IsAudited, IsOfCells};
ghost use Rattle.acas_replay.specs.Encounter.{EncounterData, seconds};
ghost use Rattle.acas_replay.specs.Replay.{Course, IsCourse, replay_text, state_at};
ghost use Rattle.acas_replay.specs.Text.{IsEncounterText};
ghost use Rattle.acas_report_lines.specs.CellReport.{clear_cells, report_text};
ghost use Rattle.acas_report_lines.specs.Meetings.{as_counts, is_safe, meetings_text};
ghost use Rattle.acas_report_lines.specs.Regions.{places, regions_text};
ghost use Rattle.acas_report_lines.specs.Report.{IsReportOn};
ghost use Rattle.acas_report_lines.specs.Text.{is_certified};
ghost use Rattle.acas_report_lines.specs.declared.counts.Counts.{Counts};
ghost use Rattle.acas_report_lines.specs.declared.counts.Which.{Which};
ghost use Rattle.acas_report_lines.specs.declared.counts.Which.TheVariants.{All as AllLines};
ghost use Rattle.acas_report_lines.specs.declared.meet_counts.MeetCounts.{MeetCounts};
ghost use Rattle.acas_report.specs.Verdicts.{IsVerdictOnBox, IsVerdictOnCell};
ghost use Rattle.acas_safeable.specs.Outlooks.{AreOutlooks};
ghost use Rattle.acas_safeable.specs.SafeableText.{counts_of, safeable_text};
ghost use Rattle.acas_safeable.specs.declared.counts.SafeCounts.{SafeCounts};
ghost use Rattle.acas_safeable.specs.declared.outlook.Outlook.{Outlook};
ghost use Rattle.acas_command.specs.Called.{MayPrint};
ghost use Rattle.acas_command.specs.Codes.{code_of};
ghost use Rattle.acas_command.specs.Outcome.{report_cause};
ghost use Rattle.acas_command.specs.Says.{RejectsBeside, SaysBeside, SaysModel};
ghost use Rattle.acas_command.specs.declared.status.Cause.{Cause};
ghost use Rattle.acas_command.specs.declared.status.Cause.TheVariants.{Done, Input};
ghost use Rattle.acas_table_file.specs.Worth.{SaysTable, TellsAdvices};
ghost use Rattle.acas_box_commands.specs.ManoeuvreWorth as meetings;
ghost use Rattle.acas_drill_model.specs.DrilledModel.{drilled_model};
ghost use Rattle.acas_drill.specs.Text.{drill_lines};
ghost use Rattle.acas_cli.specs.Headline.{Headline};
ghost use Rattle.acas_cli_words.specs.Words.{Audit, Drill, Manoeuvre, Regions, Replay, Safeable};

/// What stands in a file beside a model, or is rejected there, and whose advices a table's file tells.
pub fn files_beside_a_model_say_what_they_hold()
    ensures boxes { (model boxes : List ℕ) (files : Files) (m : ModelData) (said : List AuditedBox)
        → SaysBeside IsBoxesText model boxes files m said
        → (bytes : List ℕ) × (given : List ℕ) × SaysModel files model bytes m × (get files boxes ≡ Some given)
        × (length given ≤ TEXT_BYTES) × IsBoxesText m given said }
    ensures rejected { (model boxes : List ℕ) (files : Files)
        → RejectsBeside (λ m digest. IsBoxesText m) model boxes files
        → (bytes : List ℕ) × (m : ModelData) × (given : List ℕ) × SaysModel files model bytes m
        × (get files boxes ≡ Some given) × ((said : List AuditedBox) → IsBoxesText m given said → ⊥) }
    ensures advices { (model table : List ℕ) (files : Files) (m : ModelData) (advices : AdvicesData)
        → TellsAdvices model table files m advices
        → (t : Table) × SaysTable model table files m t
        × ((n p : ℕ) (x : Vertex) → 1 ≤ n → IsEntry m n p x
        → advice_at advices n (state_number m.grid p (vertex_number m.grid x)) ≡ t.advice n p x) }
{}

/// A report that has reported none ends with the exit code 0, and one that has reported some with 1.
pub fn reports_end_by_what_they_report()
    ensures none { code_of (report_cause 0) ≡ 0 }
    ensures some { (n : ℕ) → code_of (report_cause (suc n)) ≡ 1 }
{}

/// With the exit codes 0 and 1 an audit has printed a report on each advisory cell of the table that was accepted, in order, and the code
/// says whether one is reported.
pub fn audits_print_their_report()
    ensures { (model table : List ℕ) (which : Which) (files : Files) (cause : Cause) (before after : Outside)
        → before.holds ≡ Some files → MayPrint cause
        → Headline (Some (Audit model table which)) cause before after
        → (m : ModelData) × (advices : AdvicesData) × (counts : Counts) × (text : List ℕ)
        × TellsAdvices model table files m advices
        × IsReportOn (IsVerdictOnCell m) is_certified (advisory_cells m advices) (clear_cells m advices)
        (report_text m advices which) counts text
        × (after.written ≡ append_known before.written text) × (after.holds ≡ Some files)
        × (cause ≡ report_cause counts.reported) }
{}

/// So has a run of `regions` on each box of its file; one that is refused by boxes was given none.
pub fn regions_print_their_report()
    ensures printed { (model boxes : List ℕ) (files : Files) (cause : Cause) (before after : Outside)
        → before.holds ≡ Some files → MayPrint cause
        → Headline (Some (Regions model boxes)) cause before after
        → (m : ModelData) × (said : List AuditedBox) × (counts : Counts) × (text : List ℕ)
        × SaysBeside IsBoxesText model boxes files m said
        × IsReportOn (IsVerdictOnBox m said) is_certified (places said) 0 regions_text counts text
        × (after.written ≡ append_known before.written text) × (after.holds ≡ Some files)
        × (cause ≡ report_cause counts.reported) }
    ensures rejected { (model boxes : List ℕ) (files : Files) (fault : InputFault) (before after : Outside)
        → before.holds ≡ Some files → Headline (Some (Regions model boxes)) (Input fault) before after
        → RejectsBeside (λ m digest. IsBoxesText m) model boxes files }
{}

/// So has a run of `manoeuvre` on each box of its file, whose rates the intruder may have; one that is refused by a rate was given a box,
/// of which this is the first, whose rates it may not have.
pub fn manoeuvres_print_their_report()
    ensures printed { (model boxes : List ℕ) (accel rate : ℕ) (files : Files) (cause : Cause)
        (before after : Outside)
        → before.holds ≡ Some files → MayPrint cause
        → Headline (Some (Manoeuvre model boxes accel rate)) cause before after
        → let may : Intruder = record { accel = accel; rate = rate } in
        (m : ModelData) × (said : List AuditedBox) × (counts : MeetCounts) × (text : List ℕ)
        × SaysBeside IsBoxesText model boxes files m said × AllRatesFit may said
        × IsReportOn (meetings.IsVerdictOnBox m may said) is_safe (places said) 0 meetings_text
        (as_counts counts) text
        × (after.written ≡ append_known before.written text) × (after.holds ≡ Some files)
        × (cause ≡ report_cause counts.reported) }
    ensures rejected { (model boxes : List ℕ) (accel rate : ℕ) (files : Files) (fault : InputFault)
        (before after : Outside)
        → before.holds ≡ Some files → ((place : ℕ) → fault ≢ Rate place)
        → Headline (Some (Manoeuvre model boxes accel rate)) (Input fault) before after
        → RejectsBeside (λ m digest. IsBoxesText m) model boxes files }
    ensures unfit { (model boxes : List ℕ) (accel rate place : ℕ) (files : Files) (before after : Outside)
        → before.holds ≡ Some files
        → Headline (Some (Manoeuvre model boxes accel rate)) (Input (Rate place)) before after
        → (bytes : List ℕ) × (m : ModelData) × (given : List ℕ) × (said : List AuditedBox)
        × SaysModel files model bytes m × (get files boxes ≡ Some given) × IsBoxesText m given said
        × IsFirstUnfit (record { accel = accel; rate = rate }) said place }
{}

/// With the exit codes 0 and 1 `safeable` has printed what is found of each clear cell of the table that was accepted, and the code says
/// whether a cell is open.
pub fn safeable_prints_what_is_found()
    ensures { (model table : List ℕ) (files : Files) (cause : Cause) (before after : Outside)
        → before.holds ≡ Some files → MayPrint cause
        → Headline (Some (Safeable model table)) cause before after
        → (m : ModelData) × (advices : AdvicesData) × (found : (Cell → Outlook))
        × TellsAdvices model table files m advices × AreOutlooks m advices found
        × (after.written ≡ append_known before.written (safeable_text m advices found))
        × (after.holds ≡ Some files)
        × (cause ≡ report_cause (SafeCounts.unshown (counts_of m advices found))) }
{}

/// With the exit code 0 `replay` has printed the course of the encounter under the advices of the table that was accepted, and an audit
/// rules on what was issued; one that is refused by an encounter was given none.
pub fn replays_print_their_course()
    ensures printed { (model table encounter : List ℕ) (files : Files) (before after : Outside)
        → before.holds ≡ Some files → Headline (Some (Replay model table encounter)) Done before after
        → (m : ModelData) × (advices : AdvicesData) × (flown : EncounterData) × (course : Course)
        × TellsAdvices model table files m advices
        × SaysBeside IsEncounterText model encounter files m flown × IsCourse m advices flown course
        × (after.written ≡ append_known before.written (replay_text m flown course))
        × (after.holds ≡ Some files)
        × ((k : ℕ) → k < seconds flown → IsOfCells m (state_at flown course k) → 0 < course.advice k
        → IsAudited m advices (state_at flown course k) (course.advice k)) }
    ensures rejected { (model table encounter : List ℕ) (files : Files) (fault : InputFault)
        (before after : Outside)
        → before.holds ≡ Some files
        → Headline (Some (Replay model table encounter)) (Input fault) before after
        → RejectsBeside (λ m digest. IsEncounterText m) model encounter files }
{}

/// With the exit codes 0 and 1 a drill has printed its three lines, with the counts of a report on each advisory cell of a table of the
/// number's model, which has two-sided bounds and is tight; the code says whether one is reported, and all files are as they were.
pub fn drills_print_their_counts()
    ensures table { (number : ℕ) (files : Files) (cause : Cause) (before after : Outside)
        → before.holds ≡ Some files → MayPrint cause → Headline (Some (Drill number)) cause before after
        → (t : Table) × IsModel (drilled_model number) × HasTwoSidedBounds (drilled_model number) t
        × IsTight (drilled_model number) t
        × IsAcceptedTable (drilled_model number) (sha256 (decimal number))
        (table_text Layered (sha256 (decimal number)) (drilled_model number).grid t) t }
    ensures report { (number : ℕ) (files : Files) (cause : Cause) (before after : Outside)
        → before.holds ≡ Some files → MayPrint cause → Headline (Some (Drill number)) cause before after
        → let m : ModelData = drilled_model number in
        (t : Table) × (advices : AdvicesData) × (counts : Counts) × (text : List ℕ)
        × HasTwoSidedBounds m t
        × ((n p : ℕ) (x : Vertex) → 1 ≤ n → IsEntry m n p x
        → advice_at advices n (state_number m.grid p (vertex_number m.grid x)) ≡ t.advice n p x)
        × IsReportOn (IsVerdictOnCell m) is_certified (advisory_cells m advices) (clear_cells m advices)
        (report_text m advices AllLines) counts text
        × (after.written ≡ append_known before.written (drill_lines number m.grid counts))
        × (after.holds ≡ Some files) × (cause ≡ report_cause counts.reported) }
{}
