//! How a run over right files ends.
ghost use Rattle.std.specs.Prelude.{◌≡◌, ◌⊎◌, ◌≤◌, ℕ, List, length, Option, Some};
ghost use Rattle.std.specs.FinMap.{get};
ghost use Rattle.sha2.specs.Sha256.{sha256};
ghost use Rattle.acas_units.specs.declared.limits.TheConstants.{TEXT_BYTES};
ghost use Rattle.acas_spec.specs.Model.{ModelData};
ghost use Rattle.acas_spec.specs.Table.{Table};
ghost use Rattle.acas_outside.specs.Files.{Files};
ghost use Rattle.acas_outside.specs.Outside.{Outside};
ghost use Rattle.acas_accept.specs.Accepted.{IsAcceptedTable};
ghost use Rattle.acas_rulings.specs.Boxes.{AuditedBox};
ghost use Rattle.acas_boxes.specs.Rates.{AllRatesFit};
ghost use Rattle.acas_boxes.specs.Text.{IsBoxesText};
ghost use Rattle.acas_replay.specs.Encounter.{EncounterData};
ghost use Rattle.acas_replay.specs.Text.{IsEncounterText};
ghost use Rattle.acas_report_lines.specs.declared.counts.Which.{Which};
ghost use Rattle.acas_command.specs.Codes.{code_of};
ghost use Rattle.acas_command.specs.Says.{SaysModel};
ghost use Rattle.acas_command.specs.declared.status.Cause.{Cause};
ghost use Rattle.acas_command.specs.declared.status.Cause.TheVariants.{Absent, Done, Folder, Input, Memory, Model, Output, Reported, Table as Refused, TooLong, Words};
ghost use Rattle.acas_command.specs.declared.status.FileRole.{FileRole};
ghost use Rattle.acas_doc.specs.declared.input_fault.InputFault.{InputFault};
ghost use Rattle.acas_model.specs.declared.fault.ModelFault.{ModelFault};
ghost use Rattle.acas_table_text.specs.declared.refusal.TableRefusal.{TableRefusal};
ghost use Rattle.acas_cli.specs.Calls.{AnswersForm};
ghost use Rattle.acas_cli.specs.Headline.{Headline};
ghost use Rattle.acas_cli_words.specs.Words.{Audit, Check, Compile, Drill, Form, Manoeuvre, Migrate, Regions, Replay, Risk, Safeable, Values};
ghost use Rattle.acas_run_laws.specs.Forms.{MayReport};
ghost use Rattle.acas_run_laws.specs.Ends.{EndsDone, EndsWell, HasNoFault};

/// Each cause has an exit code of its own.
pub fn each_cause_has_its_code()
    ensures done { code_of Done ≡ 0 }
    ensures reported { code_of Reported ≡ 1 }
    ensures words { code_of Words ≡ 2 }
    ensures absent { (role : FileRole) → code_of (Absent role) ≡ 3 }
    ensures model { (fault : ModelFault) → code_of (Model fault) ≡ 4 }
    ensures table { (refusal : TableRefusal) → code_of (Refused refusal) ≡ 5 }
    ensures input { (fault : InputFault) → code_of (Input fault) ≡ 6 }
    ensures folder { code_of Folder ≡ 7 }
    ensures output { code_of Output ≡ 8 }
    ensures too_long { (role : FileRole) → code_of (TooLong role) ≡ 9 }
    ensures memory { code_of Memory ≡ 12 }
{}

/// Where no call of the folder or of the output failed, and the files are such as a form asks for, its run ends with the exit code 0 or
/// 12, or with 1 where the form may report: it is done, it reports, or memory was refused.
pub fn right_files_are_not_refused()
    ensures values { (model bytes : List ℕ) (m : ModelData)
        (cause : Cause) (files : Files) (before after : Outside)
        → before.holds ≡ Some files → SaysModel files model bytes m → HasNoFault before after
        → Headline (Some (Values model)) cause before after → EndsDone cause }
    ensures compile { (model table bytes : List ℕ) (m : ModelData)
        (cause : Cause) (files : Files) (before after : Outside)
        → before.holds ≡ Some files → SaysModel files model bytes m → HasNoFault before after
        → Headline (Some (Compile model table)) cause before after → EndsDone cause }
    ensures check { (model table bytes given : List ℕ) (m : ModelData) (t : Table)
        (cause : Cause) (files : Files) (before after : Outside)
        → before.holds ≡ Some files → SaysModel files model bytes m → get files table ≡ Some given
        → IsAcceptedTable m (sha256 bytes) given t → HasNoFault before after
        → Headline (Some (Check model table)) cause before after → EndsDone cause }
    ensures risk { (model table bytes given : List ℕ) (m : ModelData) (t : Table)
        (cause : Cause) (files : Files) (before after : Outside)
        → before.holds ≡ Some files → SaysModel files model bytes m → get files table ≡ Some given
        → IsAcceptedTable m (sha256 bytes) given t → HasNoFault before after
        → Headline (Some (Risk model table)) cause before after → EndsDone cause }
    ensures audit { (model table bytes given : List ℕ) (which : Which) (m : ModelData) (t : Table)
        (cause : Cause) (files : Files) (before after : Outside)
        → before.holds ≡ Some files → SaysModel files model bytes m → get files table ≡ Some given
        → IsAcceptedTable m (sha256 bytes) given t → HasNoFault before after
        → Headline (Some (Audit model table which)) cause before after → EndsWell cause }
    ensures regions { (model boxes bytes given : List ℕ) (m : ModelData) (said : List AuditedBox)
        (cause : Cause) (files : Files) (before after : Outside)
        → before.holds ≡ Some files → SaysModel files model bytes m → get files boxes ≡ Some given
        → length given ≤ TEXT_BYTES → IsBoxesText m given said → HasNoFault before after
        → Headline (Some (Regions model boxes)) cause before after → EndsWell cause }
    ensures manoeuvre { (model boxes bytes given : List ℕ) (accel rate : ℕ) (m : ModelData)
        (said : List AuditedBox)
        (cause : Cause) (files : Files) (before after : Outside)
        → before.holds ≡ Some files → SaysModel files model bytes m → get files boxes ≡ Some given
        → length given ≤ TEXT_BYTES → IsBoxesText m given said
        → AllRatesFit (record { accel = accel; rate = rate }) said → HasNoFault before after
        → Headline (Some (Manoeuvre model boxes accel rate)) cause before after → EndsWell cause }
    ensures safeable { (model table bytes given : List ℕ) (m : ModelData) (t : Table)
        (cause : Cause) (files : Files) (before after : Outside)
        → before.holds ≡ Some files → SaysModel files model bytes m → get files table ≡ Some given
        → IsAcceptedTable m (sha256 bytes) given t → HasNoFault before after
        → Headline (Some (Safeable model table)) cause before after → EndsWell cause }
    ensures replay { (model table encounter bytes given flown_bytes : List ℕ)
        (m : ModelData) (t : Table) (flown : EncounterData)
        (cause : Cause) (files : Files) (before after : Outside)
        → before.holds ≡ Some files → SaysModel files model bytes m → get files table ≡ Some given
        → IsAcceptedTable m (sha256 bytes) given t → get files encounter ≡ Some flown_bytes
        → length flown_bytes ≤ TEXT_BYTES → IsEncounterText m flown_bytes flown → HasNoFault before after
        → Headline (Some (Replay model table encounter)) cause before after → EndsDone cause }
    ensures migrate { (model table target bytes given : List ℕ) (m : ModelData) (t : Table)
        (cause : Cause) (files : Files) (before after : Outside)
        → before.holds ≡ Some files → SaysModel files model bytes m → get files table ≡ Some given
        → IsAcceptedTable m (sha256 bytes) given t → HasNoFault before after
        → Headline (Some (Migrate model table target)) cause before after → EndsDone cause }
    ensures drill { (number : ℕ) (cause : Cause) (files : Files) (before after : Outside)
        → before.holds ≡ Some files → HasNoFault before after
        → Headline (Some (Drill number)) cause before after → EndsWell cause }
{}

/// The exit code 1 is that of an audit, of regions, of a manoeuvre, of clear cells or of a drill, over a folder that tells its files.
pub fn only_reports_end_with_1()
    ensures { (form : Form) (cause : Cause) (files : Files) (before after : Outside)
        → before.holds ≡ Some files → AnswersForm (Some form) cause before after → code_of cause ≡ 1
        → MayReport form }
{}

/// A drill ends with the exit code 0, 1, 8 or 12, whatever fails: no file refuses it, and no folder fails it.
pub fn drills_are_not_refused()
    ensures { (number : ℕ) (cause : Cause) (files : Files) (before after : Outside)
        → before.holds ≡ Some files → Headline (Some (Drill number)) cause before after
        → EndsWell cause ⊎ (code_of cause ≡ 8) }
{}
