//! How many bytes a run takes of the files that it reads.
ghost use Rattle.std.specs.Prelude.{◌≡◌, ◌+◌, ◌≤◌, ℕ, List, [], length, Some, unwrap_or};
ghost use Rattle.std.specs.FinMap.{get};
ghost use Rattle.acas_outside.specs.Files.{Files};
ghost use Rattle.acas_outside.specs.Outside.{Outside};
ghost use Rattle.acas_report_lines.specs.declared.counts.Which.{Which};
ghost use Rattle.acas_command.specs.declared.status.Cause.{Cause};
ghost use Rattle.acas_cli.specs.Calls.{AnswersForm};
ghost use Rattle.acas_cli_words.specs.Words.{Audit, Check, Compile, Drill, Manoeuvre, Migrate, Regions, Replay, Risk, Safeable, Values};

/// Whatever a run answers over a folder that tells its files, it takes no more bytes than the files that its form reads have together.
/// `values` and `compile` read the model, `regions` and `manoeuvre` the boxes too, the forms on a table that table, and `replay` the
/// encounter besides. What `compile` and `migrate` store they do not read, and a drill reads no file.
pub fn files_are_read_once()
    ensures values { (model : List ℕ) (cause : Cause) (files : Files) (before after : Outside)
        → before.holds ≡ Some files → AnswersForm (Some (Values model)) cause before after
        → after.taken ≤ before.taken + length (unwrap_or (get files model) []) }
    ensures compile { (model table : List ℕ) (cause : Cause) (files : Files) (before after : Outside)
        → before.holds ≡ Some files → AnswersForm (Some (Compile model table)) cause before after
        → after.taken ≤ before.taken + length (unwrap_or (get files model) []) }
    ensures check { (model table : List ℕ) (cause : Cause) (files : Files) (before after : Outside)
        → before.holds ≡ Some files → AnswersForm (Some (Check model table)) cause before after
        → after.taken ≤ before.taken
        + length (unwrap_or (get files model) []) + length (unwrap_or (get files table) []) }
    ensures risk { (model table : List ℕ) (cause : Cause) (files : Files) (before after : Outside)
        → before.holds ≡ Some files → AnswersForm (Some (Risk model table)) cause before after
        → after.taken ≤ before.taken
        + length (unwrap_or (get files model) []) + length (unwrap_or (get files table) []) }
    ensures audit { (model table : List ℕ) (which : Which) (cause : Cause) (files : Files)
        (before after : Outside)
        → before.holds ≡ Some files → AnswersForm (Some (Audit model table which)) cause before after
        → after.taken ≤ before.taken
        + length (unwrap_or (get files model) []) + length (unwrap_or (get files table) []) }
    ensures safeable { (model table : List ℕ) (cause : Cause) (files : Files) (before after : Outside)
        → before.holds ≡ Some files → AnswersForm (Some (Safeable model table)) cause before after
        → after.taken ≤ before.taken
        + length (unwrap_or (get files model) []) + length (unwrap_or (get files table) []) }
    ensures migrate { (model table target : List ℕ) (cause : Cause) (files : Files) (before after : Outside)
        → before.holds ≡ Some files → AnswersForm (Some (Migrate model table target)) cause before after
        → after.taken ≤ before.taken
        + length (unwrap_or (get files model) []) + length (unwrap_or (get files table) []) }
    ensures regions { (model boxes : List ℕ) (cause : Cause) (files : Files) (before after : Outside)
        → before.holds ≡ Some files → AnswersForm (Some (Regions model boxes)) cause before after
        → after.taken ≤ before.taken
        + length (unwrap_or (get files model) []) + length (unwrap_or (get files boxes) []) }
    ensures manoeuvre { (model boxes : List ℕ) (accel rate : ℕ) (cause : Cause) (files : Files)
        (before after : Outside)
        → before.holds ≡ Some files → AnswersForm (Some (Manoeuvre model boxes accel rate)) cause before after
        → after.taken ≤ before.taken
        + length (unwrap_or (get files model) []) + length (unwrap_or (get files boxes) []) }
    ensures replay { (model table encounter : List ℕ) (cause : Cause) (files : Files) (before after : Outside)
        → before.holds ≡ Some files → AnswersForm (Some (Replay model table encounter)) cause before after
        → after.taken ≤ before.taken + length (unwrap_or (get files model) [])
        + length (unwrap_or (get files table) []) + length (unwrap_or (get files encounter) []) }
    ensures drill { (number : ℕ) (cause : Cause) (files : Files) (before after : Outside)
        → before.holds ≡ Some files → AnswersForm (Some (Drill number)) cause before after
        → after.taken ≤ before.taken }
{}
