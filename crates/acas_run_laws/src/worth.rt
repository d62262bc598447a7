//! What the headline says of each form, spelled out. The functions do nothing: their clauses are the laws.
ghost use Rattle.std.specs.Prelude.{◌≡◌, ◌⊎◌, ◌<◌, ◌≤◌, ℕ, List, length, take, Option, None, Some};
ghost use Rattle.std.specs.Io.KnownBytes.{append_known};
ghost use Rattle.std.specs.FinMap.{get, insert};
ghost use Rattle.sha2.specs.Sha256.{sha256};
ghost use Rattle.acas_units.specs.declared.limits.TheConstants.{TEXT_BYTES};
ghost use Rattle.acas_spec.specs.Model.{ModelData};
ghost use Rattle.acas_spec.specs.Table.{Table};
ghost use Rattle.acas_model.specs.Text.{IsModelText};
ghost use Rattle.acas_outside.specs.Files.{Files};
ghost use Rattle.acas_outside.specs.Outside.{Outside};
ghost use Rattle.acas_policies.specs.Bounds.{HasTwoSidedBounds, IsTight};
ghost use Rattle.acas_table_text.specs.Layers.{table_text};
ghost use Rattle.acas_table_text.specs.declared.format.Format.TheVariants.{Layered};
ghost use Rattle.acas_table_text.specs.declared.refusal.TableRefusal.{TableRefusal};
ghost use Rattle.acas_accept.specs.Accepted.{IsAcceptedTable};
ghost use Rattle.acas_risk.specs.RiskText.{AreRisks, RiskRow, risk_lines};
ghost use Rattle.acas_command.specs.Codes.{code_of};
ghost use Rattle.acas_command.specs.Says.{SaysModel};
ghost use Rattle.acas_command.specs.declared.status.Cause.{Cause};
ghost use Rattle.acas_command.specs.declared.status.Cause.TheVariants.{Done, Output, Reported, Table as Refused};
ghost use Rattle.acas_table_file.specs.Worth.{RejectsTable, SaysTable};
ghost use Rattle.acas_table_rows.specs.StoredLine.{compiled_line, migrated_line};
ghost use Rattle.acas_table_rows.specs.ValuesText.{table_lines};
ghost use Rattle.acas_check_commands.specs.AcceptedLine.{accepted_line};
ghost use Rattle.acas_cli.specs.Headline.{Headline};
ghost use Rattle.acas_cli_words.specs.Words.{Audit, Check, Compile, Migrate, Replay, Risk, Safeable, Values};
ghost use Rattle.acas_report_lines.specs.declared.counts.Which.{Which};

/// A file says a model, a table's file says a table of it, and one is rejected beside a model, by what the files hold.
pub fn files_say_what_they_hold()
    ensures model { (files : Files) (name bytes : List ℕ) (m : ModelData) → SaysModel files name bytes m
        → (get files name ≡ Some bytes) × (length bytes ≤ TEXT_BYTES) × IsModelText bytes m }
    ensures table { (model table : List ℕ) (files : Files) (m : ModelData) (t : Table) →
        SaysTable model table files m t
        → (bytes : List ℕ) × (given : List ℕ) × SaysModel files model bytes m
        × (get files table ≡ Some given) × IsAcceptedTable m (sha256 bytes) given t }
    ensures rejected { (model table : List ℕ) (files : Files) → RejectsTable model table files
        → (bytes : List ℕ) × (m : ModelData) × (given : List ℕ) × SaysModel files model bytes m
        × (get files table ≡ Some given) × ((t : Table) → IsAcceptedTable m (sha256 bytes) given t → ⊥) }
{}

/// With the exit code 0 `values` has printed the lines of a table of the model, which has two-sided bounds and is tight, and left all
/// files as they were.
pub fn values_prints_a_tight_table()
    ensures { (model : List ℕ) (files : Files) (before after : Outside) → before.holds ≡ Some files
        → Headline (Some (Values model)) Done before after
        → (bytes : List ℕ) × (m : ModelData) × (t : Table) × SaysModel files model bytes m
        × HasTwoSidedBounds m t × IsTight m t
        × (after.written ≡ append_known before.written (table_lines m t)) × (after.holds ≡ Some files) }
{}

/// With the exit codes 0 and 8 `compile` has stored the text in version 2 of a table of the model, which has two-sided bounds and is
/// tight and whose entries are all sound. With 0 the line that says how large it is was printed, and with 8 fewer bytes of it than all.
pub fn compile_stores_a_tight_table()
    ensures stored { (model table : List ℕ) (files : Files) (cause : Cause) (before after : Outside)
        → before.holds ≡ Some files → (cause ≡ Done) ⊎ (cause ≡ Output)
        → Headline (Some (Compile model table)) cause before after
        → (bytes : List ℕ) × (m : ModelData) × (t : Table) × SaysModel files model bytes m
        × HasTwoSidedBounds m t × IsTight m t
        × IsAcceptedTable m (sha256 bytes) (table_text Layered (sha256 bytes) m.grid t) t
        × (after.holds ≡ Some (insert files table (table_text Layered (sha256 bytes) m.grid t))) }
    ensures line { (model table : List ℕ) (files : Files) (before after : Outside) → before.holds ≡ Some files
        → Headline (Some (Compile model table)) Done before after
        → (bytes : List ℕ) × (m : ModelData) × SaysModel files model bytes m
        × (after.written ≡ append_known before.written (compiled_line m.grid)) }
    ensures cut { (model table : List ℕ) (files : Files) (before after : Outside) → before.holds ≡ Some files
        → Headline (Some (Compile model table)) Output before after
        → (bytes : List ℕ) × (m : ModelData) × (count : ℕ) × SaysModel files model bytes m
        × (count < length (compiled_line m.grid))
        × (after.written ≡ append_known before.written (take count (compiled_line m.grid))) }
{}

/// With the exit code 0 `check` was given the text of a table of the model whose entries are all sound, which has two-sided bounds; it
/// has printed how large it is, and left all files as they were.
pub fn check_accepts_a_sound_table()
    ensures { (model table : List ℕ) (files : Files) (before after : Outside) → before.holds ≡ Some files
        → Headline (Some (Check model table)) Done before after
        → (m : ModelData) × (t : Table) × SaysTable model table files m t × HasTwoSidedBounds m t
        × (after.written ≡ append_known before.written (accepted_line m.grid))
        × (after.holds ≡ Some files) }
{}

/// With the exit codes 0 and 8 `migrate` has stored under the new name the text in version 2 of the very table that the old file is the
/// text of, which is accepted and has two-sided bounds. With 0 the line that says how large it is was printed, and with 8 fewer bytes of
/// it than all.
pub fn migrate_stores_the_same_table()
    ensures stored { (model table target : List ℕ) (files : Files) (cause : Cause) (before after : Outside)
        → before.holds ≡ Some files → (cause ≡ Done) ⊎ (cause ≡ Output)
        → Headline (Some (Migrate model table target)) cause before after
        → (bytes : List ℕ) × (given : List ℕ) × (m : ModelData) × (t : Table) × SaysModel files model bytes m
        × (get files table ≡ Some given) × IsAcceptedTable m (sha256 bytes) given t
        × HasTwoSidedBounds m t
        × IsAcceptedTable m (sha256 bytes) (table_text Layered (sha256 bytes) m.grid t) t
        × (after.holds ≡ Some (insert files target (table_text Layered (sha256 bytes) m.grid t))) }
    ensures line { (model table target : List ℕ) (files : Files) (before after : Outside)
        → before.holds ≡ Some files → Headline (Some (Migrate model table target)) Done before after
        → (m : ModelData) × (t : Table) × SaysTable model table files m t
        × (after.written ≡ append_known before.written (migrated_line m.grid)) }
    ensures cut { (model table target : List ℕ) (files : Files) (before after : Outside)
        → before.holds ≡ Some files → Headline (Some (Migrate model table target)) Output before after
        → (m : ModelData) × (t : Table) × (count : ℕ) × SaysTable model table files m t
        × (count < length (migrated_line m.grid))
        × (after.written ≡ append_known before.written (take count (migrated_line m.grid))) }
{}

/// With the exit code 0 `risk` has printed bounds of the chances and of the cost of the table that was accepted, which has two-sided
/// bounds, and left all files as they were.
pub fn risk_prints_bounds()
    ensures { (model table : List ℕ) (files : Files) (before after : Outside) → before.holds ≡ Some files
        → Headline (Some (Risk model table)) Done before after
        → (m : ModelData) × (t : Table) × (rows : (ℕ → RiskRow)) × SaysTable model table files m t
        × HasTwoSidedBounds m t × AreRisks m t.advice rows
        × (after.written ≡ append_known before.written (risk_lines m rows)) × (after.holds ≡ Some files) }
{}

/// A run that is refused by a table, whatever command it is, was given none whose entries are all sound.
pub fn refused_tables_are_not_sound()
    ensures check { (model table : List ℕ) (files : Files) (refusal : TableRefusal) (before after : Outside)
        → before.holds ≡ Some files → Headline (Some (Check model table)) (Refused refusal) before after
        → RejectsTable model table files }
    ensures risk { (model table : List ℕ) (files : Files) (refusal : TableRefusal) (before after : Outside)
        → before.holds ≡ Some files → Headline (Some (Risk model table)) (Refused refusal) before after
        → RejectsTable model table files }
    ensures audit { (model table : List ℕ) (which : Which) (files : Files) (refusal : TableRefusal)
        (before after : Outside)
        → before.holds ≡ Some files → Headline (Some (Audit model table which)) (Refused refusal) before after
        → RejectsTable model table files }
    ensures safeable { (model table : List ℕ) (files : Files) (refusal : TableRefusal) (before after : Outside)
        → before.holds ≡ Some files → Headline (Some (Safeable model table)) (Refused refusal) before after
        → RejectsTable model table files }
    ensures replay { (model table encounter : List ℕ) (files : Files) (refusal : TableRefusal)
        (before after : Outside)
        → before.holds ≡ Some files → Headline (Some (Replay model table encounter)) (Refused refusal) before after
        → RejectsTable model table files }
    ensures migrate { (model table target : List ℕ) (files : Files) (refusal : TableRefusal)
        (before after : Outside)
        → before.holds ≡ Some files → Headline (Some (Migrate model table target)) (Refused refusal) before after
        → RejectsTable model table files }
{}

/// Words of no form end with the exit code 2.
pub fn other_words_end_with_2()
    ensures { (cause : Cause) (before after : Outside) → Headline None cause before after → code_of cause ≡ 2 }
{}

/// Where the folder tells its files, no run of a form that prints or stores a table, checks one, prints its risk or flies an encounter
/// ends with the exit code 1.
pub fn only_reports_report()
    ensures values { (model : List ℕ) (files : Files) (before after : Outside) → before.holds ≡ Some files
        → Headline (Some (Values model)) Reported before after → ⊥ }
    ensures compile { (model table : List ℕ) (files : Files) (before after : Outside) → before.holds ≡ Some files
        → Headline (Some (Compile model table)) Reported before after → ⊥ }
    ensures check { (model table : List ℕ) (files : Files) (before after : Outside) → before.holds ≡ Some files
        → Headline (Some (Check model table)) Reported before after → ⊥ }
    ensures risk { (model table : List ℕ) (files : Files) (before after : Outside) → before.holds ≡ Some files
        → Headline (Some (Risk model table)) Reported before after → ⊥ }
    ensures replay { (model table encounter : List ℕ) (files : Files) (before after : Outside)
        → before.holds ≡ Some files → Headline (Some (Replay model table encounter)) Reported before after → ⊥ }
    ensures migrate { (model table target : List ℕ) (files : Files) (before after : Outside)
        → before.holds ≡ Some files → Headline (Some (Migrate model table target)) Reported before after → ⊥ }
{}
