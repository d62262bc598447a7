//! Laws of two runs. The functions do nothing: their clauses are the laws.
ghost use Rattle.std.specs.Prelude.{◌≡◌, ◌≢◌, ℕ, List, Some, IsSomeAnd};
ghost use Rattle.std.specs.FinMap.{get};
ghost use Rattle.acas_outside.specs.Files.{Files};
ghost use Rattle.acas_outside.specs.Outside.{Outside};
ghost use Rattle.acas_command.specs.Worth.{IsDoneUnlessFailed, IsNotRefused};
ghost use Rattle.acas_command.specs.declared.status.Cause.{Cause};
ghost use Rattle.acas_command.specs.declared.status.Cause.TheVariants.{Done};
ghost use Rattle.acas_cli.specs.Headline.{Headline};
ghost use Rattle.acas_report_lines.specs.declared.counts.Which.{Which};
ghost use Rattle.acas_cli_words.specs.Words.{Audit, Check, Compile, Migrate};

/// A table that a run of `compile` has stored under another name, in a folder that tells its files, is accepted by a
/// run of `check` over the same files: that run is done, unless a call failed or memory was refused.
pub fn stored_tables_are_accepted()
    ensures { (model table : List ℕ) (files : Files) (cause : Cause) (before between again after : Outside)
        → model ≢ table → before.holds ≡ Some files
        → Headline (Some (Compile model table)) Done before between → again.holds ≡ between.holds
        → Headline (Some (Check model table)) cause again after → IsDoneUnlessFailed cause again after }
{}

/// A table that a run of `check` has accepted is audited by a run of `audit` over the same files: that run is not
/// refused.
pub fn accepted_tables_are_audited()
    ensures { (model table : List ℕ) (which : Which) (files : Files) (cause : Cause)
        (before between again after : Outside)
        → before.holds ≡ Some files → Headline (Some (Check model table)) Done before between
        → again.holds ≡ Some files → Headline (Some (Audit model table which)) cause again after
        → IsNotRefused cause again after }
{}

/// A table that a run of `migrate` has stored under another name than the model's, in a folder that tells its files, is
/// accepted by a run of `check` over the same files: that run is done, unless a call failed or memory was refused.
pub fn migrated_tables_are_accepted()
    ensures { (model table target : List ℕ) (files : Files) (cause : Cause)
        (before between again after : Outside)
        → model ≢ target → before.holds ≡ Some files
        → Headline (Some (Migrate model table target)) Done before between → again.holds ≡ between.holds
        → Headline (Some (Check model target)) cause again after → IsDoneUnlessFailed cause again after }
{}

/// What a run of `compile` or of `migrate` has stored, a run of `migrate` over the same files stores again byte for
/// byte: it is in version 2 already.
pub fn migrating_again_changes_no_byte()
    ensures compiled { (model table target text : List ℕ) (files : Files)
        (before between again after : Outside)
        → before.holds ≡ Some files → Headline (Some (Compile model table)) Done before between
        → again.holds ≡ between.holds → Headline (Some (Migrate model table target)) Done again after
        → IsSomeAnd between.holds (λ now. get now table ≡ Some text)
        → IsSomeAnd after.holds (λ now. get now target ≡ Some text) }
    ensures migrated { (model table target last text : List ℕ) (files : Files)
        (before between again after : Outside)
        → before.holds ≡ Some files → Headline (Some (Migrate model table target)) Done before between
        → again.holds ≡ between.holds → Headline (Some (Migrate model target last)) Done again after
        → IsSomeAnd between.holds (λ now. get now target ≡ Some text)
        → IsSomeAnd after.holds (λ now. get now last ≡ Some text) }
{}
