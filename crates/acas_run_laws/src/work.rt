//! What a run counts.
ghost use Rattle.std.specs.Prelude.{◌≡◌, ◌≢◌, ◌⊎◌, ◌+◌, ℕ, List, Option, Some, None};
ghost use Rattle.std.specs.FinMap.{get};
ghost use Rattle.acas_spec.specs.Limits.{IsModel};
ghost use Rattle.acas_spec.specs.Model.{ModelData, entries};
ghost use Rattle.acas_base.specs.Advices.{AdvicesData, AreAdvicesOf};
ghost use Rattle.acas_outside.specs.Files.{Files};
ghost use Rattle.acas_audit_blocks.specs.Decisions.{AreAuditsDecisions};
ghost use Rattle.acas_report_lines.specs.declared.counts.Which.{Which};
ghost use Rattle.acas_sweep.specs.Layers.{backup_count};
ghost use Rattle.acas_command.specs.Codes.{code_of};
ghost use Rattle.acas_command.specs.ModelFile.{IsModelFile};
ghost use Rattle.acas_command.specs.declared.status.Cause.{Cause};
ghost use Rattle.acas_table_file.specs.AcceptedFile.{IsTableOf};
ghost use Rattle.acas_cli_words.specs.Words.{Audit, Check, Compile, Drill, Form, Manoeuvre, Migrate, Regions, Replay, Risk, Safeable, Values};
ghost use Rattle.acas_cli.specs.Work.{CountsForm};
ghost use Rattle.acas_cli.specs.declared.work.Work.{Work};

/// What is not named for a form is not counted, whatever the answer: words of no form, `check`, `risk`, `regions`, `manoeuvre`,
/// `safeable`, `replay`, `migrate` and `drill` leave all three counts as they were, an audit those of backups and of turned pairs, and
/// `values` and `compile` that of decisions.
pub fn what_is_not_named_is_not_counted()
    ensures no_form { (holds : Option Files) (cause : Cause) (old new : Work) →
        CountsForm None holds cause old new
        → (new.backups ≡ old.backups) × (new.turned ≡ old.turned) × (new.decisions ≡ old.decisions) }
    ensures check { (model table : List ℕ) (holds : Option Files) (cause : Cause) (old new : Work)
        → CountsForm (Some (Check model table)) holds cause old new
        → (new.backups ≡ old.backups) × (new.turned ≡ old.turned) × (new.decisions ≡ old.decisions) }
    ensures risk { (model table : List ℕ) (holds : Option Files) (cause : Cause) (old new : Work)
        → CountsForm (Some (Risk model table)) holds cause old new
        → (new.backups ≡ old.backups) × (new.turned ≡ old.turned) × (new.decisions ≡ old.decisions) }
    ensures regions { (model boxes : List ℕ) (holds : Option Files) (cause : Cause) (old new : Work)
        → CountsForm (Some (Regions model boxes)) holds cause old new
        → (new.backups ≡ old.backups) × (new.turned ≡ old.turned) × (new.decisions ≡ old.decisions) }
    ensures manoeuvre { (model boxes : List ℕ) (accel rate : ℕ) (holds : Option Files) (cause : Cause)
        (old new : Work)
        → CountsForm (Some (Manoeuvre model boxes accel rate)) holds cause old new
        → (new.backups ≡ old.backups) × (new.turned ≡ old.turned) × (new.decisions ≡ old.decisions) }
    ensures safeable { (model table : List ℕ) (holds : Option Files) (cause : Cause) (old new : Work)
        → CountsForm (Some (Safeable model table)) holds cause old new
        → (new.backups ≡ old.backups) × (new.turned ≡ old.turned) × (new.decisions ≡ old.decisions) }
    ensures replay { (model table encounter : List ℕ) (holds : Option Files) (cause : Cause) (old new : Work)
        → CountsForm (Some (Replay model table encounter)) holds cause old new
        → (new.backups ≡ old.backups) × (new.turned ≡ old.turned) × (new.decisions ≡ old.decisions) }
    ensures migrate { (model table target : List ℕ) (holds : Option Files) (cause : Cause) (old new : Work)
        → CountsForm (Some (Migrate model table target)) holds cause old new
        → (new.backups ≡ old.backups) × (new.turned ≡ old.turned) × (new.decisions ≡ old.decisions) }
    ensures drill { (number : ℕ) (holds : Option Files) (cause : Cause) (old new : Work)
        → CountsForm (Some (Drill number)) holds cause old new
        → (new.backups ≡ old.backups) × (new.turned ≡ old.turned) × (new.decisions ≡ old.decisions) }
    ensures audit { (model table : List ℕ) (which : Which) (holds : Option Files) (cause : Cause)
        (old new : Work)
        → CountsForm (Some (Audit model table which)) holds cause old new
        → (new.backups ≡ old.backups) × (new.turned ≡ old.turned) }
    ensures values { (model : List ℕ) (holds : Option Files) (cause : Cause) (old new : Work)
        → CountsForm (Some (Values model)) holds cause old new → new.decisions ≡ old.decisions }
    ensures compile { (model table : List ℕ) (holds : Option Files) (cause : Cause) (old new : Work)
        → CountsForm (Some (Compile model table)) holds cause old new → new.decisions ≡ old.decisions }
{}

/// A run that ends with the exit code 0 over a folder that tells its files has counted the whole: `values` and
/// `compile` the backups and the entries of the model's table, and an audit, with 1 too, the decisions of the model's
/// cells.
pub fn done_runs_are_counted()
    ensures values { (model : List ℕ) (files : Files) (cause : Cause) (old new : Work)
        → CountsForm (Some (Values model)) (Some files) cause old new → code_of cause ≡ 0
        → (digest : List ℕ) × (m : ModelData) × IsModelFile (get files model) digest m
        × (new.backups ≡ old.backups + backup_count m) × (new.turned ≡ old.turned + entries m.grid) }
    ensures compile { (model table : List ℕ) (files : Files) (cause : Cause) (old new : Work)
        → CountsForm (Some (Compile model table)) (Some files) cause old new → code_of cause ≡ 0
        → (digest : List ℕ) × (m : ModelData) × IsModelFile (get files model) digest m
        × (new.backups ≡ old.backups + backup_count m) × (new.turned ≡ old.turned + entries m.grid) }
    ensures audit { (model table : List ℕ) (which : Which) (files : Files) (cause : Cause) (old new : Work)
        → CountsForm (Some (Audit model table which)) (Some files) cause old new
        → (code_of cause ≡ 0) ⊎ (code_of cause ≡ 1)
        → (m : ModelData) × (advices : AdvicesData) × IsTableOf model table files m advices
        × (number : ℕ) × AreAuditsDecisions m advices number × (new.decisions ≡ old.decisions + number) }
{}

/// Over every folder, told or not, a run that ends with the exit code 0 has counted the whole of some model within its limits: `values`
/// and `compile` the backups and the entries of its table, and an audit, with 1 too, the decisions of its cells under some advices.
pub fn work_is_counted_over_every_folder()
    ensures values { (model : List ℕ) (holds : Option Files) (cause : Cause) (old new : Work)
        → CountsForm (Some (Values model)) holds cause old new → code_of cause ≡ 0
        → (m : ModelData) × IsModel m
        × (new.backups ≡ old.backups + backup_count m) × (new.turned ≡ old.turned + entries m.grid) }
    ensures compile { (model table : List ℕ) (holds : Option Files) (cause : Cause) (old new : Work)
        → CountsForm (Some (Compile model table)) holds cause old new → code_of cause ≡ 0
        → (m : ModelData) × IsModel m
        × (new.backups ≡ old.backups + backup_count m) × (new.turned ≡ old.turned + entries m.grid) }
    ensures audit { (model table : List ℕ) (which : Which) (holds : Option Files) (cause : Cause)
        (old new : Work)
        → CountsForm (Some (Audit model table which)) holds cause old new
        → (code_of cause ≡ 0) ⊎ (code_of cause ≡ 1)
        → (m : ModelData) × (advices : AdvicesData) × IsModel m × AreAdvicesOf m advices
        × (number : ℕ) × AreAuditsDecisions m advices number × (new.decisions ≡ old.decisions + number) }
{}

/// A run that a file refuses, or that ends for want of memory, has counted nothing, over every folder: with every exit code but 0, 1, 2
/// and 8, and with `compile` but 7, all three counts are as they were.
pub fn refused_runs_count_nothing()
    ensures values { (model : List ℕ) (holds : Option Files) (cause : Cause) (old new : Work)
        → CountsForm (Some (Values model)) holds cause old new
        → code_of cause ≢ 0 → code_of cause ≢ 1 → code_of cause ≢ 2 → code_of cause ≢ 8
        → (new.backups ≡ old.backups) × (new.turned ≡ old.turned) × (new.decisions ≡ old.decisions) }
    ensures compile { (model table : List ℕ) (holds : Option Files) (cause : Cause) (old new : Work)
        → CountsForm (Some (Compile model table)) holds cause old new → code_of cause ≢ 7
        → code_of cause ≢ 0 → code_of cause ≢ 1 → code_of cause ≢ 2 → code_of cause ≢ 8
        → (new.backups ≡ old.backups) × (new.turned ≡ old.turned) × (new.decisions ≡ old.decisions) }
    ensures audit { (model table : List ℕ) (which : Which) (holds : Option Files) (cause : Cause)
        (old new : Work)
        → CountsForm (Some (Audit model table which)) holds cause old new
        → code_of cause ≢ 0 → code_of cause ≢ 1 → code_of cause ≢ 2 → code_of cause ≢ 8
        → (new.backups ≡ old.backups) × (new.turned ≡ old.turned) × (new.decisions ≡ old.decisions) }
{}
