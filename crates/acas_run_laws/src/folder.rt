//! What a run leaves in a folder that tells its files.
ghost use Rattle.std.specs.Prelude.{◌≡◌, ◌≢◌, ◌⊎◌, ◌<◌, ℕ, List, length, take, Option, Some, None, IsSomeAnd};
ghost use Rattle.std.specs.FinMap.{get, insert};
ghost use Rattle.acas_spec.specs.Model.{ModelData};
ghost use Rattle.acas_outside.specs.Files.{Files};
ghost use Rattle.acas_outside.specs.Outside.{Outside};
ghost use Rattle.acas_table_rows.specs.TableFile.{compiled_text};
ghost use Rattle.acas_command.specs.Codes.{code_of};
ghost use Rattle.acas_command.specs.ModelFile.{IsModelFile};
ghost use Rattle.acas_command.specs.declared.status.Cause.{Cause};
ghost use Rattle.acas_cli.specs.Calls.{AnswersForm};
ghost use Rattle.acas_cli_words.specs.Words.{Compile, Form, Migrate};
ghost use Rattle.acas_run_laws.specs.Forms.{written_by};
ghost use Rattle.acas_run_laws.specs.Migrated.{IsMigratedText};

/// Whatever a run answers, every file but the one that its form writes is as before.
pub fn other_files_stay()
    ensures { (form : Form) (cause : Cause) (files : Files) (before after : Outside) (name : List ℕ)
        → before.holds ≡ Some files → AnswersForm (Some form) cause before after → written_by form ≢ Some name
        → IsSomeAnd after.holds (λ now. get now name ≡ get files name) }
{}

/// Whatever a run answers that writes no file, all files are as before.
pub fn only_compile_and_migrate_write()
    ensures { (form : Form) (cause : Cause) (files : Files) (before after : Outside)
        → before.holds ≡ Some files → AnswersForm (Some form) cause before after → written_by form ≡ None
        → after.holds ≡ Some files }
{}

/// What `compile` leaves under the table's name. With the codes 0 and 8 it is the whole text of the model's compiled
/// table in version 2; with 7 what was there, or fewer bytes of that text than all, and those the first; with every
/// other code what was there. All other files are as before.
pub fn compile_writes_its_table()
    ensures whole { (model table : List ℕ) (cause : Cause) (files : Files) (before after : Outside)
        → before.holds ≡ Some files → AnswersForm (Some (Compile model table)) cause before after
        → (code_of cause ≡ 0) ⊎ (code_of cause ≡ 8)
        → (digest : List ℕ) × (m : ModelData) × IsModelFile (get files model) digest m
        × (after.holds ≡ Some (insert files table (compiled_text digest m))) }
    ensures part { (model table : List ℕ) (cause : Cause) (files : Files) (before after : Outside)
        → before.holds ≡ Some files → AnswersForm (Some (Compile model table)) cause before after
        → code_of cause ≡ 7
        → (after.holds ≡ Some files)
        ⊎ ((digest : List ℕ) × (m : ModelData) × IsModelFile (get files model) digest m
        × (count : ℕ) × (count < length (compiled_text digest m))
        × (after.holds ≡ Some (insert files table (take count (compiled_text digest m))))) }
    ensures none { (model table : List ℕ) (cause : Cause) (files : Files) (before after : Outside)
        → before.holds ≡ Some files → AnswersForm (Some (Compile model table)) cause before after
        → code_of cause ≢ 0 → code_of cause ≢ 7 → code_of cause ≢ 8 → after.holds ≡ Some files }
{}

/// What `migrate` leaves under the new name. With the codes 0 and 8 it is the whole text in version 2 of the table that
/// was accepted; with 7 what was there, or fewer bytes of that text than all, and those the first; with every other
/// code what was there. All other files are as before, and so is the table's.
pub fn migrate_writes_its_table()
    ensures whole { (model table target : List ℕ) (cause : Cause) (files : Files) (before after : Outside)
        → before.holds ≡ Some files → AnswersForm (Some (Migrate model table target)) cause before after
        → (code_of cause ≡ 0) ⊎ (code_of cause ≡ 8)
        → (text : List ℕ) × IsMigratedText model table files text
        × (after.holds ≡ Some (insert files target text)) }
    ensures part { (model table target : List ℕ) (cause : Cause) (files : Files) (before after : Outside)
        → before.holds ≡ Some files → AnswersForm (Some (Migrate model table target)) cause before after
        → code_of cause ≡ 7
        → (after.holds ≡ Some files)
        ⊎ ((text : List ℕ) × IsMigratedText model table files text × (count : ℕ) × (count < length text)
        × (after.holds ≡ Some (insert files target (take count text)))) }
    ensures none { (model table target : List ℕ) (cause : Cause) (files : Files) (before after : Outside)
        → before.holds ≡ Some files → AnswersForm (Some (Migrate model table target)) cause before after
        → code_of cause ≢ 0 → code_of cause ≢ 7 → code_of cause ≢ 8 → after.holds ≡ Some files }
{}
