//! What an answer says of the outside and of memory, over every folder and output.
ghost use Rattle.std.specs.Prelude.{◌≡◌, ◌≢◌, ◌⊎◌, ◌+◌, ◌-◌, ◌^◌, ◌<◌, ◌≤◌, ℕ, Option};
ghost use Rattle.acas_units.specs.declared.limits.TheConstants.{TEXT_BYTES};
ghost use Rattle.acas_outside.specs.Counts.{Rose};
ghost use Rattle.acas_outside.specs.Outside.{Outside};
ghost use Rattle.acas_doc.specs.declared.input_fault.InputFault.{InputFault};
ghost use Rattle.acas_doc.specs.declared.input_fault.InputFault.TheVariants as inputs;
ghost use Rattle.acas_model.specs.declared.fault.ModelFault.{ModelFault};
ghost use Rattle.acas_model.specs.declared.fault.ModelFault.TheVariants as faults;
ghost use Rattle.acas_table_text.specs.declared.fault.TableFault.TheVariants as reads;
ghost use Rattle.acas_table_text.specs.declared.refusal.TableRefusal.{TableRefusal};
ghost use Rattle.acas_table_text.specs.declared.refusal.TableRefusal.TheVariants.{Form as OfForm};
ghost use Rattle.acas_command.specs.declared.status.Cause.TheVariants.{Absent, Folder, Input, Model, Output, Table, TooLong};
ghost use Rattle.acas_command.specs.declared.status.FileRole.{FileRole};
ghost use Rattle.acas_cli.specs.Calls.{AnswersForm};
ghost use Rattle.acas_cli_words.specs.Words.{Form};

/// A count that rose is greater than it was, below the last value of 64 bits.
pub fn risen_counts_are_greater()
    ensures { (before now : ℕ) → Rose before now → before < 2 ^ 64 - 1 → before < now }
{}

/// A run answers that a file is absent, that the folder or the output failed or that a text is too long only where the count of just
/// that rose: below the last value of 64 bits it is greater than before, and of a text that is too long at least one byte more than
/// the limit was taken.
pub fn faults_have_their_counts()
    ensures absent { (form : Option Form) (role : FileRole) (before after : Outside)
        → AnswersForm form (Absent role) before after → before.misses < 2 ^ 64 - 1
        → before.misses < after.misses }
    ensures folder { (form : Option Form) (before after : Outside)
        → AnswersForm form Folder before after → before.faults < 2 ^ 64 - 1 → before.faults < after.faults }
    ensures output { (form : Option Form) (before after : Outside)
        → AnswersForm form Output before after → before.output_faults < 2 ^ 64 - 1
        → before.output_faults < after.output_faults }
    ensures too_long { (form : Option Form) (role : FileRole) (before after : Outside)
        → AnswersForm form (TooLong role) before after
        → (before.taken + TEXT_BYTES < after.taken) ⊎ (2 ^ 64 - 1 ≤ after.taken) }
{}

/// A refusal by a model, by boxes or by an encounter is never for want of memory, and one by a table never for a read that failed, a file
/// that is not there or want of memory.
pub fn refusals_are_of_bytes()
    ensures model { (form : Option Form) (fault : ModelFault) (before after : Outside)
        → AnswersForm form (Model fault) before after → fault ≢ faults.Memory }
    ensures input { (form : Option Form) (fault : InputFault) (before after : Outside)
        → AnswersForm form (Input fault) before after → fault ≢ inputs.Memory }
    ensures table { (form : Option Form) (refusal : TableRefusal) (before after : Outside)
        → AnswersForm form (Table refusal) before after
        → (refusal ≢ OfForm reads.Failed) × (refusal ≢ OfForm reads.Absent)
        × (refusal ≢ OfForm reads.Memory) }
{}
