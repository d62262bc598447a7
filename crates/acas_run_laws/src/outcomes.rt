//! What a form calls for is one.
ghost use Rattle.std.specs.Prelude.{◌≡◌, ◌⊎◌, ◌<◌, ℕ, List, length, take, Option, Some};
ghost use Rattle.std.specs.Io.KnownBytes.{append_known};
ghost use Rattle.acas_outside.specs.Files.{Files};
ghost use Rattle.acas_outside.specs.Outside.{Outside};
ghost use Rattle.acas_command.specs.Codes.{code_of};
ghost use Rattle.acas_command.specs.Outcome.{Outcome, with_file};
ghost use Rattle.acas_command.specs.declared.status.Cause.{Cause};
ghost use Rattle.acas_command.specs.declared.status.Cause.TheVariants.{Output};
ghost use Rattle.acas_cli.specs.Calls.{AnswersForm, CallsFor};
ghost use Rattle.acas_cli_words.specs.Words.{Form};
ghost use Rattle.acas_run_laws.specs.Forms.{HasIntruder};
ghost use Rattle.acas_run_laws.specs.Outcomes.{AreBytes};

use acas_drill_model::drilled_models_are_within_limits;

/// Over files of bytes there is one outcome that a form calls for, and one alone: its cause, its whole output, byte by byte, and the file
/// that is stored, if any. The intruder of a manoeuvre is one that words can give.
pub fn outcomes_are_one()
    ensures some { (form : Form) (files : Files) → HasIntruder form → AreBytes files → (o : Outcome)
        × (CallsFor form).ends files o }
    ensures one { (form : Form) (files : Files) (o p : Outcome) → HasIntruder form
        → (CallsFor form).ends files o → (CallsFor form).ends files p → o ≡ p }
{
    drilled_models_are_within_limits();
}

/// Where the folder tells its files, a run that ends with the exit code 0 or 1 has ended as the one outcome says: by its cause, with its
/// whole output and its file.
pub fn done_runs_end_as_called_for()
    ensures { (form : Form) (cause : Cause) (files : Files) (before after : Outside) (o : Outcome)
        → HasIntruder form
        → before.holds ≡ Some files → AnswersForm (Some form) cause before after
        → (code_of cause ≡ 0) ⊎ (code_of cause ≡ 1)
        → (CallsFor form).ends files o
        → (cause ≡ o.cause) × (after.written ≡ append_known before.written o.output)
        × (after.holds ≡ Some (with_file o.file files)) }
{
    drilled_models_are_within_limits();
}

/// So two runs of a form over the same files that end with 0 or 1 have ended by the same cause and left the same files, and where their
/// outputs held the same before, they hold the same.
pub fn done_runs_agree()
    ensures { (form : Form) (cause other : Cause) (files : Files) (before after again end : Outside)
        → HasIntruder form
        → before.holds ≡ Some files → again.holds ≡ Some files → again.written ≡ before.written
        → AnswersForm (Some form) cause before after → AnswersForm (Some form) other again end
        → (code_of cause ≡ 0) ⊎ (code_of cause ≡ 1) → (code_of other ≡ 0) ⊎ (code_of other ≡ 1)
        → (cause ≡ other) × (after.written ≡ end.written) × (after.holds ≡ end.holds) }
{
    drilled_models_are_within_limits();
}

/// A run whose output failed has appended fewer bytes than all of the one outcome's output, and those the first.
pub fn failed_outputs_hold_a_part()
    ensures { (form : Form) (files : Files) (before after : Outside) (o : Outcome) → HasIntruder form
        → before.holds ≡ Some files → AnswersForm (Some form) Output before after
        → (CallsFor form).ends files o
        → (count : ℕ) × (count < length o.output)
        × (after.written ≡ append_known before.written (take count o.output)) }
{
    drilled_models_are_within_limits();
}
