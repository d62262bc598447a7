//! Who is refused has printed nothing.
ghost use Rattle.std.specs.Prelude.{◌≡◌, ◌≢◌, Option, Some, None};
ghost use Rattle.acas_outside.specs.Outside.{Outside};
ghost use Rattle.acas_command.specs.Codes.{code_of};
ghost use Rattle.acas_command.specs.declared.status.Cause.{Cause};
ghost use Rattle.acas_command.specs.declared.status.Cause.TheVariants.{Words};
ghost use Rattle.acas_cli.specs.Calls.{AnswersForm};
ghost use Rattle.acas_cli_words.specs.Words.{Form};

/// With every exit code but 0, 1 and 8 nothing was printed, over every folder and output.
pub fn refused_runs_print_nothing()
    ensures { (form : Option Form) (cause : Cause) (before after : Outside) →
        AnswersForm form cause before after
        → code_of cause ≢ 0 → code_of cause ≢ 1 → code_of cause ≢ 8 → after.written ≡ before.written }
{}

/// Words of no form are refused with the exit code 2, and change nothing outside: no file, no output and no count.
pub fn refused_words_change_nothing()
    ensures code { (cause : Cause) (before after : Outside) → AnswersForm None cause before after →
        code_of cause ≡ 2 }
    ensures outside { (cause : Cause) (before after : Outside) → AnswersForm None cause before after →
        after ≡ before }
{}

/// Words of a form are never refused as words, whatever the folder tells.
pub fn forms_are_not_refused_as_words()
    ensures { (form : Form) (before after : Outside) → AnswersForm (Some form) Words before after → ⊥ }
{}
