//! What a run is refused by, and the line on the error output.
ghost use Rattle.std.specs.Prelude.{◌≡◌, ◌≢◌, ◌⊎◌, ◌-◌, ◌^◌, ◌<◌, ℕ, List, length, take, Option, Some};
ghost use Rattle.std.specs.Io.KnownBytes.{append_known};
ghost use Rattle.acas_outside.specs.Files.{Files};
ghost use Rattle.acas_outside.specs.Outside.{Outside};
ghost use Rattle.acas_command.specs.Codes.{code_of};
ghost use Rattle.acas_command.specs.ErrorLine.{Reports, error_line, name_of};
ghost use Rattle.acas_command.specs.declared.status.Cause.{Cause};
ghost use Rattle.acas_cli.specs.Calls.{AnswersForm};
ghost use Rattle.acas_cli_words.specs.Words.{Form, form_of};
ghost use Rattle.acas_run_laws.specs.Refusals.{RefusesBy};

/// With every exit code but 0, 1, 7, 8 and 12 the files refuse the run by its very cause, where they are told: the file that the line
/// names as absent is not held, one that it names as too long has more bytes than the limit, and what a model, a table, boxes or an
/// encounter is refused by is the first fault of the bytes of that file.
pub fn refusals_are_those_of_the_named_files()
    ensures { (words : List (List ℕ)) (form : Form) (cause : Cause) (files : Files) (before after : Outside)
        → form_of words ≡ Some form → before.holds ≡ Some files → AnswersForm (Some form) cause before after
        → code_of cause ≢ 0 → code_of cause ≢ 1 → code_of cause ≢ 7 → code_of cause ≢ 8 → code_of cause ≢ 12
        → RefusesBy form (λ role. name_of role words) files cause }
{}

/// With the exit codes 0 and 1 nothing is on the error output that was not there before. With every other the whole line is there, or
/// fewer bytes of it than all where the error output's count rose.
pub fn error_lines_are_whole_or_cut_by_a_fault()
    ensures none { (cause : Cause) (words : List (List ℕ)) (old new : Option (List ℕ)) (before after : ℕ)
        → Reports cause words old new before after → (code_of cause ≡ 0) ⊎ (code_of cause ≡ 1) → new ≡ old }
    ensures line { (cause : Cause) (words : List (List ℕ)) (old new : Option (List ℕ)) (before after : ℕ)
        → Reports cause words old new before after → code_of cause ≢ 0 → code_of cause ≢ 1
        → (new ≡ append_known old (error_line cause words))
        ⊎ ((count : ℕ) × (count < length (error_line cause words))
        × (new ≡ append_known old (take count (error_line cause words)))
        × (before < 2 ^ 64 - 1 → before < after)) }
{}
