//! Drills need no folder.
ghost use Rattle.std.specs.Prelude.{◌≡◌, ◌⊎◌, ◌<◌, ℕ, List, length, take, Some};
ghost use Rattle.std.specs.Io.KnownBytes.{append_known};
ghost use Rattle.acas_outside.specs.Outside.{Outside};
ghost use Rattle.acas_command.specs.Codes.{code_of};
ghost use Rattle.acas_command.specs.Outcome.{report_cause};
ghost use Rattle.acas_command.specs.declared.status.Cause.{Cause};
ghost use Rattle.acas_command.specs.declared.status.Cause.TheVariants.{Output};
ghost use Rattle.acas_drill.specs.Calls.{IsDrillText};
ghost use Rattle.acas_cli.specs.Calls.{AnswersForm};
ghost use Rattle.acas_cli_words.specs.Words.{Drill};

/// A drill leaves the folder and its counts as they were. Whatever the folder tells, one that ends with the exit code 0 or 1 has printed
/// the text of its number, and the code says whether a cell is reported; and one whose output failed has printed fewer bytes of it than
/// all, and those the first. It ends with the exit code 0, 1, 8 or 12, whatever stands in the folder's counts.
pub fn drills_need_no_folder()
    ensures folder { (number : ℕ) (cause : Cause) (before after : Outside)
        → AnswersForm (Some (Drill number)) cause before after
        → (after.holds ≡ before.holds) × (after.misses ≡ before.misses) × (after.taken ≡ before.taken)
        × (after.faults ≡ before.faults) }
    ensures done { (number : ℕ) (cause : Cause) (before after : Outside)
        → AnswersForm (Some (Drill number)) cause before after → (code_of cause ≡ 0) ⊎ (code_of cause ≡ 1)
        → (reported : ℕ) × (text : List ℕ) × IsDrillText number reported text
        × (cause ≡ report_cause reported)
        × (after.written ≡ append_known before.written text) }
    ensures cut { (number : ℕ) (before after : Outside) →
        AnswersForm (Some (Drill number)) Output before after
        → (reported : ℕ) × (text : List ℕ) × IsDrillText number reported text
        × (count : ℕ) × (count < length text)
        × (after.written ≡ append_known before.written (take count text)) }
    ensures ends { (number : ℕ) (cause : Cause) (before after : Outside)
        → AnswersForm (Some (Drill number)) cause before after
        → (code_of cause ≡ 0) ⊎ ((code_of cause ≡ 1) ⊎ ((code_of cause ≡ 8) ⊎ (code_of cause ≡ 12))) }
{}
