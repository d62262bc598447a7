//! The words of a form, its names and its numbers. The functions do nothing: their clauses are the laws.
ghost use Rattle.std.specs.Prelude.{◌≡◌, ◌≢◌, ◌≤◌, ◌∷◌, [], ℕ, List, All, length, slice_index, codes, Option, Some, None};
ghost use Rattle.std.specs.Fmt.{decimal};
ghost use Rattle.acas_report_lines.specs.declared.counts.Which.TheVariants.{All as AllLines, Reported as ReportedLines};
ghost use Rattle.acas_cli_words.specs.Forms.{HasNumber};
ghost use Rattle.acas_cli_words.specs.Words.{Audit, Check, Compile, Drill, Form, Manoeuvre, Migrate, Regions, Replay, Risk, Safeable, Values, form_of, names_of};
ghost use Rattle.acas_run_laws.specs.Forms.{HasIntruder};

/// A form that words have is of just these words: its verb, the names of its files, and its numbers as they are printed.
pub fn forms_are_of_their_words()
    ensures values { (words : List (List ℕ)) (model : List ℕ) → form_of words ≡ Some (Values model)
        → words ≡ codes "values" ∷ model ∷ [] }
    ensures compile { (words : List (List ℕ)) (model table : List ℕ)
        → form_of words ≡ Some (Compile model table) → words ≡ codes "compile" ∷ model ∷ table ∷ [] }
    ensures check { (words : List (List ℕ)) (model table : List ℕ)
        → form_of words ≡ Some (Check model table) → words ≡ codes "check" ∷ model ∷ table ∷ [] }
    ensures risk { (words : List (List ℕ)) (model table : List ℕ)
        → form_of words ≡ Some (Risk model table) → words ≡ codes "risk" ∷ model ∷ table ∷ [] }
    ensures audit { (words : List (List ℕ)) (model table : List ℕ)
        → form_of words ≡ Some (Audit model table AllLines) → words ≡ codes "audit" ∷ model ∷ table ∷ [] }
    ensures reported { (words : List (List ℕ)) (model table : List ℕ)
        → form_of words ≡ Some (Audit model table ReportedLines)
        → words ≡ codes "audit" ∷ model ∷ table ∷ codes "--reported" ∷ [] }
    ensures regions { (words : List (List ℕ)) (model boxes : List ℕ)
        → form_of words ≡ Some (Regions model boxes) → words ≡ codes "regions" ∷ model ∷ boxes ∷ [] }
    ensures manoeuvre { (words : List (List ℕ)) (model boxes : List ℕ) (accel rate : ℕ)
        → form_of words ≡ Some (Manoeuvre model boxes accel rate)
        → words ≡ codes "manoeuvre" ∷ model ∷ boxes ∷ decimal accel ∷ decimal rate ∷ [] }
    ensures safeable { (words : List (List ℕ)) (model table : List ℕ)
        → form_of words ≡ Some (Safeable model table) → words ≡ codes "safeable" ∷ model ∷ table ∷ [] }
    ensures replay { (words : List (List ℕ)) (model table encounter : List ℕ)
        → form_of words ≡ Some (Replay model table encounter)
        → words ≡ codes "replay" ∷ model ∷ table ∷ encounter ∷ [] }
    ensures migrate { (words : List (List ℕ)) (model table target : List ℕ)
        → form_of words ≡ Some (Migrate model table target)
        → words ≡ codes "migrate" ∷ model ∷ table ∷ target ∷ [] }
    ensures drill { (words : List (List ℕ)) (number : ℕ)
        → form_of words ≡ Some (Drill number) → words ≡ codes "drill" ∷ decimal number ∷ [] }
{}

/// Each name of a form has at least one byte and at most 255, of which the first is no `-`.
pub fn forms_name_files()
    ensures { (words : List (List ℕ)) (form : Form) → form_of words ≡ Some form
        → All (λ name. (1 ≤ length name) × (length name ≤ 255) × (slice_index name 0 ≢ 45))
        (names_of form) }
{}

/// The numbers of a form are within their limits: of an intruder its greatest acceleration and its greatest rate, and the number of a
/// drill. So what is asked of a form elsewhere holds of each that words have.
pub fn forms_have_their_numbers()
    ensures number { (words : List (List ℕ)) (form : Form) → form_of words ≡ Some form → HasNumber form }
    ensures intruder { (words : List (List ℕ)) (form : Form) → form_of words ≡ Some form → HasIntruder form }
    ensures manoeuvre { (words : List (List ℕ)) (model boxes : List ℕ) (accel rate : ℕ)
        → form_of words ≡ Some (Manoeuvre model boxes accel rate)
        → (1 ≤ accel) × (accel ≤ 2000) × (1 ≤ rate) × (rate ≤ 10000) }
    ensures drill { (words : List (List ℕ)) (number : ℕ) → form_of words ≡ Some (Drill number)
        → number ≤ 999999999 }
{}

/// A table is never written over its own model, nor a migrated one over its model or over the table that it is made of.
pub fn nothing_is_written_over_what_is_read()
    ensures compile { (words : List (List ℕ)) (model table : List ℕ)
        → form_of words ≡ Some (Compile model table) → model ≢ table }
    ensures migrate { (words : List (List ℕ)) (model table target : List ℕ)
        → form_of words ≡ Some (Migrate model table target) → (model ≢ target) × (table ≢ target) }
{}

/// Words that have a form, one of each, and some that have none.
pub fn words_have_their_forms()
    ensures values { form_of (codes "values" ∷ codes "m" ∷ []) ≡ Some (Values (codes "m")) }
    ensures compile { form_of (codes "compile" ∷ codes "m" ∷ codes "t" ∷ [])
        ≡ Some (Compile (codes "m") (codes "t")) }
    ensures check { form_of (codes "check" ∷ codes "m" ∷ codes "t" ∷ [])
        ≡ Some (Check (codes "m") (codes "t")) }
    ensures check_itself { form_of (codes "check" ∷ codes "m" ∷ codes "m" ∷ [])
        ≡ Some (Check (codes "m") (codes "m")) }
    ensures risk { form_of (codes "risk" ∷ codes "m" ∷ codes "t" ∷ [])
        ≡ Some (Risk (codes "m") (codes "t")) }
    ensures audit { form_of (codes "audit" ∷ codes "m" ∷ codes "t" ∷ [])
        ≡ Some (Audit (codes "m") (codes "t") AllLines) }
    ensures reported { form_of (codes "audit" ∷ codes "m" ∷ codes "t" ∷ codes "--reported" ∷ [])
        ≡ Some (Audit (codes "m") (codes "t") ReportedLines) }
    ensures regions { form_of (codes "regions" ∷ codes "m" ∷ codes "b" ∷ [])
        ≡ Some (Regions (codes "m") (codes "b")) }
    ensures manoeuvre { form_of (codes "manoeuvre" ∷ codes "m" ∷ codes "b" ∷ codes "600" ∷ codes "2500" ∷ [])
        ≡ Some (Manoeuvre (codes "m") (codes "b") 600 2500) }
    ensures safeable { form_of (codes "safeable" ∷ codes "m" ∷ codes "t" ∷ [])
        ≡ Some (Safeable (codes "m") (codes "t")) }
    ensures replay { form_of (codes "replay" ∷ codes "m" ∷ codes "t" ∷ codes "e" ∷ [])
        ≡ Some (Replay (codes "m") (codes "t") (codes "e")) }
    ensures migrate { form_of (codes "migrate" ∷ codes "m" ∷ codes "t" ∷ codes "u" ∷ [])
        ≡ Some (Migrate (codes "m") (codes "t") (codes "u")) }
    ensures migrate_itself { form_of (codes "migrate" ∷ codes "m" ∷ codes "m" ∷ codes "u" ∷ [])
        ≡ Some (Migrate (codes "m") (codes "m") (codes "u")) }
    ensures drill { form_of (codes "drill" ∷ codes "7" ∷ []) ≡ Some (Drill 7) }
    ensures no_words { form_of [] ≡ None }
    ensures verb_alone { form_of (codes "values" ∷ []) ≡ None }
    ensures option { form_of (codes "values" ∷ codes "-m" ∷ []) ≡ None }
    ensures no_name { form_of (codes "values" ∷ [] ∷ []) ≡ None }
    ensures leading_zero { form_of (codes "drill" ∷ codes "07" ∷ []) ≡ None }
{}
