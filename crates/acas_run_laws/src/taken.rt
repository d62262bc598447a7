//! How many bytes are taken of files that are read once. Below the runs, and cited by their clauses.
ghost use Rattle.std.specs.Prelude.{◌≡◌, ◌+◌, ◌≤◌, ◌∷◌, [], ℕ, List, length, Some, None};
ghost use Rattle.std.specs.FinMap.{get};
ghost use Rattle.acas_outside.specs.Files.{Files};
ghost use Rattle.acas_outside.specs.Once.{TakesOnce};

/// What is taken once of the files under some names is no more than they have together: of no file, and of one that is not held, nothing,
/// of one its bytes, and of two the bytes of both, of one that is named twice its bytes twice.
pub fn files_taken_once_give_their_bytes()
    ensures none { (files : Files) (before after : ℕ) → TakesOnce [] (Some files) before after
        → after ≤ before }
    ensures absent { (name : List ℕ) (files : Files) (before after : ℕ) →
        TakesOnce (name ∷ []) (Some files) before after
        → get files name ≡ None → after ≤ before }
    ensures one { (name bytes : List ℕ) (files : Files) (before after : ℕ) →
        TakesOnce (name ∷ []) (Some files) before after
        → get files name ≡ Some bytes → after ≤ before + length bytes }
    ensures two { (first second bytes more : List ℕ) (files : Files) (before after : ℕ) →
        TakesOnce (first ∷ second ∷ []) (Some files) before after
        → get files first ≡ Some bytes → get files second ≡ Some more
        → after ≤ before + length bytes + length more }
{}
