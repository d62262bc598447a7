//! How many bytes of a table's file are taken, whatever folder it is. Below the runs, and cited by their clauses.
ghost use Rattle.std.specs.Prelude.{◌≡◌, ◌+◌, ◌≤◌, ℕ, List, length, Result, Some, None};
ghost use Rattle.std.specs.FinMap.{get};
ghost use Rattle.acas_outside.specs.Files.{Files};
ghost use Rattle.acas_table.specs.Reader.{Leaves, ReaderState, TakesAtMost};
ghost use Rattle.acas_table_text.specs.declared.fault.TableFault.{TableFault};
ghost use Rattle.acas_table_text.specs.declared.shape.TableShape.{TableShape};

use acas_outside::Folder;

/// Where a folder tells the file of a table, no more is taken of it than it has, and of one that is not held nothing: by a call that
/// begins at its front, and by one that reads on where no more was taken before.
pub fn tables_are_taken_once<F: Folder>()
    ensures held { (old new : F) (name bytes : List ℕ) (files : Files) (s : TableShape) →
        TakesAtMost F.Folder old new name s
        → F.holds old ≡ Some files → get files name ≡ Some bytes
        → F.taken new ≤ F.taken old + length bytes }
    ensures absent { (old new : F) (name : List ℕ) (files : Files) (s : TableShape) →
        TakesAtMost F.Folder old new name s
        → F.holds old ≡ Some files → get files name ≡ None → F.taken new ≤ F.taken old }
    ensures reads_on { (old new : F) (name bytes : List ℕ) (files : Files) (before now : ReaderState)
        (result : Result ℕ TableFault) → Leaves F.Folder old new name before now result
        → F.holds old ≡ Some files → get files name ≡ Some bytes
        → before.taken ≤ length bytes → now.taken ≤ length bytes }
{}
