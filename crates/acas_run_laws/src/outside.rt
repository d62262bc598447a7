//! What the outside in memory takes and gives, and what a part of bytes is. Below the runs, and cited by their clauses.
ghost use Rattle.std.specs.Prelude.{◌≡◌, ◌⊎◌, ◌+◌, ◌-◌, ◌^◌, ◌<◌, ◌≤◌, ◌++◌, ℕ, List, [], length, take, drop, Bool, IsTrue, Option, Some, None, Result, Ok, Err, IsErr, IsSomeAnd, Contains, unwrap_or};
ghost use Rattle.std.specs.FinMap.{get, insert};
ghost use Rattle.acas_outside.specs.Bytes.{Appends, AppendsPart};
ghost use Rattle.acas_outside.specs.Calls.{IsListed, made_one, no_calls};
ghost use Rattle.acas_outside.specs.Files.{Files, Grows, GrowsPart, LeavesRest, Reads, Stores, StoresPart};
ghost use Rattle.acas_outside.specs.Frame.{Emits, OnlyReads, OnlyWrites, ReadsAndWrites};
ghost use Rattle.acas_outside.specs.MemoryFolder.{AppendsInMemory, CreatesInMemory, FolderState, ReadsInMemory};
ghost use Rattle.acas_outside.specs.Outside.{outside};
ghost use Rattle.acas_outside.specs.declared.folder.ReadMiss.{ReadMiss};
ghost use Rattle.acas_outside.specs.declared.folder.ReadMiss.TheVariants.{Absent, Failed};
ghost use Rattle.acas_outside.specs.declared.sink.Failed.{Failed as CallFailed};
ghost use Rattle.acas_memory_sink.specs.MemorySink.{SinkState, WritesInMemory};

use acas_outside::{Folder, Sink};

/// A folder and an output in memory give and take as many bytes as there are, have room and may be given or taken in a call, and no
/// fewer; and what was taken stands there.
pub fn memory_gives_and_takes_what_it_may()
    ensures reads { (old new : FolderState) (name bytes : List ℕ) (at room n : ℕ)
        → ReadsInMemory old new name at room (Ok n) → get old.files name ≡ Some bytes
        → (n ≤ length bytes - at) × (n ≤ room) × (n ≤ old.most)
        × ((length bytes - at ≤ n) ⊎ ((room ≤ n) ⊎ (old.most ≤ n))) }
    ensures appends { (old new : FolderState) (name piece : List ℕ) (n : ℕ) →
        AppendsInMemory old new name piece (Ok n)
        → (n ≤ length piece) × (n ≤ old.most) × ((length piece ≤ n) ⊎ (old.most ≤ n)) }
    ensures writes { (old new : SinkState) (piece : List ℕ) (n : ℕ) → WritesInMemory old new piece (Ok n)
        → (n ≤ length piece) × (n ≤ old.most) × ((length piece ≤ n) ⊎ (old.most ≤ n)) }
    ensures appended { (old new : FolderState) (name piece : List ℕ) (n : ℕ) →
        AppendsInMemory old new name piece (Ok n)
        → get new.files name ≡ Some (unwrap_or (get old.files name) [] ++ take n piece) }
    ensures written { (old new : SinkState) (piece : List ℕ) (n : ℕ) → WritesInMemory old new piece (Ok n)
        → new.written ≡ old.written ++ take n piece }
{}

/// A call of a folder or of an output in memory that is listed fails, and changes nothing but its own counts; of reads this is so where
/// the name is held. One that is not listed fails only where memory was refused, which is counted, and a read of a held name never.
pub fn listed_calls_fail()
    ensures read { (old new : FolderState) (name bytes : List ℕ) (at room : ℕ) (result : Result ℕ ReadMiss)
        → IsListed old.reads → get old.files name ≡ Some bytes → ReadsInMemory old new name at room result
        → (result ≡ Err Failed) × (new.files ≡ old.files) × (new.taken ≡ old.taken)
        × (old.reads.failed < 2 ^ 64 - 1 → new.reads.failed ≡ old.reads.failed + 1) }
    ensures create { (old new : FolderState) (name : List ℕ) (result : Result (Unit {0}) CallFailed)
        → IsListed old.creates → CreatesInMemory old new name result
        → IsErr result × (new.files ≡ old.files) × (new.refused ≡ old.refused)
        × (old.creates.failed < 2 ^ 64 - 1 → new.creates.failed ≡ old.creates.failed + 1) }
    ensures append { (old new : FolderState) (name piece : List ℕ) (result : Result ℕ CallFailed)
        → IsListed old.appends → AppendsInMemory old new name piece result
        → IsErr result × (new.files ≡ old.files) × (new.refused ≡ old.refused)
        × (old.appends.failed < 2 ^ 64 - 1 → new.appends.failed ≡ old.appends.failed + 1) }
    ensures write { (old new : SinkState) (piece : List ℕ) (result : Result ℕ CallFailed)
        → IsListed old.writes → WritesInMemory old new piece result
        → IsErr result × (new.written ≡ old.written) × (new.refused ≡ old.refused)
        × (old.writes.failed < 2 ^ 64 - 1 → new.writes.failed ≡ old.writes.failed + 1) }
    ensures unlisted_read { (old new : FolderState) (name : List ℕ) (at room : ℕ) →
        ReadsInMemory old new name at room (Err Failed) → IsListed old.reads }
    ensures unlisted_create { (old new : FolderState) (name : List ℕ) (e : CallFailed)
        → (IsListed old.creates → ⊥) → CreatesInMemory old new name (Err e)
        → (new.files ≡ old.files) × (old.refused < 2 ^ 64 - 1 → new.refused ≡ old.refused + 1) }
    ensures unlisted_append { (old new : FolderState) (name piece : List ℕ) (e : CallFailed)
        → (IsListed old.appends → ⊥) → AppendsInMemory old new name piece (Err e)
        → (new.files ≡ old.files) × (old.refused < 2 ^ 64 - 1 → new.refused ≡ old.refused + 1) }
    ensures unlisted_write { (old new : SinkState) (piece : List ℕ) (e : CallFailed)
        → (IsListed old.writes → ⊥) → WritesInMemory old new piece (Err e)
        → (new.written ≡ old.written) × (old.refused < 2 ^ 64 - 1 → new.refused ≡ old.refused + 1) }
{}

/// The calls of a kind are numbered from 0, and each call that is made has the next number.
pub fn calls_are_numbered_from_0()
    ensures first { (listed : List ℕ) → IsListed (no_calls listed) → Contains listed 0 }
    ensures second { (listed : List ℕ) → IsListed (made_one (no_calls listed)) → Contains listed 1 }
    ensures listed { (listed : List ℕ) → Contains listed 0 → IsListed (no_calls listed) }
{}

/// A read gives bytes of the file from its place on, and none only at the end of the file; it finds a name absent only where it is not
/// held; and what stands behind the bytes that it gives is as before, and all where it gives none.
pub fn reads_give_what_the_file_holds()
    ensures bytes { (file into : List ℕ) (at n : ℕ) → Reads (Some file) at (Ok n) into
        → (take n into ≡ take n (drop at file)) × (n ≤ length file - at)
        × (n ≡ 0 → 0 < length into → length file ≤ at) }
    ensures none { (into : List ℕ) (at n : ℕ) → Reads None at (Ok n) into → ⊥ }
    ensures absent { (file : Option (List ℕ)) (into : List ℕ) (at : ℕ) → Reads file at (Err Absent) into
        → file ≡ None }
    ensures rest { (old new : List ℕ) (n : ℕ) → LeavesRest (Ok n) old new → drop n new ≡ drop n old }
    ensures kept { (old new : List ℕ) (miss : ReadMiss) → LeavesRest (Err miss) old new → new ≡ old }
{}

/// What is stored stands under its name, what a file grows by and what is appended stand behind what was there, and nothing else changes.
pub fn what_is_written_stands_there()
    ensures stored { (files : Files) (new : Option Files) (name bytes : List ℕ) →
        Stores (Some files) new name bytes → new ≡ Some (insert files name bytes) }
    ensures grown { (files : Files) (new : Option Files) (name held bytes : List ℕ) → get files name ≡ Some held
        → Grows (Some files) new name bytes → new ≡ Some (insert files name (held ++ bytes)) }
    ensures appended { (written bytes : List ℕ) (new : Option (List ℕ)) → Appends (Some written) new bytes
        → new ≡ Some (written ++ bytes) }
{}

/// The outside of a run is what its folder and its output tell and count.
pub fn the_outside_is_what_both_tell<F: Folder, O: Sink>()
    ensures { (folder : F) (out : O) →
        ((outside F.Folder O.Sink folder out).holds ≡ F.holds folder)
        × ((outside F.Folder O.Sink folder out).misses ≡ F.misses folder)
        × ((outside F.Folder O.Sink folder out).taken ≡ F.taken folder)
        × ((outside F.Folder O.Sink folder out).faults ≡ F.faults folder)
        × ((outside F.Folder O.Sink folder out).written ≡ O.written out)
        × ((outside F.Folder O.Sink folder out).output_faults ≡ O.faults out) }
{}

/// A part of bytes has fewer bytes than all: of what was appended to an output, and of what is stored in a file or was added to it.
pub fn parts_are_fewer_bytes()
    ensures appended { (written bytes : List ℕ) (new : Option (List ℕ)) → AppendsPart (Some written) new bytes
        → IsSomeAnd new (λ now. (length written ≤ length now)
        × (length now < length written + length bytes)) }
    ensures untold { (old new : Option (List ℕ)) (bytes : List ℕ) → AppendsPart old new bytes →
        0 < length bytes }
    ensures stored { (files : Files) (new : Option Files) (name bytes : List ℕ) →
        StoresPart (Some files) new name bytes
        → IsSomeAnd new (λ now. IsSomeAnd (get now name) (λ held. length held < length bytes)) }
    ensures grown { (files : Files) (new : Option Files) (name held bytes : List ℕ) →
        GrowsPart (Some files) new name bytes
        → get files name ≡ Some held
        → IsSomeAnd new (λ now. IsSomeAnd (get now name)
        (λ longer. length longer < length held + length bytes)) }
{}

/// A call of a folder that failed, or found a name absent, has a greater count than before, below the last value of 64 bits, whatever
/// folder it is.
pub fn calls_of_folders_count_their_faults<F: Folder>()
    ensures reads { (old new : F) (failed absent : Bool) →
        OnlyReads F.Folder old new (IsTrue failed) (IsTrue absent)
        → IsTrue failed → F.faults old < 2 ^ 64 - 1 → F.faults old < F.faults new }
    ensures misses { (old new : F) (failed absent : Bool) →
        OnlyReads F.Folder old new (IsTrue failed) (IsTrue absent)
        → IsTrue absent → F.misses old < 2 ^ 64 - 1 → F.misses old < F.misses new }
    ensures writes { (old new : F) (failed : Bool) → OnlyWrites F.Folder old new (IsTrue failed)
        → IsTrue failed → F.faults old < 2 ^ 64 - 1 → F.faults old < F.faults new }
    ensures both { (old new : F) (failed : Bool) → ReadsAndWrites F.Folder old new (IsTrue failed)
        → IsTrue failed → F.faults old < 2 ^ 64 - 1 → F.faults old < F.faults new }
{}

/// So has a call of an output that failed.
pub fn calls_of_outputs_count_their_faults<O: Sink>()
    ensures { (old new : O) (failed : Bool) → Emits O.Sink old new (IsTrue failed)
        → IsTrue failed → O.faults old < 2 ^ 64 - 1 → O.faults old < O.faults new }
{}
