//! What a folder and an output in memory tell. The function does nothing: its clauses are the laws.
ghost use Rattle.std.specs.Prelude.{◌≡◌, ◌+◌, [], ℕ, List, Some, true};
ghost use Rattle.std.specs.FinMap.{empty};
ghost use Rattle.acas_outside.specs.MemoryFolder.{folder_state, new_folder};
ghost use Rattle.acas_outside.specs.declared.memory_folder.MemoryFolder.{MemoryFolder as FolderInMemory};
ghost use Rattle.acas_memory_sink.specs.MemorySink.{new_sink, sink_state};
ghost use Rattle.acas_memory_sink.specs.declared.memory_sink.MemorySink.{MemorySink as SinkInMemory};

use acas_memory_sink::MemorySink;
use acas_outside::{Folder, MemoryFolder, Sink};

/// A folder in memory tells the files that it holds, at first none, and serves every name; an output in memory tells all that was written,
/// at first nothing. Both count each call that failed, as it was to or for want of memory.
pub fn memory_tells_what_it_holds()
    ensures folder { (folder : FolderInMemory) →
        ⟦<MemoryFolder as Folder>⟧.holds folder ≡ Some (folder_state folder).files }
    ensures served { (folder : FolderInMemory) (name : List ℕ) →
        ⟦<MemoryFolder as Folder>⟧.serves folder name ≡ true }
    ensures new_folder { (folder : FolderInMemory) (reads creates appends : List ℕ) (most : ℕ)
        → folder_state folder ≡ new_folder reads creates appends most
        → ⟦<MemoryFolder as Folder>⟧.holds folder ≡ Some empty }
    ensures faults { (folder : FolderInMemory) →
        let state = folder_state folder in ⟦<MemoryFolder as Folder>⟧.faults folder
        ≡ state.reads.failed + state.creates.failed + state.appends.failed + state.refused }
    ensures output_faults { (sink : SinkInMemory) → let state = sink_state sink in
        ⟦<MemorySink as Sink>⟧.faults sink ≡ state.writes.failed + state.refused }
    ensures output { (sink : SinkInMemory) →
        ⟦<MemorySink as Sink>⟧.written sink ≡ Some (sink_state sink).written }
    ensures new_output { (sink : SinkInMemory) (writes : List ℕ) (most : ℕ)
        → sink_state sink ≡ new_sink writes most → ⟦<MemorySink as Sink>⟧.written sink ≡ Some [] }
{}
