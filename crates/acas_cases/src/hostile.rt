//! A folder of which a file never ends, and an output that takes nothing.
ghost use Rattle.std.specs.Prelude.{None, true};

use acas_memory_sink::MemorySink;
use acas_outside::{Failed, Folder, MemoryFolder, ReadMiss, Sink};

/// A folder in memory of which one file never ends. It tells nothing.
#[derive(Drop)]
pub struct Endless {
    pub files: MemoryFolder,
    name: String,
    pub taken: u64,
}

impl Endless {
    /// The folder of these files, of which the one of this name never ends.
    pub fn new(files: MemoryFolder, name: String) -> Endless {
        Endless {
            files,
            name,
            taken: 0,
        }
    }
}

impl Folder for Endless {
    ghost holds = { λ _. None };

    ghost faults = { λ folder. ⟦<MemoryFolder as Folder>⟧.faults folder.files };

    ghost misses = { λ folder. ⟦<MemoryFolder as Folder>⟧.misses folder.files };

    ghost taken = { λ folder. folder.taken };

    ghost serves = { λ _ _. true };

    fn read(&mut self, name: &str, at: u64, into: &mut [u8]) -> Result<usize, ReadMiss> {
        let mut count = self.files.read(name, at, into)?;
        if count == 0 && name == self.name.as_str() {
            into.fill(b'#');
            count = into.len();
        }
        self.taken = self.taken.saturating_add(count as u64);
        Ok(count)
    }

    fn create(&mut self, name: &str) -> Result<(), Failed> {
        self.files.create(name)
    }

    fn append(&mut self, name: &str, piece: &[u8]) -> Result<usize, Failed> {
        if self.files.get(name).is_some() {
            return self.files.append(name, piece);
        }
        self.files.create(name)?;
        self.files.append(name, piece)
    }
}

/// An output in memory, which may take nothing. It tells nothing.
#[derive(Drop)]
pub struct Stuck {
    pub sink: MemorySink,
    is_stuck: bool,
    faults: u64,
}

impl Stuck {
    /// This output, which takes nothing where it is stuck.
    pub fn new(sink: MemorySink, is_stuck: bool) -> Stuck {
        Stuck {
            sink,
            is_stuck,
            faults: 0,
        }
    }
}

impl Sink for Stuck {
    ghost written = { λ _. None };

    ghost faults = { λ sink. sink.faults };

    fn write(&mut self, piece: &[u8]) -> Result<usize, Failed> {
        if self.is_stuck {
            self.faults = self.faults.saturating_add(1);
            return Ok(0);
        }
        let written = self.sink.write(piece);
        if written.ok() != Some(piece.len()) {
            self.faults = self.faults.saturating_add(1);
        }
        written
    }
}
