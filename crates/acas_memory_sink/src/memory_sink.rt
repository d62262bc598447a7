//! A sink in memory, whose listed calls fail.
ghost use Rattle.std.specs.Prelude.{◌≡◌, ◌≤◌, IfOk};

use acas_outside::{Failed, ListedCalls, Sink};
use std::alloc::{AllocError, Global};

/// A sink in memory, which tells what was written. It takes at most `most` bytes per write, and its listed writes
/// fail.
#[derive(Drop)]
pub struct MemorySink {
    bytes: Vec<u8>,
    writes: ListedCalls,
    most: u32,
    refused: u64,
    ghost takes_some: { 1 ≤ most },
}

impl MemorySink {
    ghost use Rattle.acas_memory_sink.specs.MemorySink.{sink_state, new_sink};

    /// A sink to which nothing is written. `writes` are the numbers of the writes that are to fail, counted from 0,
    /// and `most` is the greatest number of bytes per write, at least 1.
    pub fn new(alloc: Global, writes: Vec<u64>, most: u32) -> Result<MemorySink, AllocError>
        requires { 1 ≤ most }
        ensures { IfOk result (λ sink. sink_state sink ≡ new_sink writes.items most) }
    {
        Ok(MemorySink {
            bytes: Vec::new(alloc),
            writes: ListedCalls::new(writes),
            most,
            refused: 0,
        })
    }

    /// All that was written.
    pub fn written(&self) -> &[u8]
        ensures { result.now ≡ (sink_state self.now).written }
    {
        &self.bytes
    }

    /// How many writes were made, those that failed among them.
    pub fn calls(&self) -> u64
        ensures { result ≡ (sink_state self.now).writes.made }
    {
        self.writes.made
    }

    /// How many writes failed for want of memory.
    pub fn refused(&self) -> u64
        ensures { result ≡ (sink_state self.now).refused }
    {
        self.refused
    }
}

impl Sink for MemorySink {
    ghost use Rattle.std.specs.Prelude.{◌≡◌, ◌≤◌, ◌<◌, length, take, IfOk, OnErr, Some};
    ghost use Rattle.acas_outside.specs.Bytes.{Appends};
    ghost use Rattle.acas_outside.specs.Counts.{Rose};
    ghost use Rattle.acas_memory_sink.specs.MemorySink.{sink_state, faults_of, WritesInMemory};

    ghost written = { λ sink. Some (sink_state sink).written };

    ghost faults = { λ sink. faults_of (sink_state sink) };

    fn write(&mut self, piece: &[u8]) -> Result<usize, Failed>
        ensures bound { IfOk result (λ n. n ≤ length piece.now) }
        ensures ok { let old = (sink_state self.old).written in let new = (sink_state self.new).written in
            IfOk result (λ n. Appends (Some old) (Some new) (take n piece.now)) }
        ensures err { OnErr result ((sink_state self.new).written ≡ (sink_state self.old).written) }
        ensures failed { OnErr result
            (Rose (faults_of (sink_state self.old)) (faults_of (sink_state self.new))) }
        ensures none { IfOk result (λ n. n ≡ 0 → 0 < length piece.now →
            Rose (faults_of (sink_state self.old)) (faults_of (sink_state self.new))) }
        ensures faults { faults_of (sink_state self.old) ≤ faults_of (sink_state self.new) }

        // It fails exactly where the call is listed, or where memory was refused.
        ensures exact { WritesInMemory (sink_state self.old) (sink_state self.new) piece.now result }
    {
        if self.writes.count() {
            self.writes.failed = self.writes.failed.saturating_add(1);
            return Err(Failed);
        }
        let count = piece.len().min(self.most as usize);
        if self.bytes.extend_from_slice(&piece[..count]).is_err() {
            self.refused = self.refused.saturating_add(1);
            return Err(Failed);
        }
        Ok(count)
    }
}
