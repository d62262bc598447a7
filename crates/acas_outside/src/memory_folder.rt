//! A folder in memory, whose listed calls fail.
ghost use Rattle.std.specs.Prelude.{◌≡◌, ◌≤◌, ◌-◌, min, length, drop, IfOk};
ghost use Rattle.acas_outside.specs.Files.{TakesFrom};

use crate::calls::Calls;
use crate::folder::{Folder, ReadMiss};
use crate::listed_calls::ListedCalls;
use crate::sink::Failed;
use crate::stored::{Stored, find, grow, store};
use std::alloc::{AllocError, Global};

/// A folder in memory, which tells what it holds. It reads and appends at most `most` bytes per call, and its
/// listed calls fail. It serves every name.
#[derive(Drop)]
pub struct MemoryFolder {
    alloc: Global,
    files: Stored,
    reads: ListedCalls,
    creates: ListedCalls,
    appends: ListedCalls,
    most: u32,
    misses: u64,
    taken: u64,
    refused: u64,
    ghost takes_some: { 1 ≤ most },
}

impl MemoryFolder {
    ghost use Rattle.std.specs.Prelude.{◌≡◌, ◌≤◌, IfOk, OnOk, OnErr, None, Some};
    ghost use Rattle.std.specs.FinMap as map;
    ghost use Rattle.std.specs.Option.{option_copied};
    ghost use Rattle.acas_outside.specs.MemoryFolder.{folder_state, new_folder};

    /// A folder that holds no file. `reads`, `creates` and `appends` are the numbers of the calls of each kind that
    /// are to fail, counted from 0, and `most` is the greatest number of bytes per call, at least 1.
    pub fn new(
        alloc: Global,
        reads: Vec<u64>,
        creates: Vec<u64>,
        appends: Vec<u64>,
        most: u32,
    ) -> Result<MemoryFolder, AllocError>
        requires { 1 ≤ most }
        ensures { IfOk result (λ folder.
            folder_state folder ≡ new_folder reads.items creates.items appends.items most) }
    {
        Ok(MemoryFolder {
            alloc,
            files: Stored::new(alloc),
            reads: ListedCalls::new(reads),
            creates: ListedCalls::new(creates),
            appends: ListedCalls::new(appends),
            most,
            misses: 0,
            taken: 0,
            refused: 0,
        })
    }

    /// How many calls of each kind were made, those that failed among them.
    pub fn calls(&self) -> Calls
        ensures reads { result.reads ≡ (folder_state self.now).reads.made }
        ensures creates { result.creates ≡ (folder_state self.now).creates.made }
        ensures appends { result.appends ≡ (folder_state self.now).appends.made }
    {
        Calls {
            reads: self.reads.made,
            creates: self.creates.made,
            appends: self.appends.made,
        }
    }

    /// How many bytes the reads have given, up to the end of 64 bits.
    pub fn taken(&self) -> u64
        ensures { result ≡ (folder_state self.now).taken }
    {
        self.taken
    }

    /// How many creates and appends failed for want of memory.
    pub fn refused(&self) -> u64
        ensures { result ≡ (folder_state self.now).refused }
    {
        self.refused
    }

    /// Makes a name hold these bytes, which counts as no call. After a refusal all is as before.
    pub fn put(&mut self, name: &str, bytes: Vec<u8>) -> Result<(), AllocError>
        ensures ok { let old = folder_state self.old in
            let files = map.insert old.files name.now bytes.items in
            OnOk result (folder_state self.new ≡ record old { files = files }) }
        ensures err { OnErr result (folder_state self.new ≡ folder_state self.old) }
    {
        store(self.alloc, &mut self.files, name, bytes)
    }

    /// The bytes of a file, where its name is held.
    pub fn get(&self, name: &str) -> Option<&[u8]>
        ensures { map.get (folder_state self.now).files name.now ≡ option_copied result }
    {
        find(&self.files, name)
    }
}

impl Folder for MemoryFolder {
    ghost use Rattle.std.specs.Prelude.{◌≡◌, ◌<◌, ◌≤◌, [], min, length, take, drop, IfOk, OnOk, OnErr, IsErrOf, IsSome, Some, true};
    ghost use Rattle.acas_outside.specs.Counts.{Rose, raised};
    ghost use Rattle.acas_outside.specs.Files.{Given, Grows, LeavesRest, Reads, Stores};
    ghost use Rattle.acas_outside.specs.MemoryFolder.{folder_state, faults_of, AppendsInMemory, CreatesInMemory, ReadsInMemory};

    ghost holds = { λ folder. Some (folder_state folder).files };

    ghost faults = { λ folder. faults_of (folder_state folder) };

    ghost misses = { λ folder. (folder_state folder).misses };

    ghost taken = { λ folder. (folder_state folder).taken };

    ghost serves = { λ _ _. true };

    fn read(&mut self, name: &str, at: u64, into: &mut [u8]) -> Result<usize, ReadMiss>
        ensures bound { IfOk result (λ n. n ≤ length into.new) }
        ensures given { let files = (folder_state self.old).files in
            Given (Some files) name.now (λ file. Reads file at result into.new) }
        ensures rest { LeavesRest result into.old into.new }
        ensures holds { (folder_state self.new).files ≡ (folder_state self.old).files }
        ensures taken { IfOk result (λ n.
            (folder_state self.new).taken ≡ raised (folder_state self.old).taken n) }
        ensures untaken { OnErr result ((folder_state self.new).taken ≡ (folder_state self.old).taken) }
        ensures failed { IsErrOf result ReadMiss.Failed →
            Rose (faults_of (folder_state self.old)) (faults_of (folder_state self.new)) }
        ensures absent { IsErrOf result ReadMiss.Absent →
            Rose (folder_state self.old).misses (folder_state self.new).misses }
        ensures faults { faults_of (folder_state self.old) ≤ faults_of (folder_state self.new) }
        ensures misses { (folder_state self.old).misses ≤ (folder_state self.new).misses }

        // It fails exactly where the call is listed and the name held.
        ensures exact { let room = length into.old in
            ReadsInMemory (folder_state self.old) (folder_state self.new) name.now at room result }
    {
        let is_listed = self.reads.count();
        let Some(bytes) = find(&self.files, name) else {
            self.misses = self.misses.saturating_add(1);
            return Err(ReadMiss::Absent);
        };
        if is_listed {
            self.reads.failed = self.reads.failed.saturating_add(1);
            return Err(ReadMiss::Failed);
        }
        let count = copy_piece(bytes, at, self.most, into);
        self.taken = self.taken.saturating_add(count as u64);
        Ok(count)
    }

    fn create(&mut self, name: &str) -> Result<(), Failed>
        ensures ok { OnOk result
            (Stores (Some (folder_state self.old).files) (Some (folder_state self.new).files) name.now []) }
        ensures err { OnErr result ((folder_state self.new).files ≡ (folder_state self.old).files) }
        ensures failed { OnErr result
            (Rose (faults_of (folder_state self.old)) (faults_of (folder_state self.new))) }
        ensures faults { faults_of (folder_state self.old) ≤ faults_of (folder_state self.new) }
        ensures misses { (folder_state self.new).misses ≡ (folder_state self.old).misses }
        ensures taken { (folder_state self.new).taken ≡ (folder_state self.old).taken }

        // It fails exactly where the call is listed, or where memory was refused.
        ensures exact { CreatesInMemory (folder_state self.old) (folder_state self.new) name.now result }
    {
        if self.creates.count() {
            self.creates.failed = self.creates.failed.saturating_add(1);
            return Err(Failed);
        }
        let empty = Vec::new(self.alloc);
        if store(self.alloc, &mut self.files, name, empty).is_err() {
            self.refused = self.refused.saturating_add(1);
            return Err(Failed);
        }
        Ok(())
    }

    fn append(&mut self, name: &str, piece: &[u8]) -> Result<usize, Failed>
        requires held { Given (Some (folder_state self.old).files) name.now (λ file. IsSome file) }
        ensures bound { IfOk result (λ n. n ≤ length piece.now) }
        ensures ok { let old = (folder_state self.old).files in let new = (folder_state self.new).files in
            IfOk result (λ n. Grows (Some old) (Some new) name.now (take n piece.now)) }
        ensures err { OnErr result ((folder_state self.new).files ≡ (folder_state self.old).files) }
        ensures failed { OnErr result
            (Rose (faults_of (folder_state self.old)) (faults_of (folder_state self.new))) }
        ensures none { IfOk result (λ n. n ≡ 0 → 0 < length piece.now →
            Rose (faults_of (folder_state self.old)) (faults_of (folder_state self.new))) }
        ensures faults { faults_of (folder_state self.old) ≤ faults_of (folder_state self.new) }
        ensures misses { (folder_state self.new).misses ≡ (folder_state self.old).misses }
        ensures taken { (folder_state self.new).taken ≡ (folder_state self.old).taken }

        // It fails exactly where the call is listed or memory was refused, and takes as much as it may.
        ensures exact { AppendsInMemory (folder_state self.old) (folder_state self.new) name.now piece.now
            result }
    {
        if self.appends.count() {
            self.appends.failed = self.appends.failed.saturating_add(1);
            return Err(Failed);
        }
        let count = piece.len().min(self.most as usize);
        if grow(&mut self.files, name, &piece[..count]).is_err() {
            self.refused = self.refused.saturating_add(1);
            return Err(Failed);
        }
        Ok(count)
    }
}

// Copies bytes of a file from a place on, at most so many.
fn copy_piece(bytes: &[u8], at: u64, most: u32, into: &mut [u8]) -> usize
    requires { 1 ≤ most }
    ensures takes { TakesFrom bytes.now at result into.new }
    ensures rest { drop result into.new ≡ drop result into.old }
    ensures count { result ≡ min (min (length bytes.now - at) (length into.old)) most }
{
    let from = bytes.len().min(at as usize);
    let left = &bytes[from..];
    let count = left.len().min(into.len()).min(most as usize);
    into[..count].copy_from_slice(&left[..count]);
    count
}
