//! A file that is read from its front, with the next bytes at hand and the digest of those that were read.
//!
//! The digest takes in large pieces: what was read stays in the buffer until more bytes are wanted or the digest is.
ghost use Rattle.std.specs.Prelude.{◌≡◌, ◌≤◌, ◌<◌, ◌+◌, ◌-◌, ◌^◌, length, IfOk};

use crate::decoding::{decode_entry, decode_number};
use acas_outside::{Folder, ReadMiss};
use acas_table_text::{Field, Format, TableFault};
use acas_units::Entry;
use sha2::{Digest, Sha256};
use std::alloc::{AllocError, Global};

/// How many bytes one read asks for.
const PIECE: usize = 65_535;

/// How many bytes an entry has.
pub const ENTRY: usize = 17;

/// How many bytes a version has.
const VERSION: usize = 4;

#[derive(Drop)]
pub struct Source {
    buffer: Vec<u8>,
    hashed: usize,
    from: usize,
    to: usize,
    place: u64,
    limit: u64,
    expected: u64,
    mark: u64,
    hasher: Sha256,
    ghost behind: { hashed ≤ from },
    ghost ordered: { from ≤ to },
    ghost room: { to ≤ length buffer.items },
    ghost size: { 64 ≤ length buffer.items },
    ghost limited: { place + (to - from) ≤ limit },
    ghost finite: { limit < 2 ^ 64 },
    ghost marked: { mark + (from - hashed) ≤ place },
}

impl Source {
    ghost use Rattle.std.specs.Prelude.{◌≡◌, ◌≤◌, ◌<◌, ◌+◌, ◌-◌, ◌^◌, List, ℕ, IsTrue, OnErr, OnOk, IfOk, IfSome, Option, Some, length, ⊤};
    ghost use Rattle.sha2.specs.Sha256.{sha256};
    ghost use Rattle.byteorder.specs.Endian.{little_number};
    ghost use Rattle.acas_table_text.specs.Format.{format_of_version, part};
    ghost use Rattle.acas_table_text.specs.Text.{entry_of};
    ghost use Rattle.acas_table_text.specs.Faults.{end_fault, fault_at, fields_fault, more_fault, width_of, widths};
    ghost use Rattle.acas_outside.specs.Files.{Given};
    ghost use Rattle.acas_outside.specs.Bytes.{IsBytes};
    ghost use Rattle.acas_units.specs.declared.pair.Entry.{Entry as EntryData};
    ghost use Rattle.acas_table.specs.AtHand.{HasAtHand};
    ghost use Rattle.acas_table.specs.Source.{IsAt, IsAtFile, Moves, Checks, Fills, Finds, ReadsTable, Steps, bytes_taken};

    /// A source at the front of a file that is to have so many bytes, and takes no more than `limit` bytes of it.
    pub fn new(alloc: Global, expected: u64, limit: u64) -> Result<Source, AllocError>
        ensures place { IfOk result (λ s. s.place ≡ 0) }
        ensures expected { IfOk result (λ s. s.expected ≡ expected) }
        ensures limit { IfOk result (λ s. s.limit ≡ limit) }
        ensures mark { IfOk result (λ s. s.mark ≡ 0) }
        ensures taken { IfOk result (λ s. bytes_taken s ≡ 0) }
        ensures at { IfOk result (λ s. (file : Option (List ℕ)) → IsAtFile s file) }
    {
        Ok(Source {
            buffer: room(alloc)?,
            hashed: 0,
            from: 0,
            to: 0,
            place: 0,
            limit,
            expected,
            mark: 0,
            hasher: Sha256::new(),
        })
    }

    /// Expects a file of so many bytes from now on, and takes at most one byte more.
    pub fn expect(&mut self, expected: u64)
        requires most { expected < 2 ^ 63 }
        requires taken { bytes_taken self.old ≤ expected + 1 }
        ensures at { (file : Option (List ℕ)) → IsAtFile self.old file → IsAtFile self.new file }
        ensures place { self.new.place ≡ self.old.place }
        ensures expected { self.new.expected ≡ expected }
        ensures limit { self.new.limit ≡ expected + 1 }
        ensures mark { self.new.mark ≡ self.old.mark }
        ensures taken { bytes_taken self.new ≡ bytes_taken self.old }
    {
        self.expected = expected;
        self.limit = expected + 1;
    }

    // Reads more bytes behind those at hand.
    #[inline(never)]
    fn more<F: Folder>(&mut self, folder: &mut F, name: &str) -> Result<(), TableFault>
        requires served { IsTrue (F.serves folder.old name.now) }
        requires room { self.old.to < length self.old.buffer.items }
        requires limit { bytes_taken self.old < self.old.limit }
        ensures given { Given (F.holds folder.old) name.now (λ file. IsAtFile self.old file →
            Checks (λ bytes. end_fault self.old.expected bytes (bytes_taken self.old) 1) (λ _ _. ⊤)
            file self.new result) }
        ensures grows { OnOk result (self.old.to < self.new.to) }
        ensures none { OnErr result (self.new.to ≡ self.old.to) }
        ensures same { Moves self.old self.new }
        ensures from { self.new.from ≡ self.old.from }
        ensures hashed { self.new.hashed ≡ self.old.hashed }
        ensures reads { ReadsTable F.Folder folder.old folder.new name.now self.old self.new result }
    {
        let at = self.place + (self.to - self.from) as u64;
        let room = (self.buffer.len() - self.to).min((self.limit - at) as usize);
        let end = self.to + room;
        match folder.read(name, at, &mut self.buffer[self.to..end]) {
            Ok(0) => Err(TableFault::Length {
                expected: self.expected,
                found: at,
            }),
            Ok(count) => {
                self.to += count;
                Ok(())
            }
            Err(ReadMiss::Absent) => Err(TableFault::Absent),
            Err(ReadMiss::Failed) => Err(TableFault::Failed),
        }
    }

    // Sees that so many bytes are at hand. Where they are not, it reads on, by calls that are made once for many fields.
    #[inline(always)]
    fn fill<F: Folder>(
        &mut self,
        folder: &mut F,
        name: &str,
        wanted: usize,
    ) -> Result<(), TableFault>
        requires served { IsTrue (F.serves folder.old name.now) }
        requires some { 0 < wanted }
        requires small { wanted ≤ 64 }
        requires limit { self.old.place + wanted ≤ self.old.limit }
        ensures { Fills F.Folder folder.old folder.new name.now self.old self.new wanted result }
    {
        if self.to - self.from >= wanted {
            return Ok(());
        }
        self.hash();
        self.shift();
        while self.to < wanted {
            self.more(folder, name)?;
        }
        Ok(())
    }

    // Moves the bytes at hand to the front.
    #[inline(never)]
    fn shift(&mut self)
        requires { self.old.hashed ≡ self.old.from }
        ensures at { (file : Option (List ℕ)) → IsAtFile self.old file → IsAtFile self.new file }
        ensures from { self.new.from ≡ 0 }
        ensures to { self.new.to ≡ self.old.to - self.old.from }
        ensures same { Moves self.old self.new }
        ensures taken { bytes_taken self.new ≡ bytes_taken self.old }
    {
        self.buffer.copy_within(self.from..self.to, 0);
        self.to -= self.from;
        self.from = 0;
        self.hashed = 0;
    }

    // Lets the digest take in all that was read.
    #[inline(never)]
    fn hash(&mut self)
        ensures at { (file : Option (List ℕ)) → IsAtFile self.old file → IsAtFile self.new file }
        ensures hashed { self.new.hashed ≡ self.new.from }
        ensures from { self.new.from ≡ self.old.from }
        ensures to { self.new.to ≡ self.old.to }
        ensures same { Moves self.old self.new }
        ensures taken { bytes_taken self.new ≡ bytes_taken self.old }
    {
        self.hasher.update(&self.buffer[self.hashed..self.from]);
        self.hashed = self.from;
    }

    // Bytes that are at hand.
    fn at_hand(&self, count: usize) -> &[u8]
        requires { count ≤ self.now.to - self.now.from }
        ensures long { length result.now ≡ count }
        ensures value { (bytes : List ℕ) → IsAt self.now bytes →
            result.now ≡ part bytes self.now.place count }
        ensures is { result.now ≡ part self.now.buffer.items self.now.from count }
    {
        &self.buffer[self.from..self.from + count]
    }

    /// Passes over bytes that are at hand.
    pub fn pass(&mut self, count: usize)
        requires there { count ≤ self.old.to - self.old.from }
        requires bytes { IsBytes (part self.old.buffer.items self.old.from count) }
        ensures at { (bytes : List ℕ) → IsAt self.old bytes → IsAt self.new bytes }
        ensures steps { Steps self.old self.new count }
        ensures taken { bytes_taken self.new ≡ bytes_taken self.old }
    {
        self.from += count;
        self.place += count as u64;
    }

    /// Checks the next field of the file, which the digest takes in.
    pub fn check<F: Folder>(
        &mut self,
        field: &Field,
        folder: &mut F,
        name: &str,
    ) -> Result<(), TableFault>
        requires served { IsTrue (F.serves folder.old name.now) }
        requires limit { self.old.place + width_of field.now ≤ self.old.limit }
        ensures given { Given (F.holds folder.old) name.now (λ file. IsAtFile self.old file →
            Checks (fault_at self.old.expected self.old.place field.now) (λ _ _. ⊤) file self.new result) }
        ensures steps { OnOk result (Steps self.old self.new (width_of field.now)) }
        ensures reads { ReadsTable F.Folder folder.old folder.new name.now self.old self.new result }
    {
        let width = field.width();
        self.fill(folder, name, width)?;
        let fault = field.fault(self.at_hand(width));
        self.pass(width);
        match fault {
            Some(fault) => Err(fault),
            None => Ok(()),
        }
    }

    /// Checks fields that follow one another.
    pub fn check_all<F: Folder>(
        &mut self,
        fields: &[Field],
        folder: &mut F,
        name: &str,
    ) -> Result<(), TableFault>
        requires served { IsTrue (F.serves folder.old name.now) }
        requires some { 0 < length fields.now }
        requires limit { self.old.place + widths fields.now ≤ self.old.limit }
        ensures given { Given (F.holds folder.old) name.now (λ file. IsAtFile self.old file →
            Checks (fields_fault self.old.expected self.old.place fields.now) (λ _ _. ⊤)
            file self.new result) }
        ensures steps { OnOk result (Steps self.old self.new (widths fields.now)) }
        ensures reads { ReadsTable F.Folder folder.old folder.new name.now self.old self.new result }
    {
        for field in fields {
            self.check(field, folder, name)?;
        }
        Ok(())
    }

    /// The next four bytes of the file, which are its version and say its format.
    pub fn version<F: Folder>(&mut self, folder: &mut F, name: &str) -> Result<Format, TableFault>
        requires served { IsTrue (F.serves folder.old name.now) }
        requires limit { self.old.place + 4 ≤ self.old.limit }
        ensures given { Given (F.holds folder.old) name.now (λ file. IsAtFile self.old file →
            Checks (fault_at self.old.expected self.old.place Field.Version)
            (λ format bytes. format_of_version (little_number 4 (part bytes self.old.place 4)) ≡ Some format)
            file self.new result) }
        ensures steps { OnOk result (Steps self.old self.new 4) }
        ensures reads { ReadsTable F.Folder folder.old folder.new name.now self.old self.new result }
    {
        self.fill(folder, name, VERSION)?;
        let found = decode_number(self.at_hand(VERSION));
        self.pass(VERSION);
        match Format::of_version(found) {
            Some(format) => Ok(format),
            None => Err(TableFault::Version { found }),
        }
    }

    /// The next entry of the file, which the digest takes in.
    pub fn entry<F: Folder>(&mut self, folder: &mut F, name: &str) -> Result<Entry, TableFault>
        requires served { IsTrue (F.serves folder.old name.now) }
        requires limit { self.old.place + 17 ≤ self.old.limit }
        ensures given { Given (F.holds folder.old) name.now (λ file. IsAtFile self.old file →
            Checks (λ bytes. end_fault self.old.expected bytes self.old.place 17)
            (λ entry bytes. entry ≡ entry_of (part bytes self.old.place 17)) file self.new result) }
        ensures steps { OnOk result (Steps self.old self.new 17) }
        ensures reads { ReadsTable F.Folder folder.old folder.new name.now self.old self.new result }
    {
        self.fill(folder, name, ENTRY)?;
        let entry = decode_entry(self.at_hand(ENTRY));
        self.pass(ENTRY);
        Ok(entry)
    }

    /// The next entry of the file, where all its bytes are at hand.
    pub fn peek(&self) -> Option<Entry>
        ensures at_hand { IfSome result (HasAtHand self.now) }
        ensures all { (entry : EntryData) → HasAtHand self.now entry → result ≡ Some entry }
    {
        if self.to - self.from < ENTRY {
            return None;
        }
        Some(decode_entry(self.at_hand(ENTRY)))
    }

    /// Sees that no byte follows the expected ones.
    pub fn ends<F: Folder>(&mut self, folder: &mut F, name: &str) -> Result<(), TableFault>
        requires served { IsTrue (F.serves folder.old name.now) }
        requires place { self.old.place ≡ self.old.expected }
        requires limit { self.old.limit ≡ self.old.expected + 1 }
        ensures given { Given (F.holds folder.old) name.now (λ file. IsAtFile self.old file →
            Finds (more_fault self.old.expected) file result) }
        ensures all { OnOk result (bytes_taken self.new ≡ self.old.expected) }
        ensures reads { ReadsTable F.Folder folder.old folder.new name.now self.old self.new result }
    {
        match self.fill(folder, name, 1) {
            Ok(()) => Err(TableFault::Length {
                expected: self.expected,
                found: self.expected + 1,
            }),
            Err(TableFault::Length { .. }) => Ok(()),
            Err(fault) => Err(fault),
        }
    }

    /// The digest of what was read since the mark, which moves up to here.
    pub fn digest(&mut self) -> [u8; 32]
        ensures digest { (bytes : List ℕ) → IsAt self.old bytes →
            result ≡ sha256 (part bytes self.old.mark (self.old.place - self.old.mark)) }
        ensures taken { bytes_taken self.new ≡ bytes_taken self.old }
        ensures at { (file : Option (List ℕ)) → IsAtFile self.old file → IsAtFile self.new file }
        ensures place { self.new.place ≡ self.old.place }
        ensures limit { self.new.limit ≡ self.old.limit }
        ensures expected { self.new.expected ≡ self.old.expected }
        ensures mark { self.new.mark ≡ self.old.place }
    {
        self.hash();
        self.mark = self.place;
        self.hasher.finalize_reset()
    }
}

fn room(alloc: Global) -> Result<Vec<u8>, AllocError>
    ensures { IfOk result (λ v. length v.items ≡ PIECE) }
{
    vec![in alloc; 0u8; PIECE]
}
