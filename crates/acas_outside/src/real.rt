//! The files and streams of the system. They tell no content.
ghost use Rattle.std.specs.Prelude.{◌≡◌, ◌+◌, ◌<◌, ◌≤◌, None, true, length, IfOk, OnErr};
ghost use Rattle.acas_outside.specs.Counts.{Rose};

use crate::folder::{Folder, ReadMiss};
use crate::sink::{Failed, Sink};
use std::fs::{self, OpenOptions};
use std::io::{self, ErrorKind, Read, Seek, SeekFrom, Write};
use std::rt::Files;

/// How many bytes one read asks for at most.
const PIECE: usize = 65_536;

/// The files of the system, which a runtime opens. A read of a name that the system does not find is a miss, and
/// each other call that fails is a fault.
#[derive(Drop)]
pub struct RealFolder<'r, R: Files> {
    rt: &'r R,
    faults: u64,
    misses: u64,
    taken: u64,
}

impl<'r, R: Files> RealFolder<'r, R> {
    /// The files that this runtime opens, of which no call was made yet.
    pub fn new(rt: &'r R) -> RealFolder<'r, R>
        ensures faults { ⟦<RealFolder<'r, R> as Folder>⟧.faults result ≡ 0 }
        ensures misses { ⟦<RealFolder<'r, R> as Folder>⟧.misses result ≡ 0 }
        ensures taken { ⟦<RealFolder<'r, R> as Folder>⟧.taken result ≡ 0 }
        ensures untold { ⟦<RealFolder<'r, R> as Folder>⟧.holds result ≡ None }
    {
        RealFolder {
            rt,
            faults: 0,
            misses: 0,
            taken: 0,
        }
    }
}

impl<R: Files> Folder for RealFolder<'_, R> {
    ghost holds = { λ _. None };

    ghost faults = { λ folder. folder.faults };

    ghost misses = { λ folder. folder.misses };

    ghost taken = { λ folder. folder.taken };

    ghost serves = { λ _ _. true };

    fn read(&mut self, name: &str, at: u64, into: &mut [u8]) -> Result<usize, ReadMiss> {
        let mut file = match fs::open(self.rt, name) {
            Ok(file) => file,
            Err(error) => {
                if error.kind() == ErrorKind::NotFound {
                    self.misses = self.misses.saturating_add(1);
                    return Err(ReadMiss::Absent);
                }
                self.faults = self.faults.saturating_add(1);
                return Err(ReadMiss::Failed);
            }
        };
        let mut piece = [0u8; PIECE];
        let asked = into.len().min(PIECE);
        match read_at(&mut file, at, &mut piece[..asked]) {
            Ok(count) => {
                into[..count].copy_from_slice(&piece[..count]);
                self.taken = self.taken.saturating_add(count as u64);
                Ok(count)
            }
            Err(_) => {
                self.faults = self.faults.saturating_add(1);
                Err(ReadMiss::Failed)
            }
        }
    }

    fn create(&mut self, name: &str) -> Result<(), Failed> {
        match fs::create(self.rt, name) {
            Ok(_) => Ok(()),
            Err(_) => {
                self.faults = self.faults.saturating_add(1);
                Err(Failed)
            }
        }
    }

    fn append(&mut self, name: &str, piece: &[u8]) -> Result<usize, Failed> {
        let written = append_once(self.rt, name, piece);
        counted(written, piece, &mut self.faults)
    }
}

// One write behind the end of a file that is there.
fn append_once<R: Files>(rt: &R, name: &str, piece: &[u8]) -> io::Result<usize>
    ensures { IfOk result (λ n. n ≤ length piece.now) }
{
    let mut how = OpenOptions::new();
    how.append(true);
    let mut file = how.open(rt, name)?;
    file.write(piece)
}

// What is answered of one write of a piece. One that fails, or takes nothing of the piece, is counted as a fault.
fn counted(written: io::Result<usize>, piece: &[u8], faults: &mut u64) -> Result<usize, Failed>
    requires { IfOk written (λ n. n ≤ length piece.now) }
    ensures bound { IfOk result (λ n. n ≤ length piece.now) }
    ensures failed { OnErr result (Rose faults.old faults.new) }
    ensures none { IfOk result (λ n. n ≡ 0 → 0 < length piece.now → Rose faults.old faults.new) }
    ensures faults { faults.old ≤ faults.new }
{
    match written {
        Ok(count) => {
            if count == 0 && !piece.is_empty() {
                *faults = faults.saturating_add(1);
            }
            Ok(count)
        }
        Err(_) => {
            *faults = faults.saturating_add(1);
            Err(Failed)
        }
    }
}

// One read from a place on.
fn read_at<F: Read + Seek>(file: &mut F, at: u64, into: &mut [u8]) -> io::Result<usize>
    ensures { IfOk result (λ n. n ≤ length into.new) }
{
    file.seek(SeekFrom::Start(at))?;
    file.read(into)
}

/// A stream of the system, which a writer takes. Each write that fails, or takes nothing of a piece, is a
/// fault.
#[derive(Drop)]
pub struct RealSink<W: Write + Drop> {
    writer: W,
    faults: u64,
}

impl<W: Write + Drop> RealSink<W> {
    /// The stream of this writer, on which no call was made yet.
    pub fn new(writer: W) -> RealSink<W>
        ensures faults { ⟦<RealSink<W> as Sink>⟧.faults result ≡ 0 }
        ensures untold { ⟦<RealSink<W> as Sink>⟧.written result ≡ None }
    {
        RealSink { writer, faults: 0 }
    }
}

impl<W: Write + Drop> Sink for RealSink<W> {
    ghost written = { λ _. None };

    ghost faults = { λ sink. sink.faults };

    fn write(&mut self, piece: &[u8]) -> Result<usize, Failed> {
        let written = self.writer.write(piece);
        counted(written, piece, &mut self.faults)
    }
}
