//! Folders and outputs in memory, of which calls fail, and a buffer before them.
ghost use Rattle.std.specs.Prelude.{IsTrue};

use acas_memory_sink::MemorySink;
use acas_outside::{
    Failed, Folder, MemoryFolder, PrintBuffer, ReadFault, ReadMiss, Sink, emit, emit_parts,
    read_whole, store_file, write_piece,
};
use std::alloc::{AllocError, Global};

// A folder of which the reads, creates and appends of these numbers fail.
fn folder_failing(
    alloc: Global,
    reads: &[u64],
    creates: &[u64],
    appends: &[u64],
    most: u32,
) -> Result<MemoryFolder, AllocError> {
    MemoryFolder::new(
        alloc,
        reads.to_vec(alloc)?,
        creates.to_vec(alloc)?,
        appends.to_vec(alloc)?,
        most.max(1),
    )
}

fn sink_failing(alloc: Global, writes: &[u64], most: u32) -> Result<MemorySink, AllocError> {
    MemorySink::new(alloc, writes.to_vec(alloc)?, most.max(1))
}

/// A call of a folder, and what is to come of it.
#[derive(Clone, Copy)]
pub enum Call<'b> {
    /// A read of a file from a place on: how many bytes it gives, and up to eight bytes.
    Read(u64, Result<(usize, [u8; 8]), ReadMiss>),
    /// A read of a whole file of at most so many bytes, up to 100: whether it has these.
    ReadWhole(u32, &'b [u8], Result<bool, ReadFault>),
    /// A new file of two pieces: whether it is written.
    WriteTwo(bool),
    /// Another file in its place: whether it is stored.
    Store(bool),
}

/// Whether that comes of a call under a name.
pub fn answers<F: Folder>(alloc: Global, folder: &mut F, name: &str, call: Call<'_>) -> bool
    requires { IsTrue (F.serves folder.old name.now) }
{
    match call {
        Call::Read(at, want) => read_at(folder, name, at) == want,
        Call::ReadWhole(limit, bytes, want) => reads_whole(alloc, folder, name, limit, bytes)
            == want,
        Call::WriteTwo(want) => write_two(folder, name).is_ok() == want,
        Call::Store(want) => store_file(folder, name, b"third").is_ok() == want,
    }
}

fn read_at<F: Folder>(folder: &mut F, name: &str, at: u64) -> Result<(usize, [u8; 8]), ReadMiss>
    requires { IsTrue (F.serves folder.old name.now) }
{
    let mut into = *b"--------";
    let count = folder.read(name, at, &mut into)?;
    Ok((count, into))
}

fn reads_whole<F: Folder>(
    alloc: Global,
    folder: &mut F,
    name: &str,
    limit: u32,
    bytes: &[u8],
) -> Result<bool, ReadFault>
    requires { IsTrue (F.serves folder.old name.now) }
{
    let whole = read_whole(alloc, folder, name, u64::from(limit.min(100)))?;
    Ok(whole.as_slice() == bytes)
}

// Makes a file of two pieces: each call finds the name held.
fn write_two<F: Folder>(folder: &mut F, name: &str) -> Result<(), Failed>
    requires { IsTrue (F.serves folder.old name.now) }
{
    folder.create(name)?;
    write_piece(folder, name, b"first ")?;
    write_piece(folder, name, b"second")
}

/// Writes pieces by each way to do so.
pub fn emit_all<S: Sink>(sink: &mut S) -> Result<(), Failed> {
    emit(sink, b"one")?;
    emit_parts(
        sink,
        &[b" two".as_slice(), b"".as_slice(), b" three".as_slice()],
    )?;
    emit_parts(
        sink,
        &[
            b" f".as_slice(),
            b"o".as_slice(),
            b"u".as_slice(),
            b"r".as_slice(),
        ],
    )
}

// A name, a call, what is to come of it, and what the name holds afterwards.
type Held = (&'static str, Call<'static>, Option<&'static [u8]>);

fn holds(folder: &MemoryFolder, name: &str, bytes: Option<&[u8]>) -> bool {
    folder.get(name) == bytes
}

// Whether that comes of calls one after the other, and no memory was refused.
fn is_held(alloc: Global, folder: &mut MemoryFolder, calls: &[Held]) -> bool {
    for &(name, call, held) in calls {
        if !answers(alloc, folder, name, call) || !holds(folder, name, held) {
            return false;
        }
    }
    folder.refused() == 0
}

// The same, where there is a folder.
fn are_held(
    alloc: Global,
    folder: Result<MemoryFolder, AllocError>,
    calls: &[Held],
) -> Option<bool> {
    let mut folder = folder.ok()?;
    Some(is_held(alloc, &mut folder, calls))
}

// A file of two pieces, and a file in its place.
const KEPT: &[Held] = &[
    ("t", Call::WriteTwo(true), Some(b"first second")),
    ("u", Call::ReadWhole(12, b"", Err(ReadFault::Absent)), None),
    (
        "t",
        Call::ReadWhole(12, b"first second", Ok(true)),
        Some(b"first second"),
    ),
    (
        "t",
        Call::ReadWhole(11, b"", Err(ReadFault::TooLong)),
        Some(b"first second"),
    ),
    ("t", Call::Store(true), Some(b"third")),
];

#[test]
fn memory_keeps_files(rt: HostRuntime) {
    for most in [1, 4_096] {
        let folder = folder_failing(rt.alloc(), &[], &[], &[], most);
        assert!(rt; are_held(rt.alloc(), folder, KEPT) == Some(true));
    }
}

// Writes that fail, the most bytes a write takes, whether all is written, and what is.
type Emitted = (&'static [u64], u32, bool, &'static [u8]);

const EMITTED: &[Emitted] = &[
    (&[], 1, true, b"one two three four"),
    (&[], 4_096, true, b"one two three four"),
    (&[1], 2, false, b"on"),
];

// Whether such a sink takes all, or not, and keeps these bytes; a second time it takes all, and no memory was refused.
fn is_emitted(alloc: Global, &(writes, most, done, bytes): &Emitted) -> Option<bool> {
    let mut sink = sink_failing(alloc, writes, most).ok()?;
    let all = emit_all(&mut sink).is_ok();
    let kept = sink.written() == bytes;
    let again = emit_all(&mut sink).is_ok();
    Some(all == done && kept && again && sink.refused() == 0)
}

#[test]
fn memory_keeps_streams(rt: HostRuntime) {
    for row in EMITTED {
        let met = is_emitted(rt.alloc(), row);
        assert!(rt; met == Some(true));
    }
}

// A folder of one file, of which the first three reads fail.
fn folder_failing_reads(alloc: Global) -> Result<MemoryFolder, AllocError> {
    let mut folder = folder_failing(alloc, &[0, 1, 2], &[], &[], 4)?;
    folder.put("t", b"first second".to_vec(alloc)?)?;
    Ok(folder)
}

// A listed read of a name that is not held is a miss.
const READS: &[Held] = &[
    ("u", Call::Read(0, Err(ReadMiss::Absent)), None),
    (
        "t",
        Call::Read(0, Err(ReadMiss::Failed)),
        Some(b"first second"),
    ),
    (
        "t",
        Call::ReadWhole(12, b"", Err(ReadFault::Failed)),
        Some(b"first second"),
    ),
    (
        "t",
        Call::Read(6, Ok((4, *b"seco----"))),
        Some(b"first second"),
    ),
    (
        "t",
        Call::Read(12, Ok((0, *b"--------"))),
        Some(b"first second"),
    ),
];

#[test]
fn listed_reads_fail(rt: HostRuntime) {
    let folder = folder_failing_reads(rt.alloc());
    assert!(rt; are_held(rt.alloc(), folder, READS) == Some(true));
}

const WRITES: &[Held] = &[
    ("t", Call::WriteTwo(false), None),
    ("t", Call::WriteTwo(false), Some(b"firs")),
    ("t", Call::Store(false), Some(b"firs")),
];

#[test]
fn listed_creates_and_appends_fail(rt: HostRuntime) {
    let folder = folder_failing(rt.alloc(), &[], &[0, 2], &[1], 4);
    assert!(rt; are_held(rt.alloc(), folder, WRITES) == Some(true));
}

const MESSAGES: &[(ReadFault, &str)] = &[
    (ReadFault::Absent, "the file is absent"),
    (ReadFault::Failed, "a read of the file failed"),
    (ReadFault::TooLong, "the file is too long"),
    (ReadFault::Memory, "out of memory"),
];

fn has_message(alloc: Global, fault: ReadFault, message: &str) -> Option<bool> {
    let text = format!(in alloc; "{fault}").ok()?;
    Some(text.as_str() == message)
}

#[test]
fn read_faults_have_messages(rt: HostRuntime) {
    let alloc = rt.alloc();
    assert!(rt;
        MESSAGES.iter().all(|&(fault, message)| has_message(alloc, fault, message) == Some(true))
    );
}

// Prints so many pieces of 40,000 bytes, and writes out what waits.
fn print_pieces<S: Sink>(alloc: Global, sink: &mut S, count: u32) -> Option<bool> {
    let piece = vec![in alloc; b'p'; 40_000].ok()?;
    let mut buffer = PrintBuffer::make(alloc).ok()?;
    for _ in 0..count {
        if buffer.print(sink, &piece).is_err() {
            return Some(false);
        }
    }
    Some(buffer.flush(sink).is_ok())
}

// Writes that fail, a count of pieces, whether all are written out, and how many bytes are.
type Gathered = (&'static [u64], u32, bool, usize);

// A block holds one of these pieces, so the second write goes out with the last flush.
const GATHERED: &[Gathered] = &[
    (&[], 0, true, 0),
    (&[], 2, true, 80_000),
    (&[0], 1, false, 0),
    (&[0], 2, false, 0),
    (&[1], 2, false, 40_000),
];

fn is_gathered(alloc: Global, &(writes, count, done, written): &Gathered) -> Option<bool> {
    let mut sink = sink_failing(alloc, writes, 65_536).ok()?;
    let all = print_pieces(alloc, &mut sink, count)?;
    Some(all == done && sink.written().len() == written)
}

#[test]
fn pieces_are_gathered(rt: HostRuntime) {
    for row in GATHERED {
        assert!(rt; is_gathered(rt.alloc(), row) == Some(true));
    }
}
