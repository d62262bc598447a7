//! Files and streams of the system.
use crate::outside::{Call, answers, emit_all};
use acas_outside::{Folder, ReadFault, ReadMiss, RealFolder, RealSink};
use std::alloc::Global;
use std::fs;
use std::io::{self, Write};
use std::rt::Files;

// A name, a call, and what is to come of it: a file of two pieces, another in its place, and a folder, which is no file.
const CALLS: &[(&str, Call<'static>)] = &[
    ("test_file", Call::Read(0, Err(ReadMiss::Absent))),
    ("test_file", Call::WriteTwo(true)),
    ("test_file", Call::Read(6, Ok((6, *b"second--")))),
    ("test_file", Call::Read(100, Ok((0, *b"--------")))),
    ("test_file", Call::ReadWhole(100, b"first second", Ok(true))),
    (
        "test_file",
        Call::ReadWhole(11, b"", Err(ReadFault::TooLong)),
    ),
    ("test_file", Call::Store(true)),
    ("test_file", Call::ReadWhole(5, b"third", Ok(true))),
    (".", Call::Read(0, Err(ReadMiss::Failed))),
    (".", Call::Store(false)),
];

const STREAM: &[(&str, Call<'static>)] = &[(
    "test_stream",
    Call::ReadWhole(100, b"one two three four", Ok(true)),
)];

// Whether that comes of calls one after the other.
fn are_answered<R: Files>(rt: &R, alloc: Global, calls: &[(&str, Call<'_>)]) -> bool {
    let mut folder = RealFolder::new(rt);
    for &(name, call) in calls {
        if !answers(alloc, &mut folder, name, call) {
            return false;
        }
    }
    true
}

// Whether a file takes more, which it does not where there is none.
fn appends<R: Files>(rt: &R, name: &str) -> bool {
    RealFolder::new(rt).append(name, b"first").is_ok()
}

fn is_removed<R: Files>(rt: &R, name: &str) -> bool {
    fs::remove_file(rt, name).is_ok()
}

fn keeps_files<R: Files>(rt: &R, alloc: Global) -> bool {
    let _was_left = is_removed(rt, "test_file");
    !appends(rt, "test_file") && are_answered(rt, alloc, CALLS) && is_removed(rt, "test_file")
}

#[test]
fn the_system_keeps_files(rt: HostRuntime) {
    assert!(rt; keeps_files(&rt, rt.alloc()));
}

// Whether a file, if it is open, takes a stream.
fn takes_stream<W: Write + Drop>(file: io::Result<W>) -> Option<bool> {
    let mut sink = RealSink::new(file.ok()?);
    Some(emit_all(&mut sink).is_ok())
}

// A file that is opened for reading takes nothing.
fn takes_streams<R: Files>(rt: &R, alloc: Global) -> bool {
    let _was_left = is_removed(rt, "test_stream");
    takes_stream(fs::create(rt, "test_stream")) == Some(true)
        && are_answered(rt, alloc, STREAM)
        && takes_stream(fs::open(rt, "test_stream")) == Some(false)
        && is_removed(rt, "test_stream")
}

#[test]
fn the_system_takes_streams(rt: HostRuntime) {
    assert!(rt; takes_streams(&rt, rt.alloc()));
}
