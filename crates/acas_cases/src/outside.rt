//! A case over a folder and two outputs in memory.
use crate::hostile::{Endless, Stuck};
use crate::texts::words_of;
use acas_cli::{Cause, FileRole, Status, Work, run};
use acas_memory_sink::MemorySink;
use acas_outside::MemoryFolder;
use std::alloc::Global;
use std::process::Abort;

/// A file of a folder.
#[derive(Drop)]
pub struct File {
    pub name: String,
    pub bytes: Vec<u8>,
}

/// What is there at the start of a case: the files, the name of the one that never ends, the most bytes that a call takes or
/// gives, the kind of the output that takes nothing, and the commands.
#[derive(Clone, Copy)]
pub struct Start<'s> {
    pub files: &'s [File],
    pub endless: &'s str,
    pub most: u32,
    pub stuck: &'s str,
    pub runs: &'s [String],
}

/// How the runs of a case ended, what they counted together, and what is there afterwards.
#[derive(Drop)]
pub struct End {
    pub ends: Vec<String>,
    pub work: Work,
    pub folder: Endless,
    pub out: Stuck,
    pub err: Stuck,
}

impl End {
    /// The bytes of the file of this name, none where there is no such file.
    pub fn held(&self, name: &str) -> &[u8] {
        match self.folder.files.get(name) {
            Some(bytes) => bytes,
            None => b"",
        }
    }

    /// How the last run ended.
    pub fn last(&self) -> &str {
        match self.ends.last() {
            Some(text) => text.as_str(),
            None => "",
        }
    }
}

/// The kinds of calls that may fail.
pub const KINDS: [&str; 5] = ["read", "create", "append", "write", "error"];

/// The bytes of the file of this name, if there is one.
pub fn held<'f>(files: &'f [File], name: &str) -> Option<&'f [u8]> {
    for file in files {
        if file.name.as_str() == name {
            return Some(&file.bytes);
        }
    }
    None
}

/// These files once more, but for the one of this name.
pub fn without(rt: &impl Abort, alloc: Global, files: &[File], name: &str) -> Vec<File> {
    let mut all = Vec::new(alloc);
    for file in files {
        if file.name.as_str() != name {
            let name = file.name.clone().expect(rt, "memory");
            let bytes = file.bytes.clone().expect(rt, "memory");
            all.push(File { name, bytes }).expect(rt, "memory");
        }
    }
    all
}

/// Runs the commands of a case, while the listed calls fail, each given by its kind and its number, as `read 0`.
pub fn perform(rt: &impl Abort, alloc: Global, start: Start<'_>, failing: &[String]) -> End {
    let mut end = End {
        ends: Vec::new(alloc),
        work: Work::new(),
        folder: folder_of(rt, alloc, start, failing),
        out: output_of(rt, alloc, start, failing, "write"),
        err: output_of(rt, alloc, start, failing, "error"),
    };
    for command in start.runs {
        let words = words_of(rt, alloc, command);
        assert!(rt;
            end.work.has_room(),
            "no room for the counts of another run"
        );
        let status = run(
            alloc,
            &words,
            &mut end.folder,
            &mut end.out,
            &mut end.err,
            &mut end.work,
        );
        let text = end_text(rt, alloc, &status);
        end.ends.push(text).expect(rt, "memory");
    }
    end
}

// The folder with the files.
fn folder_of(rt: &impl Abort, alloc: Global, start: Start<'_>, failing: &[String]) -> Endless {
    let reads = numbers_of(rt, alloc, failing, "read");
    let creates = numbers_of(rt, alloc, failing, "create");
    let appends = numbers_of(rt, alloc, failing, "append");
    let folder = MemoryFolder::new(alloc, reads, creates, appends, start.most.max(1));
    let mut folder = folder.expect(rt, "memory");
    for file in start.files {
        let bytes = file.bytes.clone().expect(rt, "memory");
        folder.put(&file.name, bytes).expect(rt, "memory");
    }
    let endless = String::from_str(alloc, start.endless).expect(rt, "memory");
    Endless::new(folder, endless)
}

// The output whose writes are of this kind.
fn output_of(
    rt: &impl Abort,
    alloc: Global,
    start: Start<'_>,
    failing: &[String],
    kind: &str,
) -> Stuck {
    let writes = numbers_of(rt, alloc, failing, kind);
    let sink = MemorySink::new(alloc, writes, start.most.max(1)).expect(rt, "memory");
    Stuck::new(sink, start.stuck == kind)
}

// The numbers of the failing calls of a kind.
fn numbers_of(rt: &impl Abort, alloc: Global, failing: &[String], kind: &str) -> Vec<u64> {
    let mut numbers = Vec::new(alloc);
    for call in failing {
        let (word, number) = call
            .split_once(' ')
            .expect(rt, "a failing call is a kind and a number");
        assert!(rt; KINDS.contains(&word), "no kind of call");
        if word == kind {
            let number = number.parse::<u64>().expect(rt, "no number of a call");
            numbers.push(number).expect(rt, "memory");
        }
    }
    numbers
}

// The exit code and the cause of a run.
fn end_text(rt: &impl Abort, alloc: Global, status: &Status) -> String {
    let cause = match &status.cause {
        Cause::Done => "done",
        Cause::Reported => "reported",
        Cause::Words => "words",
        Cause::Absent(FileRole::Model) => "absent model",
        Cause::Absent(FileRole::Table) => "absent table",
        Cause::Absent(FileRole::Boxes) => "absent boxes",
        Cause::Absent(FileRole::Encounter) => "absent encounter",
        Cause::Model(_) => "model",
        Cause::Table(_) => "table",
        Cause::Input(_) => "input",
        Cause::Folder => "folder",
        Cause::Output => "output",
        Cause::TooLong(FileRole::Model) => "too long model",
        Cause::TooLong(FileRole::Table) => "too long table",
        Cause::TooLong(FileRole::Boxes) => "too long boxes",
        Cause::TooLong(FileRole::Encounter) => "too long encounter",
        Cause::Memory => "memory",
    };
    format!(in alloc; "{} {cause}", status.code).expect(rt, "memory")
}
