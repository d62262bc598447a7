//! Each call that a case makes fails in turn.
use crate::judge::Judged;
use crate::outside::{End, File, KINDS, Start, perform};
use crate::report::Report;
use std::process::Abort;

/// Reports where a case of one run does not end as it is to end while one of its calls fails, or makes another number of
/// calls than it says. It was judged how the case ends while none fails.
pub fn judge_each_call(rt: &impl Abort, judged: Judged<'_>, report: &mut Report) {
    let Judged { case, start, end } = judged;
    let alloc = report.alloc;
    let said = case.text_or(rt, alloc, "each_call", "");
    for ((kind, made), said) in KINDS.iter().zip(calls_of(end)).zip(said.split_whitespace()) {
        if said.parse::<u64>().ok() != Some(made) {
            report.add(rt, "makes another number of calls");
        }
        for number in 0..made {
            let failing = format!(in alloc; "{kind} {number}").expect(rt, "memory");
            let failed = perform(rt, alloc, start, &[failing]);
            judge_failed(rt, kind, start, end, &failed, report);
            judge_taken(rt, kind, number, start, &failed, report);
        }
    }
}

// Where the write of this number failed, what the writes before it took is printed: of one block as much as each can take.
fn judge_taken(
    rt: &impl Abort,
    kind: &str,
    number: u64,
    start: Start<'_>,
    failed: &End,
    report: &mut Report,
) {
    let found = failed.out.sink.written();
    let taken = number.saturating_mul(u64::from(start.most));
    let is_so = kind != "write" || found.len() as u64 == taken;
    report.holds(rt, "the output before the failed write", found, is_so);
}

// How many calls of each kind the case made.
fn calls_of(end: &End) -> [u64; 5] {
    let calls = end.folder.files.calls();
    [
        calls.reads,
        calls.creates,
        calls.appends,
        end.out.sink.calls(),
        end.err.sink.calls(),
    ]
}

// A call of this kind fails: the code says whose call it was. What is printed is a part of what is printed else.
fn judge_failed(
    rt: &impl Abort,
    kind: &str,
    start: Start<'_>,
    end: &End,
    failed: &End,
    report: &mut Report,
) {
    match kind {
        "error" => judge_unheard(rt, end, failed, report),
        "write" => judge_named(rt, "8 output", "acas: output failed\n", end, failed, report),
        _ => judge_named(rt, "7 folder", "acas: folder failed\n", end, failed, report),
    }
    for file in start.files {
        judge_file(rt, kind, file, end, failed, report);
    }
}

// A write of the error output failed: all else is as it is else.
fn judge_unheard(rt: &impl Abort, end: &End, failed: &End, report: &mut Report) {
    if failed.ends != end.ends {
        report.add(rt, "ends otherwise where the error output fails");
    }
    let (found, whole) = (failed.out.sink.written(), end.out.sink.written());
    report.same(rt, "the output", found, whole);
    let (found, whole) = (failed.err.sink.written(), end.err.sink.written());
    report.part(rt, "the error output", found, whole);
}

// Another call failed: the run ends with this code and cause, and with this line.
fn judge_named(
    rt: &impl Abort,
    ends: &str,
    line: &str,
    end: &End,
    failed: &End,
    report: &mut Report,
) {
    report.same(rt, "the end", failed.last().as_bytes(), ends.as_bytes());
    let (found, whole) = (failed.out.sink.written(), end.out.sink.written());
    report.part(rt, "the output", found, whole);
    let found = failed.err.sink.written();
    report.same(rt, "the error output", found, line.as_bytes());
}

// A file that the case changes is as before where a read or a create fails, a part of what it is to be where an append fails,
// and else what it is to be.
fn judge_file(
    rt: &impl Abort,
    kind: &str,
    file: &File,
    end: &End,
    failed: &End,
    report: &mut Report,
) {
    let (name, before) = (file.name.as_str(), file.bytes.as_slice());
    let (found, after) = (failed.held(name), end.held(name));
    if kind == "append" && after != before {
        report.part(rt, name, found, after);
    } else if kind == "read" || kind == "create" {
        report.same(rt, name, found, before);
    } else {
        report.same(rt, name, found, after);
    }
}
