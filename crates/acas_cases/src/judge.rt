//! Whether a case ended as it is to end.
use crate::cases::Case;
use crate::outside::{End, Start};
use crate::report::Report;
use crate::steps::made;
use sha2::{Digest, Sha256};
use std::process::Abort;

/// A case that was run: what it says, how it started, and how it ended.
#[derive(Clone, Copy)]
pub struct Judged<'a> {
    pub case: Case<'a>,
    pub start: Start<'a>,
    pub end: &'a End,
}

impl Judged<'_> {
    /// Reports each way in which the case, the one of this number, did not end as it is to end.
    pub fn judge(self, rt: &impl Abort, number: usize, report: &mut Report) {
        if self.case.has("codes") {
            self.judge_code(rt, number, report);
        } else {
            self.judge_ends(rt, report);
        }
        if !self.case.has("lines_sha256") {
            self.judge_error(rt, self.end.err.sink.written(), report);
            self.judge_output(rt, self.end.out.sink.written(), report);
        }
        self.judge_number(rt, "taken", self.end.folder.taken, report);
        self.judge_number(rt, "backups", self.end.work.backups(), report);
        self.judge_number(rt, "turned", self.end.work.turned(), report);
        self.judge_number(rt, "decisions", self.end.work.decisions(), report);
        self.judge_files(rt, report);
    }

    // The exit codes and causes.
    fn judge_ends(self, rt: &impl Abort, report: &mut Report) {
        let is_so = self.case.texts(rt, report.alloc, "ends") == self.end.ends;
        report.holds(rt, "the ends, the last", self.end.last().as_bytes(), is_so);
    }

    // The code of the last run: the digit of the case's number.
    fn judge_code(self, rt: &impl Abort, number: usize, report: &mut Report) {
        let codes = self.case.text_or(rt, report.alloc, "codes", "");
        let wanted = digit_of(&codes, number);
        let found = self.end.last().as_bytes();
        let is_so = wanted.is_some() && found.first().copied() == wanted;
        report.holds(rt, "the code", found, is_so);
    }

    // The error output: as the case says, or one line that begins so.
    fn judge_error(self, rt: &impl Abort, found: &[u8], report: &mut Report) {
        let error = self.case.text_or(rt, report.alloc, "error", "");
        if !self.case.has("error_begins") {
            return report.same(rt, "the error output", found, error.as_bytes());
        }
        let front = self.case.text_or(rt, report.alloc, "error_begins", "");
        let text = std::str::from_utf8(found).unwrap_or("");
        let is_so = match text.split_once('\n') {
            Some((line, rest)) => rest.is_empty() && line.starts_with(front.as_str()),
            None => false,
        };
        report.holds(rt, "the error output", found, is_so);
    }

    // All that was printed: as the case says, or nothing.
    fn judge_output(self, rt: &impl Abort, found: &[u8], report: &mut Report) {
        self.judge_parts(rt, found, report);
        self.judge_number(rt, "output_length", found.len() as u64, report);
        if self.case.has("output_sha256") {
            let digest = self.case.text_or(rt, report.alloc, "output_sha256", "");
            judge_digest(rt, "the output", found, &digest, report);
        }
        let is_partly_told = self.case.has("output_has")
            || self.case.has("output_length")
            || self.case.has("output_sha256");
        if self.case.has("output") || !is_partly_told {
            let whole = self.case.text_or(rt, report.alloc, "output", "");
            report.same(rt, "the output", found, whole.as_bytes());
        }
    }

    // The texts that stand in what was printed.
    fn judge_parts(self, rt: &impl Abort, found: &[u8], report: &mut Report) {
        let text = std::str::from_utf8(found).unwrap_or("");
        for part in &self.case.texts(rt, report.alloc, "output_has") {
            report.holds(rt, part, found, text.contains(part.as_str()));
        }
    }

    // A number, where the case says one.
    fn judge_number(self, rt: &impl Abort, key: &str, found: u64, report: &mut Report) {
        let wanted = self.case.text_or(rt, report.alloc, key, "");
        let found = found.to_string(report.alloc).expect(rt, "memory");
        let is_so = wanted.is_empty() || wanted == found;
        report.holds(rt, key, found.as_bytes(), is_so);
    }

    // The files: those that the case names are as it says, and the others as they were.
    fn judge_files(self, rt: &impl Abort, report: &mut Report) {
        let after = self.case.lists(rt, report.alloc, "after");
        let digests = self.case.lists(rt, report.alloc, "after_sha256");
        for file in self.start.files {
            if !is_named(&after, &file.name) && !is_named(&digests, &file.name) {
                self.judge_file(rt, &file.name, Some(&file.bytes), report);
            }
        }
        self.judge_after(rt, &after, report);
        self.judge_digests(rt, &digests, report);
        for name in &self.case.texts(rt, report.alloc, "absent") {
            self.judge_file(rt, name, None, report);
        }
    }

    // A file is held with these bytes, or is not held.
    fn judge_file(self, rt: &impl Abort, name: &str, wanted: Option<&[u8]>, report: &mut Report) {
        let found = self.end.folder.files.get(name);
        report.holds(rt, name, found.unwrap_or(b"is absent"), found == wanted);
    }

    // The files that are to have the bytes that steps make.
    fn judge_after(self, rt: &impl Abort, recipes: &[Vec<String>], report: &mut Report) {
        for recipe in recipes {
            let (name, steps) = recipe.split_first().expect(rt, "no name");
            let bytes = made(rt, self.start.files, steps, report);
            self.judge_file(rt, name, Some(&bytes), report);
        }
    }

    // The files that are to have these digests.
    fn judge_digests(self, rt: &impl Abort, pairs: &[Vec<String>], report: &mut Report) {
        for pair in pairs {
            let (name, rest) = pair.split_first().expect(rt, "no name");
            let digest = rest.first().expect(rt, "no digest");
            let found = self.end.folder.files.get(name).unwrap_or(b"is absent");
            judge_digest(rt, name, found, digest, report);
        }
    }
}

// The digest of what was found, in hex.
fn judge_digest(rt: &impl Abort, what: &str, found: &[u8], digest: &str, report: &mut Report) {
    let digits = hex::encode(report.alloc, Sha256::digest(found)).expect(rt, "memory");
    report.holds(rt, what, found, digits.as_str() == digest);
}

// The digit of this number in a text, counted from 0.
fn digit_of(text: &str, number: usize) -> Option<u8> {
    let mut left = number;
    for byte in text.as_bytes() {
        if byte.is_ascii_digit() {
            if left == 0 {
                return Some(*byte);
            }
            left = left.saturating_sub(1);
        }
    }
    None
}

// Whether one of these lists begins with this name.
fn is_named(lists: &[Vec<String>], name: &str) -> bool {
    for list in lists {
        if let Some((first, _)) = list.split_first()
            && first.as_str() == name
        {
            return true;
        }
    }
    false
}
