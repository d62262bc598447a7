//! The forms of words, one a line, and the files that they read: what is promised of all forms is tried of each line.
use crate::cases::Case;
use crate::outside::{File, held};
use crate::report::Report;
use crate::steps::make_all;
use acas_rows::FORMS;
use std::alloc::Global;
use std::process::Abort;

// The most bytes of a text file.
const TEXT_BYTES: usize = 1_000_000;

/// The files that the forms read.
pub fn form_files(rt: &impl Abort, report: &mut Report) -> Vec<File> {
    let mut files = Vec::new(report.alloc);
    let recipes = lists(rt, report.alloc, "files");
    make_all(rt, &recipes, &mut files, report);
    files
}

/// The values of a case of the forms: for `all` the line of each form, and else what is said of each of its files of this sort, which is
/// `file`, or `table`, or `text` for all but tables. Of a file these are the words, its name, its kind, and how many bytes the reads give
/// in all where it has no end.
pub fn form_rows(rt: &impl Abort, alloc: Global, files: &[File], sort: &str) -> Vec<Vec<String>> {
    let forms = lists(rt, alloc, "forms");
    if sort == "all" {
        return forms;
    }
    let mut all = Vec::new(alloc);
    for form in &forms {
        let (words, rest) = form.split_first().expect(rt, "no words");
        let kinds = rest.first().expect(rt, "no kinds");
        push_files(rt, alloc, files, sort, words, kinds, &mut all);
    }
    all
}

// The lists at a key of the text of the forms.
fn lists(rt: &impl Abort, alloc: Global, key: &str) -> Vec<Vec<String>> {
    let keys = toml::table_from_str(alloc, FORMS).expect(rt, "the forms are no TOML");
    let bare = Case {
        keys: &keys,
        row: &[],
        files: &[],
    };
    bare.lists(rt, alloc, key)
}

// Pushes what is said of each file of this sort that a form's words name.
fn push_files(
    rt: &impl Abort,
    alloc: Global,
    files: &[File],
    sort: &str,
    words: &str,
    kinds: &str,
    all: &mut Vec<Vec<String>>,
) {
    let (_, names) = words.split_once(' ').expect(rt, "no names");
    let mut before = 0usize;
    for (name, kind) in names.split_whitespace().zip(kinds.split_whitespace()) {
        let length = held(files, name).expect(rt, "no file of a form").len();
        if sort == "file" || (kind == "table") == (sort == "table") {
            let most = if kind == "table" { length } else { TEXT_BYTES };
            let taken = before.saturating_add(most).saturating_add(1);
            let row = file_row(rt, alloc, words, name, kind, taken);
            all.push(row).expect(rt, "memory");
        }
        before = before.saturating_add(length);
    }
}

fn file_row(
    rt: &impl Abort,
    alloc: Global,
    words: &str,
    name: &str,
    kind: &str,
    taken: usize,
) -> Vec<String> {
    let words = String::from_str(alloc, words).expect(rt, "memory");
    let name = String::from_str(alloc, name).expect(rt, "memory");
    let kind = String::from_str(alloc, kind).expect(rt, "memory");
    let taken = taken.to_string(alloc).expect(rt, "memory");
    vec![in alloc; words, name, kind, taken].expect(rt, "memory")
}
