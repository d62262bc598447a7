//! The runner.
use crate::cases::{Case, items_of, keys_of};
use crate::each_call::judge_each_call;
use crate::forms::{form_files, form_rows};
use crate::judge::Judged;
use crate::outside::{File, Start, perform, without};
use crate::report::Report;
use crate::steps::make_all;
use sha2::{Digest, Sha256};
use std::alloc::Global;
use std::process::Abort;
use toml::{Table, Value};

/// Tries the cases of a text, and fails where one of them does not end as it is to end.
pub fn pass(rt: &impl Abort, alloc: Global, text: &str) {
    let mut report = Report::new(alloc);
    let cases = cases_of(rt, alloc, text);
    for item in items_of(rt, &cases) {
        try_each(rt, keys_of(rt, item), &mut report);
    }
    assert!(rt; report.text.is_empty(), "{}", report.text);
}

/// The cases of a text.
pub fn cases_of(rt: &impl Abort, alloc: Global, text: &str) -> Value {
    let mut document = toml::table_from_str(alloc, text).expect(rt, "the text is no TOML");
    let cases = document
        .remove("cases")
        .expect(rt, "the text is none of cases");
    assert!(rt; document.is_empty(), "the text is none of cases alone");
    cases
}

/// Reports each way in which one of the cases of an item does not end as it is to end.
pub fn try_each(rt: &impl Abort, keys: &Table, report: &mut Report) {
    let alloc = report.alloc;
    // the files of the forms, where an item is of them
    let files = match keys.get("forms") {
        Some(_) => form_files(rt, report),
        None => Vec::new(alloc),
    };
    let bare = Case {
        keys,
        row: &[],
        files: &files,
    };
    let name = bare.text_or(rt, alloc, "name", "no name");
    let mut lines = Sha256::new();
    for (number, row) in rows_of(rt, alloc, bare).iter().enumerate() {
        let case = Case {
            keys,
            row,
            files: &files,
        };
        report.begin(rt, &name, row);
        try_case(rt, case, number, &mut lines, report);
    }
    if bare.has("lines_sha256") {
        let wanted = bare.text_or(rt, alloc, "lines_sha256", "");
        let digest = hex::encode(alloc, lines.finalize()).expect(rt, "memory");
        report.same(rt, "the lines", digest.as_bytes(), wanted.as_bytes());
    }
}

// The values of each case, in their order: the number, those of the row, and those of the form. Where a key of these is left out, there
// is one row of no values.
fn rows_of(rt: &impl Abort, alloc: Global, bare: Case<'_>) -> Vec<Vec<String>> {
    let numbers = number_rows(rt, alloc, bare);
    let rows = if bare.has("rows") {
        bare.lists(rt, alloc, "rows")
    } else {
        empty_row(rt, alloc)
    };
    let fronts = each_with(rt, alloc, &numbers, &rows);
    each_with(rt, alloc, &fronts, &rows_beneath(rt, alloc, bare))
}

fn empty_row(rt: &impl Abort, alloc: Global) -> Vec<Vec<String>> {
    vec![in alloc; Vec::new(alloc)].expect(rt, "memory")
}

// A row for each number from 0 up to but not the one that stands at `numbers`.
fn number_rows(rt: &impl Abort, alloc: Global, bare: Case<'_>) -> Vec<Vec<String>> {
    if !bare.has("numbers") {
        return empty_row(rt, alloc);
    }
    let numbers = bare.text_or(rt, alloc, "numbers", "");
    let mut all = Vec::new(alloc);
    for number in 0..numbers.parse::<u32>().expect(rt, "no number of cases") {
        let number = number.to_string(alloc).expect(rt, "memory");
        let row = vec![in alloc; number].expect(rt, "memory");
        all.push(row).expect(rt, "memory");
    }
    all
}

fn rows_beneath(rt: &impl Abort, alloc: Global, bare: Case<'_>) -> Vec<Vec<String>> {
    if !bare.has("forms") {
        return empty_row(rt, alloc);
    }
    let sort = bare.text_or(rt, alloc, "forms", "");
    form_rows(rt, alloc, bare.files, &sort)
}

// Each front with each row behind it.
fn each_with(
    rt: &impl Abort,
    alloc: Global,
    fronts: &[Vec<String>],
    rows: &[Vec<String>],
) -> Vec<Vec<String>> {
    let mut all = Vec::new(alloc);
    for front in fronts {
        for row in rows {
            all.push(joined(rt, alloc, front, row)).expect(rt, "memory");
        }
    }
    all
}

fn joined(rt: &impl Abort, alloc: Global, front: &[String], row: &[String]) -> Vec<String> {
    let mut whole = Vec::new(alloc);
    push_all(rt, &mut whole, front);
    push_all(rt, &mut whole, row);
    whole
}

fn push_all(rt: &impl Abort, whole: &mut Vec<String>, values: &[String]) {
    for value in values {
        let value = value.clone().expect(rt, "memory");
        whole.push(value).expect(rt, "memory");
    }
}

fn try_case(
    rt: &impl Abort,
    case: Case<'_>,
    number: usize,
    lines: &mut Sha256,
    report: &mut Report,
) {
    let alloc = report.alloc;
    let files = files_of(rt, case, report);
    let endless = case.text_or(rt, alloc, "endless", "");
    let stuck = case.text_or(rt, alloc, "stuck", "");
    let most = case.text_or(rt, alloc, "most", "65536");
    let runs = case.texts(rt, alloc, "runs");
    let failing = case.texts(rt, alloc, "failing");
    assert!(rt; !runs.is_empty(), "no run");
    let start = Start {
        files: &files,
        endless: &endless,
        most: most.parse::<u32>().expect(rt, "no number of bytes"),
        stuck: &stuck,
        runs: &runs,
    };
    let end = perform(rt, alloc, start, &failing);
    lines.update(end.out.sink.written());
    lines.update(end.err.sink.written());
    let judged = Judged {
        case,
        start,
        end: &end,
    };
    judged.judge(rt, number, report);
    judge_each_call(rt, judged, report);
}

// The files of a case: those of the forms, but for the one that is absent, and its own.
fn files_of(rt: &impl Abort, case: Case<'_>, report: &mut Report) -> Vec<File> {
    let absent = case.text_or(rt, report.alloc, "without", "");
    let mut files = without(rt, report.alloc, case.files, &absent);
    let recipes = case.lists(rt, report.alloc, "files");
    make_all(rt, &recipes, &mut files, report);
    files
}
