//! A case, as it is read.
use crate::outside::File;
use acas_tests_data::filled;
use std::alloc::Global;
use std::process::Abort;
use toml::{Table, Value};

// The keys of a case, which `acas_rows` explains.
const KEYS: [&str; 28] = [
    "name",
    "rows",
    "numbers",
    "forms",
    "files",
    "without",
    "most",
    "failing",
    "endless",
    "stuck",
    "runs",
    "ends",
    "codes",
    "output",
    "output_has",
    "output_length",
    "output_sha256",
    "error",
    "error_begins",
    "lines_sha256",
    "after",
    "after_sha256",
    "absent",
    "taken",
    "backups",
    "turned",
    "decisions",
    "each_call",
];

/// The keys and the values of a case, which has no other keys than a case has.
pub fn keys_of<'v>(rt: &impl Abort, item: &'v Value) -> &'v Table {
    let Value::Table(keys) = item else {
        rt.panic("a case is a table")
    };
    for key in keys.keys() {
        assert!(rt; KEYS.contains(&key.as_str()), "a key that no case has");
    }
    keys
}

/// A case: its keys, the values of its row, which stand in its texts, and the files of the forms, if it is one of them.
#[derive(Clone, Copy)]
pub struct Case<'t> {
    pub keys: &'t Table,
    pub row: &'t [String],
    pub files: &'t [File],
}

impl Case<'_> {
    /// Whether there is something at a key.
    pub fn has(self, key: &str) -> bool {
        self.keys.get(key).is_some()
    }

    /// The text or the number at a key, or another text where it is left out.
    pub fn text_or(self, rt: &impl Abort, alloc: Global, key: &str, other: &str) -> String {
        match self.keys.get(key) {
            Some(value) => filled_text(rt, alloc, value, self.row),
            None => String::from_str(alloc, other).expect(rt, "memory"),
        }
    }

    /// The texts of the list at a key.
    pub fn texts(self, rt: &impl Abort, alloc: Global, key: &str) -> Vec<String> {
        match self.keys.get(key) {
            Some(list) => filled_list(rt, alloc, list, self.row),
            None => Vec::new(alloc),
        }
    }

    /// The texts of each list of the list at a key.
    pub fn lists(self, rt: &impl Abort, alloc: Global, key: &str) -> Vec<Vec<String>> {
        let mut all = Vec::new(alloc);
        if let Some(lists) = self.keys.get(key) {
            for list in items_of(rt, lists) {
                all.push(filled_list(rt, alloc, list, self.row))
                    .expect(rt, "memory");
            }
        }
        all
    }
}

/// The items of a list.
pub fn items_of<'v>(rt: &impl Abort, list: &'v Value) -> &'v [Value] {
    match list {
        Value::Array(items) => items.as_slice(),
        _ => rt.panic("no list"),
    }
}

// A text with the values of a row in it, or a number as a text.
fn filled_text(rt: &impl Abort, alloc: Global, value: &Value, row: &[String]) -> String {
    let text = match value {
        Value::String(text) => filled(alloc, text, row),
        Value::Integer(number) => number.to_string(alloc),
        _ => rt.panic("neither a text nor a number"),
    };
    text.expect(rt, "memory")
}

fn filled_list(rt: &impl Abort, alloc: Global, list: &Value, row: &[String]) -> Vec<String> {
    let mut texts = Vec::new(alloc);
    for value in items_of(rt, list) {
        texts
            .push(filled_text(rt, alloc, value, row))
            .expect(rt, "memory");
    }
    texts
}
