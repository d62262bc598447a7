//! The keys of small documents, and what is said of each.
use acas_base::Text;
use acas_doc::{
    DocError, DocKind, fault_at, item, list, only_keys, path_of_item, path_of_key, table,
    table_item, text, text_item, whole, whole_items,
};
use std::alloc::{AllocError, Global};
use toml::{Table, Value};

const DOCUMENT: &str = r#"
whole = 5
text = "a"
list = [7, "b", { c = 1 }]
real = 5.0
date = 2026-01-01
truth = true
[inner]
x = 1
"#;

// Whether the answer is a fault of this kind, at this key.
fn has_fault<T: Drop>(answer: Result<T, DocError>, key: &str, kind: DocKind) -> bool {
    match answer {
        Err(DocError::Fault(fault)) => fault.key.bytes() == key.as_bytes() && fault.kind == kind,
        _ => false,
    }
}

fn is_whole(found: Result<i64, DocError>, want: i64) -> bool {
    match found {
        Ok(found) => found == want,
        Err(_) => false,
    }
}

fn is_text(found: Result<&str, DocError>, want: &str) -> bool {
    match found {
        Ok(found) => found == want,
        Err(_) => false,
    }
}

// Whether a table is found, and has so many keys.
fn is_table(found: Result<&Table, DocError>, count: usize) -> bool {
    match found {
        Ok(found) => found.len() == count,
        Err(_) => false,
    }
}

fn are_wholes(found: Result<Vec<i64>, DocError>, wholes: &[i64]) -> bool {
    match found {
        Ok(found) => found.as_slice() == wholes,
        Err(_) => false,
    }
}

fn values_are_found(alloc: Global, document: &Table) -> [bool; 3] {
    [
        is_whole(whole(alloc, document, b"", "whole", 5, 5), 5),
        is_text(text(alloc, document, b"", "text"), "a"),
        is_table(table(alloc, document, b"", "inner"), 1),
    ]
}

// Whether the items of the list are found.
fn items_are_found(alloc: Global, items: &[Value]) -> Option<[bool; 4]> {
    if items.len() != 3 {
        return None;
    }
    Some([
        is_whole(item(alloc, items, b"list", 0, 0, 7), 7),
        are_wholes(whole_items(alloc, &items[..1], b"list", 0, 7), &[7]),
        is_text(text_item(alloc, items, b"list", 1), "b"),
        is_table(table_item(alloc, items, b"list", 2), 1),
    ])
}

const SEVEN: DocKind = DocKind::OutOfRange {
    value: 7,
    least: 8,
    greatest: 9,
};

// Whether the items of the list have their faults.
fn items_have_faults(alloc: Global, items: &[Value]) -> Option<[bool; 5]> {
    if items.len() != 3 {
        return None;
    }
    let kind = DocKind::WrongKind;
    Some([
        has_fault(item(alloc, items, b"list", 1, 0, 7), "list[1]", kind),
        has_fault(item(alloc, items, b"list", 0, 8, 9), "list[0]", SEVEN),
        has_fault(whole_items(alloc, items, b"list", 0, 7), "list[1]", kind),
        has_fault(text_item(alloc, items, b"list", 2), "list[2]", kind),
        has_fault(table_item(alloc, items, b"list", 0), "list[0]", kind),
    ])
}

fn is_list(alloc: Global, document: &Table) -> bool {
    match list(alloc, document, b"", "list", 3, 3) {
        Ok(items) => items_are_found(alloc, items) == Some([true; 4])
            && items_have_faults(alloc, items) == Some([true; 5]),
        Err(_) => false,
    }
}

const TOO_SMALL: DocKind = DocKind::OutOfRange {
    value: 5,
    least: 6,
    greatest: 9,
};

const TOO_LARGE: DocKind = DocKind::OutOfRange {
    value: 5,
    least: 0,
    greatest: 4,
};

// A key, the least and the greatest number that is wanted there, and what is wrong.
const WHOLES: [(&str, i64, i64, DocKind); 9] = [
    ("none", 0, 9, DocKind::Missing),
    ("text", 0, 9, DocKind::WrongKind),
    ("real", 0, 9, DocKind::WrongKind),
    ("date", 0, 9, DocKind::WrongKind),
    ("truth", 0, 9, DocKind::WrongKind),
    ("list", 0, 9, DocKind::WrongKind),
    ("inner", 0, 9, DocKind::WrongKind),
    ("whole", 6, 9, TOO_SMALL),
    ("whole", 0, 4, TOO_LARGE),
];

fn wholes_have_faults(alloc: Global, document: &Table) -> bool {
    for (key, least, greatest, kind) in WHOLES {
        let answer = whole(alloc, document, b"", key, least, greatest);
        if !has_fault(answer, key, kind) {
            return false;
        }
    }
    true
}

// What is said of a list of three where another number of items is wanted.
fn wrong_length(least: i64, greatest: i64) -> DocKind {
    DocKind::OutOfRange {
        value: 3,
        least,
        greatest,
    }
}

fn faults_are_named(alloc: Global, document: &Table) -> [bool; 5] {
    let kind = DocKind::WrongKind;
    [
        has_fault(text(alloc, document, b"a", "whole"), "a.whole", kind),
        has_fault(table(alloc, document, b"a[1]", "list"), "a[1].list", kind),
        has_fault(
            list(alloc, document, b"a", "list", 4, 9),
            "a.list",
            wrong_length(4, 9),
        ),
        has_fault(
            list(alloc, document, b"a", "list", 0, 2),
            "a.list",
            wrong_length(0, 2),
        ),
        has_fault::<()>(
            Err(fault_at(alloc, b"a.b", "c", DocKind::Missing)),
            "a.b.c",
            DocKind::Missing,
        ),
    ]
}

// Whether the values of the document and the items of its list are found, and have their faults.
fn is_found(alloc: Global) -> Option<[bool; 4]> {
    let document = toml::table_from_str(alloc, DOCUMENT).ok()?;
    Some([
        values_are_found(alloc, &document) == [true; 3],
        is_list(alloc, &document),
        wholes_have_faults(alloc, &document),
        faults_are_named(alloc, &document) == [true; 5],
    ])
}

#[test]
fn values_are_found_and_faults_are_named(rt: HostRuntime) {
    assert!(rt; is_found(rt.alloc()) == Some([true; 4]));
}

fn is_path(path: Result<Text, AllocError>, bytes: &[u8]) -> bool {
    match path {
        Ok(path) => path.bytes() == bytes,
        Err(_) => false,
    }
}

#[test]
fn keys_and_items_have_paths(rt: HostRuntime) {
    assert!(rt; is_path(path_of_key(rt.alloc(), b"", "horizon"), b"horizon"));
    assert!(rt; is_path(path_of_item(rt.alloc(), b"grid", 12), b"grid[12]"));
}

// The path of a table, its text, its known keys, and the unknown key that is named, if one is.
type Keys = (
    &'static [u8],
    &'static str,
    &'static str,
    Option<&'static str>,
);

const KEYS: &[Keys] = &[
    (b"t", "b = 1\na = 1\n", "a", Some("t.b")),
    (b"t", "z = 1\nc = 1\nb = 1\na = 1\n", "a z", Some("t.b")),
    (b"t", "\"b c\" = 1\na = 1\n", "b c a", Some("t.b c")),
    (b"t", "'x\"y' = 1\n", "x y", Some("t.x\"y")),
    (b"t", "\"a\\nb\" = 1\n", "a b", Some("t.a\nb")),
    (b"t", "\"\" = 1\n", "a", Some("t.")),
    (b"t", "b = 1\na = 1\n", "a b c", None),
    (b"", "b = 1\na = 1\n", "b", Some("a")),
];

fn is_named(alloc: Global, &(path, text, known, key): &Keys) -> Option<bool> {
    let keys: Table = toml::table_from_str(alloc, text).ok()?;
    let answer = only_keys(alloc, &keys, path, known);
    match key {
        Some(key) => Some(has_fault(answer, key, DocKind::UnknownKey)),
        None => Some(answer.is_ok()),
    }
}

#[test]
fn the_least_unknown_key_is_named(rt: HostRuntime) {
    let alloc = rt.alloc();
    assert!(rt; KEYS.iter().all(|row| is_named(alloc, row) == Some(true)));
}
