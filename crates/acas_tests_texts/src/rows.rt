//! Rows of changes to a text, and what is said of it then: a line each, `OLD => NEW : WORDS`.
use crate::faults::{Kind, is_said};
use crate::{boxes, encounters, models, versions};
use acas_tests_data::changed;
use std::alloc::Global;

// Whether a row holds of a text.
fn holds(alloc: Global, kind: Kind, text: &str, row: &str) -> Option<bool> {
    let (change, want) = row.split_once(" : ")?;
    let text = changed(alloc, text, change)?;
    is_said(alloc, kind, text.as_bytes(), want)
}

// Whether each row holds of a text.
fn all_hold(alloc: Global, kind: Kind, text: &str, rows: &str) -> bool {
    for row in rows.lines() {
        if holds(alloc, kind, text, row) != Some(true) {
            return false;
        }
    }
    true
}

// What a text is read as, the text, and rows of changes.
const ROWS: &[(Kind, &str, &str)] = &[
    (Kind::Model, models::PLAIN, versions::VERSIONS),
    (Kind::Boxes, boxes::PLAIN, boxes::KEYS),
    (Kind::Boxes, boxes::PLAIN, boxes::SPANS),
    (Kind::Boxes, boxes::PLAIN, boxes::WINDOWS),
    (Kind::Encounter, encounters::PLAIN, encounters::KEYS),
    (Kind::Encounter, encounters::PLAIN, encounters::NUMBERS),
    (Kind::Encounter, encounters::PLAIN, encounters::LISTS),
];

fn first_faults_are_named(alloc: Global) -> bool {
    for &(kind, text, rows) in ROWS {
        if !all_hold(alloc, kind, text, rows) {
            return false;
        }
    }
    true
}

#[test]
fn the_first_fault_is_named(rt: HostRuntime) {
    assert!(rt; first_faults_are_named(rt.alloc()));
}

// Whether the rows of a delay hold, where none is said.
fn delays_are_named(alloc: Global) -> Option<bool> {
    let second = versions::second_version(alloc)?;
    Some(all_hold(alloc, Kind::Model, &second, versions::DELAYS))
}

// Whether the rows of the order hold, where the delay is too long.
fn order_is_kept(alloc: Global) -> Option<bool> {
    let late = versions::delayed(alloc, "limit = 960 => limit = 960|delay = 11")?;
    Some(all_hold(alloc, Kind::Model, &late, versions::ORDER))
}

#[test]
fn the_first_fault_of_the_second_version_is_named(rt: HostRuntime) {
    assert!(rt; delays_are_named(rt.alloc()) == Some(true));
    assert!(rt; order_is_kept(rt.alloc()) == Some(true));
}

// What a text is read as, the text, and what is said of it.
const REFUSED: &[(Kind, &[u8], &str)] = &[
    (Kind::Model, b"version = \xFF\n", "not toml"),
    (Kind::Boxes, b"version = 1\nbox = [\xFF]\n", "not toml"),
    (Kind::Boxes, b"version = 1\n", "key box missing"),
    (Kind::Boxes, b"version = 1\nbox = 1\n", "key box wrong kind"),
    (Kind::Encounter, b"version = \xFF\n", "not toml"),
];

#[test]
fn other_texts_are_refused(rt: HostRuntime) {
    let alloc = rt.alloc();
    assert!(rt;
        REFUSED.iter().all(|&(kind, text, want)| is_said(alloc, kind, text, want) == Some(true))
    );
}

// A count of boxes that are zeros, or of seconds, and what is said of such a list.
type Length = (Kind, u32, &'static str);

const LENGTHS: &[Length] = &[
    (Kind::Boxes, 0, "key box value 0 outside 1 to 10000"),
    (Kind::Boxes, 1, "key box[0] wrong kind"),
    (Kind::Boxes, 10_000, "key box[0] wrong kind"),
    (
        Kind::Boxes,
        10_001,
        "key box value 10001 outside 1 to 10000",
    ),
    (Kind::Encounter, 600, "read"),
    (
        Kind::Encounter,
        601,
        "key own_accel value 601 outside 1 to 600",
    ),
];

fn of_boxes(alloc: Global, count: u32) -> Option<String> {
    let zeros = "0,".repeat(alloc, count as usize).ok()?;
    format!(in alloc; "version = 1\nbox = [{zeros}]\n").ok()
}

// A text with a list of this length.
fn of_length(alloc: Global, kind: Kind, count: u32) -> Option<String> {
    match kind {
        Kind::Encounter => encounters::lasting(alloc, count),
        _ => of_boxes(alloc, count),
    }
}

fn is_said_of_length(alloc: Global, &(kind, count, want): &Length) -> Option<bool> {
    let text = of_length(alloc, kind, count)?;
    is_said(alloc, kind, text.as_bytes(), want)
}

#[test]
fn lists_have_a_greatest_length(rt: HostRuntime) {
    let alloc = rt.alloc();
    assert!(rt;
        LENGTHS
            .iter()
            .all(|row| is_said_of_length(alloc, row) == Some(true))
    );
}
