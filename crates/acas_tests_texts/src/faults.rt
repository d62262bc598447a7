//! What is said of a text: that it is read, or what is wrong with it, in words.
use acas_base::Model;
use acas_boxes::read_boxes;
use acas_doc::{DocFault, DocKind, InputFault};
use acas_model::{ModelFault, read_model};
use acas_replay::read_encounter;
use acas_tests_data::model_of;
use std::alloc::Global;

/// What a text is read as.
#[derive(Clone, Copy)]
pub enum Kind {
    Model,
    Boxes,
    Encounter,
}

/// Whether this is said of a text. Boxes and encounters are those of a model of three advisories, whose puck has a radius of 500 ft.
pub fn is_said(alloc: Global, kind: Kind, text: &[u8], want: &str) -> Option<bool> {
    let model = three_advisories(alloc)?;
    Some(is_said_with(alloc, &model, kind, text, want))
}

/// The model of three advisories.
pub fn three_advisories(alloc: Global) -> Option<Model> {
    model_of(alloc, "c")
}

fn is_said_with(alloc: Global, model: &Model, kind: Kind, text: &[u8], want: &str) -> bool {
    match kind {
        Kind::Model => is_said_of_model(alloc, text, want),
        Kind::Boxes => is_said_of_boxes(alloc, model, text, want),
        Kind::Encounter => is_said_of_encounter(alloc, model, text, want),
    }
}

fn is_said_of_model(alloc: Global, text: &[u8], want: &str) -> bool {
    match read_model(alloc, text) {
        Ok(_) => want == "read",
        Err(fault) => is_model_fault(alloc, &fault, want),
    }
}

fn is_said_of_boxes(alloc: Global, model: &Model, text: &[u8], want: &str) -> bool {
    match read_boxes(alloc, model, text) {
        Ok(_) => want == "read",
        Err(fault) => is_input_fault(alloc, &fault, want),
    }
}

fn is_said_of_encounter(alloc: Global, model: &Model, text: &[u8], want: &str) -> bool {
    match read_encounter(alloc, model, text) {
        Ok(_) => want == "read",
        Err(fault) => is_input_fault(alloc, &fault, want),
    }
}

fn is_model_fault(alloc: Global, fault: &ModelFault, want: &str) -> bool {
    match fault {
        ModelFault::NotToml => want == "not toml",
        ModelFault::Doc(fault) => is_doc_fault(alloc, fault, want),
        _ => false,
    }
}

fn is_input_fault(alloc: Global, fault: &InputFault, want: &str) -> bool {
    match fault {
        InputFault::NotToml => want == "not toml",
        InputFault::Doc(fault) => is_doc_fault(alloc, fault, want),
        InputFault::UnknownName { place } => is_at(alloc, "unknown advisory at ", *place, want),
        InputFault::Window { place } => is_at(alloc, "window at ", *place, want),
        InputFault::Rate { place } => is_at(alloc, "rate at ", *place, want),
        InputFault::Memory => want == "no memory",
    }
}

fn is_at(alloc: Global, words: &str, place: u32, want: &str) -> bool {
    match format!(in alloc; "{words}{place}") {
        Ok(words) => words.as_str() == want,
        Err(_) => false,
    }
}

// Whether the words are `key`, the key and what is wrong with it.
fn is_doc_fault(alloc: Global, fault: &DocFault, want: &str) -> bool {
    match key_stripped(want, fault.key.bytes()) {
        Some(words) => is_kind(alloc, fault.kind, words),
        None => false,
    }
}

// What is said behind `key` and this key.
fn key_stripped<'w>(words: &'w str, key: &[u8]) -> Option<&'w str> {
    let words = words.strip_prefix("key ")?;
    words.strip_prefix(std::str::from_utf8(key).ok()?)
}

fn is_kind(alloc: Global, kind: DocKind, want: &str) -> bool {
    match kind {
        DocKind::Missing => want == " missing",
        DocKind::WrongKind => want == " wrong kind",
        DocKind::OutOfRange {
            value,
            least,
            greatest,
        } => match format!(in alloc; " value {value} outside {least} to {greatest}") {
            Ok(words) => words.as_str() == want,
            Err(_) => false,
        },
        DocKind::UnknownKey => want == " unknown",
    }
}
