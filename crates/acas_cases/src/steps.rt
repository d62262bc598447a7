//! The bytes of a file, made step by step.
use crate::outside::{File, Start, held, perform, without};
use crate::report::Report;
use acas_tests_data::{changed, model_text};
use sha2::{Digest, Sha256};
use std::alloc::Global;
use std::process::Abort;

// In a table: the bytes of the header, of an entry and of the digest.
const HEADER: usize = 60;

const ENTRY: usize = 17;

const DIGEST: usize = 32;

// Where the four lengths of a layer stand in the header, each of one byte.
const LENGTHS: [usize; 4] = [40, 44, 48, 52];

/// Puts behind these files each that a recipe says: a name, and the steps that make its bytes. One of the same name goes.
pub fn make_all(
    rt: &impl Abort,
    recipes: &[Vec<String>],
    all: &mut Vec<File>,
    report: &mut Report,
) {
    for recipe in recipes {
        let (name, steps) = recipe.split_first().expect(rt, "no name");
        let bytes = made(rt, all, steps, report);
        *all = without(rt, report.alloc, all, name);
        let name = name.clone().expect(rt, "memory");
        all.push(File { name, bytes }).expect(rt, "memory");
    }
}

/// The bytes that these steps make, each of what the earlier ones made. They begin with none. A step that cannot be done is reported.
pub fn made(rt: &impl Abort, files: &[File], steps: &[String], report: &mut Report) -> Vec<u8> {
    let mut bytes = Vec::new(report.alloc);
    for step in steps {
        if change(rt, report.alloc, files, step, &mut bytes).is_none() {
            report.add(rt, step);
        }
    }
    bytes
}

// Does a step, where it can be done.
fn change(
    rt: &impl Abort,
    alloc: Global,
    files: &[File],
    step: &str,
    bytes: &mut Vec<u8>,
) -> Option<()> {
    let (verb, rest) = step.split_once(' ').unwrap_or((step, ""));
    match verb {
        "model" => push(bytes, model_text(alloc, rest)?.as_bytes()),
        "text" => push(bytes, rest.as_bytes()),
        "hex" => push(bytes, &hex::decode(alloc, rest).ok()?),
        "pad" => pad(bytes, rest),
        "held" => push(bytes, held(files, rest)?),
        "compiled" => push_compiled(rt, alloc, held(files, rest)?, bytes),
        "replace" => replace(alloc, bytes, rest),
        "cut" => {
            let length = number(rest)?;
            if bytes.len() < length {
                return None;
            }
            bytes.truncate(length);
            Some(())
        }
        "put" => {
            let (at, digits) = rest.split_once(' ')?;
            put_digits(alloc, bytes, number(at)?, 1, digits)
        }
        "flip" => flip(bytes, rest),
        "upper" | "lower" | "advice" | "advices" => set_part(alloc, bytes, verb, rest),
        "values" => set_values(bytes, rest),
        "whole" => make_whole(alloc, bytes),
        "seal" => seal(bytes, number(rest)?),
        _ => None,
    }
}

fn number(text: &str) -> Option<usize> {
    text.parse::<usize>().ok()
}

fn push(bytes: &mut Vec<u8>, piece: &[u8]) -> Option<()> {
    bytes.extend_from_slice(piece).ok()
}

// Puts a byte behind as often as it takes until there are so many bytes.
fn pad(bytes: &mut Vec<u8>, rest: &str) -> Option<()> {
    let (byte, length) = rest.split_once(' ')?;
    let length = number(length)?.max(bytes.len());
    bytes.resize(length, byte.parse::<u8>().ok()?).ok()
}

// Puts behind the table that is compiled of a model.
fn push_compiled(rt: &impl Abort, alloc: Global, model: &[u8], bytes: &mut Vec<u8>) -> Option<()> {
    let name = String::from_str(alloc, "m").expect(rt, "memory");
    let model = model.to_vec(alloc).expect(rt, "memory");
    let command = String::from_str(alloc, "acas compile m t").expect(rt, "memory");
    let start = Start {
        files: &[File { name, bytes: model }],
        endless: "",
        most: 65_536,
        stuck: "",
        runs: &[command],
    };
    let end = perform(rt, alloc, start, &[]);
    match end.folder.files.get("t") {
        Some(table) => push(bytes, table),
        None => None,
    }
}

// Replaces the first `old` of a text, which has to stand in it, as `old => new` says.
fn replace(alloc: Global, bytes: &mut Vec<u8>, rest: &str) -> Option<()> {
    let text = std::str::from_utf8(bytes).ok()?;
    *bytes = changed(alloc, text, rest)?.into_bytes();
    Some(())
}

// Puts bytes in hex in places a stride apart.
fn put_digits(
    alloc: Global,
    bytes: &mut [u8],
    at: usize,
    stride: usize,
    digits: &str,
) -> Option<()> {
    put(bytes, at, stride, &hex::decode(alloc, digits).ok()?)
}

// Puts the bytes of a piece in places a stride apart.
fn put(bytes: &mut [u8], at: usize, stride: usize, piece: &[u8]) -> Option<()> {
    let mut place = at;
    for byte in piece {
        *bytes.get_mut(place)? = *byte;
        place = place.saturating_add(stride);
    }
    Some(())
}

// Changes the byte at a place in the bits that a number has.
fn flip(bytes: &mut [u8], rest: &str) -> Option<()> {
    let (at, bits) = rest.split_once(' ')?;
    let bits = bits.parse::<u8>().ok()?;
    *bytes.get_mut(number(at)?)? ^= bits;
    Some(())
}

// How many states a layer of a table has: the product of its four lengths.
fn states_of(table: &[u8]) -> Option<usize> {
    let mut states = 1usize;
    for place in &LENGTHS {
        states = states.saturating_mul(usize::from(*table.get(*place)?));
    }
    Some(states)
}

// Where an entry of a table begins: of a layer and a state. In version 2 the digests of the layers below
// stand before it.
fn entry_place(table: &[u8], layer: usize, state: usize) -> Option<usize> {
    let entry = states_of(table)?
        .saturating_mul(layer)
        .saturating_add(state);
    let digests = if table.get(4) == Some(&1) { 0 } else { layer };
    let before = entry
        .saturating_mul(ENTRY)
        .saturating_add(digests.saturating_mul(DIGEST));
    Some(before.saturating_add(HEADER))
}

// Changes the upper value, the lower value or the advice of an entry of a table, or the advices from an entry on.
fn set_part(alloc: Global, table: &mut [u8], part: &str, rest: &str) -> Option<()> {
    let (layer, rest) = rest.split_once(' ')?;
    let (state, value) = rest.split_once(' ')?;
    let at = entry_place(table, number(layer)?, number(state)?)?;
    match part {
        "upper" => put_value(table, at, value),
        "lower" => put_value(table, at.saturating_add(8), value),
        "advice" => {
            *table.get_mut(at.saturating_add(16))? = value.parse::<u8>().ok()?;
            Some(())
        }
        _ => put_digits(alloc, table, at.saturating_add(16), ENTRY, value),
    }
}

fn put_value(table: &mut [u8], at: usize, value: &str) -> Option<()> {
    put(table, at, 1, &value.parse::<i64>().ok()?.to_le_bytes())
}

// Puts these values in each entry of a table.
fn set_values(table: &mut [u8], rest: &str) -> Option<()> {
    let (upper, lower) = rest.split_once(' ')?;
    let horizon = usize::from(*table.get(56)?);
    let states = states_of(table)?;
    for layer in 0..=horizon {
        for state in 0..states {
            let at = entry_place(table, layer, state)?;
            put_value(table, at, upper)?;
            put_value(table, at.saturating_add(8), lower)?;
        }
    }
    Some(())
}

// Makes a table of version 2 one of version 1: the same entries, and one digest behind them all.
fn make_whole(alloc: Global, table: &mut Vec<u8>) -> Option<()> {
    let mut all = Vec::new(alloc);
    let is_done = push_whole(table, &mut all);
    *table = all;
    is_done
}

fn push_whole(table: &[u8], all: &mut Vec<u8>) -> Option<()> {
    let entries = states_of(table)?.saturating_mul(ENTRY);
    push(all, table.get(..HEADER)?)?;
    put(all, 4, 1, &[1])?;
    for place in (HEADER..table.len()).step_by(entries.saturating_add(DIGEST)) {
        push(all, table.get(place..place.saturating_add(entries))?)?;
    }
    let digest = Sha256::digest(all.as_slice());
    push(all, &digest)
}

// Makes the digests of a table anew, each behind so many entries and over what stands before it: the header,
// or the digest before, and the entries between.
fn seal(table: &mut [u8], count: usize) -> Option<()> {
    let entries = count.saturating_mul(ENTRY);
    let first = entries.saturating_add(HEADER);
    let mut from = 0;
    for place in (first..table.len()).step_by(entries.saturating_add(DIGEST)) {
        let digest = Sha256::digest(table.get(from..place)?);
        put(table, place, 1, &digest)?;
        from = place;
    }
    // No digest behind so many entries where some are left.
    if from.saturating_add(DIGEST) == table.len() {
        Some(())
    } else {
        None
    }
}
