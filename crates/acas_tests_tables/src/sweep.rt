//! Compiled tables of small models, and how many backups they take.
use crate::models::{FOUR, NOISY, TIED};
use acas_plain::sweep_list;
use acas_sweep::{Backups, Layers};
use acas_tests_data::model_of;
use std::alloc::Global;

// A model, seconds to go, a state, and its upper and lower value and advice; and the horizon times the vertices times the lengths of
// all lists of choices, which is how many backups the table takes.
const ENTRIES: [(&str, u32, usize, Option<(i64, i64, u8)>, u64); 5] = [
    (NOISY, 2, 1, Some((524_692, 524_690, 0)), 2 * 8 * 2),
    (TIED, 2, 1, Some((524_692, 524_690, 1)), 2 * 8 * 3),
    (FOUR, 1, 7, Some((373_135, 373_134, 0)), 30 * 24 * 16),
    (NOISY, 3, 0, None, 2 * 8 * 2),
    (NOISY, 2, 16, None, 2 * 8 * 2),
];

// The upper and the lower value and the advice of a state, if it is one of the table.
fn entry_in(layers: &Layers, n: u32, state: usize) -> Option<(i64, i64, u8)> {
    if n >= layers.len() {
        return None;
    }
    let pairs = layers.pairs(n);
    let advice = layers.advice(n);
    if state < pairs.len() && state < advice.len() {
        let pair = pairs[state];
        Some((pair.upper, pair.lower, advice[state]))
    } else {
        None
    }
}

// Whether the compiled table of the model of a text has this entry, and takes so many backups.
#[tactic(auto, using(acas_sweep::proofs::Counts::few_backups))]
fn has_entry(
    alloc: Global,
    text: &str,
    n: u32,
    state: usize,
    entry: Option<(i64, i64, u8)>,
    backups: u64,
) -> Option<bool> {
    let model = model_of(alloc, text)?;
    let mut count = Backups::new();
    let layers = sweep_list(alloc, &model, &mut count).ok()?;
    Some(entry_in(&layers, n, state) == entry && count.count() == backups)
}

#[test]
fn entries_are_worked_out(rt: HostRuntime) {
    for (text, n, state, entry, backups) in ENTRIES {
        let met = has_entry(rt.alloc(), text, n, state, entry, backups);
        assert!(rt; met == Some(true), "{n} {state}");
    }
}
