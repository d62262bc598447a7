//! The advices and the layers of an accepted table. What is refused of a table, and why, are cases of `acas_cases`.
ghost use Rattle.acas_base.specs.Advices.{AreAdvicesOf};

use crate::layers::{Layers, MODEL, folder_with, is_layer};
use crate::models::TIED;
use acas_accept::{accept, accept_layers};
use acas_base::{Advices, Model};
use acas_outside::MemoryFolder;
use acas_step_columns::StencilMeans;
use acas_sweep::Layers as TableLayers;
use acas_tests_data::model_of;
use acas_units::Pair;
use std::alloc::Global;

const FIRST: [u8; 16] = [0, 1, 0, 1, 1, 1, 1, 1, 0, 0, 0, 0, 0, 0, 0, 0];

const SECOND: [u8; 16] = [1, 1, 1, 1, 1, 1, 1, 1, 0, 0, 0, 0, 0, 0, 0, 0];

const LOOSE: Pair = Pair {
    upper: 10_000_000,
    lower: -10_000_000,
};

// Layers of `TIED`. Under clear, level is the first of two choices that cost the same: either may be advised.
const LAYERS: Layers = Layers {
    pairs: [[LOOSE; 16]; 3],
    advice: [[255; 16], FIRST, SECOND],
};

// Whether there are two layers of advices above layer 0, of 16 states each, which are the first and the second.
fn are_advices(model: &Model, advices: &Advices) -> bool
    requires { AreAdvicesOf model.now advices.now }
{
    let grid = model.grid();
    if grid.horizon != 2 || grid.states() != 16 {
        return false;
    }
    let mut same = true;
    for state in 0..16 {
        same = same
            && advices.at(1, state) == FIRST[state as usize]
            && advices.at(2, state) == SECOND[state as usize];
    }
    same
}

// Whether there are three layers, which are those that were written.
fn are_layers(accepted: &TableLayers, written: &Layers) -> bool {
    if accepted.len() != 3 {
        return false;
    }
    let mut same = true;
    for n in 0..3 {
        let place = n as usize;
        same = same && is_layer(accepted, n, &written.pairs[place], &written.advice[place]);
    }
    same
}

// Whether a table of the second version or of the first is accepted with its advices.
fn gives_advices(alloc: Global, is_second: bool) -> Option<bool> {
    let model = model_of(alloc, TIED)?;
    let mut folder = folder_with(alloc, &model, &LAYERS, is_second, 80)?;
    let found = accept::<StencilMeans, MemoryFolder>(alloc, &model, &MODEL, &mut folder, "t");
    Some(are_advices(&model, &found.ok()?))
}

// Whether a table of the second version or of the first is accepted with its layers.
fn gives_layers(alloc: Global, is_second: bool) -> Option<bool> {
    let model = model_of(alloc, TIED)?;
    let mut folder = folder_with(alloc, &model, &LAYERS, is_second, 80)?;
    let found = accept_layers::<StencilMeans, MemoryFolder>(
        alloc,
        &model,
        &MODEL,
        &mut folder,
        "t",
    );
    Some(are_layers(&found.ok()?, &LAYERS))
}

#[test]
fn accepted_tables_give_their_advices(rt: HostRuntime) {
    for is_second in [false, true] {
        assert!(rt; gives_advices(rt.alloc(), is_second) == Some(true));
    }
}

#[test]
fn accepted_tables_give_their_layers(rt: HostRuntime) {
    for is_second in [false, true] {
        assert!(rt; gives_layers(rt.alloc(), is_second) == Some(true));
    }
}
