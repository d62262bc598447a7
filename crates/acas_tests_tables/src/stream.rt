//! The streamed sweep: what it hands on is what the plain sweep keeps, and it ends where what takes the layers fails.
ghost use Rattle.std.specs.Prelude.{⊤};

use crate::layers::is_layer;
use crate::models::{FOUR, NOISY, TIED};
use acas_base::Model;
use acas_means::LayerMeans;
use acas_plain::sweep_list;
use acas_plane::{PlaneBlock, Turned};
use acas_step_columns::StencilMeans;
use acas_sweep::{Backups, LayerFailed, LayerSink, Layers, sweep};
use acas_tests_data::model_of;
use acas_units::Pair;
use std::alloc::Global;

// Takes the layers below a number, looks whether they come in their order and are those of the plain sweep, and fails at the layer of
// that number.
#[derive(Clone, Copy)]
struct Compared<'a> {
    plain: &'a Layers,
    fails_at: u32,
    taken: u32,
    same: bool,
    left: u32,
    width: usize,
    faults: u64,
}

impl LayerSink for Compared<'_> {
    ghost left = { λ k. k.left };

    ghost width = { λ k. k.width };

    ghost faults = { λ k. k.faults };

    ghost adds = { λ _ _ _. ⊤ };

    ghost cuts = { λ _ _ _. ⊤ };

    fn layer(&mut self, n: u32, pairs: &[Pair], advice: &[u8]) -> Result<(), LayerFailed> {
        if n == self.fails_at {
            self.faults = self.faults.saturating_add(1);
            return Err(LayerFailed);
        }
        self.same = self.same && n == self.taken && is_layer(self.plain, n, pairs, advice);
        self.taken = self.taken.saturating_add(1);
        self.left -= 1;
        Ok(())
    }
}

// How a streamed sweep went: whether it was done, whether it handed on the layers of the plain sweep, how many, how many more were to
// come, how often the sink failed, and its two counts.
#[derive(Clone, Copy)]
struct Outcome {
    done: bool,
    same: bool,
    taken: u32,
    left: u32,
    faults: u64,
    backups: u64,
    turned: u64,
}

// The streamed sweep of a model, at a sink that fails at the layer of a number.
#[tactic(auto, using(acas_sweep::proofs::Counts::few_backups))]
fn sweep_streamed(alloc: Global, model: &Model, plain: &Layers, fails_at: u32) -> Option<Outcome> {
    let grid = model.grid();
    let states = grid.states();
    let mut sink = Compared {
        plain,
        fails_at,
        taken: 0,
        same: true,
        left: grid.horizon + 1,
        width: states as usize,
        faults: 0,
    };
    let mut count = Backups::new();
    let mut turned = Turned::new();
    let Ok(means) = StencilMeans::make(alloc, model) else {
        return None;
    };
    let mut block = PlaneBlock::make(alloc, states).ok()?;
    let mut advice = vec![in alloc; 0u8; states as usize].ok()?;
    let done = sweep(
        model,
        &means,
        &mut block,
        &mut advice,
        &mut sink,
        &mut count,
        &mut turned,
    )
    .is_ok();
    Some(Outcome {
        done,
        same: sink.same,
        taken: sink.taken,
        left: sink.left,
        faults: sink.faults,
        backups: count.count(),
        turned: turned.count(),
    })
}

// The streamed sweep of the model of a text, held against the plain one.
#[tactic(auto, using(acas_sweep::proofs::Counts::few_backups))]
fn streamed(alloc: Global, text: &str, fails_at: u32) -> Option<Outcome> {
    let model = model_of(alloc, text)?;
    let mut count = Backups::new();
    let plain = sweep_list(alloc, &model, &mut count).ok()?;
    sweep_streamed(alloc, &model, &plain, fails_at)
}

// A model, one more than its horizon, the horizon times the vertices times the lengths of all lists of choices, and the entries.
const SWEEPS: [(&str, u32, u64, u64); 3] = [
    (NOISY, 3, 2 * 8 * 2, 3 * 8 * 2),
    (TIED, 3, 2 * 8 * 3, 3 * 8 * 2),
    (FOUR, 31, 30 * 24 * 16, 31 * 24 * 4),
];

// Whether both sweeps have the same layers, which are so many, and the streamed one makes so many backups and turns so many entries.
fn are_same(alloc: Global, text: &str, layers: u32, backups: u64, entries: u64) -> Option<bool> {
    let found = streamed(alloc, text, layers)?;
    let all = found.done
        && found.same
        && found.taken == layers
        && found.left == 0
        && found.faults == 0;
    Some(all && found.backups == backups && found.turned == entries)
}

#[test]
fn both_sweeps_have_the_same_layers(rt: HostRuntime) {
    for (text, layers, backups, entries) in SWEEPS {
        assert!(rt;
            are_same(rt.alloc(), text, layers, backups, entries) == Some(true),
            "{backups}"
        );
    }
}

// Whether a sweep whose layer of a number is not taken has handed on those below, and ends.
fn ends_at(alloc: Global, fails_at: u32) -> Option<bool> {
    let found = streamed(alloc, NOISY, fails_at)?;
    Some(!found.done && found.same && found.taken == fails_at && found.faults == 1)
}

#[test]
fn a_sweep_ends_where_a_layer_is_not_taken(rt: HostRuntime) {
    for fails_at in 0..3 {
        assert!(rt; ends_at(rt.alloc(), fails_at) == Some(true), "{fails_at}");
    }
}
