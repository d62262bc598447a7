//! The sweep from no second to go up to the horizon.
ghost use Rattle.std.specs.Prelude.{◌≡◌, ◌+◌, ◌<◌, ◌≤◌, ◌^◌, length, IfOk, OnOk, OnErr};
ghost use Rattle.acas_spec.specs.Model.{entries};
ghost use Rattle.acas_plain.specs.Below.{AreBelow};
ghost use Rattle.acas_sweep.specs.Layers.{AreLayers, backup_count, layer_backups};

use crate::layer::{fill_first, fill_over};
use acas_base::{Layers, Model};
use acas_sweep::Backups;
use acas_units::Pair;
use std::alloc::{AllocError, Global};

// Writes the layer with n seconds to go over those below it.
fn fill_next(model: &Model, n: u32, pairs: &mut [Pair], advice: &mut [u8], count: &mut Backups)
    requires some { 0 < n }
    requires n { n ≤ model.now.grid.horizon }
    requires pairs { length pairs.old ≡ entries model.now.grid }
    requires advice { length advice.old ≡ entries model.now.grid }
    requires below { AreBelow model.now n pairs.old advice.old }
    requires count { count.old + layer_backups model.now < 2 ^ 64 }
    ensures below { AreBelow model.now (n + 1) pairs.new advice.new }
    ensures count { count.new ≡ count.old + layer_backups model.now }
{
    let states = model.grid().states() as usize;
    let first = n as usize * states;
    let (done, pairs) = pairs.split_at_mut(first);
    let (_, advice) = advice.split_at_mut(first);
    fill_over(model, &done[first - states..], pairs, advice, count);
}

// Writes all layers, from no second to go up to the horizon.
fn fill_layers(model: &Model, pairs: &mut [Pair], advice: &mut [u8], count: &mut Backups)
    requires pairs { length pairs.old ≡ entries model.now.grid }
    requires advice { length advice.old ≡ entries model.now.grid }
    requires count { count.old + backup_count model.now < 2 ^ 64 }
    ensures layers { AreBelow model.now (model.now.grid.horizon + 1) pairs.new advice.new }
    ensures count { count.new ≡ count.old + backup_count model.now }
{
    fill_first(model, pairs, advice);
    for n in 1..model.grid().horizon + 1 {
        fill_next(model, n, pairs, advice, count);
    }
}

/// The compiled table of a model: all its layers, from no second to go up to the horizon, each vertex by a search of its own and
/// by no stencils: the plain form, to which the streamed one is compared. It takes all its memory at the start, 17 bytes for each
/// entry, and counts a backup for each state above layer 0 and each of its choices.
pub fn sweep_list(alloc: Global, model: &Model, count: &mut Backups) -> Result<Layers, AllocError>
    requires { count.old + backup_count model.now < 2 ^ 64 }
    ensures layers { IfOk result (λ layers. AreLayers model.now layers) }
    ensures counted { OnOk result (count.new ≡ count.old + backup_count model.now) }
    ensures unchanged { OnErr result (count.new ≡ count.old) }
{
    let entries = model.grid().entries() as usize;
    let mut pairs = vec![in alloc; Pair { upper: 0, lower: 0 }; entries]?;
    let mut advice = vec![in alloc; 0u8; entries]?;
    fill_layers(model, &mut pairs, &mut advice, count);
    Ok(Layers::whole(model, pairs, advice))
}
