//! The sweep from no second to go up to the horizon, over two planes: each layer is handed on as soon as it stands.
ghost use Rattle.std.specs.Prelude.{◌≡◌, ◌+◌, ◌<◌, ◌≤◌, ◌^◌, None, length, replicate, OnOk, OnErr};
ghost use Rattle.acas_spec.specs.Model.{entries, states};
ghost use Rattle.acas_outside.specs.Counts.{Rose};
ghost use Rattle.acas_plane.specs.Plane.{fresh, missing_in};
ghost use Rattle.acas_sweep.specs.Filled.{pairs_in};
ghost use Rattle.acas_sweep.specs.Handed.{plane_layer};
ghost use Rattle.acas_sweep.specs.Layers.{backup_count};
ghost use Rattle.acas_sweep.specs.Sweeping.{HandsTable, RaisesCounts};

use crate::backups::Backups;
use crate::entries::blank_entries;
use crate::plane::{put_first, put_over};
use crate::sink::{LayerFailed, LayerSink};
use acas_base::Model;
use acas_means::{LayerMeans, blank_means};
use acas_plane::{PlaneBlock, Turned};

/// Why a sweep ended before its last layer.
#[derive(Clone, Copy)]
pub enum SweepFault {
    /// What takes the layers has failed.
    Rows,
}

// Turns a block whose plane is full, and hands the layer on.
fn hand_on<S: LayerSink>(
    n: u32,
    block: &mut PlaneBlock,
    advice: &[u8],
    rows: &mut S,
    turned: &mut Turned,
) -> Result<(), LayerFailed>
    requires full { missing_in block.old.work ≡ 0 }
    requires left { 0 < S.left rows.old }
    requires pairs { length block.old.work ≡ S.width rows.old }
    requires advice { length advice.now ≡ S.width rows.old }
    requires turned { turned.old + block.old.states < 2 ^ 64 }
    ensures states { block.new.states ≡ block.old.states }
    ensures finished { block.new.finished ≡ pairs_in block.old.work }
    ensures work { block.new.work ≡ replicate block.old.states None }
    ensures ok { OnOk result (S.adds rows.old (plane_layer n block.old.work advice.now) rows.new) }
    ensures left { OnOk result (S.left rows.old ≡ S.left rows.new + 1) }
    ensures width { OnOk result (S.width rows.new ≡ S.width rows.old) }
    ensures err { OnErr result (S.cuts rows.old (plane_layer n block.old.work advice.now) rows.new) }
    ensures failed { OnErr result (Rose (S.faults rows.old) (S.faults rows.new)) }
    ensures faults { S.faults rows.old ≤ S.faults rows.new }
    ensures turned { turned.new ≡ turned.old + block.old.states }
{
    block.turn(turned);
    rows.layer(n, block.finished(), advice)
}

/// Hands all layers of the compiled table of a model to a sink, from no second to go up to the horizon. What forms the means is to be
/// made of the model, the block is to have the model's states and nothing in it yet, and `advice` has a byte for each state. It takes no
/// memory. It counts a backup for each state above layer 0 and each of its choices, and turns the block once for each layer. Where it
/// fails, the sink has taken the layers below some number, and the layer of that number in part.
pub fn sweep<M: LayerMeans, S: LayerSink>(
    model: &Model,
    layer_means: &M,
    block: &mut PlaneBlock,
    advice: &mut [u8],
    rows: &mut S,
    count: &mut Backups,
    turned: &mut Turned,
) -> Result<(), SweepFault>
    requires fits { M.fits layer_means.now model.now }
    requires block { block.old ≡ fresh (states model.now.grid) }
    requires advice { length advice.old ≡ states model.now.grid }
    requires width { S.width rows.old ≡ states model.now.grid }
    requires left { S.left rows.old ≡ model.now.grid.horizon + 1 }
    requires backups { count.old + backup_count model.now < 2 ^ 64 }
    requires turns { turned.old + entries model.now.grid < 2 ^ 64 }
    ensures hands { HandsTable S.LayerSink model.now rows.old rows.new result }
    ensures counts { RaisesCounts model.now count.old count.new turned.old turned.new result }
{
    let mut means = blank_means();
    let mut entries = blank_entries();
    put_first(model, block, advice);
    match hand_on(0, block, advice, rows, turned) {
        Ok(()) => {}
        Err(LayerFailed) => return Err(SweepFault::Rows),
    }
    for n in 0..model.grid().horizon {
        put_over(
            model,
            layer_means,
            block,
            advice,
            &mut means,
            &mut entries,
            count,
        );
        match hand_on(n + 1, block, advice, rows, turned) {
            Ok(()) => {}
            Err(LayerFailed) => return Err(SweepFault::Rows),
        }
    }
    Ok(())
}
