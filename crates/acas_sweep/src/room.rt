//! The memory of a sweep, which is taken before anything is written.
ghost use Rattle.std.specs.Prelude.{◌≡◌, ◌+◌, ◌≤◌, ◌^◌, IfOk};
ghost use Rattle.acas_spec.specs.Model.{states};
ghost use Rattle.acas_sweep.specs.Room.{IsRoomFor};
ghost use Rattle.acas_sweep.specs.Sweeping.{HandsTable, RaisesCounts};

use crate::backups::Backups;
use crate::laws::backups_are_few;
use crate::sink::LayerSink;
use crate::stream::{self, SweepFault};
use acas_base::Model;
use acas_means::LayerMeans;
use acas_plane::{PlaneBlock, Turned};
use std::alloc::{AllocError, Global};

/// What a sweep of a model takes beside what forms the means: a block of two planes, and a byte for the advice of each state.
#[derive(Drop)]
pub struct SweepRoom {
    pub(crate) block: PlaneBlock,
    pub(crate) advice: Vec<u8>,
}

impl SweepRoom {
    /// The room for a sweep of a model.
    pub fn make(alloc: Global, model: &Model) -> Result<SweepRoom, AllocError>
        ensures { IfOk result (λ room. IsRoomFor model.now room) }
    {
        let states = model.grid().states();
        let block = PlaneBlock::make(alloc, states)?;
        let advice = vec![in alloc; 0u8; states as usize]?;
        Ok(SweepRoom { block, advice })
    }
}

/// All that a sweep of a model takes: what forms the means, and the room.
#[derive(Drop)]
pub struct Sweep<M: LayerMeans> {
    pub means: M,
    pub room: SweepRoom,
}

impl<M: LayerMeans> Sweep<M> {
    /// A sweep of a model that is yet to be done. It fails only for want of memory.
    pub fn make(alloc: Global, model: &Model) -> Result<Sweep<M>, AllocError>
        ensures fits { IfOk result (λ made. M.fits made.means model.now) }
        ensures room { IfOk result (λ made. IsRoomFor model.now made.room) }
    {
        let means = M::make(alloc, model)?;
        let room = SweepRoom::make(alloc, model)?;
        Ok(Sweep { means, room })
    }
}

/// Hands all layers of the compiled table of a model to a sink. It takes no memory. It counts the backups and the turned pairs of the
/// sweep.
pub fn sweep_to<M: LayerMeans, S: LayerSink>(
    model: &Model,
    sweep: &mut Sweep<M>,
    rows: &mut S,
    backups: &mut Backups,
    turned: &mut Turned,
) -> Result<(), SweepFault>
    requires fits { M.fits sweep.old.means model.now }
    requires room { IsRoomFor model.now sweep.old.room }
    requires width { S.width rows.old ≡ states model.now.grid }
    requires left { S.left rows.old ≡ model.now.grid.horizon + 1 }
    requires backups { backups.old ≤ 2 ^ 63 }
    requires turned { turned.old ≤ 2 ^ 63 }
    ensures hands { HandsTable S.LayerSink model.now rows.old rows.new result }
    ensures counts { RaisesCounts model.now backups.old backups.new turned.old turned.new result }
{
    // By the model's limits a table takes fewer backups, and has fewer entries, than the counters still hold.
    let _ = model.grid();
    backups_are_few();
    let Sweep { means, room } = sweep;
    stream::sweep(
        model,
        means,
        &mut room.block,
        &mut room.advice,
        rows,
        backups,
        turned,
    )
}
