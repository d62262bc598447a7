//! The lines of a compiled table, printed layer by layer as the sweep goes.
ghost use Rattle.std.specs.Prelude.{◌≡◌, ◌+◌, ◌≤◌, ◌^◌, [], IsErr, OnOk, OnErr};
ghost use Rattle.acas_spec.specs.Model.{entries};
ghost use Rattle.acas_outside.specs.Bytes.{Appends, AppendsPart};
ghost use Rattle.acas_outside.specs.Frame.{Emits};
ghost use Rattle.acas_sweep.specs.Layers.{backup_count};
ghost use Rattle.acas_sweep.specs.Room.{IsRoomFor};
ghost use Rattle.acas_table_rows.specs.ValuesText.{values_text};

use crate::line_rows::LineRows;
use crate::table_lines::Pen;
use acas_base::Model;
use acas_means::LayerMeans;
use acas_outside::{Failed, Sink};
use acas_plane::Turned;
use acas_sweep::{Backups, Sweep, SweepFault, sweep_to};

/// Prints all lines of the compiled table of a model, with a pen that has printed nothing. It takes no memory. It counts the backups and
/// the turned pairs of the sweep.
pub fn print_table<M: LayerMeans, O: Sink>(
    model: &Model,
    sweep: &mut Sweep<M>,
    pen: &mut Pen,
    out: &mut O,
    backups: &mut Backups,
    turned: &mut Turned,
) -> Result<(), Failed>
    requires fits { M.fits sweep.old.means model.now }
    requires room { IsRoomFor model.now sweep.old.room }
    requires empty { pen.old.buffer ≡ [] }
    requires backups { backups.old ≤ 2 ^ 63 }
    requires turned { turned.old ≤ 2 ^ 63 }
    ensures ok { OnOk result (Appends (O.written out.old) (O.written out.new) (values_text model.now)) }
    ensures err { OnErr result (AppendsPart (O.written out.old) (O.written out.new) (values_text model.now)) }
    ensures frame { Emits O.Sink out.old out.new (IsErr result) }
    ensures counted { OnOk result (backups.new ≡ backups.old + backup_count model.now) }
    ensures turns { OnOk result (turned.new ≡ turned.old + entries model.now.grid) }
    ensures rising { backups.old ≤ backups.new }
    ensures rising_turned { turned.old ≤ turned.new }
{
    let left = model.grid().horizon + 1;
    let mut rows = LineRows {
        model,
        pen,
        out,
        left,
    };
    match sweep_to(model, sweep, &mut rows, backups, turned) {
        Ok(()) => {
            pen.buffer.flush(out)?;
            Ok(())
        }
        Err(SweepFault::Rows) => Err(Failed),
    }
}
