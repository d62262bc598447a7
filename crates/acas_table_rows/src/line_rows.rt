//! A pen that takes the layers of a sweep.
use crate::table_lines::{Layer, Pen, print_layer};
use acas_base::Model;
use acas_outside::Sink;
use acas_sweep::{LayerFailed, LayerSink};
use acas_units::Pair;

/// A pen, with the model of the table and the output to which it prints the lines of each layer, and how many layers it still takes.
#[derive(Drop)]
pub(crate) struct LineRows<'a, O: Sink> {
    pub(crate) model: &'a Model,
    pub(crate) pen: &'a mut Pen,
    pub(crate) out: &'a mut O,
    pub(crate) left: u32,
}

impl<O: Sink> LayerSink for LineRows<'_, O> {
    ghost use Rattle.acas_spec.specs.Model.{states};
    ghost use Rattle.acas_table_rows.specs.LineRows.{AddsLines, CutsLines};

    ghost left = { λ rows. rows.left };

    ghost width = { λ rows. states rows.model.now.grid };

    ghost faults = { λ rows. O.faults rows.out.now };

    ghost adds = { AddsLines O.Sink };

    ghost cuts = { CutsLines O.Sink };

    fn layer(&mut self, n: u32, pairs: &[Pair], advice: &[u8]) -> Result<(), LayerFailed> {
        let layer = Layer { n, pairs, advice };
        match print_layer(self.model, &layer, self.pen, self.out) {
            Ok(()) => {
                self.left -= 1;
                Ok(())
            }
            Err(_) => Err(LayerFailed),
        }
    }
}
