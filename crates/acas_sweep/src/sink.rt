//! What takes the layers of a table one after the other.
ghost use Rattle.std.specs.Prelude.{◌≡◌, ℕ, ◌+◌, ◌<◌, ◌≤◌, length, OnOk, OnErr};
ghost use Rattle.acas_outside.specs.Counts.{Rose};
ghost use Rattle.acas_sweep.specs.Handed.{LayerData};

use acas_units::Pair;

/// A sink took a layer in part, and fails.
#[derive(Clone, Copy)]
pub struct LayerFailed;

/// What takes the layers of a table, each whole or, where it fails, in part.
pub trait LayerSink {
    /// How many more layers the sink takes.
    ghost left: { Self → ℕ };

    /// How many states each layer has.
    ghost width: { Self → ℕ };

    /// How often a call has failed. It never falls.
    ghost faults: { Self → ℕ };

    /// The sink before, a layer that is added whole, and the sink after.
    ghost adds: { Self → LayerData → Self → Type 0 };

    /// The sink before, a layer that is added in part, and the sink after.
    ghost cuts: { Self → LayerData → Self → Type 0 };

    /// Takes the layer with n seconds to go: the pair and the advice of each state by its number.
    fn layer(&mut self, n: u32, pairs: &[Pair], advice: &[u8]) -> Result<(), LayerFailed>
        requires left { 0 < left self.old }
        requires pairs { length pairs.now ≡ width self.old }
        requires advice { length advice.now ≡ width self.old }
        ensures ok { OnOk result (adds self.old (record { n = n; pairs = pairs.now; advice = advice.now })
            self.new) }
        ensures left { OnOk result (left self.old ≡ left self.new + 1) }
        ensures width { OnOk result (width self.new ≡ width self.old) }
        ensures err { OnErr result
            (cuts self.old (record { n = n; pairs = pairs.now; advice = advice.now }) self.new) }
        ensures failed { OnErr result (Rose (faults self.old) (faults self.new)) }
        ensures faults { faults self.old ≤ faults self.new };
}
