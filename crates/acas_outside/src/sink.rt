//! A sink that bytes are appended to, which may fail.
ghost use Rattle.std.specs.Prelude.{◌≡◌, ◌<◌, ◌≤◌, List, ℕ, Option, length, take, IfOk, OnErr};
ghost use Rattle.acas_outside.specs.Bytes.{Appends};
ghost use Rattle.acas_outside.specs.Counts.{Rose};

/// A call of a folder or of a sink failed.
#[derive(Clone, Copy)]
pub struct Failed;

/// What bytes are written to, one after another.
pub trait Sink {
    /// The bytes that were written, where the sink tells them.
    ghost written: { Self → Option (List ℕ) };

    /// How often a call has failed. It never falls.
    ghost faults: { Self → ℕ };

    /// Appends the first bytes of a piece, and says how many.
    ///
    /// Only a write that failed takes nothing of a piece that is not empty.
    fn write(&mut self, piece: &[u8]) -> Result<usize, Failed>
        ensures bound { IfOk result (λ n. n ≤ length piece.now) }
        ensures ok { IfOk result (λ n. Appends (written self.old) (written self.new) (take n piece.now)) }
        ensures err { OnErr result (written self.new ≡ written self.old) }
        ensures failed { OnErr result (Rose (faults self.old) (faults self.new)) }
        ensures none { IfOk result (λ n. n ≡ 0 → 0 < length piece.now →
            Rose (faults self.old) (faults self.new)) }
        ensures faults { faults self.old ≤ faults self.new };
}
