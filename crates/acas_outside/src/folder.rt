//! A folder of files by name, which may fail.
ghost use Rattle.std.specs.Prelude.{◌≡◌, ◌<◌, ◌≤◌, Bool, [], List, ℕ, Option, length, take, IsSome, IfOk, OnOk, OnErr, IsErrOf, IsTrue};
ghost use Rattle.acas_outside.specs.Counts.{Rose, raised};
ghost use Rattle.acas_outside.specs.Files.{Files, Given, Grows, LeavesRest, Reads, Stores};

use crate::sink::Failed;

/// Why a read gave nothing.
#[derive(Clone, Copy, PartialEq, Eq)]
pub enum ReadMiss {
    /// The name is not held.
    Absent = 1,
    /// The read failed.
    Failed = 2,
}

/// Files by name. A caller may use the names that the folder serves.
pub trait Folder {
    /// The files by name, where the folder tells them.
    ghost holds: { Self → Option Files };

    /// How often a call has failed. It never falls.
    ghost faults: { Self → ℕ };

    /// How often a read was of a name that is not held. It never falls.
    ghost misses: { Self → ℕ };

    /// How many bytes the reads have given. It never falls.
    ghost taken: { Self → ℕ };

    /// The names that a caller may use. No call changes them.
    ghost serves: { Self → List ℕ → Bool };

    /// Reads bytes of a file from the place `at` on, and says how many. What stands in `into` behind them is as before.
    ///
    /// No bytes for an `into` that is not empty are the end of the file.
    fn read(&mut self, name: &str, at: u64, into: &mut [u8]) -> Result<usize, ReadMiss>
        requires { IsTrue (serves self.old name.now) }
        ensures bound { IfOk result (λ n. n ≤ length into.new) }
        ensures given { Given (holds self.old) name.now (λ file. Reads file at result into.new) }
        ensures rest { LeavesRest result into.old into.new }
        ensures holds { holds self.new ≡ holds self.old }
        ensures serves { serves self.new ≡ serves self.old }
        ensures taken { IfOk result (λ n. taken self.new ≡ raised (taken self.old) n) }
        ensures untaken { OnErr result (taken self.new ≡ taken self.old) }
        ensures failed { IsErrOf result ReadMiss.Failed → Rose (faults self.old) (faults self.new) }
        ensures absent { IsErrOf result ReadMiss.Absent → Rose (misses self.old) (misses self.new) }
        ensures faults { faults self.old ≤ faults self.new }
        ensures misses { misses self.old ≤ misses self.new };

    /// Makes a name hold the empty file.
    fn create(&mut self, name: &str) -> Result<(), Failed>
        requires { IsTrue (serves self.old name.now) }
        ensures ok { OnOk result (Stores (holds self.old) (holds self.new) name.now []) }
        ensures err { OnErr result (holds self.new ≡ holds self.old) }
        ensures failed { OnErr result (Rose (faults self.old) (faults self.new)) }
        ensures serves { serves self.new ≡ serves self.old }
        ensures faults { faults self.old ≤ faults self.new }
        ensures misses { misses self.new ≡ misses self.old }
        ensures taken { taken self.new ≡ taken self.old };

    /// Appends the first bytes of a piece to a file that is held, and says how many.
    ///
    /// Only an append that failed takes nothing of a piece that is not empty.
    fn append(&mut self, name: &str, piece: &[u8]) -> Result<usize, Failed>
        requires served { IsTrue (serves self.old name.now) }
        requires held { Given (holds self.old) name.now (λ file. IsSome file) }
        ensures bound { IfOk result (λ n. n ≤ length piece.now) }
        ensures ok { IfOk result (λ n. Grows (holds self.old) (holds self.new) name.now (take n piece.now)) }
        ensures err { OnErr result (holds self.new ≡ holds self.old) }
        ensures failed { OnErr result (Rose (faults self.old) (faults self.new)) }
        ensures none { IfOk result (λ n. n ≡ 0 → 0 < length piece.now →
            Rose (faults self.old) (faults self.new)) }
        ensures serves { serves self.new ≡ serves self.old }
        ensures faults { faults self.old ≤ faults self.new }
        ensures misses { misses self.new ≡ misses self.old }
        ensures taken { taken self.new ≡ taken self.old };
}
