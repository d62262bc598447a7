//! The counters of runs.
ghost use Rattle.std.specs.Prelude.{◌≡◌, ◌↔◌, true};
ghost use Rattle.acas_cli.specs.Work.{HasRoom};

use acas_audit_blocks::Decisions;
use acas_plane::Turned;
use acas_sweep::Backups;

/// The most that a count may be before a run: 2^63.
const GREATEST_COUNT: u64 = 1 << 63;

/// The counters that runs raise: the backups of sweeps, the pairs that their blocks turned, and the decisions of blocks of audits.
/// Contracts see them as three numbers.
#[derive(Drop)]
pub struct Work {
    pub backups: Backups,
    pub turned: Turned,
    pub decisions: Decisions,
}

impl Work {
    /// Counters at 0. It takes no memory.
    pub fn new() -> Work
        ensures backups { result.backups ≡ 0 }
        ensures turned { result.turned ≡ 0 }
        ensures decisions { result.decisions ≡ 0 }
    {
        Work {
            backups: Backups::new(),
            turned: Turned::new(),
            decisions: Decisions::new(),
        }
    }

    /// How many backups were counted.
    pub fn backups(&self) -> u64
        ensures { result ≡ self.now.backups }
    {
        self.backups.count()
    }

    /// How many pairs were counted that blocks turned.
    pub fn turned(&self) -> u64
        ensures { result ≡ self.now.turned }
    {
        self.turned.count()
    }

    /// How many decisions of blocks were counted.
    pub fn decisions(&self) -> u64
        ensures { result ≡ self.now.decisions }
    {
        self.decisions.count()
    }

    /// Whether there is room for one more run: each count is at most 2^63.
    pub fn has_room(&self) -> bool
        ensures { (result ≡ true) ↔ HasRoom self.now }
    {
        self.backups() <= GREATEST_COUNT
            && self.turned() <= GREATEST_COUNT
            && self.decisions() <= GREATEST_COUNT
    }
}
