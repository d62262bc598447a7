//! What a report counts, and why it may not be written.
ghost use Rattle.std.specs.Prelude.{◌≡◌, ◌+◌, ◌<◌, ◌^◌};
ghost use Rattle.acas_safeable.specs.Walk.{counted_near, counted_outlook, no_counts, total};

use crate::outlook::Outlook;

/// How many clear cells there are of each kind: those that some advisory is shown to keep safe, those of which none is shown, and those
/// in which contact may come within the second.
#[derive(Clone, Copy)]
pub struct SafeCounts {
    pub safeable: u64,
    pub unshown: u64,
    pub near: u64,
}

impl SafeCounts {
    /// The counts of no cell.
    pub(crate) fn none() -> SafeCounts
        ensures { result ≡ no_counts }
    {
        SafeCounts {
            safeable: 0,
            unshown: 0,
            near: 0,
        }
    }

    /// The counts with one cell more, of which this is found.
    pub(crate) fn with(&self, outlook: &Outlook) -> SafeCounts
        requires { total self.now + 1 < 2 ^ 64 }
        ensures { result ≡ counted_outlook self.now outlook.now }
    {
        match outlook {
            Outlook::Safeable(_) => SafeCounts {
                safeable: self.safeable + 1,
                ..*self
            },
            Outlook::Unshown => SafeCounts {
                unshown: self.unshown + 1,
                ..*self
            },
        }
    }

    /// The counts with one near cell more.
    pub(crate) fn with_near(&self) -> SafeCounts
        requires { total self.now + 1 < 2 ^ 64 }
        ensures { result ≡ counted_near self.now }
    {
        SafeCounts {
            near: self.near + 1,
            ..*self
        }
    }
}
