//! The calls that are to fail.
ghost use Rattle.std.specs.Prelude.{◌≡◌, IsTrue, ◌↔◌, Contains};
ghost use Rattle.acas_outside.specs.Counts.{raised};

/// The calls of one kind: the numbers of those that are to fail, how many were made, and how many failed.
#[derive(Drop)]
pub struct ListedCalls {
    pub listed: Vec<u64>,
    pub made: u64,
    pub failed: u64,
}

impl ListedCalls {
    /// Calls of which those of these numbers are to fail.
    pub fn new(listed: Vec<u64>) -> ListedCalls
        ensures listed { result.listed.items ≡ listed.items }
        ensures made { result.made ≡ 0 }
        ensures failed { result.failed ≡ 0 }
    {
        ListedCalls {
            listed,
            made: 0,
            failed: 0,
        }
    }

    /// Counts a call, and says whether it is to fail.
    pub fn count(&mut self) -> bool
        ensures listed { IsTrue result ↔ Contains self.old.listed.items self.old.made }
        ensures made { self.new ≡ record self.old { made = raised self.old.made 1 } }
    {
        let is_listed = self.listed.contains(&self.made);
        self.made = self.made.saturating_add(1);
        is_listed
    }
}
