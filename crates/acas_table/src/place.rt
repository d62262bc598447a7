//! Where a reader stands among the groups of a table.
ghost use Rattle.std.specs.Prelude.{◌≡◌, ◌<◌, ◌+◌, ◌-◌, ◌^◌, ◌==◌, if◌then◌else◌, Some, None};

/// How many digests were read, and how many entries of the group behind them are still to come.
#[derive(Clone, Copy)]
pub struct GroupPlace {
    pub groups: u32,
    pub left: u32,
}

impl GroupPlace {
    /// The group that ends before the next entry, where none of its entries are left.
    pub fn ended(self) -> Option<u32>
        ensures { result ≡ (if self.left == 0 then Some self.groups else None) }
    {
        if self.left == 0 {
            Some(self.groups)
        } else {
            None
        }
    }

    /// The place behind the next entry, where a group has so many. A digest that stands before it is read with it.
    pub fn next(self, group: u32) -> GroupPlace
        requires some { 0 < group }
        requires few { self.groups + 1 < 2 ^ 32 }
        ensures { result ≡ (if self.left == 0
            then record { groups = self.groups + 1; left = group - 1 }
            else record { groups = self.groups; left = self.left - 1 }) }
    {
        if self.left == 0 {
            GroupPlace {
                groups: self.groups + 1,
                left: group - 1,
            }
        } else {
            GroupPlace {
                groups: self.groups,
                left: self.left - 1,
            }
        }
    }
}
