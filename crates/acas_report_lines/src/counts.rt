//! What a report counts, which lines it has, and why it may not be written.
ghost use Rattle.std.specs.Prelude.{◌≡◌, ◌+◌, ◌<◌, ◌^◌, if◌then◌else◌, true};
ghost use Rattle.acas_report_lines.specs.Plan.{total};
ghost use Rattle.acas_report_lines.specs.Report.{is_left_out};

/// How many lines there are of each kind, those that are left out included, and how many clear cells.
#[derive(Clone, Copy)]
pub struct Counts {
    pub certified: u64,
    pub reported: u64,
    pub clear: u64,
}

/// Which lines are written.
#[derive(Clone, Copy)]
pub enum Which {
    /// Each line.
    All,
    /// Each line but the certified ones.
    Reported,
}

/// Whether the line of a ruling is left out, that is certified or is not.
pub fn leaves_out(which: Which, certified: bool) -> bool
    ensures { result ≡ is_left_out which certified }
{
    match which {
        Which::All => false,
        Which::Reported => certified,
    }
}

impl Counts {
    /// Counts a ruling, that is certified or is not.
    pub fn count(&mut self, certified: bool)
        requires { total self.old + 1 < 2 ^ 64 }
        ensures certified { self.new.certified ≡
            (if certified then self.old.certified + 1 else self.old.certified) }
        ensures reported { self.new.reported ≡
            (if certified then self.old.reported else self.old.reported + 1) }
        ensures clear { self.new.clear ≡ self.old.clear }
    {
        if certified {
            self.certified += 1;
        } else {
            self.reported += 1;
        }
    }

    /// Counts a cell, where it is clear.
    pub fn count_cell(&mut self, is_clear: bool)
        requires { is_clear ≡ true → total self.old + 1 < 2 ^ 64 }
        ensures certified { self.new.certified ≡ self.old.certified }
        ensures reported { self.new.reported ≡ self.old.reported }
        ensures clear { self.new.clear ≡ (if is_clear then self.old.clear + 1 else self.old.clear) }
    {
        if is_clear {
            self.clear += 1;
        }
    }
}
