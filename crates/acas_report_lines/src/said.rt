//! What is ruled on a box or a cell, of any kind.
ghost use Rattle.std.specs.Prelude.{◌≡◌, ◌+◌, ◌≤◌, ◌++◌, ℕ, Bool, List, length};
ghost use Rattle.acas_report_lines.specs.Meetings as meetings;
ghost use Rattle.acas_report_lines.specs.Text as rulings;

use crate::witness_fields::{MEETING_BYTES, line_meeting, line_witness};
use acas_outside::{LINE_BYTES, Line};
use acas_rulings::{MeetVerdict, Ruling};

/// The greatest number of bytes of what is said: a word, a meeting and the end of the line.
pub const SAID_BYTES: usize = MEETING_BYTES + 10;

/// What a line says of what is ruled on, and whether that is that nothing is endangered.
pub trait Said {
    /// It says that nothing is endangered.
    ghost certified: { Self → Bool };

    /// What the line says, with its end.
    ghost text: { Self → List ℕ };

    /// Whether it says that nothing is endangered.
    fn is_certified(&self) -> bool
        ensures { result ≡ certified self.now };

    /// Appends what the line says, and ends it.
    fn write(&self, line: &mut Line)
        requires { length line.old + SAID_BYTES ≤ LINE_BYTES }
        ensures value { line.new ≡ line.old ++ text self.now }
        ensures room { length line.new ≤ length line.old + SAID_BYTES };
}

impl Said for Ruling {
    ghost certified = { rulings.is_certified };

    ghost text = { rulings.ruling_text };

    fn is_certified(&self) -> bool {
        match self {
            Ruling::Certified => true,
            Ruling::Reported(_) => false,
        }
    }

    fn write(&self, line: &mut Line) {
        match self {
            Ruling::Certified => line.push(b" certified\n"),
            Ruling::Reported(witness) => {
                line.push(b" reported");
                line_witness(line, witness);
                line.push(b"\n");
            }
        }
    }
}

impl Said for MeetVerdict {
    ghost certified = { meetings.is_safe };

    ghost text = { meetings.meet_text };

    fn is_certified(&self) -> bool {
        match self {
            MeetVerdict::Certified => true,
            MeetVerdict::Reported(_) => false,
        }
    }

    fn write(&self, line: &mut Line) {
        match self {
            MeetVerdict::Certified => line.push(b" certified\n"),
            MeetVerdict::Reported(meeting) => {
                line.push(b" reported");
                line_meeting(line, meeting);
                line.push(b"\n");
            }
        }
    }
}
