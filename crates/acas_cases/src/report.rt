//! What a case was found to differ in.
use std::alloc::Global;
use std::process::Abort;

// How many bytes of what was found are shown.
const SHOWN: usize = 120;

/// The differences that were found, one after the other, each behind the name and the row of its case.
#[derive(Drop)]
pub struct Report {
    pub alloc: Global,
    case: String,
    pub text: String,
}

impl Report {
    /// A report with no difference.
    pub fn new(alloc: Global) -> Report {
        Report {
            alloc,
            case: String::new(alloc),
            text: String::new(alloc),
        }
    }

    /// What is reported from here on is of this case.
    pub fn begin(&mut self, rt: &impl Abort, name: &str, row: &[String]) {
        self.case.clear();
        push(rt, &mut self.case, name);
        for value in row {
            push(rt, &mut self.case, " ");
            push(rt, &mut self.case, value);
        }
    }

    /// Reports a difference.
    pub fn add(&mut self, rt: &impl Abort, what: &str) {
        push(rt, &mut self.text, &self.case);
        push(rt, &mut self.text, ": ");
        push(rt, &mut self.text, what);
        push(rt, &mut self.text, "\n");
    }

    /// Reports these bytes where they are not those that are wanted.
    pub fn same(&mut self, rt: &impl Abort, what: &str, found: &[u8], wanted: &[u8]) {
        self.holds(rt, what, found, found == wanted);
    }

    /// Reports these bytes where they do not stand at the front of others, which are longer or none.
    pub fn part(&mut self, rt: &impl Abort, what: &str, found: &[u8], whole: &[u8]) {
        let is_part = whole.starts_with(found) && (found.len() < whole.len() || whole.is_empty());
        self.holds(rt, what, found, is_part);
    }

    /// Reports these bytes where what is said of them is false.
    pub fn holds(&mut self, rt: &impl Abort, what: &str, found: &[u8], is_so: bool) {
        if !is_so {
            let shown = found.get(..SHOWN).unwrap_or(found);
            let shown = String::from_utf8_lossy(self.alloc, shown).expect(rt, "memory");
            self.add(rt, what);
            self.add(rt, &shown);
        }
    }
}

fn push(rt: &impl Abort, text: &mut String, piece: &str) {
    text.push_str(piece).expect(rt, "memory");
}
