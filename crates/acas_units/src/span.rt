//! Closed intervals of whole numbers.
ghost use Rattle.std.specs.Prelude.{◌≡◌, ◌≤ℤ◌};

/// A closed interval of whole numbers. Its least number is at most its greatest.
#[derive(Clone, Copy)]
pub struct Span {
    pub least: i64,
    pub greatest: i64,
    ghost ordered: { least ≤ℤ greatest },
}

impl Span {
    /// The interval from one number to another that is not below it, both included.
    pub fn new(least: i64, greatest: i64) -> Span
        requires { least ≤ℤ greatest }
        ensures least { result.least ≡ least }
        ensures greatest { result.greatest ≡ greatest }
    {
        Span { least, greatest }
    }
}
