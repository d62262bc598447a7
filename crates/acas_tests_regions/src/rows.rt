//! Rows of numbers in a text: a line each.
ghost use Rattle.std.specs.Prelude.{◌≤◌, ◌+◌, IfSome, unsigned_abs};

use acas_frac::Frac;
use acas_units::Span;
use std::alloc::Global;

// The fraction num/den, for a den that is not 0.
#[tactic(auto, using(acas_frac::proofs::Lowest::small_reduces))]
fn ratio(num: i64, den: i64) -> Option<Frac> {
    if den == 0 || den.unsigned_abs() > 10_000_000_000_000 {
        return None;
    }
    Some(Frac::new(i128::from(num), i128::from(den)))
}

fn fraction(word: &str) -> Option<Frac> {
    let (num, den) = word.split_once('/').unwrap_or((word, "1"));
    ratio(num.parse::<i64>().ok()?, den.parse::<i64>().ok()?)
}

/// The numbers of a line, as `n` or `n/d`.
pub fn fractions(alloc: Global, line: &str) -> Option<Vec<Frac>> {
    let mut row = Vec::new(alloc);
    for word in line.split_whitespace() {
        row.push(fraction(word)?).ok()?;
    }
    Some(row)
}

/// Whether a value is that at a place of a row.
pub fn is_at(row: &[Frac], place: usize, value: &Frac) -> Option<bool> {
    let want = row.get(place)?;
    Some(value.num() == want.num() && value.den() == want.den())
}

/// The interval of two numbers of a row, if they are in order and at most so large.
pub fn span(row: &[i64], place: usize, most: u64) -> Option<Span>
    requires { place ≤ 20 }
    ensures { IfSome result (λ s. (unsigned_abs s.least ≤ most) × (unsigned_abs s.greatest ≤ most)) }
{
    let least = *row.get(place)?;
    let greatest = *row.get(place + 1)?;
    if least <= greatest && least.unsigned_abs() <= most && greatest.unsigned_abs() <= most {
        Some(Span::new(least, greatest))
    } else {
        None
    }
}
