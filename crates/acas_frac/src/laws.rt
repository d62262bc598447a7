//! Laws of the definitions. The functions do nothing: their clauses are the laws.
ghost use Rattle.std.specs.Prelude.{◌≡◌, ℕ, ◌<◌, ℤ, pos, ◌*ℤ◌, ◌≤ℤ◌, ◌↔◌};
ghost use Rattle.acas_frac.specs.Fraction.{Fraction, IsFrac, Same};
ghost use Rattle.acas_frac.specs.Rounding.{down, up};

/// A quotient rounded down is the greatest whole number that, times the denominator, is at most the numerator. One rounded up
/// is the least that is at least the numerator.
pub fn quotients_are_rounded()
    ensures down { (a m : ℤ) (c : ℕ) → 0 < c → ((pos c *ℤ m) ≤ℤ a) ↔ (m ≤ℤ down a (pos c)) }
    ensures up { (a m : ℤ) (c : ℕ) → 0 < c → (a ≤ℤ (pos c *ℤ m)) ↔ (up a (pos c) ≤ℤ m) }
{}

/// Two fractions in lowest terms that have the same value are the same. So a call that answers the exact value in lowest terms
/// has one answer.
pub fn lowest_terms_are_one()
    ensures { (f g : Fraction) → IsFrac f → IsFrac g → Same f g → f ≡ g }
{}
