//! Fractions by their parts, and products of 128 bits under bounds.
ghost use Rattle.std.specs.Prelude.{◌≡◌, ◌*◌, ◌^◌, ◌<◌, ◌≤◌, pos, ◌*ℤ◌, ◌≤ℤ◌, unsigned_abs};
ghost use Rattle.acas_frac.specs.Fraction.{Fraction, IsFrac, difference_of};

use acas_frac::Frac;

// The numerator and the denominator, with their bounds.
fn parts(value: &Frac) -> (i128, i128)
    ensures num { result.0 ≡ Fraction.num value.now }
    ensures den { result.1 ≡ pos (Fraction.den value.now) }
    ensures bounds { IsFrac value.now }
{
    (value.num(), value.den())
}

/// The fraction, with what is known of every fraction.
pub fn known(value: Frac) -> Frac
    ensures same { result ≡ value }
    ensures lowest { IsFrac result }
{
    let (_, _) = parts(&value);
    value
}

/// The number, which is not negative.
pub fn natural(value: i64) -> u64
    requires { pos 0 ≤ℤ value }
    ensures { value ≡ pos result }
{
    value as u64
}

// The product of a part of a fraction and a denominator.
fn across(part: i128, den: i128) -> i128
    requires part { unsigned_abs part ≤ 10 ^ 24 }
    requires den { unsigned_abs den ≤ 10 ^ 13 }
    ensures value { result ≡ part *ℤ den }
    ensures size { unsigned_abs result ≤ 10 ^ 37 }
{
    part * den
}

/// The difference of two fractions, over the product of their denominators: its numerator, and that product.
pub fn difference_parts(value: &Frac, other: &Frac) -> (i128, i128)
    ensures num { result.0 ≡ Fraction.num (difference_of value.now other.now) }
    ensures size { unsigned_abs result.0 ≤ 2 * 10 ^ 37 }
    ensures den { result.1 ≡ pos (Fraction.den (difference_of value.now other.now)) }
    ensures den_size { unsigned_abs result.1 ≤ 10 ^ 26 }
    ensures some { 0 < Fraction.den (difference_of value.now other.now) }
{
    let (a, b) = parts(value);
    let (c, d) = parts(other);
    (across(a, d) - across(c, b), across(b, d))
}
