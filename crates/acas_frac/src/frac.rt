//! Exact fractions in lowest terms.
ghost use Rattle.std.specs.Prelude.{◌≡◌, ℕ, ◌*◌, ◌^◌, ◌<◌, ◌≤◌, ◌≢◌, ℤ, pos, ◌*ℤ◌, ◌<ℤ◌, int_le, unsigned_abs};
ghost use Rattle.acas_frac.specs.Fraction.{Fraction, IsFrac, ReducesWithinBounds, Same, StaysWithinBounds, difference_of, multiple_of, order_of, product_of, signed, sum_of, whole_of};

use crate::products::{gcd, minus, plus, times, with_sign};
use std::cmp::Ordering;
use std::marker::Model;

/// A fraction in lowest terms: the numerator is at most 10^24 in size, the denominator is from 1 to 10^13, and zero is 0/1.
/// So the cross products of two fractions, and their sum, fit 128 bits.
#[derive(Clone, Copy)]
pub struct Frac {
    num: i128,
    den: i128,
}

impl Model for Frac {
    ghost use Rattle.std.specs.Prelude.{pos, ◌<ℤ◌, unsigned_abs};
    ghost use Rattle.acas_frac.specs.Fraction.{Fraction, IsFrac, pos-unsigned_abs};

    ghost Value = { Fraction };

    ghost view = { λ s. record { num = s.num; den = unsigned_abs s.den } };

    ghost invariant = { λ s. (pos 0 <ℤ s.den) × IsFrac (record { num = s.num; den = unsigned_abs s.den }) };

    ghost inverse = { λ f. record { num = f.num; den = pos f.den } };

    ghost inverse_ok = { λ a h i. record { num = a.num; den = pos-unsigned_abs a.den h.0 i } };
}

impl Frac {
    // The fraction of that value in lowest terms.
    fn reduced(negative: bool, num: u128, den: u128) -> Frac
        requires some { 0 < den }
        requires within { ReducesWithinBounds num den }
        ensures value { Same result (record { num = signed negative num; den = den }) }
    {
        let divisor = gcd(num, den);
        Frac {
            num: with_sign(negative, num / divisor),
            den: (den / divisor) as i128,
        }
    }

    // The fraction num/den in lowest terms, for a den above 0.
    fn lowest(num: i128, den: i128) -> Frac
        requires some { pos 0 <ℤ den }
        requires within { ReducesWithinBounds (unsigned_abs num) (unsigned_abs den) }
        ensures { Same result (record { num = num; den = unsigned_abs den }) }
    {
        Frac::reduced(num < 0, num.unsigned_abs(), den.unsigned_abs())
    }

    // The numerator and the denominator, with their bounds.
    fn parts(&self) -> (i128, i128)
        ensures num { result.0 ≡ Fraction.num self.now }
        ensures den { result.1 ≡ pos (Fraction.den self.now) }
        ensures bounds { IsFrac self.now }
    {
        (self.num, self.den)
    }

    // The two numerators over the product of the denominators, and that product.
    fn over_one_denominator(&self, other: &Frac) -> (i128, i128, i128)
        ensures left { result.0 ≡ Fraction.num self.now *ℤ pos (Fraction.den other.now) }
        ensures right { result.1 ≡ Fraction.num other.now *ℤ pos (Fraction.den self.now) }
        ensures den { result.2 ≡ pos (Fraction.den self.now * Fraction.den other.now) }
        ensures left_small { unsigned_abs result.0 ≤ 10 ^ 37 }
        ensures right_small { unsigned_abs result.1 ≤ 10 ^ 37 }
        ensures some { pos 0 <ℤ result.2 }
    {
        let (a, b) = self.parts();
        let (c, d) = other.parts();
        (times(a, d), times(c, b), times(b, d))
    }

    /// The value num/den, in lowest terms. The denominator is not 0, both numbers are at most 10^37 in size, and the value is
    /// within the bounds of a fraction.
    pub fn new(num: i128, den: i128) -> Frac
        requires some { den ≢ pos 0 }
        requires num_small { unsigned_abs num ≤ 10 ^ 37 }
        requires den_small { unsigned_abs den ≤ 10 ^ 37 }
        requires within { ReducesWithinBounds (unsigned_abs num) (unsigned_abs den) }
        ensures value { Fraction.num result *ℤ den ≡ num *ℤ pos (Fraction.den result) }
        ensures lowest { IsFrac result }
    {
        Frac::reduced(
            (num < 0) != (den < 0),
            num.unsigned_abs(),
            den.unsigned_abs(),
        )
    }

    /// The whole number.
    pub fn whole(value: i64) -> Frac
        ensures { result ≡ whole_of value }
    {
        Frac {
            num: i128::from(value),
            den: 1,
        }
    }

    /// The numerator, which has the value's sign.
    pub fn num(&self) -> i128
        ensures value { result ≡ Fraction.num self.now }
        ensures bounds { IsFrac self.now }
    {
        self.num
    }

    /// The denominator, which is above 0.
    pub fn den(&self) -> i128
        ensures value { result ≡ pos (Fraction.den self.now) }
        ensures bounds { IsFrac self.now }
    {
        self.den
    }

    /// The order of the two values.
    pub fn compare(&self, other: &Frac) -> Ordering
        ensures { result ≡ order_of self.now other.now }
    {
        let (a, b) = self.parts();
        let (c, d) = other.parts();
        times(a, d).cmp(&times(c, b))
    }

    /// Whether the value is at most the other.
    pub fn is_at_most(&self, other: &Frac) -> bool
        ensures { result ≡ int_le (Fraction.num self.now *ℤ pos (Fraction.den other.now))
            (Fraction.num other.now *ℤ pos (Fraction.den self.now)) }
    {
        match self.compare(other) {
            Ordering::Less => true,
            Ordering::Equal => true,
            Ordering::Greater => false,
        }
    }

    /// The exact sum, which is within the bounds.
    pub fn add(&self, other: &Frac) -> Frac
        requires { StaysWithinBounds (sum_of self.now other.now) }
        ensures value { Same result (sum_of self.now other.now) }
        ensures lowest { IsFrac result }
    {
        let (left, right, den) = self.over_one_denominator(other);
        Frac::lowest(plus(left, right), den)
    }

    /// The exact difference, which is within the bounds.
    pub fn sub(&self, other: &Frac) -> Frac
        requires { StaysWithinBounds (difference_of self.now other.now) }
        ensures value { Same result (difference_of self.now other.now) }
        ensures lowest { IsFrac result }
    {
        let (left, right, den) = self.over_one_denominator(other);
        Frac::lowest(minus(left, right), den)
    }

    /// The exact product, which is within the bounds. The product of the numerators is at most 10^37 in size; that of the
    /// denominators always is.
    pub fn mul(&self, other: &Frac) -> Frac
        requires num_small { unsigned_abs (Fraction.num self.now *ℤ Fraction.num other.now) ≤ 10 ^ 37 }
        requires within { StaysWithinBounds (product_of self.now other.now) }
        ensures value { Same result (product_of self.now other.now) }
        ensures lowest { IsFrac result }
    {
        let (a, b) = self.parts();
        let (c, d) = other.parts();
        let num = times(a, c);
        let den = times(b, d);
        Frac::lowest(num, den)
    }

    /// The exact product with a whole number of at most 10^9 in size, which is within the bounds.
    pub fn mul_small(&self, factor: i64) -> Frac
        requires small { unsigned_abs factor ≤ 10 ^ 9 }
        requires within { StaysWithinBounds (multiple_of self.now factor) }
        ensures value { Same result (multiple_of self.now factor) }
        ensures lowest { IsFrac result }
    {
        let (a, b) = self.parts();
        let num = times(a, i128::from(factor));
        Frac::lowest(num, b)
    }
}
