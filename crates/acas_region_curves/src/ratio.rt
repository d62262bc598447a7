//! Exact fractions that need not be in lowest terms.
ghost use Rattle.std.specs.Prelude.{◌≡◌, ◌*◌, ◌^◌, ◌<◌, ◌≤◌, unsigned_abs};
ghost use Rattle.acas_frac.specs.Fraction.{Fraction};
ghost use Rattle.acas_region_curves.specs.Ratios.{IsRatio};

use std::marker::Model;

/// A fraction as it was formed, for a value that is only compared: the numerator is at most 2 * 10^30 in size, and the denominator is
/// from 1 to 10^18.
#[derive(Clone, Copy)]
pub struct Ratio {
    num: i128,
    den: u64,
}

impl Model for Ratio {
    ghost use Rattle.acas_frac.specs.Fraction.{Fraction};
    ghost use Rattle.acas_region_curves.specs.Ratios.{IsRatio};

    ghost Value = { Fraction };

    ghost view = { λ s. record { num = s.num; den = s.den } };

    ghost invariant = { λ s. IsRatio (record { num = s.num; den = s.den }) };

    ghost inverse = { λ f. record { num = f.num; den = f.den } };
}

impl Ratio {
    /// The fraction num/den.
    pub fn new(num: i128, den: u64) -> Ratio
        requires some { 0 < den }
        requires num_small { unsigned_abs num ≤ 2 * 10 ^ 30 }
        requires den_small { den ≤ 10 ^ 18 }
        ensures num { Fraction.num result ≡ num }
        ensures den { Fraction.den result ≡ den }
        ensures bounds { IsRatio result }
    {
        Ratio { num, den }
    }

    /// The numerator, which has the value's sign.
    pub fn num(&self) -> i128
        ensures value { result ≡ Fraction.num self.now }
        ensures bounds { IsRatio self.now }
    {
        self.num
    }

    /// The denominator, which is above 0.
    pub fn den(&self) -> u64
        ensures value { result ≡ Fraction.den self.now }
        ensures bounds { IsRatio self.now }
    {
        self.den
    }
}
