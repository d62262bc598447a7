//! Numbers that are not negative, and numbers of the other sign.
ghost use Rattle.std.specs.Prelude.{◌≡◌, ◌^◌, ◌≤◌, pos, neg_ℤ, ◌≤ℤ◌, unsigned_abs};
ghost use Rattle.acas_frac.specs.Fraction.{Fraction, IsFrac};

use acas_frac::Frac;

/// The number, which is not negative.
pub fn natural(value: i64) -> u64
    requires { pos 0 ≤ℤ value }
    ensures { value ≡ pos result }
{
    value as u64
}

/// The number of the other sign.
pub fn minus(value: i64) -> i64
    requires { unsigned_abs value ≤ 10 ^ 18 }
    ensures value { result ≡ neg_ℤ value }
    ensures size { unsigned_abs result ≡ unsigned_abs value }
{
    -value
}

/// The fraction of the other sign.
pub(crate) fn negate(value: &Frac) -> Frac
    ensures num { Fraction.num result ≡ neg_ℤ (Fraction.num value.now) }
    ensures den { Fraction.den result ≡ Fraction.den value.now }
    ensures lowest { IsFrac result }
{
    Frac::new(-value.num(), value.den())
}
