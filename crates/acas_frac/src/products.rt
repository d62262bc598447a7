//! Arithmetic of 128 bits under bounds.
ghost use Rattle.std.specs.Prelude.{◌≡◌, ◌^◌, ◌<◌, ◌≤◌, ◌+ℤ◌, ◌-ℤ◌, ◌*ℤ◌, unsigned_abs};
ghost use Rattle.std.specs.Int.{IsGcd};
ghost use Rattle.acas_frac.specs.Fraction.{signed};

/// The greatest common divisor, by Euclid's algorithm, which goes on in 64 bits once the smaller number fits them.
pub fn gcd(a: u128, b: u128) -> u128
    ensures { IsGcd a b result }
{
    let mut x = a;
    let mut y = b;
    while y > u128::from(u64::MAX) {
        let rest = x % y;
        x = y;
        y = rest;
    }
    if y == 0 {
        return x;
    }
    u128::from(narrow_gcd(y as u64, (x % y) as u64))
}

// The greatest common divisor of two numbers of 64 bits.
fn narrow_gcd(a: u64, b: u64) -> u64
    ensures { IsGcd a b result }
{
    let mut x = a;
    let mut y = b;
    while y != 0 {
        let rest = x % y;
        x = y;
        y = rest;
    }
    x
}

/// The number of that size, with a sign.
pub(crate) fn with_sign(negative: bool, size: u128) -> i128
    requires { size < 2 ^ 127 }
    ensures { result ≡ signed negative size }
{
    let size = size as i128;
    if negative { -size } else { size }
}

/// The exact product, where it is small enough.
pub(crate) fn times(a: i128, b: i128) -> i128
    requires { unsigned_abs (a *ℤ b) ≤ 10 ^ 37 }
    ensures value { result ≡ a *ℤ b }
    ensures size { unsigned_abs result ≤ 10 ^ 37 }
{
    a * b
}

/// The exact sum of two products.
pub(crate) fn plus(a: i128, b: i128) -> i128
    requires first { unsigned_abs a ≤ 10 ^ 37 }
    requires second { unsigned_abs b ≤ 10 ^ 37 }
    ensures { result ≡ a +ℤ b }
{
    a + b
}

/// The exact difference of two products.
pub(crate) fn minus(a: i128, b: i128) -> i128
    requires first { unsigned_abs a ≤ 10 ^ 37 }
    requires second { unsigned_abs b ≤ 10 ^ 37 }
    ensures { result ≡ a -ℤ b }
{
    a - b
}
