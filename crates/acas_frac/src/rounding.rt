//! Quotients rounded to whole numbers.
ghost use Rattle.std.specs.Prelude.{◌≡◌, ℤ};
ghost use Rattle.std.proofs.Common.{inl, inr, refl};
ghost use Rattle.acas_frac.specs.Rounding.{IsQuotient, IsRounding, down, up};

/// A way to round a quotient to a whole number.
pub trait Rounding {
    ghost round: { ℤ → ℤ → ℤ };

    /// The quotient, rounded. The denominator is above 0, and both are at most 10^37 in size.
    fn div(num: i128, den: i128) -> i128
        requires { IsQuotient num den }
        ensures { result ≡ round num den };

    // A generic caller learns every law of rounding from this.
    ghost way: { IsRounding round };
}

/// Rounds to the greatest whole number that is not above the quotient.
pub struct Down;

impl Rounding for Down {
    ghost round = { down };

    ghost way = { inl refl };

    fn div(num: i128, den: i128) -> i128 {
        num.div_euclid(den)
    }
}

/// Rounds to the least whole number that is not below the quotient.
pub struct Up;

impl Rounding for Up {
    ghost round = { up };

    ghost way = { inr refl };

    fn div(num: i128, den: i128) -> i128 {
        -(-num).div_euclid(den)
    }
}
