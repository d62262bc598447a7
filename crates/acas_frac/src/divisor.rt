//! Exact quotients by a divisor that is known beforehand, by a product in the place of a division: the round-down method (Robison,
//! N-Bit Unsigned Division Via N-Bit Multiply-Add, 2005). It has no correction, for all numbers below 2^63.
ghost use Rattle.std.specs.Prelude.{◌≡◌, ◌+◌, ◌-◌, ◌*◌, ◌/◌, ◌^◌, ◌<◌, ◌≤◌};
ghost use Rattle.acas_frac.specs.Divisor.{IsDivisor};

/// A divisor above 0, with the number of its binary digits below the highest one, and how often it goes into the greatest number of
/// 64 digits more than these.
#[derive(Clone, Copy)]
pub struct Divisor {
    pub by: u64,
    multiplier: u64,
    shift: u8,
}

// The upper 64 bits of a product.
fn upper_half(x: u64, y: u64) -> u64
    ensures { result ≡ x * y / 2 ^ 64 }
{
    ((u128::from(x) * u128::from(y)) >> 64) as u64
}

impl Divisor {
    /// The divisor of this size.
    pub fn new(by: u64) -> Divisor
        requires { 0 < by }
        ensures divisor { IsDivisor result }
        ensures by { result.by ≡ by }
    {
        let shift = by.ilog2();
        let greatest = (1u128 << (64 + shift)) - 1;
        Divisor {
            by,
            multiplier: (greatest / u128::from(by)) as u64,
            shift: shift as u8,
        }
    }

    /// The quotient of a number by the divisor, rounded down.
    pub fn down(self, x: u64) -> u64
        requires divisor { IsDivisor self }
        requires room { x < 2 ^ 63 }
        ensures { result ≡ x / self.by }
    {
        upper_half(x + 1, self.multiplier) >> self.shift
    }

    /// The quotient of a number by the divisor, rounded up.
    pub fn up(self, x: u64) -> u64
        requires divisor { IsDivisor self }
        requires room { x + self.by ≤ 2 ^ 63 }
        ensures { result ≡ (x + (self.by - 1)) / self.by }
    {
        upper_half(x + self.by, self.multiplier) >> self.shift
    }

    /// The quotient of a number of 128 bits by the divisor, rounded down: that of its upper digits, and that of what these leave, two
    /// products in the place of a division.
    pub fn down_wide(self, x: u128) -> u128
        requires divisor { IsDivisor self }
        requires by { self.by ≤ 2 ^ 62 }
        ensures { result ≡ x / self.by }
    {
        let by = u128::from(self.by);
        let lower = 62 - u32::from(self.shift);
        let upper = x >> lower;
        if upper >= 1 << 63 {
            return x / by;
        }
        let first = u128::from(self.down(upper as u64)) << lower;
        let rest = x - first * by;
        first + u128::from(self.down(rest as u64))
    }
}
