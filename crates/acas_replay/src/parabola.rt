//! A quantity that changes evenly faster or slower within a second, and the fractions of a second at which it is above 0.
ghost use Rattle.std.specs.Prelude.{◌≡◌, ◌+◌, ◌*◌, ◌≤◌, ◌*ℤ◌, ◌≤ℤ◌, ◌<ℤ◌, unsigned_abs, true, false};
ghost use Rattle.acas_units.specs.declared.limits.TheConstants.{GREATEST_CLOSING};
ghost use Rattle.acas_replay.specs.Parabola.{AreFractions, ComesDown, ComesInside, IsSmall, StaysAbove, StaysOutside, half_slope_at, lowered, turned, value_at};

use acas_units::GREATEST_CLOSING;

/// The largest value at the start.
pub(crate) const LARGEST_LEVEL: u32 = 2_000_000_000;

/// The largest slope at the start.
pub(crate) const LARGEST_SLOPE: u32 = 5_000_000;

/// The largest change of the slope.
pub(crate) const LARGEST_BEND: u32 = 4_000;

/// The largest product of two numbers of parts.
const LARGEST_SQUARE: u32 = GREATEST_CLOSING * GREATEST_CLOSING;

/// The quantity level + 2*slope*x + bend*x*x, at each fraction x of a second.
#[derive(Clone, Copy)]
pub(crate) struct Parabola {
    pub(crate) level: i64,
    pub(crate) slope: i64,
    pub(crate) bend: i64,
}

/// The fractions from first/parts to last/parts, both included.
#[derive(Clone, Copy)]
pub(crate) struct Fractions {
    pub(crate) parts: i64,
    pub(crate) first: i64,
    pub(crate) last: i64,
}

// A product of a number and a square of parts.
fn times(a: i64, b: i64) -> i64
    requires a { unsigned_abs a ≤ LARGEST_LEVEL }
    requires b { unsigned_abs b ≤ LARGEST_SQUARE }
    ensures value { result ≡ a *ℤ b }
    ensures size { unsigned_abs result ≤ LARGEST_LEVEL * LARGEST_SQUARE }
{
    a * b
}

// A product of two numbers of parts.
fn times_parts(a: i64, b: i64) -> i64
    requires a { unsigned_abs a ≤ GREATEST_CLOSING }
    requires b { unsigned_abs b ≤ GREATEST_CLOSING }
    ensures value { result ≡ a *ℤ b }
    ensures size { unsigned_abs result ≤ LARGEST_SQUARE }
{
    a * b
}

impl Parabola {
    // Its value at n of the parts, times the square of the parts.
    fn value_at(&self, n: i64, parts: i64) -> i64
        requires small { IsSmall self.now }
        requires n { unsigned_abs n ≤ GREATEST_CLOSING }
        requires parts { unsigned_abs parts ≤ GREATEST_CLOSING }
        ensures { result ≡ value_at self.now n parts }
    {
        let level = times(self.level, times_parts(parts, parts));
        let sloped = times(2 * self.slope, times_parts(n, parts));
        let bent = times(self.bend, times_parts(n, n));
        level + sloped + bent
    }

    // Half of its slope at n of the parts, times the parts.
    fn half_slope_at(&self, n: i64, parts: i64) -> i64
        requires small { IsSmall self.now }
        requires n { unsigned_abs n ≤ GREATEST_CLOSING }
        requires parts { unsigned_abs parts ≤ GREATEST_CLOSING }
        ensures { result ≡ half_slope_at self.now n parts }
    {
        let bent = times(n, self.bend);
        let sloped = times(self.slope, parts);
        bent + sloped
    }

    // Whether its least value is above 0, where it opens upward.
    fn is_least_above(&self) -> bool
        requires { IsSmall self.now }
        ensures above { result ≡ true →
            (self.now.slope *ℤ self.now.slope) <ℤ (self.now.level *ℤ self.now.bend) }
        ensures down { result ≡ false →
            (self.now.level *ℤ self.now.bend) ≤ℤ (self.now.slope *ℤ self.now.slope) }
    {
        let square = times(self.slope, self.slope);
        let product = times(self.level, self.bend);
        square < product
    }

    // Whether it is above 0 at all fractions between two.
    fn stays_above(&self, during: &Fractions) -> bool
        requires small { IsSmall self.now }
        requires during { AreFractions during.now }
        ensures above { result ≡ true → StaysAbove self.now during.now }
        ensures down { result ≡ false → ComesDown self.now during.now }
    {
        if self.value_at(during.first, during.parts) <= 0 {
            return false;
        }
        if self.value_at(during.last, during.parts) <= 0 {
            return false;
        }
        if self.bend <= 0 {
            return true;
        }
        if self.half_slope_at(during.first, during.parts) >= 0 {
            return true;
        }
        if self.half_slope_at(during.last, during.parts) <= 0 {
            return true;
        }
        self.is_least_above()
    }

    // The same, less by so much.
    fn lowered(&self, by: i64) -> Parabola
        requires level { unsigned_abs self.now.level + unsigned_abs by ≤ LARGEST_LEVEL }
        ensures { result ≡ lowered self.now by }
    {
        Parabola {
            level: self.level - by,
            ..*self
        }
    }

    // The same, turned upside down.
    fn turned(&self) -> Parabola
        requires { IsSmall self.now }
        ensures { result ≡ turned self.now }
    {
        Parabola {
            level: -self.level,
            slope: -self.slope,
            bend: -self.bend,
        }
    }

    /// Whether it is above the half at all fractions between two, or below its opposite at all of them.
    pub(crate) fn stays_outside(&self, half: i64, during: &Fractions) -> bool
        requires small { IsSmall self.now }
        requires room { unsigned_abs self.now.level + unsigned_abs half ≤ LARGEST_LEVEL }
        requires during { AreFractions during.now }
        ensures apart { result ≡ true → StaysOutside half self.now during.now }
        ensures meets { result ≡ false → ComesInside half self.now during.now }
    {
        if self.lowered(half).stays_above(during) {
            return true;
        }
        self.turned().lowered(half).stays_above(during)
    }
}
