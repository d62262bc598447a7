//! The search by halving for a flight in contact.
ghost use Rattle.std.specs.Prelude.{◌≡◌, ℕ, ◌+◌, ◌*◌, ◌<◌, ◌≤◌, true, false};
ghost use Rattle.acas_frac.specs.Fraction.{Fraction, Same};
ghost use Rattle.acas_areas.specs.Value.{is_below, IsLessThanAbove, IsWithinHalf, thinnest};
ghost use Rattle.acas_areas.specs.Halving.{HalvesTo};

/// A pass over one quantity: flights at numbered points, each of which has a value in ticks.
pub trait Pass {
    /// A flight of the pass, with what its value is told by.
    type Flight: Drop;

    /// The value of a flight.
    ghost value: { Self.Flight → Fraction };

    /// The flight is the one of that point.
    ghost is_at: { Self → ℕ → Self.Flight → Type 0 };

    /// The value at each point.
    ghost value_at: { Self → ℕ → Fraction };

    /// The number of the last point.
    ghost last: { Self → ℕ };

    /// The half height of the puck, in ticks.
    ghost half: { Self → ℕ };

    /// The flight of a point, of which the last is the greatest number.
    fn at(&self, number: u32) -> Self::Flight
        requires { number ≤ last self.now }
        ensures point { is_at self.now number result }
        ensures value { Same (value result) (value_at self.now number) }
        ensures some { 0 < Fraction.den (value result) };

    /// Whether a flight is below.
    fn is_below(&self, flight: &Self::Flight) -> bool
        ensures { result ≡ is_below (half self.now) (value flight.now) };
}

/// The flight at which the halving of a pass ends. The first flight is below, the last is not, and each is above the one before it
/// by less than the thinnest puck is thick. So the flight found is in contact.
pub fn halve<P: Pass>(pass: &P, last: u32) -> P::Flight
    requires last { last ≡ P.last pass.now }
    requires first_is_below { is_below (P.half pass.now) (P.value_at pass.now 0) ≡ true }
    requires last_is_not { is_below (P.half pass.now) (P.value_at pass.now last) ≡ false }
    requires dens { (i : ℕ) → i ≤ last → 0 < Fraction.den (P.value_at pass.now i) }
    requires steps { (i : ℕ) → i < last →
        IsLessThanAbove thinnest (P.value_at pass.now i) (P.value_at pass.now (i + 1)) }
    requires thick { thinnest ≤ 2 * P.half pass.now }
    ensures end { let below = λ (i : ℕ). is_below (P.half pass.now) (P.value_at pass.now i) in
        (end : ℕ) × HalvesTo below 0 last end × (end ≤ last) × P.is_at pass.now end result }
    ensures contact { IsWithinHalf (P.half pass.now) (P.value result) }
{
    let mut low: u32 = 0;
    let mut high: u32 = last;
    while high - low > 1 {
        let middle = low + (high - low) / 2;
        if pass.is_below(&pass.at(middle)) {
            low = middle;
        } else {
            high = middle;
        }
    }
    pass.at(high)
}
