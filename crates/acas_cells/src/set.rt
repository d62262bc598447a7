//! Sets of advices.
ghost use Rattle.std.specs.Prelude.{◌≡◌, ◌==◌, ◌&&◌, ◌||◌, ◌<◌, ℕ, not, false, true};
ghost use Rattle.acas_units.specs.declared.limits.TheConstants.{GREATEST_ADVISORIES};
ghost use Rattle.acas_cells.specs.Sets.{has_no_advisory, holds};

/// A set of advices, each the number of one of at most [`GREATEST_ADVISORIES`](acas_units::GREATEST_ADVISORIES) advisories.
#[derive(Clone, Copy)]
pub struct AdviceSet {
    bits: u16,
}

impl AdviceSet {
    /// The set of no advice.
    pub fn empty() -> AdviceSet
        ensures none { (a : ℕ) → holds result a ≡ false }
        ensures no_advisory { has_no_advisory result ≡ true }
    {
        AdviceSet { bits: 0 }
    }

    /// The set with one more advice.
    pub fn with(self, advice: u8) -> AdviceSet
        requires { advice < GREATEST_ADVISORIES }
        ensures more { (a : ℕ) → holds result a ≡ (a == advice || holds self a) }
        ensures no_advisory { has_no_advisory result ≡ (has_no_advisory self && advice == 0) }
    {
        AdviceSet {
            bits: self.bits | (1 << advice),
        }
    }

    /// The set without an advice.
    pub fn without(self, advice: u8) -> AdviceSet
        requires { advice < GREATEST_ADVISORIES }
        ensures { (a : ℕ) → holds result a ≡ (not (a == advice) && holds self a) }
    {
        AdviceSet {
            bits: self.bits & !(1 << advice),
        }
    }

    /// The set of an advice alone where it is in this one, and of none where it is not.
    pub fn only(self, advice: u8) -> AdviceSet
        requires { advice < GREATEST_ADVISORIES }
        ensures { (a : ℕ) → holds result a ≡ (a == advice && holds self a) }
    {
        AdviceSet {
            bits: self.bits & (1 << advice),
        }
    }

    /// The set with all advices of another besides.
    pub fn union(self, other: AdviceSet) -> AdviceSet
        ensures more { (a : ℕ) → holds result a ≡ (holds self a || holds other a) }
        ensures no_advisory { has_no_advisory result ≡ (has_no_advisory self && has_no_advisory other) }
    {
        AdviceSet {
            bits: self.bits | other.bits,
        }
    }

    /// Whether an advice is in the set. A number of no advisory is in none.
    pub fn has(&self, advice: u8) -> bool
        ensures { result ≡ holds self.now advice }
    {
        let bits = self.bits;
        u32::from(advice) < u16::BITS && (bits >> advice) & 1 == 1
    }

    /// Whether no advice is in the set but clear of conflict.
    pub fn has_no_advisory(&self) -> bool
        ensures { result ≡ has_no_advisory self.now }
    {
        self.bits / 2 == 0
    }
}
