//! How large the values of a layer are, and under which advisories they are the same.
ghost use Rattle.std.specs.Prelude.{◌≡◌, ◌+◌, ◌*◌, ◌^◌, ◌<◌, ◌≤◌, length, unsigned_abs};
ghost use Rattle.acas_spec.specs.Model.{states};
ghost use Rattle.acas_means.specs.Layer.{AreWithin};
ghost use Rattle.acas_means.specs.Reach.{IsReach};
ghost use Rattle.acas_means.specs.declared.layer.Side.{Side};

use crate::likes::{Likes, likes_of};
use acas_base::Model;
use acas_units::Pair;

/// What is found of a layer before its means are formed.
#[derive(Clone, Copy)]
pub struct Reach {
    /// No value of the layer is larger, up or down, in millionths. It need not be the size of the largest: it has the binary digits of
    /// all values together, and so is at most twice as large.
    pub size: u64,

    /// Sums of values by weights that are this in all, or less, have 64 bits.
    pub widest: u64,

    /// For each advisory the first one under which the layer has the same pairs.
    pub likes: Likes,
}

// The binary digits of a word and of a pair's values, up or down.
fn digits_with(digits: u64, pair: Pair) -> u64
    ensures digits { digits ≤ result }
    ensures upper { unsigned_abs pair.upper ≤ result }
    ensures lower { unsigned_abs pair.lower ≤ result }
{
    digits | pair.upper.unsigned_abs() | pair.lower.unsigned_abs()
}

// The greatest whole weight by which sums of values of a size surely have 64 bits, even where each is raised by the size.
fn widest_of(size: u64) -> u64
    ensures { result * (2 * size + 1) < 2 ^ 63 }
{
    if size > 1 << 61 {
        return 0;
    }
    ((1 << 63) - 1) / (2 * size + 1)
}

// A size that no value of a layer exceeds: all binary digits that some value has, up or down. It is at most twice the largest value.
fn size_of(below: &[Pair]) -> u64
    ensures { (side : Side) → AreWithin result side below.now }
{
    let mut digits = 0;
    for pair in below {
        digits = digits_with(digits, *pair);
    }
    digits
}

/// The reach of a layer, found by one look at each of its values, and by comparing advisories as far as their pairs are the same.
pub fn reach_of(model: &Model, below: &[Pair]) -> Reach
    requires { length below.now ≡ states model.now.grid }
    ensures { IsReach model.now.grid below.now result }
{
    let size = size_of(below);
    Reach {
        size,
        widest: widest_of(size),
        likes: likes_of(model, below),
    }
}
