//! The value of a choice, and how many upper ones were formed. One such value is a backup of dynamic programming, as in ATC-371
//! (Kochenderfer and Chryssanthacopoulos, MIT Lincoln Laboratory, 2011).
ghost use Rattle.std.specs.Prelude.{◌≡◌, ℕ, ◌+◌, ◌<◌, ◌≤◌, ◌^◌, ◌+ℤ◌, unsigned_abs};
ghost use Rattle.acas_spec.specs.Model.{ModelData};
ghost use Rattle.acas_process.specs.Values.{millionths};
ghost use Rattle.acas_means.specs.Layer.{AreWithin};
ghost use Rattle.acas_means.specs.Values.{counted, layer_mean};
ghost use Rattle.acas_sweep.specs.Backups.{IsBackup, IsStateOver};

use acas_base::Model;
use acas_frac::Rounding;
use acas_means::{Side, with_cost};
use acas_spec::Choice;
use acas_units::{Counter, Pair};

/// Work that only the calls here do: the upper value of a choice, formed of its mean.
#[derive(Drop)]
pub struct FormedValue {
    formed: (),
}

/// Counts the backups of upper values. It starts at 0, contracts see it as its count, and only the calls that form the upper values of
/// choices raise it.
pub type Backups = Counter<FormedValue>;

/// Counts so many backups, of upper values that were formed.
pub(crate) fn count_formed(count: &mut Backups, formed: usize)
    requires { count.old + formed < 2 ^ 64 }
    ensures { count.new ≡ count.old + formed }
{
    count.raise(formed as u64, &FormedValue { formed: () });
}

/// What forms the mean of one side of a layer.
pub trait MeanSource {
    /// It forms the means of a model.
    ghost serves: { Self → ModelData → Type 0 };

    /// The mean of the layer below at a vertex under an advisory, in millionths, rounded at each point and once more at the end.
    fn mean<R: Rounding>(
        &self,
        model: &Model,
        vertex: u32,
        advisory: u8,
        side: Side,
        below: &[Pair],
    ) -> i64
        requires serves { serves self.now model.now }
        requires state { IsStateOver model.now vertex advisory below.now }
        ensures value { result ≡ layer_mean R.round model.now side below.now vertex advisory }
        ensures bounded { (most : ℕ) → AreWithin most side below.now → unsigned_abs result ≤ most };
}

// The value of a choice by the mean under its advisory, in millionths: its action value. It counts one backup for the upper side and
// none for the lower.
fn value_of_choice(mean: i64, choice: &Choice, side: Side, count: &mut Backups) -> i128
    requires { count.old + counted side < 2 ^ 64 }
    ensures value { result ≡ mean +ℤ millionths choice.now.cost }
    ensures count { count.new ≡ count.old + counted side }
{
    if side == Side::Upper {
        count_formed(count, 1);
    }
    with_cost(mean, choice.cost)
}

/// The value of a choice at a vertex over the layer below, in millionths, by what forms its mean. The pairs of the layer stand in the
/// order of the states' numbers. It counts one backup for the upper side and none for the lower.
pub fn value_over<R: Rounding, S: MeanSource>(
    model: &Model,
    source: &S,
    vertex: u32,
    choice: &Choice,
    side: Side,
    below: &[Pair],
    count: &mut Backups,
) -> i128
    requires serves { S.serves source.now model.now }
    requires state { IsStateOver model.now vertex choice.now.advisory below.now }
    requires count { count.old + counted side < 2 ^ 64 }
    ensures backup { IsBackup R.round model.now side below.now vertex choice.now result }
    ensures count { count.new ≡ count.old + counted side }
{
    let mean = source.mean::<R>(model, vertex, choice.advisory, side, below);
    value_of_choice(mean, choice, side, count)
}
