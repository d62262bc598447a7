//! The best of the choices under a present advisory.
ghost use Rattle.std.specs.Prelude.{◌≡◌, ◌+◌, ◌<◌, ◌≤◌, ◌^◌, ◌+ℤ◌, length, unsigned_abs};
ghost use Rattle.std.specs.Int.{int_min};
ghost use Rattle.acas_spec.specs.Model.{choices_at};
ghost use Rattle.acas_process.specs.Compiled.{first_least, least};
ghost use Rattle.acas_sweep.specs.Best.{IsBest, IsLeast, IsValued, LeaveRoom};
ghost use Rattle.acas_sweep.specs.Priced.{IsPriced, IsPricedAt};
ghost use Rattle.acas_means.specs.Choices.{value_by_mean};
ghost use Rattle.acas_means.specs.Layer.{value_at};
ghost use Rattle.acas_means.specs.declared.layer.Side.TheVariants.{Upper};

use crate::backups::{Backups, count_formed};
use crate::priced::{PricedChoice, PricedList};
use acas_base::Model;
use acas_means::VertexMeans;
use acas_units::{Entry, Pair};

// Both values of a choice, by its means and its cost in millionths.
fn values_by_cost(means: Pair, cost: i64) -> Pair
    requires upper { unsigned_abs means.upper ≤ 2 ^ 62 }
    requires lower { unsigned_abs means.lower ≤ 2 ^ 62 }
    requires cost { unsigned_abs cost < 2 ^ 62 }
    ensures upper { result.upper ≡ means.upper +ℤ cost }
    ensures lower { result.lower ≡ means.lower +ℤ cost }
{
    Pair {
        upper: means.upper + cost,
        lower: means.lower + cost,
    }
}

/// Both values of a choice, by the means at a vertex.
pub(crate) fn valued_choice(
    model: &Model,
    present: u8,
    choice: &PricedChoice,
    vertex_means: &VertexMeans,
) -> Pair
    requires choice { IsPriced model.now present choice.now }
    requires means { LeaveRoom model.now vertex_means.now }
    ensures { IsValued model.now vertex_means.now present choice.now.advisory result }
{
    values_by_cost(vertex_means[usize::from(choice.advisory)], choice.cost)
}

/// The lesser upper and the lesser lower value of two pairs.
pub(crate) fn least_of(pair: Pair, later: Pair) -> Pair
    ensures upper { result.upper ≡ int_min pair.upper later.upper }
    ensures lower { result.lower ≡ int_min pair.lower later.lower }
{
    Pair {
        upper: pair.upper.min(later.upper),
        lower: pair.lower.min(later.lower),
    }
}

// The least upper and the least lower value of the choices in a list.
fn least_values(model: &Model, present: u8, list: &PricedList, vertex_means: &VertexMeans) -> Pair
    requires { IsPricedAt model.now present list.now vertex_means.now }
    ensures { IsLeast model.now vertex_means.now present (choices_at model.now present) result }
{
    let mut least = valued_choice(model, present, &list.choices[0], vertex_means);
    for place in 1..list.count {
        let pair = valued_choice(model, present, &list.choices[place], vertex_means);
        least = least_of(least, pair);
    }
    least
}

/// The advisory of the first choice in a list that has the least upper value. There is one.
pub(crate) fn first_choice(
    model: &Model,
    present: u8,
    list: &PricedList,
    vertex_means: &VertexMeans,
    least_upper: i64,
) -> u8
    requires priced { IsPricedAt model.now present list.now vertex_means.now }
    requires least { let means = value_at Upper vertex_means.now in
        least_upper ≡ least (value_by_mean model.now present means) (choices_at model.now present) }
    ensures { let means = value_at Upper vertex_means.now in
        result ≡ first_least (value_by_mean model.now present means) (choices_at model.now present) }
{
    let mut place = 0;
    while valued_choice(model, present, &list.choices[place], vertex_means).upper != least_upper {
        place += 1;
    }
    list.choices[place].advisory
}

/// The least upper and the least lower value of the choices in a present advisory's list, and the first choice that has the least
/// upper value. It counts a backup for each choice.
pub(crate) fn best_choice(
    model: &Model,
    present: u8,
    list: &PricedList,
    vertex_means: &VertexMeans,
    count: &mut Backups,
) -> Entry
    requires priced { IsPricedAt model.now present list.now vertex_means.now }
    requires count { count.old + length (choices_at model.now present) < 2 ^ 64 }
    ensures best { IsBest model.now vertex_means.now present (choices_at model.now present) result }
    ensures count { count.new ≡ count.old + length (choices_at model.now present) }
{
    let least = least_values(model, present, list, vertex_means);
    count_formed(count, list.count);
    Entry {
        pair: least,
        advice: first_choice(model, present, list, vertex_means, least.upper),
    }
}
