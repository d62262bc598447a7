//! The best of the choices under a present advisory at two vertices at a time, so that each choice is read once for both.
ghost use Rattle.std.specs.Prelude.{◌≡◌, ◌+◌, ◌*◌, ◌<◌, ◌^◌, length};
ghost use Rattle.acas_spec.specs.Model.{choices_at};
ghost use Rattle.acas_sweep.specs.Best.{IsBest, IsLeast, LeaveRoom};
ghost use Rattle.acas_sweep.specs.Priced.{IsPricedAt};

use crate::backups::{Backups, count_formed};
use crate::best::{first_choice, least_of, valued_choice};
use crate::priced::PricedList;
use acas_base::Model;
use acas_means::VertexMeans;
use acas_units::{Entry, Pair};

/// What is found at each of two vertices.
#[derive(Clone, Copy)]
pub(crate) struct Two<T> {
    pub(crate) first: T,
    pub(crate) second: T,
}

// The least upper and the least lower value of the choices in a list, at each of two vertices.
fn least_of_two(
    model: &Model,
    present: u8,
    list: &PricedList,
    vertex_means: &VertexMeans,
    next_means: &VertexMeans,
) -> Two<Pair>
    requires priced { IsPricedAt model.now present list.now vertex_means.now }
    requires next { LeaveRoom model.now next_means.now }
    ensures first { IsLeast model.now vertex_means.now present (choices_at model.now present) result.first }
    ensures second { IsLeast model.now next_means.now present (choices_at model.now present) result.second }
{
    let mut least = valued_choice(model, present, &list.choices[0], vertex_means);
    let mut next_least = valued_choice(model, present, &list.choices[0], next_means);
    for place in 1..list.count {
        let choice = list.choices[place];
        let pair = valued_choice(model, present, &choice, vertex_means);
        let next_pair = valued_choice(model, present, &choice, next_means);
        least = least_of(least, pair);
        next_least = least_of(next_least, next_pair);
    }
    Two {
        first: least,
        second: next_least,
    }
}

/// What `best_choice` gives at each of two vertices. It counts a backup for each choice at each of them.
pub(crate) fn best_of_two(
    model: &Model,
    present: u8,
    list: &PricedList,
    vertex_means: &VertexMeans,
    next_means: &VertexMeans,
    count: &mut Backups,
) -> Two<Entry>
    requires priced { IsPricedAt model.now present list.now vertex_means.now }
    requires next { LeaveRoom model.now next_means.now }
    requires count { count.old + 2 * length (choices_at model.now present) < 2 ^ 64 }
    ensures first { IsBest model.now vertex_means.now present (choices_at model.now present) result.first }
    ensures second { IsBest model.now next_means.now present (choices_at model.now present) result.second }
    ensures count { count.new ≡ count.old + 2 * length (choices_at model.now present) }
{
    let least = least_of_two(model, present, list, vertex_means, next_means);
    count_formed(count, 2 * list.count);
    let advice = first_choice(model, present, list, vertex_means, least.first.upper);
    let next_advice = first_choice(model, present, list, next_means, least.second.upper);
    Two {
        first: Entry {
            pair: least.first,
            advice,
        },
        second: Entry {
            pair: least.second,
            advice: next_advice,
        },
    }
}
