//! Which advisories lead to the same means at a vertex: those under which the layer below has the same pairs, and which change the
//! own rate there by as much.
ghost use Rattle.std.specs.Prelude.{◌≡◌, ◌<◌, ◌≤◌, pos, get_or};
ghost use Rattle.acas_means.specs.Reach.{AreChanges};
ghost use Rattle.acas_step.specs.Second.{IsRate};

use crate::second::pilot_change;
use acas_base::Model;
use acas_means::{Likes, advisory_count};
use acas_units::GREATEST_ADVISORIES;

/// How much the pilot changes an own rate within a second, under each advisory by its number, in ft/min.
pub type Changes = [i64; GREATEST_ADVISORIES as usize];

/// The changes of an own rate.
pub fn changes_from(model: &Model, v: i64) -> Changes
    requires { IsRate v }
    ensures { AreChanges model.now v result }
{
    let mut changes = [0i64; GREATEST_ADVISORIES as usize];
    for advisory in 0..advisory_count(model) {
        changes[usize::from(advisory)] = pilot_change(model, advisory, v);
    }
    changes
}

/// The first advisory that has the same first one in `likes` and the same change as this one.
pub fn first_twin(likes: &Likes, changes: &Changes, advisory: u8) -> u8
    requires { advisory < GREATEST_ADVISORIES }
    ensures first { result ≤ advisory }
    ensures like { get_or likes.now result 0 ≡ get_or likes.now advisory 0 }
    ensures change { get_or changes.now result (pos 0) ≡ get_or changes.now advisory (pos 0) }
{
    let like = likes[usize::from(advisory)];
    let change = changes[usize::from(advisory)];
    for earlier in 0..advisory {
        let place = usize::from(earlier);
        if likes[place] == like && changes[place] == change {
            return earlier;
        }
    }
    advisory
}
