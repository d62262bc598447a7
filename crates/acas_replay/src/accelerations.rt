//! The accelerations of one aircraft.
ghost use Rattle.std.specs.Prelude.{◌≡◌, ◌≤◌, length, IfOk};
ghost use Rattle.toml.specs.View.{table_view};
ghost use Rattle.acas_doc.specs.InputAnswers.{Gives};
ghost use Rattle.acas_replay.specs.Accelerations as rules;

use crate::limits::{GREATEST_ACCELERATION, LEAST_ACCELERATION};
use acas_doc::{InputFault, list, whole_items};
use std::alloc::Global;
use toml::Table;

/// The accelerations at a key of the document, from least to greatest of them.
#[tactic(auto, unfolding(crate::specs::Accelerations::accelerations_at))]
pub(crate) fn accelerations_at(
    alloc: Global,
    document: &Table,
    key: &str,
    least: u32,
    greatest: u32,
) -> Result<Vec<i64>, InputFault>
    ensures value { Gives (λ v. v.items) result
        (rules.accelerations_at (table_view document.now) key.now least greatest) }
    ensures few { IfOk result (λ v. length v.items ≤ greatest) }
{
    let items = list(alloc, document, b"", key, least, greatest)?;
    Ok(whole_items(
        alloc,
        items,
        key.as_bytes(),
        LEAST_ACCELERATION,
        GREATEST_ACCELERATION,
    )?)
}
