//! The list `advisory`: the names and intervals of the advisories.
ghost use Rattle.std.specs.Prelude.{◌≡◌, ◌<◌, ◌^◌, length, IfOk};
ghost use Rattle.std.specs.List.{list_all, list_any};
ghost use Rattle.std.specs.Str.{bytes_eq};
ghost use Rattle.toml.specs.View.{table_view};
ghost use Rattle.acas_spec.specs.Limits.{is_name_byte, is_name};
ghost use Rattle.acas_doc.specs.Answers.{Sees};
ghost use Rattle.acas_model.specs.Answers.{Gives};
ghost use Rattle.acas_model.specs.View.{data_of, item_at};
ghost use Rattle.acas_model.specs.Advisories as rules;

use crate::fault::{ModelFault, NamePlace};
use acas_doc::{DocKind, fault_at, only_keys, path_of_item, table_item, text, whole};
use acas_spec::{Advisory, Name};
use acas_units::{GREATEST_NAME_BYTES, GREATEST_RATE, LEAST_NAME_BYTES, LEAST_RATE};
use std::alloc::Global;
use toml::{Table, Value};

/// Whether a byte may stand in a name.
fn is_name_byte(byte: u8) -> bool
    ensures { result ≡ is_name_byte byte }
{
    byte.is_ascii_uppercase()
        || byte.is_ascii_lowercase()
        || byte.is_ascii_digit()
        || byte == b'_'
        || byte == b'-'
}

/// Whether each byte may stand in a name.
fn are_name_bytes(bytes: &[u8]) -> bool
    ensures { result ≡ list_all is_name_byte bytes.now }
{
    bytes.iter().all(|byte| is_name_byte(*byte))
}

/// Whether the bytes are a name.
fn is_name(bytes: &[u8]) -> bool
    ensures { result ≡ is_name bytes.now }
{
    LEAST_NAME_BYTES <= bytes.len() && bytes.len() <= GREATEST_NAME_BYTES && are_name_bytes(bytes)
}

/// The name in the table of an advisory.
#[tactic(auto, unfolding(crate::specs::Advisories::name_at))]
fn name_at(alloc: Global, table: &Table, path: &[u8]) -> Result<Name, ModelFault>
    ensures { Gives (λ n. n) result (rules.name_at (table_view table.now) path.now) }
{
    let name = text(alloc, table, path, "name")?;
    if is_name(name.as_bytes()) {
        Ok(Name::new(name.as_bytes()))
    } else {
        Err(ModelFault::from(fault_at(alloc, path, "name", DocKind::WrongKind)))
    }
}

/// What the table of an advisory says.
#[tactic(auto, unfolding(crate::specs::Advisories::advisory_of))]
fn advisory_of(
    alloc: Global,
    table: &Table,
    path: &[u8],
    place: u32,
) -> Result<Advisory, ModelFault>
    ensures { Gives (λ a. a) result (rules.advisory_of (table_view table.now) path.now place) }
{
    only_keys(alloc, table, path, "name lo hi choices costs")?;
    let name = name_at(alloc, table, path)?;
    let lo = whole(alloc, table, path, "lo", LEAST_RATE, GREATEST_RATE)?;
    let hi = whole(alloc, table, path, "hi", LEAST_RATE, GREATEST_RATE)?;
    if lo <= hi {
        Ok(Advisory { name, lo, hi })
    } else {
        Err(ModelFault::Interval { advisory: place })
    }
}

/// The advisory at a place of the list.
#[tactic(auto, unfolding(crate::specs::Advisories::advisory_item))]
fn advisory_item(alloc: Global, items: &[Value], place: u32) -> Result<Advisory, ModelFault>
    requires { place < length items.now }
    ensures { Gives (λ a. a) result (rules.advisory_item place (item_at items.now place)) }
{
    let table = table_item(alloc, items, b"advisory", place)?;
    let path = path_of_item(alloc, b"advisory", place)?;
    advisory_of(alloc, table, path.bytes(), place)
}

/// The advisories of a list.
pub(crate) fn advisory_items(alloc: Global, items: &[Value]) -> Result<Vec<Advisory>, ModelFault>
    requires { length items.now < 2 ^ 32 }
    ensures value { Gives (λ v. v.items) result (rules.advisory_items (data_of items.now)) }
    ensures count { IfOk result (λ v. length v.items ≡ length items.now) }
{
    let mut advisories = Vec::new(alloc);
    for place in 0..items.len() as u32 {
        let advisory = advisory_item(alloc, items, place)?;
        advisories.push(advisory)?;
    }
    Ok(advisories)
}

/// Whether an advisory has this name.
fn has_name(advisories: &[Advisory], name: &[u8]) -> bool
    ensures { result ≡ list_any (λ b. bytes_eq b.name name.now) advisories.now }
{
    advisories.iter().any(|other| other.name.bytes() == name)
}

/// That no advisory before it has the name of this one.
#[tactic(auto, unfolding(crate::specs::Advisories::new_name))]
fn new_name(before: &[Advisory], advisory: &Advisory) -> Result<(), ModelFault>
    requires { length before.now < 2 ^ 32 }
    ensures { Sees (λ _. advisory.now) result (rules.new_name before.now advisory.now) }
{
    if has_name(before, advisory.name.bytes()) {
        Err(ModelFault::RepeatedName {
            at: NamePlace {
                advisory: before.len() as u32,
                choice: None,
            },
        })
    } else {
        Ok(())
    }
}

/// That the names differ.
#[tactic(auto, unfolding(crate::specs::Advisories::distinct))]
pub(crate) fn distinct(advisories: &[Advisory]) -> Result<(), ModelFault>
    requires { length advisories.now < 2 ^ 32 }
    ensures { Sees (λ _. advisories.now) result (rules.distinct advisories.now) }
{
    for place in 0..advisories.len() {
        new_name(&advisories[..place], &advisories[place])?;
    }
    Ok(())
}
