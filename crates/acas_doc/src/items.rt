//! The value at a place of a list.
ghost use Rattle.std.specs.Prelude.{◌≡◌, ◌<◌, ◌≤ℤ◌, ◌^◌, length, map, IfOk};
ghost use Rattle.toml.specs.View.{view, table_view};
ghost use Rattle.acas_doc.specs.Values.{data_at};
ghost use Rattle.acas_doc.specs.Keys as keys;
ghost use Rattle.acas_doc.specs.Answers.{Answers, Gives};

use crate::fault::DocError;
use crate::path::item_fault;
use crate::values::{as_table, as_text, as_whole};
use std::alloc::Global;
use toml::{Table, Value};

/// The whole number at a place of the list at a path, from least to greatest. It refuses a value of another kind and a
/// number out of that range.
#[tactic(auto, unfolding(crate::specs::Keys::whole_item))]
pub fn item(
    alloc: Global,
    items: &[Value],
    path: &[u8],
    place: u32,
    least: i64,
    greatest: i64,
) -> Result<i64, DocError>
    requires { place < length items.now }
    ensures value { Answers (λ z. z) result
        (keys.whole_item path.now place least greatest (data_at (map view items.now) place)) }
    ensures range { IfOk result (λ z. (least ≤ℤ z) × (z ≤ℤ greatest)) }
{
    as_whole(&items[place as usize], least, greatest).map_err(|kind| item_fault(
        alloc, path, place, kind,
    ))
}

/// The whole numbers of the list at a path, each from least to greatest. It refuses the first item that is of another kind
/// or out of that range.
#[tactic(auto, unfolding(crate::specs::Keys::whole_items))]
pub fn whole_items(
    alloc: Global,
    items: &[Value],
    path: &[u8],
    least: i64,
    greatest: i64,
) -> Result<Vec<i64>, DocError>
    requires { length items.now < 2 ^ 32 }
    ensures value { Gives (λ v. v.items) result
        (keys.whole_items path.now least greatest (map view items.now)) }
    ensures count { IfOk result (λ v. length v.items ≡ length items.now) }
{
    let mut wholes = Vec::new(alloc);
    for place in 0..items.len() as u32 {
        let whole = item(alloc, items, path, place, least, greatest)?;
        wholes.push(whole)?;
    }
    Ok(wholes)
}

/// The text at a place of the list at a path. It refuses a value of another kind.
#[tactic(auto, unfolding(crate::specs::Keys::text_item))]
pub fn text_item<'t>(
    alloc: Global,
    items: &'t [Value],
    path: &[u8],
    place: u32,
) -> Result<&'t str, DocError>
    requires { place < length items.now }
    ensures { Answers (λ s. s.now) result
        (keys.text_item path.now place (data_at (map view items.now) place)) }
{
    as_text(&items[place as usize]).map_err(|kind| item_fault(alloc, path, place, kind))
}

/// The table at a place of the list at a path. It refuses a value of another kind.
#[tactic(auto, unfolding(crate::specs::Keys::table_item))]
pub fn table_item<'t>(
    alloc: Global,
    items: &'t [Value],
    path: &[u8],
    place: u32,
) -> Result<&'t Table, DocError>
    requires { place < length items.now }
    ensures { Answers (λ t. table_view t.now) result
        (keys.table_item path.now place (data_at (map view items.now) place)) }
{
    as_table(&items[place as usize]).map_err(|kind| item_fault(alloc, path, place, kind))
}
