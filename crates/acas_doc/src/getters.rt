//! The value at a key of a table.
ghost use Rattle.std.specs.Prelude.{◌≡◌, ◌≤◌, ◌≤ℤ◌, length, map, IfOk};
ghost use Rattle.toml.specs.View.{view, table_view};
ghost use Rattle.acas_doc.specs.Keys.{found, found_whole, found_text, found_list, found_table, whole_at, text_at, list_at, table_at};
ghost use Rattle.acas_doc.specs.Answers.{Answers, Sees};

use crate::fault::{DocError, DocKind};
use crate::path::fault_at;
use crate::values::{as_list, as_table, as_text, as_whole};
use std::alloc::Global;
use toml::{Table, Value};

/// The value at a key.
fn find<'t>(table: &'t Table, key: &str) -> Result<&'t Value, DocKind>
    ensures { Sees (λ v. view v.now) result (found (table_view table.now) key.now) }
{
    match table.get(key) {
        Some(value) => Ok(value),
        None => Err(DocKind::Missing),
    }
}

/// The whole number at a key, from least to greatest.
fn find_whole(table: &Table, key: &str, least: i64, greatest: i64) -> Result<i64, DocKind>
    ensures value { result ≡ found_whole (table_view table.now) key.now least greatest }
    ensures range { IfOk result (λ z. (least ≤ℤ z) × (z ≤ℤ greatest)) }
{
    as_whole(find(table, key)?, least, greatest)
}

/// The text at a key.
fn find_text<'t>(table: &'t Table, key: &str) -> Result<&'t str, DocKind>
    ensures { Sees (λ s. s.now) result (found_text (table_view table.now) key.now) }
{
    as_text(find(table, key)?)
}

/// The list at a key, of a length from least to greatest.
fn find_list<'t>(
    table: &'t Table,
    key: &str,
    least: u32,
    greatest: u32,
) -> Result<&'t [Value], DocKind>
    ensures value { Sees (λ vs. map view vs.now) result
        (found_list (table_view table.now) key.now least greatest) }
    ensures range { IfOk result (λ vs. (least ≤ length vs.now) × (length vs.now ≤ greatest)) }
{
    as_list(find(table, key)?, least, greatest)
}

/// The table at a key.
fn find_table<'t>(table: &'t Table, key: &str) -> Result<&'t Table, DocKind>
    ensures { Sees (λ t. table_view t.now) result (found_table (table_view table.now) key.now) }
{
    as_table(find(table, key)?)
}

/// The whole number at a key of the table at a path, from least to greatest. It refuses a key that is not there, a value
/// of another kind, and a number out of that range.
#[tactic(auto, unfolding(crate::specs::Keys::whole_at))]
pub fn whole(
    alloc: Global,
    table: &Table,
    path: &[u8],
    key: &str,
    least: i64,
    greatest: i64,
) -> Result<i64, DocError>
    ensures value { Answers (λ z. z) result
        (whole_at (table_view table.now) path.now key.now least greatest) }
    ensures range { IfOk result (λ z. (least ≤ℤ z) × (z ≤ℤ greatest)) }
{
    find_whole(table, key, least, greatest).map_err(|kind| fault_at(alloc, path, key, kind))
}

/// The text at a key of the table at a path. It refuses a key that is not there and a value of another kind.
#[tactic(auto, unfolding(crate::specs::Keys::text_at))]
pub fn text<'t>(
    alloc: Global,
    table: &'t Table,
    path: &[u8],
    key: &str,
) -> Result<&'t str, DocError>
    ensures { Answers (λ s. s.now) result (text_at (table_view table.now) path.now key.now) }
{
    find_text(table, key).map_err(|kind| fault_at(alloc, path, key, kind))
}

/// The list at a key of the table at a path, with a length from least to greatest. It refuses a key that is not there, a
/// value of another kind, and a length out of that range, which it names as the value.
#[tactic(auto, unfolding(crate::specs::Keys::list_at))]
pub fn list<'t>(
    alloc: Global,
    table: &'t Table,
    path: &[u8],
    key: &str,
    least: u32,
    greatest: u32,
) -> Result<&'t [Value], DocError>
    ensures value { Answers (λ vs. map view vs.now) result
        (list_at (table_view table.now) path.now key.now least greatest) }
    ensures range { IfOk result (λ vs. (least ≤ length vs.now) × (length vs.now ≤ greatest)) }
{
    find_list(table, key, least, greatest).map_err(|kind| fault_at(alloc, path, key, kind))
}

/// The table at a key of the table at a path. It refuses a key that is not there and a value of another kind.
#[tactic(auto, unfolding(crate::specs::Keys::table_at))]
pub fn table<'t>(
    alloc: Global,
    table: &'t Table,
    path: &[u8],
    key: &str,
) -> Result<&'t Table, DocError>
    ensures { Answers (λ t. table_view t.now) result (table_at (table_view table.now) path.now key.now) }
{
    find_table(table, key).map_err(|kind| fault_at(alloc, path, key, kind))
}
