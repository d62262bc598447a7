//! A value as a whole number, a text, a list or a table. Nothing here takes memory.
ghost use Rattle.std.specs.Prelude.{◌≡◌, ◌<◌, ◌≤◌, ◌≤ℤ◌, ◌^◌, IfOk, OnOk, map, length};
ghost use Rattle.toml.specs.View.{view, table_view};
ghost use Rattle.acas_doc.specs.Values.{in_range, length_in_range, whole_of, text_of, list_of, table_of};
ghost use Rattle.acas_doc.specs.Answers.{Sees};

use crate::fault::DocKind;
use toml::{Table, Value};

/// The number, from least to greatest.
fn within(value: i64, least: i64, greatest: i64) -> Result<i64, DocKind>
    ensures value { result ≡ in_range least greatest value }
    ensures range { IfOk result (λ z. (least ≤ℤ z) × (z ≤ℤ greatest)) }
{
    if least <= value && value <= greatest {
        Ok(value)
    } else {
        Err(DocKind::OutOfRange {
            value,
            least,
            greatest,
        })
    }
}

/// That a length is from least to greatest.
fn within_length(length: usize, least: u32, greatest: u32) -> Result<(), DocKind>
    requires { length < 2 ^ 63 }
    ensures value { result ≡ length_in_range least greatest length }
    ensures range { OnOk result ((least ≤ length) × (length ≤ greatest)) }
{
    if least as usize <= length && length <= greatest as usize {
        Ok(())
    } else {
        Err(DocKind::OutOfRange {
            value: length as i64,
            least: i64::from(least),
            greatest: i64::from(greatest),
        })
    }
}

/// A whole number from least to greatest.
pub(crate) fn as_whole(value: &Value, least: i64, greatest: i64) -> Result<i64, DocKind>
    ensures value { result ≡ whole_of least greatest (view value.now) }
    ensures range { IfOk result (λ z. (least ≤ℤ z) × (z ≤ℤ greatest)) }
{
    match value.as_integer() {
        Some(whole) => within(whole, least, greatest),
        None => Err(DocKind::WrongKind),
    }
}

/// A text.
pub(crate) fn as_text(value: &Value) -> Result<&str, DocKind>
    ensures { Sees (λ s. s.now) result (text_of (view value.now)) }
{
    match value.as_str() {
        Some(text) => Ok(text),
        None => Err(DocKind::WrongKind),
    }
}

/// A table.
pub(crate) fn as_table(value: &Value) -> Result<&Table, DocKind>
    ensures { Sees (λ t. table_view t.now) result (table_of (view value.now)) }
{
    match value.as_table() {
        Some(table) => Ok(table),
        None => Err(DocKind::WrongKind),
    }
}

/// A list of a length from least to greatest.
pub(crate) fn as_list(value: &Value, least: u32, greatest: u32) -> Result<&[Value], DocKind>
    ensures value { Sees (λ vs. map view vs.now) result (list_of least greatest (view value.now)) }
    ensures range { IfOk result (λ vs. (least ≤ length vs.now) × (length vs.now ≤ greatest)) }
{
    let items = match value.as_array() {
        Some(items) => items.as_slice(),
        None => return Err(DocKind::WrongKind),
    };
    match within_length(items.len(), least, greatest) {
        Ok(()) => Ok(items),
        Err(kind) => Err(kind),
    }
}
