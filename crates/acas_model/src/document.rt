//! The document of a text, and the whole numbers at its keys.
ghost use Rattle.std.specs.Prelude.{◌≡◌, ◌≤◌, ◌≤ℤ◌, pos, unsigned_abs, IfOk};
ghost use Rattle.toml.specs.View.{table_view};
ghost use Rattle.acas_doc.specs.Document.{document_of};
ghost use Rattle.acas_model.specs.declared.fault.ModelFault.TheVariants.{NotToml};
ghost use Rattle.acas_model.specs.Answers.{Gives};
ghost use Rattle.acas_model.specs.Document.{number_at};
ghost use Rattle.acas_model.specs.View.{seen_table};
ghost use Rattle.acas_model.specs.Document as rules;

use crate::fault::ModelFault;
use acas_doc::{document_in, only_keys, table, whole};
use std::alloc::Global;
use toml::Table;

/// The document of some bytes.
#[tactic(auto, unfolding(acas_doc::specs::Document::document_of))]
pub(crate) fn document_of(alloc: Global, bytes: &[u8]) -> Result<Table, ModelFault>
    ensures { Gives table_view result (document_of NotToml bytes.now) }
{
    match document_in(alloc, bytes)? {
        Some(document) => Ok(document),
        None => Err(ModelFault::NotToml),
    }
}

/// A number that is not below 0, without its sign.
pub(crate) fn unsigned(whole: i64) -> u32
    requires low { pos 0 ≤ℤ whole }
    requires high { whole ≤ℤ pos 4294967295 }
    ensures value { result ≡ unsigned_abs whole }
    ensures same { pos result ≡ whole }
{
    whole as u32
}

/// The whole number at a key of the table at a path, where it may not be below 0.
#[tactic(auto, unfolding(crate::specs::Document::number_at))]
pub(crate) fn number(
    alloc: Global,
    table: &Table,
    path: &[u8],
    key: &str,
    least: u32,
    greatest: u32,
) -> Result<u32, ModelFault>
    ensures value { Gives (λ n. n) result (number_at (table_view table.now) path.now key.now least greatest) }
    ensures range { IfOk result (λ n. (least ≤ n) × (n ≤ greatest)) }
{
    let whole = whole(
        alloc,
        table,
        path,
        key,
        i64::from(least),
        i64::from(greatest),
    )?;
    Ok(unsigned(whole))
}

/// The table at a key of the document, which has no other keys than those named.
#[tactic(auto, unfolding(crate::specs::Document::closed_table))]
pub(crate) fn closed_table<'t>(
    alloc: Global,
    document: &'t Table,
    key: &str,
    known: &str,
) -> Result<&'t Table, ModelFault>
    ensures { Gives seen_table result (rules.closed_table (table_view document.now) key.now known.now) }
{
    let inner = table(alloc, document, b"", key)?;
    only_keys(alloc, inner, key.as_bytes(), known)?;
    Ok(inner)
}
