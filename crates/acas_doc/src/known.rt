//! The keys that a table may have.
ghost use Rattle.std.specs.Prelude.{◌≡◌, ◌↔◌, ℕ, List, Ok, Err, option_map};
ghost use Rattle.toml.specs.View.{table_view};
ghost use Rattle.acas_doc.specs.declared.fault.DocKind.TheVariants.{UnknownKey};
ghost use Rattle.acas_doc.specs.Paths.{key_path};
ghost use Rattle.acas_doc.specs.Known.{is_known, unknown_in, only_known, IsUnknown, IsLeastUnknown};
ghost use Rattle.acas_doc.specs.Answers.{Answers};

use crate::fault::{DocError, DocKind};
use crate::path::fault_at;
use std::alloc::Global;
use toml::Table;

/// Whether a text names this key, among keys with a space between each two.
fn names_key(known: &str, key: &str) -> bool
    ensures { result ≡ is_known known.now key.now }
{
    known.split(' ').any(|word| word == key)
}

/// The first key of the table that is not known.
fn unknown_key<'t>(table: &'t Table, known: &str) -> Option<&'t str>
    ensures { option_map (λ k. k.now) result ≡ unknown_in known.now (table_view table.now) }
{
    for (key, _) in table.iter() {
        if !names_key(known, key.as_str()) {
            return Some(key.as_str());
        }
    }
    None
}

/// That each key of the table at a path is one of the known keys, which stand in a text with a space between each two. It
/// names the least key, by its bytes, that is not known.
#[tactic(auto, unfolding(crate::specs::Known::only_known))]
pub fn only_keys(alloc: Global, table: &Table, path: &[u8], known: &str) -> Result<(), DocError>
    ensures { Answers (λ u. u) result (only_known path.now known.now (table_view table.now)) }
{
    match unknown_key(table, known) {
        None => Ok(()),
        Some(key) => Err(fault_at(alloc, path, key, DocKind::UnknownKey)),
    }
}

/// A law of `only_keys`: it passes exactly where the table has no unknown key, and the unknown key that it names is the
/// least by its bytes.
pub fn least_unknown_is_named(table: &Table, path: &[u8], known: &str)
    ensures passes { (only_known path.now known.now (table_view table.now) ≡ Ok tt) ↔
        ((key : List ℕ) → ¬ IsUnknown known.now (table_view table.now) key) }
    ensures names { (key : List ℕ) →
        (only_known path.now known.now (table_view table.now) ≡
        Err (record { key = key_path path.now key; kind = UnknownKey })) ↔
        IsLeastUnknown known.now (table_view table.now) key }
{
    let _ascending_keys = table.iter();
}
