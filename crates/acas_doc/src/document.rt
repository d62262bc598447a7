//! The document of some bytes.
ghost use Rattle.std.specs.Prelude.{◌≡◌, IfOk, option_map};
ghost use Rattle.toml.specs.View.{table_view};
ghost use Rattle.acas_doc.specs.Document as rules;

use std::alloc::{AllocError, Global};
use toml::Table;

/// The document of some bytes, where they are a text in UTF-8 and the text is a TOML document.
#[tactic(auto, unfolding(crate::specs::Document::document_in))]
pub fn document_in(alloc: Global, bytes: &[u8]) -> Result<Option<Table>, AllocError>
    ensures { IfOk result (λ found. option_map table_view found ≡ rules.document_in bytes.now) }
{
    let text = match std::str::from_utf8(bytes) {
        Ok(text) => text,
        Err(_) => return Ok(None),
    };
    match toml::table_from_str(alloc, text) {
        Ok(document) => Ok(Some(document)),
        Err(error) => {
            if error.is_memory() {
                Err(AllocError)
            } else {
                Ok(None)
            }
        }
    }
}
