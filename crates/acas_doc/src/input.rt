//! The document of an input's bytes, and its version.
ghost use Rattle.toml.specs.View.{table_view};
ghost use Rattle.acas_doc.specs.Document.{document_of};
ghost use Rattle.acas_doc.specs.declared.input_fault.InputFault.TheVariants.{NotToml};
ghost use Rattle.acas_doc.specs.InputAnswers.{Gives};
ghost use Rattle.acas_doc.specs.Input as rules;

use crate::document::document_in;
use crate::getters::whole;
use crate::input_fault::InputFault;
use std::alloc::Global;
use toml::Table;

/// The version of the text of boxes and of encounters.
pub const INPUT_VERSION: i64 = 1;

/// The document of some bytes: a text in UTF-8 that is a TOML document.
#[tactic(auto, unfolding(crate::specs::Document::document_of))]
pub fn document_of(alloc: Global, bytes: &[u8]) -> Result<Table, InputFault>
    ensures { Gives table_view result (document_of NotToml bytes.now) }
{
    match document_in(alloc, bytes)? {
        Some(document) => Ok(document),
        None => Err(InputFault::NotToml),
    }
}

/// The version of a document, of which there is one.
#[tactic(auto, unfolding(crate::specs::Input::version_of))]
pub fn version_of(alloc: Global, document: &Table) -> Result<i64, InputFault>
    ensures { Gives (λ z. z) result (rules.version_of (table_view document.now)) }
{
    Ok(whole(
        alloc,
        document,
        b"",
        "version",
        INPUT_VERSION,
        INPUT_VERSION,
    )?)
}
