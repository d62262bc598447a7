//! The fields of a table's header.
ghost use Rattle.std.specs.Prelude.{◌≡◌, ◌≤◌, IsTrue, OnOk, ⊤};
ghost use Rattle.acas_outside.specs.Files.{Given};
ghost use Rattle.acas_table_text.specs.Format.{format_of};
ghost use Rattle.acas_table_text.specs.Faults.{fields_fault, front_fields, model_fields};
ghost use Rattle.acas_table.specs.Source.{IsAtFile, Checks, ReadsTable, StandsAt, Steps};

use crate::source::Source;
use acas_outside::Folder;
use acas_table_text::{Field, Format, TableFault, TableShape};

/// Reads the letters and the version, which say the format.
pub fn read_format<F: Folder>(
    source: &mut Source,
    folder: &mut F,
    name: &str,
) -> Result<Format, TableFault>
    requires served { IsTrue (F.serves folder.old name.now) }
    requires place { source.old.place ≡ 0 }
    requires limit { 8 ≤ source.old.limit }
    ensures given { Given (F.holds folder.old) name.now (λ file. IsAtFile source.old file →
        Checks (fields_fault source.old.expected 0 front_fields) (λ format bytes. format_of bytes ≡ format)
        file source.new result) }
    ensures steps { OnOk result (Steps source.old source.new 8) }
    ensures reads { ReadsTable F.Folder folder.old folder.new name.now source.old source.new result }
{
    source.check(&Field::Magic, folder, name)?;
    source.version(folder, name)
}

/// Reads the rest of the header.
pub fn check_model<F: Folder>(
    source: &mut Source,
    format: Format,
    shape: &TableShape,
    digest: &[u8; 32],
    folder: &mut F,
    name: &str,
) -> Result<(), TableFault>
    requires served { IsTrue (F.serves folder.old name.now) }
    requires stands { StandsAt format shape.now source.old 8 }
    ensures given { Given (F.holds folder.old) name.now (λ file. IsAtFile source.old file →
        Checks (fields_fault source.old.expected 8 (model_fields digest.now shape.now)) (λ _ _. ⊤)
        file source.new result) }
    ensures steps { OnOk result (Steps source.old source.new 52) }
    ensures reads { ReadsTable F.Folder folder.old folder.new name.now source.old source.new result }
{
    source.check_all(&fields_of(shape, digest), folder, name)
}

#[tactic(auto, unfolding(acas_table_text::specs::Faults::model_fields))]
fn fields_of(shape: &TableShape, digest: &[u8; 32]) -> [Field; 6]
    ensures { result ≡ model_fields digest.now shape.now }
{
    [
        Field::Model(*digest),
        number(0, shape.altitudes),
        number(1, shape.own_rates),
        number(2, shape.intruder_rates),
        number(3, shape.advisories),
        number(4, shape.horizon),
    ]
}

fn number(place: u32, expected: u32) -> Field
    ensures { result ≡ Field.Number place expected }
{
    Field::Number { place, expected }
}
