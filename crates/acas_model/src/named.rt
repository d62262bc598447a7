//! The advisory that a text beside a model names.
ghost use Rattle.std.specs.Prelude.{◌≡◌, ◌<◌, IfOk};
ghost use Rattle.acas_doc.specs.Values.{or_fault};
ghost use Rattle.acas_doc.specs.declared.input_fault.InputFault.TheVariants.{UnknownName};
ghost use Rattle.acas_model.specs.Choices.{named};

use acas_base::Model;
use acas_doc::InputFault;

/// The number of the advisory of a name. The place is that of the table which names it in its list, or 0 where it is in none.
pub fn advisory_named(model: &Model, name: &[u8], place: u32) -> Result<u8, InputFault>
    ensures value { result ≡ or_fault (UnknownName place) (named model.now.advisories name.now) }
    ensures range { IfOk result (λ a. a < model.now.grid.advisories) }
{
    // Opens the model: it has as many advisories as its grid says.
    let _ = model.grid();
    match model.find_name(name) {
        Some(advisory) => Ok(advisory),
        None => Err(InputFault::UnknownName { place }),
    }
}
