//! The text of a fraction.
ghost use Rattle.std.specs.Prelude.{◌≡◌, ◌++◌, OnErr, OnOk};
ghost use Rattle.std.specs.Io.{StartsWith};
ghost use Rattle.acas_frac.specs.Fraction.{fraction_text};

use crate::appending::{append_number, or_as_before};
use acas_frac::Frac;
use std::alloc::AllocError;

/// Appends `n`, where the denominator is 1, and else `n/d`. Where memory is refused, `out` is as before.
pub fn print_frac(out: &mut Vec<u8>, value: &Frac) -> Result<(), AllocError>
    ensures ok { OnOk result (out.new.items ≡ out.old.items ++ fraction_text value.now) }
    ensures err { OnErr result (out.new.items ≡ out.old.items) }
{
    let start = out.len();
    or_as_before(append_frac(out, value), out, start)
}

fn append_frac(out: &mut Vec<u8>, value: &Frac) -> Result<(), AllocError>
    ensures ok { OnOk result (out.new.items ≡ out.old.items ++ fraction_text value.now) }
    ensures err { OnErr result (StartsWith out.new.items out.old.items) }
{
    append_number(out, value.num())?;
    if value.den() != 1 {
        out.push(b'/')?;
        append_number(out, value.den())?;
    }
    Ok(())
}
