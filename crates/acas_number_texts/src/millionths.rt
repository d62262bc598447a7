//! The text of a number of millionths.
ghost use Rattle.std.specs.Prelude.{◌≡◌, ◌≤◌, ◌^◌, ◌++◌, ◌∷◌, unsigned_abs, OnOk, OnErr};
ghost use Rattle.std.specs.Io.{StartsWith};
ghost use Rattle.acas_outside.specs.Printed.{millionths_text, sign_text, six_digits};

use crate::appending::{append_number, or_as_before};
use acas_outside::last_six;
use std::alloc::AllocError;

/// Appends the text of a number of millionths: a `-` where it is below 0, the whole units without leading zeros, a point
/// and six digits. After a refusal of memory `out` is as before.
pub fn print_millionths(out: &mut Vec<u8>, value: i128) -> Result<(), AllocError>
    requires { unsigned_abs value ≤ 10 ^ 30 }
    ensures ok { OnOk result (out.new.items ≡ out.old.items ++ millionths_text value) }
    ensures err { OnErr result (out.new.items ≡ out.old.items) }
{
    let start = out.len();
    or_as_before(append_millionths(out, value), out, start)
}

fn append_millionths(out: &mut Vec<u8>, value: i128) -> Result<(), AllocError>
    ensures ok { OnOk result (out.new.items ≡ out.old.items ++ millionths_text value) }
    ensures err { OnErr result (StartsWith out.new.items out.old.items) }
{
    append_sign(out, value)?;
    let magnitude = value.unsigned_abs();
    append_number(out, magnitude / 1_000_000)?;
    append_places(out, magnitude)?;
    Ok(())
}

fn append_sign(out: &mut Vec<u8>, value: i128) -> Result<(), AllocError>
    ensures ok { OnOk result (out.new.items ≡ out.old.items ++ sign_text value) }
    ensures err { OnErr result (out.new.items ≡ out.old.items) }
{
    if value < 0 {
        out.push(b'-')?;
    }
    Ok(())
}

fn append_places(out: &mut Vec<u8>, magnitude: u128) -> Result<(), AllocError>
    ensures ok { OnOk result (out.new.items ≡ out.old.items ++ 46 ∷ six_digits magnitude) }
    ensures err { OnErr result (StartsWith out.new.items out.old.items) }
{
    out.push(b'.')?;
    out.extend_from_slice(&last_six(magnitude))?;
    Ok(())
}
