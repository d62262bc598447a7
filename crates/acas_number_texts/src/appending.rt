//! Numbers appended to a list of bytes, and the list as it was where that fails.
ghost use Rattle.std.specs.Prelude.{◌≡◌, ◌≤◌, ◌++◌, length, take, OnErr, OnOk};

use itoa::{Buffer, Integer};
use std::alloc::AllocError;

/// Appends the decimal text of a whole number.
pub(crate) fn append_number<I: Integer>(out: &mut Vec<u8>, number: I) -> Result<(), AllocError>
    ensures ok { OnOk result (out.new.items ≡ out.old.items ++ I.text number) }
    ensures err { OnErr result (out.new.items ≡ out.old.items) }
{
    let mut buffer = Buffer::new();
    out.extend_from_slice(buffer.format(number).as_bytes())?;
    Ok(())
}

/// Where printing has failed, leaves of the bytes only those before it.
pub(crate) fn or_as_before(
    printed: Result<(), AllocError>,
    out: &mut Vec<u8>,
    start: usize,
) -> Result<(), AllocError>
    requires { start ≤ length out.old.items }
    ensures ok { OnOk printed (out.new.items ≡ out.old.items) }
    ensures err { OnErr printed (out.new.items ≡ take start out.old.items) }
    ensures value { result ≡ printed }
{
    if printed.is_err() {
        out.truncate(start);
    }
    printed
}
