//! Bytes that are appended to a sink, over short writes.
ghost use Rattle.std.specs.Prelude.{IsErr, OnOk, OnErr};
ghost use Rattle.acas_outside.specs.Bytes.{Appends, AppendsPart, joined};
ghost use Rattle.acas_outside.specs.Frame.{Emits};

use crate::sink::{Failed, Sink};

/// Appends all bytes to a sink, over short writes. Where it fails, it has appended a proper prefix of them.
pub fn emit<S: Sink>(sink: &mut S, bytes: &[u8]) -> Result<(), Failed>
    ensures ok { OnOk result (Appends (S.written sink.old) (S.written sink.new) bytes.now) }
    ensures err { OnErr result (AppendsPart (S.written sink.old) (S.written sink.new) bytes.now) }
    ensures frame { Emits S.Sink sink.old sink.new (IsErr result) }
{
    let mut at = 0;
    while at < bytes.len() {
        let count = sink.write(&bytes[at..])?;
        if count == 0 {
            return Err(Failed);
        }
        at += count;
    }
    Ok(())
}

/// Appends all bytes of several parts, one part after another. Where it fails, it has appended a proper prefix of
/// them.
pub fn emit_parts<S: Sink>(sink: &mut S, parts: &[&[u8]]) -> Result<(), Failed>
    ensures ok { OnOk result (Appends (S.written sink.old) (S.written sink.new) (joined parts.now)) }
    ensures err { OnErr result (AppendsPart (S.written sink.old) (S.written sink.new) (joined parts.now)) }
    ensures frame { Emits S.Sink sink.old sink.new (IsErr result) }
{
    for part in parts {
        emit(sink, part)?;
    }
    Ok(())
}
