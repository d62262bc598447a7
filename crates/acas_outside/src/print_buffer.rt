//! A buffer between lines and a sink.
ghost use Rattle.std.specs.Prelude.{◌≡◌, ◌+◌, ◌≤◌, [], ◌++◌, length, IfOk, IsErr, OnOk, OnErr};
ghost use Rattle.acas_outside.specs.Bytes.{Appends, AppendsPart};
ghost use Rattle.acas_outside.specs.Frame.{Emits};
ghost use Rattle.acas_outside.specs.Printing.{Prints};

use crate::emitting::emit;
use crate::sink::{Failed, Sink};
use std::alloc::{AllocError, Global};
use std::marker::Model;

/// The number of bytes that are gathered before they are written.
pub const BLOCK_BYTES: usize = 65_536;

/// Bytes that wait to be written, at most 65,536. Its memory is taken when it is made, so printing takes
/// none.
#[derive(Drop)]
pub struct PrintBuffer {
    bytes: Vec<u8>,
}

impl Model for PrintBuffer {
    ghost use Rattle.std.specs.Prelude.{List, ℕ, ◌≤◌, vec_len, vec_capacity};

    ghost Value = { List ℕ };

    ghost view = { λ buffer. buffer.bytes.items };

    ghost invariant = { λ buffer. (vec_len buffer.bytes ≤ 65536) × (65536 ≤ vec_capacity buffer.bytes) };
}

impl PrintBuffer {
    /// A buffer in which nothing waits.
    pub fn make(alloc: Global) -> Result<PrintBuffer, AllocError>
        ensures { IfOk result (λ buffer. buffer ≡ []) }
    {
        let bytes = Vec::with_capacity(alloc, BLOCK_BYTES)?;
        Ok(PrintBuffer { bytes })
    }

    /// Prints a piece of at most 65,536 bytes behind what waits. What waits is written out first where there is no
    /// room.
    pub fn print<S: Sink>(&mut self, sink: &mut S, piece: &[u8]) -> Result<(), Failed>
        requires { length piece.now ≤ 65536 }
        ensures ok { OnOk result
            (Prints (S.written sink.old) (S.written sink.new) self.old self.new piece.now) }
        ensures err { OnErr result
            (AppendsPart (S.written sink.old) (S.written sink.new) (self.old ++ piece.now)) }
        ensures frame { Emits S.Sink sink.old sink.new (IsErr result) }
    {
        self.make_room(sink, piece.len())?;
        let taken = self.bytes.extend_from_slice(piece);
        prove!(taken.is_ok());
        Ok(())
    }

    // Writes out what waits, where so many bytes have no room behind it.
    fn make_room<S: Sink>(&mut self, sink: &mut S, count: usize) -> Result<(), Failed>
        requires { count ≤ 65536 }
        ensures ok { OnOk result (Prints (S.written sink.old) (S.written sink.new) self.old self.new []) }
        ensures room { OnOk result (length self.new + count ≤ 65536) }
        ensures err { OnErr result (AppendsPart (S.written sink.old) (S.written sink.new) self.old) }
        ensures frame { Emits S.Sink sink.old sink.new (IsErr result) }
    {
        if self.bytes.len() + count <= BLOCK_BYTES {
            return Ok(());
        }
        self.flush(sink)?;
        Ok(())
    }

    /// Writes out what waits.
    pub fn flush<S: Sink>(&mut self, sink: &mut S) -> Result<(), Failed>
        ensures ok { OnOk result (Appends (S.written sink.old) (S.written sink.new) self.old) }
        ensures empty { OnOk result (self.new ≡ []) }
        ensures err { OnErr result (AppendsPart (S.written sink.old) (S.written sink.new) self.old) }
        ensures frame { Emits S.Sink sink.old sink.new (IsErr result) }
    {
        emit(sink, &self.bytes)?;
        self.bytes.clear();
        Ok(())
    }
}
