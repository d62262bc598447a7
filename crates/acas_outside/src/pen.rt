//! What lines are built in and printed with.
ghost use Rattle.std.specs.Prelude.{◌≡◌, ◌≤◌, [], ◌++◌, length, IfOk, IsErr, OnOk, OnErr};
ghost use Rattle.acas_outside.specs.Bytes.{Appends, AppendsPart};
ghost use Rattle.acas_outside.specs.Frame.{Emits};

use crate::line::{LINE_BYTES, Line};
use crate::print_buffer::PrintBuffer;
use crate::sink::{Failed, Sink};
use std::alloc::{AllocError, Global};

/// A line to build in, and the bytes that wait to be written. Its memory is taken when it is made.
#[derive(Drop)]
pub struct Pen {
    pub line: Line,
    pub buffer: PrintBuffer,
}

impl Pen {
    /// A pen that has written nothing. It fails only for want of memory.
    pub fn make(alloc: Global) -> Result<Pen, AllocError>
        ensures { IfOk result (λ pen. pen.buffer ≡ []) }
    {
        let buffer = PrintBuffer::make(alloc)?;
        Ok(Pen {
            line: Line::new(),
            buffer,
        })
    }

    /// Prints the line, and writes out all that waits.
    pub fn end<S: Sink>(&mut self, sink: &mut S) -> Result<(), Failed>
        requires { length self.old.line ≤ LINE_BYTES }
        ensures ok { OnOk result
            (Appends (S.written sink.old) (S.written sink.new) (self.old.buffer ++ self.old.line)) }
        ensures err { OnErr result
            (AppendsPart (S.written sink.old) (S.written sink.new) (self.old.buffer ++ self.old.line)) }
        ensures frame { Emits S.Sink sink.old sink.new (IsErr result) }
    {
        self.buffer.print(sink, self.line.bytes())?;
        self.buffer.flush(sink)?;
        Ok(())
    }
}
