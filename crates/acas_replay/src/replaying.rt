//! The replay of an encounter, line by line to a sink.
ghost use Rattle.std.specs.Prelude.{◌≡◌, ◌+◌, ◌<◌, ◌++◌, ℕ, List, [], OnOk, OnErr, IfOk, IsErr, IsErrOf};
ghost use Rattle.acas_base.specs.Advices.{AreAdvicesOf};
ghost use Rattle.acas_replay.specs.Encounter.{IsEncounterOf, seconds};
ghost use Rattle.acas_outside.specs.Bytes.{Appends, AppendsPart};
ghost use Rattle.acas_outside.specs.Frame.{Emits};
ghost use Rattle.acas_outside.specs.Printing.{Prints};
ghost use Rattle.acas_replay.specs.Flown.{HasContacts, IsCourseOf, IsFlown, IsReplayable, line_in, lines_in, text_in};
ghost use Rattle.acas_replay.specs.Replay.{Course, IsReplay};

use crate::Encounter;
use crate::lines::{write_counts, write_line};
use crate::progress::{Progress, Replayed};
use acas_base::{Advices, Model};
use acas_outside::{Failed, Pen, PrintFault, Sink};
use std::alloc::Global;

/// Replays an encounter under the advice of a table of a model, and answers how many of its seconds are in contact: a line for each
/// second, and then the counts. The advisory at the start is one of the model's. It takes all its memory before the first byte goes out.
pub fn replay<S: Sink>(
    alloc: Global,
    model: &Model,
    advices: &Advices,
    encounter: &Encounter,
    sink: &mut S,
) -> Result<u32, PrintFault>
    requires advices { AreAdvicesOf model.now advices.now }
    requires encounter { IsEncounterOf model.now encounter.now }
    ensures replay { IfOk result (λ count. (text : List ℕ)
        × IsReplay model.now advices.now encounter.now count text
        × Appends (S.written sink.old) (S.written sink.new) text) }
    ensures part { IsErrOf result PrintFault.Sink → (count : ℕ) × (text : List ℕ)
        × IsReplay model.now advices.now encounter.now count text
        × AppendsPart (S.written sink.old) (S.written sink.new) text }
    ensures memory { IsErrOf result PrintFault.Memory → S.written sink.new ≡ S.written sink.old }
    ensures frame { Emits S.Sink sink.old sink.new (IsErrOf result PrintFault.Sink) }
{
    // Opens the limits of the model and of the encounter.
    let _ = model.grid();
    let _ = encounter.seconds();
    let Ok(mut pen) = Pen::make(alloc) else {
        return Err(PrintFault::Memory);
    };
    let replayed = Replayed {
        model,
        advices,
        encounter,
    };
    match write_whole(&replayed, sink, &mut pen) {
        Ok(contacts) => Ok(contacts),
        Err(_) => Err(PrintFault::Sink),
    }
}

// Writes the lines of all seconds, and then the counts, with a pen that has written nothing.
fn write_whole<S: Sink>(replayed: &Replayed<'_>, sink: &mut S, pen: &mut Pen) -> Result<u32, Failed>
    requires replayable { IsReplayable replayed.now }
    requires empty { pen.old.buffer ≡ [] }
    ensures counted { IfOk result (HasContacts replayed.now) }
    ensures ok { OnOk result ((c : Course) → IsCourseOf replayed.now c
        → Appends (S.written sink.old) (S.written sink.new) (text_in replayed.now c)) }
    ensures err { OnErr result ((c : Course) → IsCourseOf replayed.now c
        → AppendsPart (S.written sink.old) (S.written sink.new) (text_in replayed.now c)) }
    ensures frame { Emits S.Sink sink.old sink.new (IsErr result) }
{
    let contacts = write_seconds(replayed, sink, pen)?;
    write_counts(&mut pen.line, replayed.encounter.seconds(), contacts);
    pen.end(sink)?;
    Ok(contacts)
}

// Writes the lines of all seconds, and answers how many are in contact.
fn write_seconds<S: Sink>(
    replayed: &Replayed<'_>,
    sink: &mut S,
    pen: &mut Pen,
) -> Result<u32, Failed>
    requires { IsReplayable replayed.now }
    ensures counted { IfOk result (HasContacts replayed.now) }
    ensures ok { OnOk result ((c : Course) → IsCourseOf replayed.now c
        → Prints (S.written sink.old) (S.written sink.new) pen.old.buffer pen.new.buffer (lines_in replayed.now c)) }
    ensures err { OnErr result ((c : Course) → IsCourseOf replayed.now c
        → AppendsPart (S.written sink.old) (S.written sink.new) (pen.old.buffer ++ lines_in replayed.now c)) }
    ensures frame { Emits S.Sink sink.old sink.new (IsErr result) }
{
    let mut at = replayed.start();
    for second in 0..replayed.encounter.seconds() {
        at = write_second(replayed, second, &at, sink, pen)?;
    }
    Ok(at.contacts)
}

// Writes the line of a second, and answers how far the replay is after it.
fn write_second<S: Sink>(
    replayed: &Replayed<'_>,
    second: u32,
    at: &Progress,
    sink: &mut S,
    pen: &mut Pen,
) -> Result<Progress, Failed>
    requires advices { AreAdvicesOf replayed.now.model.now replayed.now.advices.now }
    requires second { second < seconds replayed.now.encounter.now }
    requires flown { IsFlown replayed.now second at.now }
    ensures flown { IfOk result (IsFlown replayed.now (second + 1)) }
    ensures ok { OnOk result ((c : Course) → IsCourseOf replayed.now c
        → Prints (S.written sink.old) (S.written sink.new) pen.old.buffer pen.new.buffer (line_in replayed.now c second)) }
    ensures err { OnErr result ((c : Course) → IsCourseOf replayed.now c
        → AppendsPart (S.written sink.old) (S.written sink.new) (pen.old.buffer
        ++ line_in replayed.now c second)) }
    ensures frame { Emits S.Sink sink.old sink.new (IsErr result) }
{
    let found = replayed.found_in(second, &at.state);
    write_line(&mut pen.line, replayed.model, second, &at.state, &found);
    pen.buffer.print(sink, pen.line.bytes())?;
    Ok(replayed.next(second, at, &found))
}
