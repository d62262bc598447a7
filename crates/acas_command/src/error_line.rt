//! The line on the error output. Writing it takes no memory.
ghost use Rattle.std.specs.Prelude.{◌≡◌, ◌≤◌, ◌++◌, ◌∷◌, [], ℕ, List, map, string_bytes, slice_index_or};
ghost use Rattle.acas_command.specs.ErrorLine.{AppendsLine, Reports, name_of};
ghost use Rattle.acas_command.specs.declared.status.Cause.TheVariants.{Words};
ghost use Rattle.acas_command.specs.LineParts.{fault_head, fault_subject, input_head, input_subject, line_head, line_of_parts, line_subject, line_tail};

use crate::fault_text::tail_of;
use crate::status::{Cause, FileRole};
use acas_doc::InputFault;
use acas_model::ModelFault;
use acas_outside::{Sink, emit_parts};

/// Writes the line of a run whose output is not all out.
pub fn report<E: Sink>(words: &[String], cause: &Cause, err: &mut E)
    ensures line { Reports cause.now (map string_bytes words.now)
        (E.written err.old) (E.written err.new) (E.faults err.old) (E.faults err.new) }
    ensures faults { E.faults err.old ≤ E.faults err.new }
{
    if let Cause::Done | Cause::Reported = cause {
        return;
    }
    let tail = tail_of(cause);
    emit_line(
        err,
        line_head(cause).as_bytes(),
        line_subject(cause, words),
        tail.bytes(),
    );
}

/// Writes the line of words that are refused, whatever the words are.
pub fn report_words<E: Sink>(err: &mut E)
    ensures line { (words : List (List ℕ)) → Reports Words words
        (E.written err.old) (E.written err.new) (E.faults err.old) (E.faults err.new) }
    ensures faults { E.faults err.old ≤ E.faults err.new }
{
    emit_line(err, b"words refused", b"", b"");
}

// Writes a line of three parts, which stand at one lifetime here, or its first part where the output fails.
fn emit_line<'p, E: Sink>(err: &mut E, head: &'p [u8], subject: &'p [u8], tail: &'p [u8])
    ensures line { AppendsLine (line_of_parts head.now subject.now tail.now)
        (E.written err.old) (E.written err.new) (E.faults err.old) (E.faults err.new) }
    ensures faults { E.faults err.old ≤ E.faults err.new }
{
    match emit_parts(err, &[b"acas: ", head, subject, tail, b"\n"]) {
        Ok(()) => {}
        Err(_) => {}
    }
}

fn line_head(cause: &Cause) -> &'static str
    ensures { result.now ≡ line_head cause.now }
{
    match cause {
        Cause::Done | Cause::Reported => "",
        Cause::Words => "words refused",
        Cause::Absent(_) => "absent: ",
        Cause::Model(fault) => fault_head(fault),
        Cause::Table(_) => "table refused: ",
        Cause::Input(fault) => input_head(fault),
        Cause::Folder => "folder failed",
        Cause::Output => "output failed",
        Cause::TooLong(_) => "too long: ",
        Cause::Memory => "out of memory",
    }
}

fn fault_head(fault: &ModelFault) -> &'static str
    ensures { result.now ≡ fault_head fault.now }
{
    match fault {
        ModelFault::Doc(_) => "model refused: key ",
        _ => "model refused: ",
    }
}

fn input_head(fault: &InputFault) -> &'static str
    ensures { result.now ≡ input_head fault.now }
{
    match fault {
        InputFault::Doc(_) => "input refused: key ",
        _ => "input refused: ",
    }
}

fn line_subject<'c>(cause: &'c Cause, words: &'c [String]) -> &'c [u8]
    ensures { result.now ≡ line_subject cause.now (map string_bytes words.now) }
{
    match cause {
        Cause::Absent(role) | Cause::TooLong(role) => name_of(*role, words),
        Cause::Model(fault) => fault_subject(fault),
        Cause::Input(fault) => input_subject(fault),
        _ => b"",
    }
}

fn fault_subject(fault: &ModelFault) -> &[u8]
    ensures { result.now ≡ fault_subject fault.now }
{
    match fault {
        ModelFault::Doc(at) => at.key.bytes(),
        _ => b"",
    }
}

fn input_subject(fault: &InputFault) -> &[u8]
    ensures { result.now ≡ input_subject fault.now }
{
    match fault {
        InputFault::Doc(at) => at.key.bytes(),
        _ => b"",
    }
}

fn name_of(role: FileRole, words: &[String]) -> &[u8]
    ensures { result.now ≡ name_of role (map string_bytes words.now) }
{
    match role {
        FileRole::Model => word_at(words, 1),
        FileRole::Table | FileRole::Boxes => word_at(words, 2),
        FileRole::Encounter => word_at(words, 3),
    }
}

fn word_at(words: &[String], place: usize) -> &[u8]
    ensures { result.now ≡ slice_index_or (map string_bytes words.now) place [] }
{
    match words.get(place) {
        Some(word) => word.as_bytes(),
        None => b"",
    }
}
