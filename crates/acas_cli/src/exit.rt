//! The exit code of a run.
ghost use Rattle.std.specs.Prelude.{◌≡◌, All, IsTrue, map, string_bytes};
ghost use Rattle.std.specs.Process.{exit_status};
ghost use Rattle.acas_outside.specs.Outside.{outside};
ghost use Rattle.acas_command.specs.Codes.{code_of};
ghost use Rattle.acas_command.specs.declared.status.Cause.{Cause as EndCause};
ghost use Rattle.acas_cli_words.specs.Words.{form_of};
ghost use Rattle.acas_cli.specs.Calls.{AnswersForm};

use crate::top_call::run;
use crate::work::Work;
use acas_outside::{Folder, Sink};
use std::alloc::Global;
use std::process::ExitCode;

/// Runs the words, and gives the exit code of the cause that the run answers.
pub fn ended<F: Folder, O: Sink, E: Sink>(
    alloc: Global,
    words: &[String],
    folder: &mut F,
    out: &mut O,
    err: &mut E,
) -> ExitCode
    requires served { All (λ word. IsTrue (F.serves folder.old word)) (map string_bytes words.now) }
    ensures code { (cause : EndCause) × (exit_status result ≡ code_of cause)
        × AnswersForm (form_of (map string_bytes words.now)) cause
        (outside F.Folder O.Sink folder.old out.old) (outside F.Folder O.Sink folder.new out.new) }
{
    let mut work = Work::new();
    let status = run(alloc, words, folder, out, err, &mut work);
    ExitCode::from(status.code)
}
