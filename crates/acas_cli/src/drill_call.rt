//! A drill, which needs no folder.
ghost use Rattle.std.specs.Prelude.{◌≡◌, ◌≤◌, IfSome};
ghost use Rattle.acas_outside.specs.Outside.{Outside};
ghost use Rattle.acas_command.specs.Answers.{Answers};
ghost use Rattle.acas_command.specs.Codes.{code_of};
ghost use Rattle.acas_drill.specs.Calls.{CallsForDrill, EndsDrill, output_beside};
ghost use Rattle.acas_drill.specs.Worth.{DrillIsWorth};

use acas_command::{Status, cause_of_report};
use acas_outside::Sink;
use acas_step_columns::StencilMeans;
use acas_units::GREATEST_DRILL_NUMBER;
use std::alloc::Global;

/// Does what the words `drill K` do, for the number K: it needs no folder and no error output.
pub fn drill<O: Sink>(alloc: Global, number: u32, out: &mut O) -> Status
    requires { number ≤ GREATEST_DRILL_NUMBER }

    // The answer has its cause, and what is printed is what the number calls for. Whatever is told of a folder beside the output, it
    // stays so.
    ensures answers { (folder : Outside) → Answers (CallsForDrill number) result.cause
        (output_beside O.Sink folder out.old) (output_beside O.Sink folder out.new) }

    // What that is worth, in the words of the subject.
    ensures headline { (folder : Outside) →
        IfSome folder.holds (λ files. DrillIsWorth number files result.cause
        (output_beside O.Sink folder out.old) (output_beside O.Sink folder out.new)) }
    ensures ends { EndsDrill result.cause }
    ensures code { result.code ≡ code_of result.cause }
    ensures output { O.faults out.old ≤ O.faults out.new }
{
    let cause = cause_of_report(acas_drill::drill::<StencilMeans, O>(alloc, number, out));
    Status {
        code: cause.code(),
        cause,
    }
}
