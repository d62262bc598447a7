//! The report of `risk`, line by line to a sink.
ghost use Rattle.std.specs.Prelude.{◌≡◌, [], IfOk, IsErr, IsErrOf, OnErr, OnOk};
ghost use Rattle.acas_base.specs.Advices.{AreAdvicesOf};
ghost use Rattle.acas_outside.specs.Bytes.{Appends, AppendsPart};
ghost use Rattle.acas_outside.specs.Frame.{Emits};
ghost use Rattle.acas_spec.specs.Model.{states};
ghost use Rattle.acas_risk.specs.Plans.{advised};
ghost use Rattle.acas_risk.specs.RiskText.{AreRisks, risk_lines, risk_row, risk_text};
ghost use Rattle.acas_risk.specs.Rows.{AreOfStates, row_at};

use crate::risk_lines::{write_risk_line, write_states_line};
use crate::risk_values::{RiskValues, risk_values};
use acas_base::{Advices, Model};
use acas_means::LayerMeans;
use acas_outside::{Failed, Pen, PrintFault, Sink};
use std::alloc::Global;

/// Writes for each state at the horizon, in order, bounds of the chance of contact under a table's policy and under the policy that is
/// always clear of conflict, and of what the table's policy costs; and then how many states there are, which it answers. It takes all its
/// memory before the first byte goes out.
pub fn write_risk<M: LayerMeans, S: Sink>(
    alloc: Global,
    model: &Model,
    advices: &Advices,
    sink: &mut S,
) -> Result<u32, PrintFault>
    requires { AreAdvicesOf model.now advices.now }
    ensures states { IfOk result (λ count. count ≡ states model.now.grid) }
    ensures text { OnOk result (Appends (S.written sink.old) (S.written sink.new)
        (risk_text model.now (advised model.now advices.now))) }
    ensures bounds { OnOk result (AreRisks model.now (advised model.now advices.now)
        (risk_row model.now (advised model.now advices.now))) }
    ensures part { IsErrOf result PrintFault.Sink → AppendsPart (S.written sink.old) (S.written sink.new)
        (risk_text model.now (advised model.now advices.now)) }
    ensures memory { IsErrOf result PrintFault.Memory → S.written sink.new ≡ S.written sink.old }
    ensures frame { Emits S.Sink sink.old sink.new (IsErrOf result PrintFault.Sink) }
{
    let states = model.grid().states();
    let Ok(mut pen) = Pen::make(alloc) else {
        return Err(PrintFault::Memory);
    };
    let Ok(values) = risk_values::<M>(alloc, model, advices) else {
        return Err(PrintFault::Memory);
    };
    match print_risks(model, &values, &mut pen, sink) {
        Ok(()) => Ok(states),
        Err(_) => Err(PrintFault::Sink),
    }
}

// Prints the lines of all states, and then how many there are, with a pen that has written nothing.
fn print_risks<S: Sink>(
    model: &Model,
    values: &RiskValues,
    pen: &mut Pen,
    sink: &mut S,
) -> Result<(), Failed>
    requires values { AreOfStates model.now.grid values.now }
    requires empty { pen.old.buffer ≡ [] }
    ensures ok { OnOk result (Appends (S.written sink.old) (S.written sink.new)
        (risk_lines model.now (row_at values.now))) }
    ensures err { OnErr result (AppendsPart (S.written sink.old) (S.written sink.new)
        (risk_lines model.now (row_at values.now))) }
    ensures frame { Emits S.Sink sink.old sink.new (IsErr result) }
{
    let states = model.grid().states();
    for state in 0..states {
        write_risk_line(&mut pen.line, model, values, state);
        pen.buffer.print(sink, pen.line.bytes())?;
    }
    write_states_line(&mut pen.line, states);
    pen.end(sink)?;
    Ok(())
}
