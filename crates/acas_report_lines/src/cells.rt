//! The cells of an audit in order.
ghost use Rattle.std.specs.Prelude.{◌+◌, ◌*◌, ◌<◌, ◌≤◌, ◌^◌, [], ◌∷◌, OnOk, OnErr, IsErr};
ghost use Rattle.acas_base.specs.Advices.{AreAdvicesOf};
ghost use Rattle.acas_outside.specs.Frame.{Emits};
ghost use Rattle.acas_cells.specs.Cells.{IsCellOf, block_cells, cells_of};
ghost use Rattle.acas_cells.specs.DecisionCounts.{most_decisions};
ghost use Rattle.acas_cells.specs.Order.{cell_of};
ghost use Rattle.acas_report_lines.specs.Plan.{Broke, Room, Wrote, progress, total};
ghost use Rattle.acas_report_lines.specs.Blocks.{CountsPrepared};
ghost use Rattle.acas_report_lines.specs.Plans.{name_plan, place_cell, plan_of};

use crate::audit::{Audit, Place};
use crate::rulings::Rulings;
use crate::{Pen, leaves_out, write_cell_line};
use acas_cells::CellName;
use acas_outside::{Failed, Sink};
use acas_units::Counter;

/// Writes all cells.
pub(crate) fn write_cells<R: Rulings, S: Sink>(
    audit: &Audit<'_>,
    rulings: &mut R,
    sink: &mut S,
    pen: &mut Pen,
    count: &mut Counter<R::Decision>,
) -> Result<(), Failed>
    requires advices { AreAdvicesOf audit.now.model.now audit.now.advices.now }
    requires fits { R.fits rulings.old audit.now.model.now }
    requires decisions { count.old + audit.now.model.now.grid.horizon *
        (audit.now.model.now.grid.advisories * most_decisions audit.now.model.now) < 2 ^ 64 }
    requires room { Room (plan_of audit.now) pen.old.counts (cells_of audit.now.model.now) }
    ensures ok { OnOk result (Wrote (plan_of audit.now)
        (progress (S.written sink.old) pen.old) (progress (S.written sink.new) pen.new)
        (cells_of audit.now.model.now)) }
    ensures err { OnErr result (Broke (plan_of audit.now)
        (S.written sink.old) pen.old.out.buffer (S.written sink.new) (cells_of audit.now.model.now)) }
    ensures frame { Emits S.Sink sink.old sink.new (IsErr result) }
    ensures counted { OnOk result
        (CountsPrepared R.takes audit.now.model.now audit.now.advices.now count.old count.new) }
    ensures rising { count.old ≤ count.new }
{
    let grid = audit.model.grid();
    for n in 0..grid.horizon {
        for present in 0..grid.advisories as u8 {
            let at = Place {
                n,
                present,
                i: 0,
                j: 0,
                k: 0,
            };
            rulings.prepare(audit.model, audit.advices, at, count);
            write_block(audit, rulings, n, present, sink, pen)?;
        }
    }
    Ok(())
}

// Writes the cells of n seconds and a present advisory.
fn write_block<R: Rulings, S: Sink>(
    audit: &Audit<'_>,
    rulings: &R,
    n: u32,
    present: u8,
    sink: &mut S,
    pen: &mut Pen,
) -> Result<(), Failed>
    requires advices { AreAdvicesOf audit.now.model.now audit.now.advices.now }
    requires ready { R.ready rulings.now audit.now.model.now audit.now.advices.now n present }
    requires n { n < audit.now.model.now.grid.horizon }
    requires present { present < audit.now.model.now.grid.advisories }
    requires room { Room (plan_of audit.now) pen.old.counts (block_cells audit.now.model.now n present) }
    ensures ok { OnOk result (Wrote (plan_of audit.now)
        (progress (S.written sink.old) pen.old) (progress (S.written sink.new) pen.new)
        (block_cells audit.now.model.now n present)) }
    ensures err { OnErr result (Broke (plan_of audit.now)
        (S.written sink.old) pen.old.out.buffer
        (S.written sink.new) (block_cells audit.now.model.now n present)) }
    ensures frame { Emits S.Sink sink.old sink.new (IsErr result) }
{
    let grid = audit.model.grid();
    for i in 0..grid.h.len() - 1 {
        for j in 0..grid.v0.len() - 1 {
            for k in 0..grid.v1.len() - 1 {
                let at = Place {
                    n,
                    present,
                    i,
                    j,
                    k,
                };
                write_cell(audit, rulings, at, sink, pen)?;
            }
        }
    }
    Ok(())
}

// Writes the lines of a cell under the advices at its corners other than clear of conflict, and counts it where it is clear.
fn write_cell<R: Rulings, S: Sink>(
    audit: &Audit<'_>,
    rulings: &R,
    at: Place,
    sink: &mut S,
    pen: &mut Pen,
) -> Result<(), Failed>
    requires advices { AreAdvicesOf audit.now.model.now audit.now.advices.now }
    requires ready { R.ready rulings.now audit.now.model.now audit.now.advices.now at.n at.present }
    requires cell { IsCellOf audit.now.model.now (place_cell at) }
    requires room { Room (plan_of audit.now) pen.old.counts (place_cell at ∷ []) }
    ensures ok { OnOk result (Wrote (plan_of audit.now)
        (progress (S.written sink.old) pen.old) (progress (S.written sink.new) pen.new)
        (place_cell at ∷ [])) }
    ensures err { OnErr result (Broke (plan_of audit.now)
        (S.written sink.old) pen.old.out.buffer (S.written sink.new) (place_cell at ∷ [])) }
    ensures frame { Emits S.Sink sink.old sink.new (IsErr result) }
{
    let set = rulings.advised(audit.model, audit.advices, at);
    let clear = set.has_no_advisory();
    pen.counts.count_cell(clear);
    if clear {
        return Ok(());
    }
    let Place {
        n,
        present,
        i,
        j,
        k,
    } = at;
    for advice in 0..audit.model.grid().advisories as u8 {
        if advice == 0 {
            continue;
        }
        if !set.has(advice) {
            continue;
        }
        let name = CellName {
            n,
            present,
            i,
            j,
            k,
            advice,
        };
        write_name(audit, rulings, &name, sink, pen)?;
    }
    Ok(())
}

// Counts a cell under an advice, and writes its line. Where the line is left out, no ruling is made.
fn write_name<R: Rulings, S: Sink>(
    audit: &Audit<'_>,
    rulings: &R,
    name: &CellName,
    sink: &mut S,
    pen: &mut Pen,
) -> Result<(), Failed>
    requires ready { R.ready rulings.now audit.now.model.now audit.now.advices.now
        name.now.n name.now.present }
    requires cell { IsCellOf audit.now.model.now (cell_of name.now) }
    requires advice { name.now.advice < audit.now.model.now.grid.advisories }
    requires room { total pen.old.counts + 1 < 2 ^ 64 }
    ensures ok { OnOk result (Wrote (name_plan audit.now.model.now audit.now.which)
        (progress (S.written sink.old) pen.old) (progress (S.written sink.new) pen.new) (name.now ∷ [])) }
    ensures err { OnErr result (Broke (name_plan audit.now.model.now audit.now.which)
        (S.written sink.old) pen.old.out.buffer (S.written sink.new) (name.now ∷ [])) }
    ensures frame { Emits S.Sink sink.old sink.new (IsErr result) }
{
    let certified = rulings.certifies(audit.model, name);
    pen.counts.count(certified);
    if leaves_out(audit.which, certified) {
        return Ok(());
    }
    let ruling = rulings.ruling(audit.model, name);
    write_cell_line(&mut pen.out.line, audit.model, name, &ruling);
    pen.out.buffer.print(sink, pen.out.line.bytes())?;
    Ok(())
}
