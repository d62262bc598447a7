//! The top call.
ghost use Rattle.std.specs.Prelude.{◌≡◌, ◌↔◌, ◌≤◌, pos, IsTrue, IfSome, All, None, map, string_bytes};
ghost use Rattle.acas_outside.specs.Frame.{ReadsAndWrites};
ghost use Rattle.acas_outside.specs.Outside.{outside};
ghost use Rattle.acas_rulings.specs.ManoeuvreLimits.{IsManoeuvre};
ghost use Rattle.acas_rulings.specs.MeetingView.{may_of};
ghost use Rattle.acas_command.specs.Codes.{code_of};
ghost use Rattle.acas_command.specs.ErrorLine.{Reports};
ghost use Rattle.acas_cli.specs.Calls.{AnswersCall, AnswersForm};
ghost use Rattle.acas_cli_words.specs.Forms.{HasNumber, form_of_command, form_of_table_command};
ghost use Rattle.acas_cli.specs.Headline.{Headline, IsWorth};
ghost use Rattle.acas_cli_words.specs.Words.{form_of, names_of};
ghost use Rattle.acas_cli.specs.Work.{CountsFor, CountsForm, HasRoom, NoneFell};

use crate::drill_call::drill;
use crate::work::Work;
use acas_box_commands::{manoeuvre, regions};
use acas_cell_commands::{audit, safeable};
use acas_check_commands::{check, migrate};
use acas_cli_words::{Command, TableCommand, command_of};
use acas_command::{Cause, Status, cause_of, cause_of_report, report, report_words};
use acas_encounter_commands::replay;
use acas_outside::{Folder, Sink};
use acas_risk_commands::risk;
use acas_rulings::Manoeuvre;
use acas_step_columns::StencilMeans;
use acas_table_commands::{compile, values};
use std::alloc::Global;

/// Does all that the program does, for the words after its name: the command that they are the form of, over this
/// folder, with its output on `out` and, where it is not done, one line on `err`.
///
/// It raises the counts of `work`, each of which is at most 2^63 before, as those of a new one are. The same one may go
/// from run to run: no count falls, so its counts are those of all runs. A run that is refused, or ends for want of
/// memory, leaves them as they were. No clause bounds how far one raises them whose output failed, or whose folder did
/// as it stored a table, so before the next run a caller asks [`Work::has_room`], or takes a new one.
pub fn run<F: Folder, O: Sink, E: Sink>(
    alloc: Global,
    words: &[String],
    folder: &mut F,
    out: &mut O,
    err: &mut E,
    work: &mut Work,
) -> Status
    requires served { All (λ word. IsTrue (F.serves folder.old word)) (map string_bytes words.now) }
    requires counts { HasRoom work.old }

    // Words of no form are refused, and no others.
    ensures words { (result.cause ≡ Cause.Words) ↔ (form_of (map string_bytes words.now) ≡ None) }

    // Each answer has its cause, what is printed and stored is what the words call for, and of the files that the form
    // reads no more bytes are taken than they have.
    ensures answers { AnswersForm (form_of (map string_bytes words.now)) result.cause
        (outside F.Folder O.Sink folder.old out.old) (outside F.Folder O.Sink folder.new out.new) }

    // What that is worth, in the words of the subject.
    ensures headline { Headline (form_of (map string_bytes words.now)) result.cause
        (outside F.Folder O.Sink folder.old out.old) (outside F.Folder O.Sink folder.new out.new) }

    // What is counted: by whole numbers where the command is done, over every folder, and nothing where it ended before
    // it had anything to count; what is not named for a command stands.
    ensures work { CountsForm (form_of (map string_bytes words.now)) (F.holds folder.old) result.cause
        work.old work.new }
    ensures rising { NoneFell work.old work.new }

    // The exit code, and the line on the error output.
    ensures code { result.code ≡ code_of result.cause }
    ensures line { Reports result.cause (map string_bytes words.now)
        (E.written err.old) (E.written err.new) (E.faults err.old) (E.faults err.new) }

    // The folder serves as before, and no count of faults falls, so that the next run can begin.
    ensures folder { ReadsAndWrites F.Folder folder.old folder.new (result.cause ≡ Cause.Folder) }
    ensures output { O.faults out.old ≤ O.faults out.new }
    ensures error_output { E.faults err.old ≤ E.faults err.new }
{
    let Some(command) = command_of(words) else {
        report_words(err);
        return status_of(Cause::Words);
    };
    let cause = answer(alloc, command, folder, out, work);
    report(words, &cause, err);
    status_of(cause)
}

// The end of a run by its cause.
fn status_of(cause: Cause) -> Status
    ensures code { result.code ≡ code_of cause }
    ensures cause { result.cause ≡ cause }
{
    Status {
        code: cause.code(),
        cause,
    }
}

// The answer to a command.
fn answer<F: Folder, O: Sink>(
    alloc: Global,
    command: Command<'_>,
    folder: &mut F,
    out: &mut O,
    work: &mut Work,
) -> Cause
    requires served { All (λ name. IsTrue (F.serves folder.old name))
        (names_of (form_of_command command)) }
    requires number { HasNumber (form_of_command command) }
    requires counts { HasRoom work.old }
    ensures answers { AnswersCall (form_of_command command.entry) result
        (outside F.Folder O.Sink folder.old out.old) (outside F.Folder O.Sink folder.new out.new) }
    ensures headline { IfSome (F.holds folder.old) (λ files.
        IsWorth (form_of_command command.entry) files result
        (outside F.Folder O.Sink folder.old out.old) (outside F.Folder O.Sink folder.new out.new)) }
    ensures work { CountsFor (form_of_command command.entry) (F.holds folder.old) result work.old work.new }
    ensures rising { NoneFell work.old work.new }
    ensures folder { ReadsAndWrites F.Folder folder.old folder.new (result ≡ Cause.Folder) }
    ensures output { O.faults out.old ≤ O.faults out.new }
{
    match command {
        Command::Values { model } => cause_of(values::<StencilMeans, F, O>(
            alloc,
            model,
            folder,
            out,
            &mut work.backups,
            &mut work.turned,
        )),
        Command::Compile { model, table } => cause_of(compile::<StencilMeans, F, O>(
            alloc,
            model,
            table,
            folder,
            out,
            &mut work.backups,
            &mut work.turned,
        )),
        Command::Regions { model, boxes } => cause_of_report(regions(
            alloc, model, boxes, folder, out,
        )),
        Command::Manoeuvre {
            model,
            boxes,
            accel,
            rate,
        } => {
            let may = manoeuvre_of(accel, rate);
            cause_of_report(manoeuvre(alloc, model, boxes, &may, folder, out))
        }
        Command::OnTable {
            model,
            table,
            command,
        } => answer_on_table(alloc, model, table, command, folder, out, work),
        Command::Drill { number } => drill(alloc, number, out).cause,
    }
}

// The answer to a command on a table that there is.
fn answer_on_table<F: Folder, O: Sink>(
    alloc: Global,
    model: &str,
    table: &str,
    command: TableCommand<'_>,
    folder: &mut F,
    out: &mut O,
    work: &mut Work,
) -> Cause
    requires served { All (λ name. IsTrue (F.serves folder.old name))
        (names_of (form_of_table_command model.now table.now command)) }
    requires counts { HasRoom work.old }
    ensures answers { AnswersCall (form_of_table_command model.now table.now command.entry) result
        (outside F.Folder O.Sink folder.old out.old) (outside F.Folder O.Sink folder.new out.new) }
    ensures headline { IfSome (F.holds folder.old) (λ files.
        IsWorth (form_of_table_command model.now table.now command.entry) files result
        (outside F.Folder O.Sink folder.old out.old) (outside F.Folder O.Sink folder.new out.new)) }
    ensures work { CountsFor (form_of_table_command model.now table.now command.entry) (F.holds folder.old) result
        work.old work.new }
    ensures rising { NoneFell work.old work.new }
    ensures folder { ReadsAndWrites F.Folder folder.old folder.new (result ≡ Cause.Folder) }
    ensures output { O.faults out.old ≤ O.faults out.new }
{
    match command {
        TableCommand::Check => cause_of(check::<StencilMeans, F, O>(
            alloc, model, table, folder, out,
        )),
        TableCommand::Risk => cause_of(risk::<StencilMeans, F, O>(
            alloc, model, table, folder, out,
        )),
        TableCommand::Audit { which } => cause_of_report(audit::<StencilMeans, F, O>(
            alloc,
            model,
            table,
            which,
            folder,
            out,
            &mut work.decisions,
        )),
        TableCommand::Safeable => cause_of_report(safeable::<StencilMeans, F, O>(
            alloc, model, table, folder, out,
        )),
        TableCommand::Replay { encounter } => cause_of(replay::<StencilMeans, F, O>(
            alloc, model, table, encounter, folder, out,
        )),
        TableCommand::Migrate { target } => cause_of(migrate::<StencilMeans, F, O>(
            alloc, model, table, target, folder, out,
        )),
    }
}

// What an intruder may do that words give an acceleration and a rate.
fn manoeuvre_of(accel: u32, rate: u32) -> Manoeuvre
    requires { IsManoeuvre (pos accel) (pos rate) }
    ensures { may_of result ≡ record { accel = accel; rate = rate } }
{
    Manoeuvre {
        accel: i64::from(accel),
        rate: i64::from(rate),
    }
}
