//! What is printed of a model's fault and of an input's.
ghost use Rattle.std.specs.Prelude.{◌≡◌, ◌+◌, ◌≤◌, ◌++◌, [], length};
ghost use Rattle.std.specs.Fmt.{decimal, signed_decimal};
ghost use Rattle.acas_command.specs.FaultText.{axis_text, axis_word, kind_text, name_text, range_text};
ghost use Rattle.acas_command.specs.LineParts.{fault_tail, input_tail, line_tail};

use crate::line_fields::{put_count, put_counts, put_number, put_numbers, put_text};
use crate::refusal_text::write_refusal;
use crate::status::Cause;
use acas_doc::{DocKind, InputFault};
use acas_grid::AxisFault;
use acas_model::{AxisName, ModelFault, NamePlace};
use acas_outside::Line;
use acas_units::{GREATEST_ENTRIES, GREATEST_TOTAL_WEIGHT};

/// The line of what is printed of a cause behind the name or the key that it is about.
pub(crate) fn tail_of(cause: &Cause) -> Line
    ensures { result ≡ line_tail cause.now }
{
    let mut line = Line::new();
    match cause {
        Cause::Model(fault) => write_fault_tail(&mut line, fault),
        Cause::Table(refusal) => write_refusal(&mut line, refusal),
        Cause::Input(fault) => write_input_tail(&mut line, fault),
        _ => {}
    }
    line
}

#[tactic(auto, unfolding(crate::specs::FaultText::weights_text, crate::specs::FaultText::window_text, crate::specs::FaultText::entries_text))]
fn write_fault_tail(line: &mut Line, fault: &ModelFault)
    requires { line.old ≡ [] }
    ensures { line.new ≡ fault_tail fault.now }
{
    match fault {
        ModelFault::NotToml => put_text(line, "not toml"),
        ModelFault::Doc(at) => write_kind(line, at.kind),
        ModelFault::Axis { axis, fault } => write_axis(line, *axis, *fault),
        ModelFault::Interval { advisory } => {
            write_numbered(line, "interval of advisory ", *advisory)
        }
        ModelFault::NoChoice { advisory } => {
            write_numbered(line, "no choice of advisory ", *advisory)
        }
        ModelFault::UnknownName { at } => {
            let choice = "unknown choice of advisory ";
            write_name(line, choice, choice, *at)
        }
        ModelFault::RepeatedName { at } => {
            let own = "repeated name of advisory ";
            write_name(line, own, "repeated choice of advisory ", *at)
        }
        ModelFault::Weights { total } => {
            let most = i64::from(GREATEST_TOTAL_WEIGHT);
            put_numbers(line, "weights ", *total, " over ", most)
        }
        ModelFault::Window { needed, allowed } => {
            put_numbers(line, "window ", *needed, " over ", *allowed)
        }
        ModelFault::TooManyEntries { entries } => {
            put_counts(line, "entries ", *entries, " over ", GREATEST_ENTRIES)
        }
        ModelFault::Memory => put_text(line, "out of memory"),
    }
}

fn write_input_tail(line: &mut Line, fault: &InputFault)
    requires { line.old ≡ [] }
    ensures { line.new ≡ input_tail fault.now }
{
    match fault {
        InputFault::NotToml => put_text(line, "not toml"),
        InputFault::Doc(at) => write_kind(line, at.kind),
        InputFault::UnknownName { place } => write_numbered(line, "unknown advisory at ", *place),
        InputFault::Window { place } => write_numbered(line, "window at ", *place),
        InputFault::Rate { place } => write_numbered(line, "rate at ", *place),
        InputFault::Memory => put_text(line, "out of memory"),
    }
}

fn write_kind(line: &mut Line, kind: DocKind)
    requires { line.old ≡ [] }
    ensures { line.new ≡ kind_text kind }
{
    match kind {
        DocKind::Missing => put_text(line, " missing"),
        DocKind::WrongKind => put_text(line, " wrong kind"),
        DocKind::OutOfRange {
            value,
            least,
            greatest,
        } => write_range(line, value, least, greatest),
        DocKind::UnknownKey => put_text(line, " unknown"),
    }
}

#[tactic(auto, unfolding(crate::specs::FaultText::range_text))]
fn write_range(line: &mut Line, value: i64, least: i64, greatest: i64)
    requires { line.old ≡ [] }
    ensures { line.new ≡ range_text value least greatest }
{
    put_text(line, " value ");
    put_number(line, value);
    put_text(line, " outside ");
    put_number(line, least);
    put_text(line, " to ");
    put_number(line, greatest);
}

fn axis_word(axis: AxisName) -> &'static str
    ensures value { result.now ≡ axis_word axis }
    ensures short { length result.now ≤ 13 }
{
    match axis {
        AxisName::Altitude => "altitude",
        AxisName::OwnRate => "own_rate",
        AxisName::IntruderRate => "intruder_rate",
    }
}

fn write_axis(line: &mut Line, axis: AxisName, fault: AxisFault)
    requires { line.old ≡ [] }
    ensures { line.new ≡ axis_text axis fault }
{
    put_text(line, "axis ");
    put_text(line, axis_word(axis));
    match fault {
        AxisFault::TooShort => put_text(line, " too short"),
        AxisFault::TooLong => put_text(line, " too long"),
        AxisFault::NotRising { place } => {
            put_text(line, " not rising at ");
            put_count(line, u64::from(place));
        }
    }
}

fn write_numbered(line: &mut Line, text: &str, number: u32)
    requires empty { line.old ≡ [] }
    requires short { length text.now ≤ 100 }
    ensures { line.new ≡ text.now ++ decimal number }
{
    put_text(line, text);
    put_count(line, u64::from(number));
}

// Makes a line of whose name it is: an advisory's own, or one of its choices.
fn write_name(line: &mut Line, own: &str, choice: &str, at: NamePlace)
    requires empty { line.old ≡ [] }
    requires own { length own.now ≤ 100 }
    requires choice { length choice.now ≤ 100 }
    ensures { line.new ≡ name_text own.now choice.now at.advisory at.choice }
{
    let advisory = u64::from(at.advisory);
    match at.choice {
        None => write_numbered(line, own, at.advisory),
        Some(place) => put_counts(line, choice, advisory, " at ", u64::from(place)),
    }
}
