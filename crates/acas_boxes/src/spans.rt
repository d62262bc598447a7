//! Pairs of whole numbers: the spans of a box.
ghost use Rattle.std.specs.Prelude.{◌*◌, pos, ◌≤ℤ◌, unsigned_abs, IfOk};
ghost use Rattle.toml.specs.View.{table_view};
ghost use Rattle.acas_units.specs.declared.ticks.TheConstants.{TICKS_PER_FOOT};
ghost use Rattle.acas_areas.specs.Limits.{IsSmall, interval_of};
ghost use Rattle.acas_doc.specs.InputAnswers.{Gives};
ghost use Rattle.acas_boxes.specs.Spans as rules;

use acas_doc::{InputFault, item, list, path_of_key};
use acas_units::{
    GREATEST_ALTITUDE, GREATEST_BOX_RANGE, GREATEST_CLOSING, GREATEST_RATE, LEAST_ALTITUDE,
    LEAST_BOX_RANGE, LEAST_CLOSING, LEAST_RATE, Span, feet_to_ticks,
};
use std::alloc::Global;
use toml::Table;

/// How many numbers a span has in a file: its least and its greatest.
pub const SPAN_ENDS: u32 = 2;

/// The span at a key of the table at a path, within another.
#[tactic(auto, unfolding(crate::specs::Spans::span_at))]
fn span_at(
    alloc: Global,
    table: &Table,
    path: &[u8],
    key: &str,
    within: Span,
) -> Result<Span, InputFault>
    ensures value { Gives interval_of result
        (rules.span_at (table_view table.now) path.now key.now within.least within.greatest) }
    ensures low { IfOk result (λ s. within.least ≤ℤ s.least) }
    ensures high { IfOk result (λ s. s.greatest ≤ℤ within.greatest) }
{
    let items = list(alloc, table, path, key, SPAN_ENDS, SPAN_ENDS)?;
    let list_path = path_of_key(alloc, path, key)?;
    let first = item(
        alloc,
        items,
        list_path.bytes(),
        0,
        within.least,
        within.greatest,
    )?;
    let second = item(alloc, items, list_path.bytes(), 1, first, within.greatest)?;
    Ok(Span::new(first, second))
}

/// The ranges of a box, in ft.
#[tactic(auto, unfolding(crate::specs::Spans::ranges_at))]
pub(crate) fn ranges_at(alloc: Global, table: &Table, path: &[u8]) -> Result<Span, InputFault>
    ensures value { Gives interval_of result (rules.ranges_at (table_view table.now) path.now) }
    ensures low { IfOk result (λ s. LEAST_BOX_RANGE ≤ℤ s.least) }
    ensures high { IfOk result (λ s. s.greatest ≤ℤ GREATEST_BOX_RANGE) }
{
    let within = Span::new(LEAST_BOX_RANGE, GREATEST_BOX_RANGE);
    span_at(alloc, table, path, "range", within)
}

/// The closing speeds of a box, in ft/s.
#[tactic(auto, unfolding(crate::specs::Spans::closings_at))]
pub(crate) fn closings_at(alloc: Global, table: &Table, path: &[u8]) -> Result<Span, InputFault>
    ensures value { Gives interval_of result (rules.closings_at (table_view table.now) path.now) }
    ensures low { IfOk result (λ s. pos LEAST_CLOSING ≤ℤ s.least) }
    ensures high { IfOk result (λ s. s.greatest ≤ℤ pos GREATEST_CLOSING) }
{
    let within = Span::new(i64::from(LEAST_CLOSING), i64::from(GREATEST_CLOSING));
    span_at(alloc, table, path, "closing", within)
}

/// The altitudes of a box, in ticks.
#[tactic(auto, unfolding(crate::specs::Spans::altitudes_at))]
pub(crate) fn altitudes_at(alloc: Global, table: &Table, path: &[u8]) -> Result<Span, InputFault>
    ensures value { Gives interval_of result (rules.altitudes_at (table_view table.now) path.now) }
    ensures small { IfOk result (λ s.
        IsSmall (TICKS_PER_FOOT * unsigned_abs GREATEST_ALTITUDE) (interval_of s)) }
{
    let within = Span::new(LEAST_ALTITUDE, GREATEST_ALTITUDE);
    let feet = span_at(alloc, table, path, "altitude", within)?;
    Ok(Span::new(feet_to_ticks(feet.least), feet_to_ticks(feet.greatest)))
}

/// The rates of a box at a key, in ft/min.
#[tactic(auto, unfolding(crate::specs::Spans::rates_at))]
pub(crate) fn rates_at(
    alloc: Global,
    table: &Table,
    path: &[u8],
    key: &str,
) -> Result<Span, InputFault>
    ensures value { Gives interval_of result (rules.rates_at (table_view table.now) path.now key.now) }
    ensures small { IfOk result (λ s. IsSmall (unsigned_abs GREATEST_RATE) (interval_of s)) }
{
    let within = Span::new(LEAST_RATE, GREATEST_RATE);
    span_at(alloc, table, path, key, within)
}
