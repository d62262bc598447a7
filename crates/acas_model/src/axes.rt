//! The table `grid`: the three axes.
ghost use Rattle.std.specs.Prelude.{◌≡◌, ◌<◌, ◌≤ℤ◌, ◌^◌, length, codes};
ghost use Rattle.toml.specs.View.{table_view};
ghost use Rattle.acas_doc.specs.Paths.{key_path};
ghost use Rattle.acas_model.specs.Answers.{Gives};
ghost use Rattle.acas_model.specs.View.{data_of, item_at, seen_table};
ghost use Rattle.acas_model.specs.Axes as rules;

use crate::document::closed_table;
use crate::fault::{AxisName, ModelFault};
use acas_doc::{item, list};
use acas_grid::Axis;
use acas_units::{
    GREATEST_ALTITUDE, GREATEST_RATE, LEAST_ALTITUDE, LEAST_RATE, Span, feet_to_ticks,
};
use std::alloc::Global;
use toml::{Table, Value};

/// The least and the greatest number on an axis of the file.
fn limits(name: AxisName) -> Span
    ensures least { result.least ≡ rules.least_on name }
    ensures greatest { result.greatest ≡ rules.greatest_on name }
{
    match name {
        AxisName::Altitude => Span::new(LEAST_ALTITUDE, GREATEST_ALTITUDE),
        AxisName::OwnRate | AxisName::IntruderRate => Span::new(LEAST_RATE, GREATEST_RATE),
    }
}

/// What a number of the file is in the model.
fn in_model(name: AxisName, number: i64) -> i64
    requires least { rules.least_on name ≤ℤ number }
    requires greatest { number ≤ℤ rules.greatest_on name }
    ensures { result ≡ rules.in_model name number }
{
    match name {
        AxisName::Altitude => feet_to_ticks(number),
        AxisName::OwnRate | AxisName::IntruderRate => number,
    }
}

/// The number at a place, as it is in the model.
#[tactic(auto, unfolding(crate::specs::Axes::axis_item))]
fn axis_item(
    alloc: Global,
    items: &[Value],
    name: AxisName,
    path: &[u8],
    place: u32,
) -> Result<i64, ModelFault>
    requires { place < length items.now }
    ensures { Gives (λ z. z) result (rules.axis_item name path.now place (item_at items.now place)) }
{
    let limits = limits(name);
    let number = item(alloc, items, path, place, limits.least, limits.greatest)?;
    Ok(in_model(name, number))
}

/// The numbers of a list, as they are in the model.
#[tactic(auto, unfolding(crate::specs::Axes::axis_items))]
fn axis_items(
    alloc: Global,
    items: &[Value],
    name: AxisName,
    path: &[u8],
) -> Result<Vec<i64>, ModelFault>
    requires { length items.now < 2 ^ 32 }
    ensures { Gives (λ v. v.items) result (rules.axis_items name path.now (data_of items.now)) }
{
    let mut values = Vec::new(alloc);
    for place in 0..items.len() as u32 {
        let value = axis_item(alloc, items, name, path, place)?;
        values.push(value)?;
    }
    Ok(values)
}

/// An axis of the table `grid`.
#[tactic(auto, unfolding(crate::specs::Axes::axis_at))]
fn axis_at(
    alloc: Global,
    grid: &Table,
    key: &str,
    path: &[u8],
    name: AxisName,
) -> Result<Axis, ModelFault>
    requires { path.now ≡ key_path (codes "grid") key.now }
    ensures { Gives (λ a. a) result (rules.axis_at (table_view grid.now) key.now name) }
{
    let items = list(alloc, grid, b"grid", key, 0, u32::MAX)?;
    let values = axis_items(alloc, items, name, path)?;
    match Axis::new(values) {
        Ok(axis) => Ok(axis),
        Err(fault) => Err(ModelFault::Axis { axis: name, fault }),
    }
}

/// The table of the axes.
#[tactic(auto, unfolding(crate::specs::Axes::grid_table))]
fn grid_table<'t>(alloc: Global, document: &'t Table) -> Result<&'t Table, ModelFault>
    ensures { Gives seen_table result (rules.grid_table (table_view document.now)) }
{
    closed_table(alloc, document, "grid", "altitude own_rate intruder_rate")
}

/// The three axes.
#[derive(Drop)]
pub(crate) struct Axes {
    pub h: Axis,
    pub v0: Axis,
    pub v1: Axis,
}

/// What the table `grid` says: the altitudes in ticks, the rates in ft/min.
#[tactic(auto, unfolding(crate::specs::Axes::axes_of))]
pub(crate) fn axes_of(alloc: Global, document: &Table) -> Result<Axes, ModelFault>
    ensures { Gives (λ a. a) result (rules.axes_of (table_view document.now)) }
{
    let grid = grid_table(alloc, document)?;
    let h = axis_at(
        alloc,
        grid,
        "altitude",
        b"grid.altitude",
        AxisName::Altitude,
    )?;
    let v0 = axis_at(alloc, grid, "own_rate", b"grid.own_rate", AxisName::OwnRate)?;
    let v1 = axis_at(
        alloc,
        grid,
        "intruder_rate",
        b"grid.intruder_rate",
        AxisName::IntruderRate,
    )?;
    Ok(Axes { h, v0, v1 })
}
