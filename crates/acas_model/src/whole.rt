//! The rules of a model's text, in their order.
ghost use Rattle.std.specs.Prelude.{◌≡◌, ◌≤◌, ◌+◌, ◌*◌, length, map, Ok, Err, IfOk, IfErr};
ghost use Rattle.std.specs.List.{AllByRecursion};
ghost use Rattle.toml.specs.View.{table_view};
ghost use Rattle.acas_spec.specs.Model.{entries};
ghost use Rattle.acas_model.specs.Answers.{Gives};
ghost use Rattle.acas_model.specs.View.{advised_view};
ghost use Rattle.acas_model.specs.Whole as rules;

use crate::axes::{Axes, axes_of};
use crate::choices::{Advised, advised_of};
use crate::document::{document_of, number};
use crate::fault::ModelFault;
use crate::noise::{sigmas_of, weights};
use crate::numbers::numbers_of;
use acas_base::Model;
use acas_doc::only_keys;
use acas_grid::Grid;
use acas_units::{
    GREATEST_ADVISORIES, GREATEST_CLOSING, GREATEST_ENTRIES, GREATEST_HORIZON,
    GREATEST_MODEL_VERSION, GREATEST_RADIUS, LEAST_HORIZON, LEAST_MODEL_VERSION, WINDOW_SECONDS,
};
use std::alloc::Global;
use toml::Table;

/// That the document has no unknown key.
#[tactic(auto, unfolding(crate::specs::Whole::top_keys))]
fn top_keys(alloc: Global, document: &Table) -> Result<(), ModelFault>
    ensures { Gives (λ u. u) result (rules.top_keys (table_view document.now)) }
{
    Ok(only_keys(
        alloc,
        document,
        b"",
        "version horizon grid puck closing pilot cost advisory sigma",
    )?)
}

/// The version, which says what keys `pilot` has.
#[tactic(auto, unfolding(crate::specs::Whole::version_of))]
fn version_of(alloc: Global, document: &Table) -> Result<u32, ModelFault>
    ensures { Gives (λ n. n) result (rules.version_of (table_view document.now)) }
{
    let (least, greatest) = (LEAST_MODEL_VERSION, GREATEST_MODEL_VERSION);
    number(alloc, document, b"", "version", least, greatest)
}

/// The horizon in seconds.
#[tactic(auto, unfolding(crate::specs::Whole::horizon_of))]
fn horizon_of(alloc: Global, document: &Table) -> Result<u32, ModelFault>
    ensures value { Gives (λ n. n) result (rules.horizon_of (table_view document.now)) }
    ensures range { IfOk result (λ n. n ≤ GREATEST_HORIZON) }
{
    let (least, greatest) = (LEAST_HORIZON, GREATEST_HORIZON);
    number(alloc, document, b"", "horizon", least, greatest)
}

/// The way of some seconds at a closing speed, in ft.
fn travelled(seconds: u32, speed: u32) -> u32
    requires seconds { seconds ≤ GREATEST_HORIZON }
    requires speed { speed ≤ GREATEST_CLOSING }
    ensures value { result ≡ seconds * speed }
    ensures high { result ≤ GREATEST_HORIZON * GREATEST_CLOSING }
{
    seconds * speed
}

/// That a way is at most another.
fn at_most(needed: u32, allowed: u32) -> Result<(), ModelFault>
    ensures { result ≡ rules.at_most needed allowed }
{
    if needed <= allowed {
        Ok(())
    } else {
        Err(ModelFault::Window {
            needed: i64::from(needed),
            allowed: i64::from(allowed),
        })
    }
}

/// That at the least closing speed the horizon and the way through the puck are over within the window.
#[tactic(auto, unfolding(crate::specs::Whole::window))]
fn window(horizon: u32, radius: u32, least: u32) -> Result<(), ModelFault>
    requires horizon { horizon ≤ GREATEST_HORIZON }
    requires radius { radius ≤ GREATEST_RADIUS }
    requires least { least ≤ GREATEST_CLOSING }
    ensures { result ≡ rules.window horizon radius least }
{
    at_most(
        travelled(horizon, least) + 2 * radius,
        WINDOW_SECONDS * least,
    )
}

/// The grid of these axes, over which a table has not too many entries.
#[tactic(auto, unfolding(crate::specs::Whole::few_entries))]
fn grid_of(horizon: u32, axes: Axes, advised: &Advised) -> Result<Grid, ModelFault>
    requires horizon { horizon ≤ GREATEST_HORIZON }
    requires few { length advised.now.advisories.items ≤ GREATEST_ADVISORIES }
    ensures value { IfOk result (λ g. g ≡ rules.grid_from horizon axes (advised_view advised.now)) }
    ensures ok { IfOk result (λ g. rules.few_entries g ≡ Ok tt) }
    ensures err { IfErr result
        (λ e. rules.few_entries (rules.grid_from horizon axes (advised_view advised.now)) ≡ Err e) }
{
    let grid = Grid {
        h: axes.h,
        v0: axes.v0,
        v1: axes.v1,
        advisories: advised.advisories.len() as u32,
        horizon,
    };
    let entries = grid.entries();
    if entries <= GREATEST_ENTRIES {
        Ok(grid)
    } else {
        Err(ModelFault::TooManyEntries { entries })
    }
}

/// The model of a document.
#[tactic(auto, unfolding(crate::specs::Whole::model_in))]
fn model_in(alloc: Global, document: &Table) -> Result<Model, ModelFault>
    ensures { Gives (λ m. m) result (rules.model_in (table_view document.now)) }
{
    top_keys(alloc, document)?;
    let version = version_of(alloc, document)?;
    let horizon = horizon_of(alloc, document)?;
    let axes = axes_of(alloc, document)?;
    let numbers = numbers_of(alloc, document, version)?;
    let advised = advised_of(alloc, document)?;
    let sigmas = sigmas_of(alloc, document)?;
    weights(&sigmas)?;
    window(horizon, numbers.puck.radius, numbers.closing.least)?;
    let grid = grid_of(horizon, axes, &advised)?;
    Ok(Model::new(grid, numbers, advised.advisories, advised.choices, sigmas))
}

/// The model that a text says, or the first rule that the text fails. The bytes are those of a TOML document with the
/// keys `version`, `horizon`, `grid`, `puck`, `closing`, `pilot`, `cost`, `advisory` and `sigma`; comments, inline
/// tables, dotted keys and any order of the keys are accepted. A text of version 1 says no delay of the pilot, which is
/// then 0; one of version 2 says it.
#[tactic(auto, unfolding(crate::specs::Whole::model_of))]
pub fn read_model(alloc: Global, bytes: &[u8]) -> Result<Model, ModelFault>
    ensures { Gives (λ m. m) result (rules.model_of bytes.now) }
{
    let document = document_of(alloc, bytes)?;
    model_in(alloc, &document)
}
