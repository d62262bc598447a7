//! How an encounter starts.
ghost use Rattle.std.specs.Prelude.{◌≡◌, ◌<◌, [], IfOk};
ghost use Rattle.toml.specs.View.{table_view};
ghost use Rattle.acas_spec.specs.Axis.{IsBetween};
ghost use Rattle.acas_doc.specs.InputAnswers.{Gives};
ghost use Rattle.acas_replay.specs.Start as rules;

use crate::limits::{GREATEST_START_RANGE, LEAST_START_RANGE};
use acas_base::Model;
use acas_doc::{InputFault, text, whole};
use acas_model::advisory_named;
use acas_units::{
    GREATEST_ALTITUDE, GREATEST_CLOSING, GREATEST_RATE, LEAST_ALTITUDE, LEAST_CLOSING, LEAST_RATE,
    feet_to_ticks,
};
use std::alloc::Global;
use toml::Table;

/// How an encounter starts: the number of the present advisory, the range in ft, the closing speed in ft/s, how far the intruder is
/// above in ticks, and the own and the intruder's rate in ft/min.
#[derive(Clone, Copy, PartialEq, Eq)]
pub struct Start {
    pub advisory: u8,
    pub range: i64,
    pub closing: i64,
    pub altitude: i64,
    pub own: i64,
    pub intruder: i64,
}

/// The whole number at a key of the document, from least to greatest.
#[tactic(auto, unfolding(crate::specs::Start::number_at))]
fn number_at(
    alloc: Global,
    document: &Table,
    key: &str,
    least: i64,
    greatest: i64,
) -> Result<i64, InputFault>
    ensures value { Gives (λ z. z) result (rules.number_at (table_view document.now) key.now least greatest) }
    ensures between { IfOk result (IsBetween least greatest) }
{
    Ok(whole(alloc, document, b"", key, least, greatest)?)
}

/// The start that a document says.
#[tactic(auto, unfolding(crate::specs::Start::start_of, acas_model::specs::Named::advisory_at))]
pub(crate) fn start_of(alloc: Global, model: &Model, document: &Table) -> Result<Start, InputFault>
    ensures value { Gives (λ s. s) result (rules.start_of model.now (table_view document.now)) }
    ensures known { IfOk result (λ s. s.advisory < model.now.grid.advisories) }
{
    let name = text(alloc, document, b"", "advisory")?;
    let advisory = advisory_named(model, name.as_bytes(), 0)?;
    let range = number_at(
        alloc,
        document,
        "range",
        LEAST_START_RANGE,
        GREATEST_START_RANGE,
    )?;
    let closing = number_at(
        alloc,
        document,
        "closing",
        i64::from(LEAST_CLOSING),
        i64::from(GREATEST_CLOSING),
    )?;
    let feet = number_at(
        alloc,
        document,
        "altitude",
        LEAST_ALTITUDE,
        GREATEST_ALTITUDE,
    )?;
    let own = number_at(alloc, document, "own", LEAST_RATE, GREATEST_RATE)?;
    let intruder = number_at(alloc, document, "intruder", LEAST_RATE, GREATEST_RATE)?;
    Ok(Start {
        advisory,
        range,
        closing,
        altitude: feet_to_ticks(feet),
        own,
        intruder,
    })
}
