//! The tables `puck`, `closing`, `pilot` and `cost`.
ghost use Rattle.std.specs.Prelude.{◌≡◌, ◌≤◌, IfOk};
ghost use Rattle.toml.specs.View.{table_view};
ghost use Rattle.acas_model.specs.Answers.{Gives};
ghost use Rattle.acas_model.specs.View.{seen_table};
ghost use Rattle.acas_model.specs.Numbers as rules;

use crate::document::{closed_table, number};
use crate::fault::ModelFault;
use acas_base::{Closing, Numbers, Pilot, Puck};
use acas_doc::whole;
use acas_units::{
    GREATEST_CLOSING, GREATEST_COST, GREATEST_DELAY, GREATEST_HALF_HEIGHT, GREATEST_LIMIT,
    GREATEST_RADIUS, LEAST_CLOSING, LEAST_COST, LEAST_HALF_HEIGHT, LEAST_PULL, LEAST_RADIUS,
    feet_to_ticks,
};
use std::alloc::Global;
use toml::Table;

/// The first version of a model's text that has a key for the pilot's delay.
pub const DELAY_VERSION: u32 = 2;

/// The table `puck`.
#[tactic(auto, unfolding(crate::specs::Numbers::puck_table))]
fn puck_table<'t>(alloc: Global, document: &'t Table) -> Result<&'t Table, ModelFault>
    ensures { Gives seen_table result (rules.puck_table (table_view document.now)) }
{
    closed_table(alloc, document, "puck", "radius half_height")
}

/// Half of the puck's height, in feet.
#[tactic(auto, unfolding(crate::specs::Numbers::half_height))]
fn half_height(alloc: Global, puck: &Table) -> Result<u32, ModelFault>
    ensures value { Gives (λ n. n) result (rules.half_height (table_view puck.now)) }
    ensures range { IfOk result (λ n. n ≤ GREATEST_HALF_HEIGHT) }
{
    number(
        alloc,
        puck,
        b"puck",
        "half_height",
        LEAST_HALF_HEIGHT,
        GREATEST_HALF_HEIGHT,
    )
}

/// What the table `puck` says.
#[tactic(auto, unfolding(crate::specs::Numbers::puck_of))]
fn puck_of(alloc: Global, document: &Table) -> Result<Puck, ModelFault>
    ensures value { Gives (λ p. p) result (rules.puck_of (table_view document.now)) }
    ensures range { IfOk result (λ p. p.radius ≤ GREATEST_RADIUS) }
{
    let puck = puck_table(alloc, document)?;
    let radius = number(
        alloc,
        puck,
        b"puck",
        "radius",
        LEAST_RADIUS,
        GREATEST_RADIUS,
    )?;
    let feet = half_height(alloc, puck)?;
    Ok(Puck {
        radius,
        half: feet_to_ticks(i64::from(feet)) as u32,
    })
}

/// What the table `closing` says.
#[tactic(auto, unfolding(crate::specs::Numbers::closing_of))]
fn closing_of(alloc: Global, document: &Table) -> Result<Closing, ModelFault>
    ensures value { Gives (λ c. c) result (rules.closing_of (table_view document.now)) }
    ensures range { IfOk result (λ c. c.least ≤ GREATEST_CLOSING) }
{
    let closing = closed_table(alloc, document, "closing", "least greatest")?;
    let least = number(
        alloc,
        closing,
        b"closing",
        "least",
        LEAST_CLOSING,
        GREATEST_CLOSING,
    )?;
    let greatest = number(
        alloc,
        closing,
        b"closing",
        "greatest",
        least,
        GREATEST_CLOSING,
    )?;
    Ok(Closing { least, greatest })
}

/// The keys of the table `pilot` in a text of a version.
fn pilot_keys(version: u32) -> &'static str
    ensures { result.now ≡ rules.pilot_keys version }
{
    if version >= DELAY_VERSION {
        "pull limit delay"
    } else {
        "pull limit"
    }
}

/// How long the pilot may hold the rate before following, in seconds. It is 0 where the version has no key for it.
#[tactic(auto, unfolding(crate::specs::Numbers::delay_of))]
fn delay_of(alloc: Global, pilot: &Table, version: u32) -> Result<u32, ModelFault>
    ensures { Gives (λ n. n) result (rules.delay_of (table_view pilot.now) version) }
{
    if version >= DELAY_VERSION {
        number(alloc, pilot, b"pilot", "delay", 0, GREATEST_DELAY)
    } else {
        Ok(0)
    }
}

/// What the table `pilot` says.
#[tactic(auto, unfolding(crate::specs::Numbers::pilot_of))]
fn pilot_of(alloc: Global, document: &Table, version: u32) -> Result<Pilot, ModelFault>
    ensures { Gives (λ p. p) result (rules.pilot_of (table_view document.now) version) }
{
    let pilot = closed_table(alloc, document, "pilot", pilot_keys(version))?;
    let pull = number(alloc, pilot, b"pilot", "pull", LEAST_PULL, GREATEST_LIMIT)?;
    let limit = number(alloc, pilot, b"pilot", "limit", pull, GREATEST_LIMIT)?;
    let delay = delay_of(alloc, pilot, version)?;
    Ok(Pilot { pull, limit, delay })
}

/// The cost of contact, in the table `cost`.
#[tactic(auto, unfolding(crate::specs::Numbers::contact_of))]
fn contact_of(alloc: Global, document: &Table) -> Result<i64, ModelFault>
    ensures { Gives (λ z. z) result (rules.contact_of (table_view document.now)) }
{
    let cost = closed_table(alloc, document, "cost", "contact")?;
    Ok(whole(alloc, cost, b"cost", "contact", LEAST_COST, GREATEST_COST)?)
}

/// What the four tables say, each in turn.
#[tactic(auto, unfolding(crate::specs::Numbers::numbers_of))]
pub(crate) fn numbers_of(
    alloc: Global,
    document: &Table,
    version: u32,
) -> Result<Numbers, ModelFault>
    ensures value { Gives (λ n. n) result (rules.numbers_of (table_view document.now) version) }
    ensures radius { IfOk result (λ n. n.puck.radius ≤ GREATEST_RADIUS) }
    ensures least { IfOk result (λ n. n.closing.least ≤ GREATEST_CLOSING) }
{
    let puck = puck_of(alloc, document)?;
    let closing = closing_of(alloc, document)?;
    let pilot = pilot_of(alloc, document, version)?;
    let contact = contact_of(alloc, document)?;
    Ok(Numbers {
        puck,
        closing,
        pilot,
        contact,
    })
}
