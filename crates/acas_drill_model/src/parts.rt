//! The lists of a drilled model: its advisories, what may be chosen, and its sigma points.
ghost use Rattle.std.specs.Prelude.{◌≡◌, ◌≤◌, ◌++◌, ◌∷◌, [], IfOk, OnOk, length, map};
ghost use Rattle.acas_units.specs.declared.limits.TheConstants.{GREATEST_NAME_BYTES};
ghost use Rattle.acas_base.specs.View.{lists_of};
ghost use Rattle.acas_drill_model.specs.DrilledModel.{asks, changes, costs, drilled_advisories, drilled_choices, drilled_sigmas};

use acas_base::{Advisory, Choice, Name, SigmaPoint};
use std::alloc::{AllocError, Global};

/// How many advisories there are.
pub(crate) const ADVISORIES: u32 = 7;

/// The advisories, with the rates in ft/min from one to another that each asks for.
pub(crate) fn advisories(alloc: Global) -> Result<Vec<Advisory>, AllocError>
    ensures { IfOk result (λ list. list.items ≡ drilled_advisories) }
{
    let mut list = Vec::new(alloc);
    push_advisory(alloc, &mut list, "clear", -10_000, 10_000)?;
    push_advisory(alloc, &mut list, "no-climb", -10_000, 0)?;
    push_advisory(alloc, &mut list, "no-descend", 0, 10_000)?;
    push_advisory(alloc, &mut list, "level", -500, 500)?;
    push_advisory(alloc, &mut list, "climb", 1_500, 10_000)?;
    push_advisory(alloc, &mut list, "descend", -10_000, -1_500)?;
    push_advisory(alloc, &mut list, "climb-fast", 2_500, 10_000)?;
    Ok(list)
}

// Appends an advisory.
fn push_advisory(
    alloc: Global,
    list: &mut Vec<Advisory>,
    name: &str,
    lo: i64,
    hi: i64,
) -> Result<(), AllocError>
    requires short { length name.now ≤ GREATEST_NAME_BYTES }
    ensures { OnOk result (list.new.items ≡ list.old.items ++ asks name.now lo hi ∷ []) }
{
    let name = Name::new(name.as_bytes());
    list.push(Advisory { name, lo, hi })?;
    Ok(())
}

/// What may be chosen under each advisory: each of them.
pub(crate) fn choices(alloc: Global) -> Result<Vec<Vec<Choice>>, AllocError>
    ensures { IfOk result (λ lists. lists_of lists ≡ map (λ a. drilled_choices) drilled_advisories) }
{
    let each = each_choice();
    let mut lists = Vec::new(alloc);
    for _ in 0..ADVISORIES {
        lists.push(Vec::from_slice(alloc, &each)?)?;
    }
    Ok(lists)
}

// Each advisory by its number, with what a second under it costs.
fn each_choice() -> [Choice; 7]
    ensures { result ≡ drilled_choices }
{
    [
        choice(0, 0),
        choice(1, 1),
        choice(2, 1),
        choice(3, 2),
        choice(4, 5),
        choice(5, 5),
        choice(6, 8),
    ]
}

fn choice(advisory: u8, cost: i64) -> Choice
    ensures { result ≡ costs advisory cost }
{
    Choice { advisory, cost }
}

/// The sigma points.
pub(crate) fn sigmas(alloc: Global) -> Result<Vec<SigmaPoint>, AllocError>
    ensures { IfOk result (λ points. points.items ≡ drilled_sigmas) }
{
    let points = [point(2, 0, 0), point(1, 60, -60), point(1, -60, 60)];
    Vec::from_slice(alloc, &points)
}

fn point(weight: i64, own: i64, intruder: i64) -> SigmaPoint
    ensures { result ≡ changes weight own intruder }
{
    SigmaPoint {
        weight,
        own,
        intruder,
    }
}
