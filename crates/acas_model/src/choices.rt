//! The lists `choices` and `costs` of each advisory.
ghost use Rattle.std.specs.Prelude.{◌≡◌, ◌==◌, ◌<◌, ◌≤◌, ◌^◌, length, Some, IfOk};
ghost use Rattle.std.specs.List.{list_any};
ghost use Rattle.std.specs.Str.{bytes_eq};
ghost use Rattle.toml.specs.View.{table_view};
ghost use Rattle.acas_model.specs.Answers.{Gives};
ghost use Rattle.acas_base.specs.View.{lists_of};
ghost use Rattle.acas_model.specs.View.{advised_view, data_of, item_at};
ghost use Rattle.acas_doc.specs.Values.{or_fault};
ghost use Rattle.acas_model.specs.declared.fault.ModelFault.TheVariants.{UnknownName};
ghost use Rattle.acas_model.specs.Advisories.{name_place};
ghost use Rattle.acas_model.specs.Choices as rules;

use crate::advisories::{advisory_items, distinct};
use crate::fault::{ModelFault, NamePlace};
use acas_base::position_of;
use acas_doc::{list, path_of_item, path_of_key, table_item, text_item, whole_items};
use acas_spec::{Advisory, Choice};
use acas_units::{GREATEST_ADVISORIES, GREATEST_COST, LEAST_ADVISORIES, LEAST_COST};
use std::alloc::{AllocError, Global};
use toml::{Table, Value};

/// Whether an advisory was chosen already.
fn chosen_before(chosen: &[u8], advisory: u8) -> bool
    ensures { result ≡ list_any (λ b. b == advisory) chosen.now }
{
    chosen.iter().any(|before| *before == advisory)
}

/// That a choice stands in its list for the first time.
fn first_time(advisory: u32, chosen: &[u8], choice: u8) -> Result<u8, ModelFault>
    requires { length chosen.now < 2 ^ 32 }
    ensures { result ≡ rules.first_time advisory chosen.now choice }
{
    if chosen_before(chosen, choice) {
        Err(ModelFault::RepeatedName {
            at: NamePlace {
                advisory,
                choice: Some(chosen.len() as u32),
            },
        })
    } else {
        Ok(choice)
    }
}

/// The number of the advisory of a name.
fn known_name(
    advisories: &[Advisory],
    name: &[u8],
    advisory: u32,
    place: u32,
) -> Result<u8, ModelFault>
    requires { length advisories.now ≤ GREATEST_ADVISORIES }
    ensures value { result ≡ or_fault (UnknownName (name_place advisory (Some place))) (rules.named advisories.now name.now) }
    ensures range { IfOk result (λ a. a < length advisories.now) }
{
    match position_of(advisories, name) {
        Some(found) => Ok(found as u8),
        None => Err(ModelFault::UnknownName {
            at: NamePlace {
                advisory,
                choice: Some(place),
            },
        }),
    }
}

/// The choice after those before it in a list.
#[tactic(auto, unfolding(crate::specs::Choices::choice_item))]
fn choice_item(
    alloc: Global,
    advisories: &[Advisory],
    items: &[Value],
    path: &[u8],
    advisory: u32,
    chosen: &[u8],
) -> Result<u8, ModelFault>
    requires few { length advisories.now ≤ GREATEST_ADVISORIES }
    requires short { length items.now < 2 ^ 32 }
    requires within { length chosen.now < length items.now }
    ensures { Gives (λ a. a) result
        (rules.next_choice advisories.now path.now advisory chosen.now (data_of items.now)) }
{
    let place = chosen.len() as u32;
    let name = text_item(alloc, items, path, place)?;
    let choice = known_name(advisories, name.as_bytes(), advisory, place)?;
    first_time(advisory, chosen, choice)
}

/// The choices of a list.
fn choice_items(
    alloc: Global,
    advisories: &[Advisory],
    items: &[Value],
    path: &[u8],
    advisory: u32,
) -> Result<Vec<u8>, ModelFault>
    requires few { length advisories.now ≤ GREATEST_ADVISORIES }
    requires short { length items.now < 2 ^ 32 }
    ensures value { Gives (λ v. v.items) result
        (rules.choice_items advisories.now path.now advisory (data_of items.now)) }
    ensures count { IfOk result (λ v. length v.items ≡ length items.now) }
{
    let mut chosen = Vec::new(alloc);
    for place in 0..items.len() {
        let choice = choice_item(alloc, advisories, items, path, advisory, &chosen)?;
        chosen.push(choice)?;
    }
    Ok(chosen)
}

/// Each choice with its cost.
fn paired(alloc: Global, chosen: &[u8], costs: &[i64]) -> Result<Vec<Choice>, AllocError>
    ensures { IfOk result (λ v. v.items ≡ rules.choices_from chosen.now costs.now) }
{
    chosen
        .iter()
        .zip(costs.iter())
        .map(|(advisory, cost)| Choice {
            advisory: *advisory,
            cost: *cost,
        })
        .collect(alloc)
}

/// That something may be chosen.
fn some_choice(advisory: u32, count: usize) -> Result<(), ModelFault>
    ensures { result ≡ rules.some_choice advisory count }
{
    if count == 0 {
        Err(ModelFault::NoChoice { advisory })
    } else {
        Ok(())
    }
}

/// The costs of so many choices.
#[tactic(auto, unfolding(crate::specs::Choices::costs_of))]
fn costs_of(alloc: Global, table: &Table, path: &[u8], count: u32) -> Result<Vec<i64>, ModelFault>
    ensures { Gives (λ v. v.items) result (rules.costs_of (table_view table.now) path.now count) }
{
    let items = list(alloc, table, path, "costs", count, count)?;
    let items_path = path_of_key(alloc, path, "costs")?;
    Ok(whole_items(alloc, items, items_path.bytes(), LEAST_COST, GREATEST_COST)?)
}

/// The choices and costs in the table of an advisory.
#[tactic(auto, unfolding(crate::specs::Choices::choices_of))]
fn choices_of(
    alloc: Global,
    advisories: &[Advisory],
    table: &Table,
    path: &[u8],
    advisory: u32,
) -> Result<Vec<Choice>, ModelFault>
    requires { length advisories.now ≤ GREATEST_ADVISORIES }
    ensures { Gives (λ v. v.items) result
        (rules.choices_of advisories.now (table_view table.now) path.now advisory) }
{
    let items = list(alloc, table, path, "choices", 0, u32::MAX)?;
    some_choice(advisory, items.len())?;
    let names_path = path_of_key(alloc, path, "choices")?;
    let chosen = choice_items(alloc, advisories, items, names_path.bytes(), advisory)?;
    let costs = costs_of(alloc, table, path, items.len() as u32)?;
    Ok(paired(alloc, &chosen, &costs)?)
}

/// The choices of the advisory at a place of the list.
#[tactic(auto, unfolding(crate::specs::Choices::choices_item))]
fn choices_item(
    alloc: Global,
    advisories: &[Advisory],
    items: &[Value],
    place: u32,
) -> Result<Vec<Choice>, ModelFault>
    requires few { length advisories.now ≤ GREATEST_ADVISORIES }
    requires within { place < length items.now }
    ensures { Gives (λ v. v.items) result
        (rules.choices_item advisories.now place (item_at items.now place)) }
{
    let table = table_item(alloc, items, b"advisory", place)?;
    let path = path_of_item(alloc, b"advisory", place)?;
    choices_of(alloc, advisories, table, path.bytes(), place)
}

/// The choices of each advisory.
fn choice_lists(
    alloc: Global,
    advisories: &[Advisory],
    items: &[Value],
) -> Result<Vec<Vec<Choice>>, ModelFault>
    requires few { length advisories.now ≤ GREATEST_ADVISORIES }
    requires short { length items.now < 2 ^ 32 }
    ensures { Gives lists_of result (rules.choice_lists advisories.now (data_of items.now)) }
{
    let mut lists = Vec::new(alloc);
    for place in 0..items.len() as u32 {
        let choices = choices_item(alloc, advisories, items, place)?;
        lists.push(choices)?;
    }
    Ok(lists)
}

/// The advisories and their choices.
#[derive(Drop)]
pub(crate) struct Advised {
    pub advisories: Vec<Advisory>,
    pub choices: Vec<Vec<Choice>>,
}

/// What the list `advisory` says.
#[tactic(auto, unfolding(crate::specs::Choices::advised_of))]
pub(crate) fn advised_of(alloc: Global, document: &Table) -> Result<Advised, ModelFault>
    ensures value { Gives advised_view result (rules.advised_of (table_view document.now)) }
    ensures some { IfOk result (λ v. LEAST_ADVISORIES ≤ length v.advisories.items) }
    ensures few { IfOk result (λ v. length v.advisories.items ≤ GREATEST_ADVISORIES) }
{
    let items = list(
        alloc,
        document,
        b"",
        "advisory",
        LEAST_ADVISORIES,
        GREATEST_ADVISORIES,
    )?;
    let advisories = advisory_items(alloc, items)?;
    distinct(&advisories)?;
    let choices = choice_lists(alloc, &advisories, items)?;
    Ok(Advised {
        advisories,
        choices,
    })
}
