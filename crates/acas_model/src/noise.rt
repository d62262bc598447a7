//! The list `sigma`: the sigma points.
ghost use Rattle.std.specs.Prelude.{◌≡◌, ◌*◌, ◌<◌, ◌≤◌, ◌^◌, length, sum_by, IfOk};
ghost use Rattle.std.specs.List.{AllByRecursion};
ghost use Rattle.toml.specs.View.{table_view};
ghost use Rattle.acas_spec.specs.Model.{weight_of};
ghost use Rattle.acas_spec.specs.Limits.{IsSigma};
ghost use Rattle.acas_model.specs.Answers.{Gives};
ghost use Rattle.acas_model.specs.View.{data_of, item_at};
ghost use Rattle.acas_model.specs.Noise as rules;

use crate::fault::ModelFault;
use acas_base::total_weight;
use acas_doc::{list, only_keys, path_of_item, table_item, whole};
use acas_spec::SigmaPoint;
use acas_units::{
    GREATEST_NOISE, GREATEST_SIGMAS, GREATEST_TOTAL_WEIGHT, GREATEST_WEIGHT, LEAST_NOISE,
    LEAST_SIGMAS, LEAST_WEIGHT,
};
use std::alloc::Global;
use toml::{Table, Value};

/// What the table of a sigma point says.
#[tactic(auto, unfolding(crate::specs::Noise::sigma_of))]
fn sigma_of(alloc: Global, table: &Table, path: &[u8]) -> Result<SigmaPoint, ModelFault>
    ensures value { Gives (λ p. p) result (rules.sigma_of (table_view table.now) path.now) }
    ensures range { IfOk result IsSigma }
{
    only_keys(alloc, table, path, "weight own intruder")?;
    let weight = whole(alloc, table, path, "weight", LEAST_WEIGHT, GREATEST_WEIGHT)?;
    let own = whole(alloc, table, path, "own", LEAST_NOISE, GREATEST_NOISE)?;
    let intruder = whole(alloc, table, path, "intruder", LEAST_NOISE, GREATEST_NOISE)?;
    Ok(SigmaPoint {
        weight,
        own,
        intruder,
    })
}

/// The sigma point at a place of the list.
#[tactic(auto, unfolding(crate::specs::Noise::sigma_item))]
fn sigma_item(alloc: Global, items: &[Value], place: u32) -> Result<SigmaPoint, ModelFault>
    requires { place < length items.now }
    ensures value { Gives (λ p. p) result (rules.sigma_item place (item_at items.now place)) }
    ensures range { IfOk result IsSigma }
{
    let table = table_item(alloc, items, b"sigma", place)?;
    let path = path_of_item(alloc, b"sigma", place)?;
    sigma_of(alloc, table, path.bytes())
}

/// The sigma points of a list.
fn sigma_items(alloc: Global, items: &[Value]) -> Result<Vec<SigmaPoint>, ModelFault>
    requires { length items.now < 2 ^ 32 }
    ensures value { Gives (λ v. v.items) result (rules.sigma_items (data_of items.now)) }
    ensures range { IfOk result (λ v. AllByRecursion IsSigma v.items) }
    ensures count { IfOk result (λ v. length v.items ≡ length items.now) }
{
    let mut sigmas = Vec::new(alloc);
    for place in 0..items.len() as u32 {
        let sigma = sigma_item(alloc, items, place)?;
        sigmas.push(sigma)?;
    }
    Ok(sigmas)
}

/// What the list `sigma` says.
#[tactic(auto, unfolding(crate::specs::Noise::sigmas_of))]
pub(crate) fn sigmas_of(alloc: Global, document: &Table) -> Result<Vec<SigmaPoint>, ModelFault>
    ensures value { Gives (λ v. v.items) result (rules.sigmas_of (table_view document.now)) }
    ensures range { IfOk result (λ v. AllByRecursion IsSigma v.items) }
    ensures count { IfOk result (λ v. length v.items ≤ GREATEST_SIGMAS) }
{
    let items = list(alloc, document, b"", "sigma", LEAST_SIGMAS, GREATEST_SIGMAS)?;
    sigma_items(alloc, items)
}

/// That a total weight is not too great.
fn light(total: u32) -> Result<(), ModelFault>
    ensures { result ≡ rules.light total }
{
    if total <= GREATEST_TOTAL_WEIGHT {
        Ok(())
    } else {
        Err(ModelFault::Weights {
            total: i64::from(total),
        })
    }
}

/// That the weights together are not too great.
#[tactic(auto, unfolding(crate::specs::Noise::weights))]
pub(crate) fn weights(sigmas: &[SigmaPoint]) -> Result<(), ModelFault>
    requires sigmas { AllByRecursion IsSigma sigmas.now }
    requires few { length sigmas.now ≤ GREATEST_SIGMAS }
    ensures { result ≡ rules.weights sigmas.now }
{
    light(total_weight(sigmas))
}
