//! The chance of contact under a plan, and what a table's policy costs, in every state at the horizon.
ghost use Rattle.std.specs.Prelude.{ℕ, ◌<◌, IfOk};
ghost use Rattle.acas_base.specs.Advices.{AreAdvicesOf};
ghost use Rattle.acas_policies.specs.Policies.{counting_contact};
ghost use Rattle.acas_spec.specs.Model.{states};
ghost use Rattle.acas_means.specs.Layer.{pair_at};
ghost use Rattle.acas_risk.specs.Pairs.{ArePairsOf, BoundsChance, BoundsCost};
ghost use Rattle.acas_risk.specs.Plans.{FitsModel, advised, policy_of};

use crate::counted::Counted;
use crate::plan::Plan;
use crate::valuation::plan_values;
use acas_base::{Advices, Model};
use acas_means::LayerMeans;
use acas_units::Pair;
use std::alloc::{AllocError, Global};

/// Bounds of the chance of contact under a plan, in millionths: a pair for each state by its number, at the horizon. Each is from 0 to
/// a million, and the two of a pair are within two for each second. It fails only for want of memory.
pub fn chance<M: LayerMeans>(
    alloc: Global,
    model: &Model,
    plan: Plan<'_>,
) -> Result<Vec<Pair>, AllocError>
    requires { FitsModel model.now plan }
    ensures pairs { IfOk result (λ pairs.
        ArePairsOf (counting_contact model.now) (policy_of model.now plan.entry) model.now.grid.horizon pairs.items) }
    ensures bounds { IfOk result (λ pairs. (s : ℕ) → s < states model.now.grid →
        BoundsChance model.now (policy_of model.now plan.entry) s (pair_at pairs.items s)) }
{
    // It is a model within its limits, and so its policies have bounds.
    let _ = model.grid();
    let means = M::make(alloc, model)?;
    plan_values(alloc, model, &means, plan, Counted::Contacts)
}

/// Bounds of what a table's policy costs, in millionths of a unit: a pair for each state by its number, at the horizon, whose two values
/// are within two for each second. A second under an advisory that may not be chosen costs nothing. It fails only for want of memory.
pub fn policy_cost<M: LayerMeans>(
    alloc: Global,
    model: &Model,
    advices: &Advices,
) -> Result<Vec<Pair>, AllocError>
    requires { AreAdvicesOf model.now advices.now }
    ensures pairs { IfOk result (λ pairs.
        ArePairsOf model.now (advised model.now advices.now) model.now.grid.horizon pairs.items) }
    ensures bounds { IfOk result (λ pairs. (s : ℕ) → s < states model.now.grid →
        BoundsCost model.now (advised model.now advices.now) s (pair_at pairs.items s)) }
{
    // It is a model within its limits, and so its policies have bounds.
    let _ = model.grid();
    let means = M::make(alloc, model)?;
    plan_values(alloc, model, &means, Plan::Tabled(advices), Counted::Costs)
}
