//! The values that a report of risks is written of.
ghost use Rattle.std.specs.Prelude.{IfOk, OnOk};
ghost use Rattle.acas_policies.specs.Allowed.{SaysAdvisories};
ghost use Rattle.acas_base.specs.Advices.{AreAdvicesOf};
ghost use Rattle.acas_risk.specs.Plans.{advised};
ghost use Rattle.acas_risk.specs.Rows.{AreRiskValues};

use crate::counted::Counted;
use crate::plan::Plan;
use crate::valuation::plan_values;
use acas_base::{Advices, Model};
use acas_means::LayerMeans;
use acas_units::Pair;
use std::alloc::{AllocError, Global};

/// Values at the horizon, a pair for each state by its number: of the chance of contact under a table's policy and under the policy that
/// is always clear of conflict, and of what the table's policy costs.
#[derive(Drop)]
pub(crate) struct RiskValues {
    pub(crate) risk: Vec<Pair>,
    pub(crate) clear: Vec<Pair>,
    pub(crate) cost: Vec<Pair>,
}

/// The values of a table's policy. It fails only for want of memory.
pub(crate) fn risk_values<M: LayerMeans>(
    alloc: Global,
    model: &Model,
    advices: &Advices,
) -> Result<RiskValues, AllocError>
    requires { AreAdvicesOf model.now advices.now }
    ensures values { IfOk result (AreRiskValues model.now (advised model.now advices.now)) }

    // What the table advises are advisories of the model.
    ensures known { OnOk result (SaysAdvisories model.now (advised model.now advices.now)) }
{
    let means = M::make(alloc, model)?;
    let risk = plan_values(
        alloc,
        model,
        &means,
        Plan::Tabled(advices),
        Counted::Contacts,
    )?;
    let clear = plan_values(alloc, model, &means, Plan::AlwaysClear, Counted::Contacts)?;
    let cost = plan_values(alloc, model, &means, Plan::Tabled(advices), Counted::Costs)?;
    Ok(RiskValues { risk, clear, cost })
}
