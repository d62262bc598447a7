//! The values of a plan, layer by layer over two planes, up to the horizon.
ghost use Rattle.std.specs.Prelude.{IfOk, OnOk};
ghost use Rattle.acas_policies.specs.Allowed.{SaysAdvisories};
ghost use Rattle.acas_risk.specs.Counts.{model_counting};
ghost use Rattle.acas_risk.specs.Pairs.{ArePairsOf};
ghost use Rattle.acas_risk.specs.Plans.{FitsModel, policy_of};

use crate::counted::{Counted, second_costs};
use crate::layer::{Step, put_endings, put_over};
use crate::plan::Plan;
use acas_base::Model;
use acas_means::{LayerMeans, blank_means};
use acas_units::Pair;
use std::alloc::{AllocError, Global};
use std::mem::swap;

/// The values at the horizon of what is counted under a plan, a pair for each state by its number, by what forms the model's means. It
/// takes two planes of pairs, of which it gives one.
pub(crate) fn plan_values<M: LayerMeans>(
    alloc: Global,
    model: &Model,
    layer_means: &M,
    plan: Plan<'_>,
    counted: Counted,
) -> Result<Vec<Pair>, AllocError>
    requires means { M.fits layer_means.now model.now }
    requires plan { FitsModel model.now plan }
    ensures pairs { IfOk result (λ pairs.
        ArePairsOf (model_counting counted model.now) (policy_of model.now plan.entry) model.now.grid.horizon pairs.items) }

    // What is given in each state is an advisory of the model.
    ensures known { OnOk result (SaysAdvisories model.now (policy_of model.now plan.entry)) }
{
    let none = Pair { upper: 0, lower: 0 };
    let states = model.grid().states() as usize;
    let mut below = vec![in alloc; none; states]?;
    let mut above = vec![in alloc; none; states]?;
    let mut means = blank_means();
    let costs = second_costs(model, counted);
    put_endings(model, counted, &mut below);
    for n in 0..model.grid().horizon {
        let step = Step {
            plan: &plan,
            n,
            costs: &costs,
        };
        put_over(model, layer_means, &step, &below, &mut means, &mut above);
        swap(&mut below, &mut above);
    }
    Ok(below)
}
