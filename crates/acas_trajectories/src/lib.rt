//! What the expected cost of a policy is, by trajectories: the sum over all of them of weight times cost; and that no policy with
//! memory costs less than a sound table's lower values. The definitions stand in specs/. The functions here do nothing: their
//! clauses are the laws.
#![tactic(auto)]

mod bounds;
mod chances;
mod trajectories;

pub use bounds::{
    no_policy_with_memory_costs_less, one_policy_without_memory_is_best,
    policies_without_memory_are_policies_with_memory, sound_bounds_never_contradict,
};
pub use chances::chances_are_weights_of_trajectories_into_contact;
pub use trajectories::{
    expected_costs_are_sums_over_trajectories, trajectories_in_numbers,
    trajectories_stand_once_in_a_sum, weights_of_trajectories_sum_to_a_power,
};
