//! What bounds the cost of policies: what a table promises, what the values of a fixed policy say of its cost and of its chance of
//! contact, and the laws that tie them. The definitions stand in specs/. The functions here do nothing: their clauses are the laws.
#![tactic(auto)]

mod policies;
mod tables;

pub use policies::{
    chances_are_expected_costs, policies_that_say_the_same_are_one, policy_bounds_in_numbers,
    policy_values_and_tables_never_contradict, policy_values_bound_chances,
    policy_values_bound_costs, policy_values_fit, tables_and_policies_have_such_values,
    values_bound_what_is_allowed,
};
pub use tables::{
    bounds_in_numbers, compiled_tables_are_sound_and_tight, sound_tables_have_two_sided_bounds,
};
