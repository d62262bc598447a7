//! The decision process: what a second of flight leads to, what a policy costs, the compiled table, and the laws of these. The
//! definitions stand in specs/. The functions here do nothing: their clauses are the laws.
#![tactic(auto)]

mod laws;

pub use laws::{
    choices_have_their_cost, compiled_values_fit, contact_ends_at_half_the_height,
    entries_reach_the_horizon, first_choices_of_the_least_value_win, pilots_heed_their_advisory,
    points_stay_inside, seconds_fly_mean_rates, tents_are_hat_functions, weights_sum_to_the_total,
};
