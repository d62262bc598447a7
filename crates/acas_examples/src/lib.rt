//! The definitions of the decision process at small models, by numbers that were worked out by hand. The models stand in specs/.
//! The functions here do nothing: each clause is an example.
#![tactic(auto)]

mod cells;
mod chances;
mod costs;
mod fractions;
mod limits;
mod models;
mod names;
mod numbers;
mod seconds;
mod soundness;
mod trajectories;
mod values;

pub use cells::{axes_rise, cells_begin_at_their_numbers};
pub use chances::{
    chances_are_exact, contact_is_within_half_the_height, numbers_have_bounds_or_not,
};
pub use costs::{evading_costs_are_exact, noisy_costs_are_exact, switching_costs_are_exact};
pub use fractions::{
    fractions_are_in_lowest_terms_or_not, fractions_are_printed, quotients_are_rounded_both_ways,
};
pub use limits::{
    advisories_have_limits, choices_have_limits, lists_have_limits, models_have_limits,
    sigma_points_have_limits,
};
pub use models::{entries_end_at_the_horizon, examples_are_models};
pub use names::{names_are_of_letters_and_digits, names_are_short_and_not_empty};
pub use numbers::{
    states_are_numbered_by_vertex_first, vertices_are_numbered_by_intruder_rate_first,
};
pub use seconds::{a_second_leads_a_third_up, commands_are_worked_out};
pub use soundness::{ends_are_sound_or_not, entries_are_sound_or_not};
pub use trajectories::{memory_goes_back_to_the_start, noisy_trajectories_are_summed_by_hand};
pub use values::{
    contact_ends_at_the_edge, entries_are_worked_out, noisy_values_are_rounded_twice,
};
