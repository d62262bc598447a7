//! The numbers of vertices and states at a small grid, worked out by hand.
ghost use Rattle.std.specs.Prelude.{◌≡◌};
ghost use Rattle.acas_spec.specs.Model.{entries, states, vertices};
ghost use Rattle.acas_examples.specs.Grids.{four_by_three_by_two, vertex};
ghost use Rattle.acas_grid.specs.Grid.{state_number, vertex_number};
ghost use Rattle.acas_grid.specs.States.{state_present, state_vertex, vertex_at};

/// Of four altitudes, three own rates and two intruder rates, the intruder's rate runs fastest, and the altitude
/// slowest.
pub fn vertices_are_numbered_by_intruder_rate_first()
    ensures count { vertices four_by_three_by_two ≡ 24 }
    ensures first { vertex_number four_by_three_by_two (vertex 0 0 0) ≡ 0 }
    ensures intruder_rate { vertex_number four_by_three_by_two (vertex 0 0 1) ≡ 1 }
    ensures own_rate { vertex_number four_by_three_by_two (vertex 0 1 0) ≡ 2 }
    ensures altitude { vertex_number four_by_three_by_two (vertex 1 0 0) ≡ 6 }
    ensures inner { vertex_number four_by_three_by_two (vertex 2 1 1) ≡ 15 }
    ensures last { vertex_number four_by_three_by_two (vertex 3 2 1) ≡ 23 }
    ensures inner_again { vertex_at four_by_three_by_two 15 ≡ vertex 2 1 1 }
    ensures last_again { vertex_at four_by_three_by_two 23 ≡ vertex 3 2 1 }
{}

/// The states of the second advisory come after all states of the first.
pub fn states_are_numbered_by_vertex_first()
    ensures count { states four_by_three_by_two ≡ 48 }
    ensures entries { entries four_by_three_by_two ≡ 96 }
    ensures last_of_first { state_number four_by_three_by_two 0 23 ≡ 23 }
    ensures first_of_second { state_number four_by_three_by_two 1 0 ≡ 24 }
    ensures inner { state_number four_by_three_by_two 1 15 ≡ 39 }
    ensures inner_present { state_present four_by_three_by_two 39 ≡ 1 }
    ensures inner_vertex { state_vertex four_by_three_by_two 39 ≡ vertex 2 1 1 }
{}
