//! Exact expected costs.
ghost use Rattle.std.specs.Prelude.{◌≡◌, pos};
ghost use Rattle.acas_process.specs.Compiled.{compiled};
ghost use Rattle.acas_process.specs.Cost.{expected_cost, transition_total};
ghost use Rattle.acas_examples.specs.Models.{evading, noisy, switching};
ghost use Rattle.acas_examples.specs.Parts.{vertex};

/// The exact cost of the noisy model's only policy is 2/3 with one second to go and 85/162 with two, over powers of the total.
pub fn noisy_costs_are_exact()
    ensures total { transition_total noisy ≡ 3_888_000_000 }
    ensures one { expected_cost noisy (compiled noisy).advice 1 0 (vertex 0 0 1) ≡ pos 2_592_000_000 }
    ensures two { expected_cost noisy (compiled noisy).advice 2 0 (vertex 0 0 1)
        ≡ pos 7_931_520_000_000_000_000 }
{}

/// Where the evading model's policy descends, it costs 1 and contact with a chance of 6/10, over the total.
pub fn evading_costs_are_exact()
    ensures { expected_cost evading (compiled evading).advice 1 0 (vertex 0 0 0) ≡ pos 2_246_400_000 }
{}

/// In two seconds the switching model's only policy costs 3 and 5, over the square of the total.
pub fn switching_costs_are_exact()
    ensures total { transition_total switching ≡ 432_000_000 }
    ensures one { expected_cost switching (compiled switching).advice 1 1 (vertex 0 0 1) ≡ pos 2_160_000_000 }
    ensures two { expected_cost switching (compiled switching).advice 2 0 (vertex 0 0 1)
        ≡ pos 1_492_992_000_000_000_000 }
{}
