//! Weights and costs of trajectories, with a policy that remembers and with one that does not.
ghost use Rattle.std.specs.Prelude.{◌≡◌, ◌*◌, ◌^◌, pos, [], ◌∷◌};
ghost use Rattle.acas_trajectories.specs.Memory.{IsMemoryPolicy, without_memory};
ghost use Rattle.acas_trajectories.specs.Trajectories.{cost_over_trajectories, trajectory_cost};
ghost use Rattle.acas_examples.specs.Models.{levelling, noisy};
ghost use Rattle.acas_examples.specs.Parts.{vertex};
ghost use Rattle.acas_examples.specs.Policies.{always_clear, level_after_low, noisy_weight};

/// Two seconds of the noisy model from the bottom, the own rate 0 and the intruder climbing. The total is 18 times 216,000,000. Of 18
/// parts, a second leads from there to the bottom climbing with 7, to the bottom level with 5, to the top climbing with 5 and to the
/// top level with 1. From the bottom level 12 lead to the bottom level and 5 to the bottom climbing, from the top level 1 to the bottom
/// level, and from the top climbing none to the bottom. So of the 64 trajectories five have a weight and end in contact, which costs 1.
/// Their weights are 49, 35, 60, 25 and 1 of 324, which are 170 of 324, or 85/162.
pub fn noisy_trajectories_are_summed_by_hand()
    ensures policy { IsMemoryPolicy noisy (without_memory always_clear) }
    ensures climbing_climbing { noisy_weight (vertex 0 0 1) (vertex 0 0 1) ≡ pos (7 * 7 * 216_000_000 ^ 2) }
    ensures climbing_level { noisy_weight (vertex 0 0 1) (vertex 0 0 0) ≡ pos (7 * 5 * 216_000_000 ^ 2) }
    ensures level_level { noisy_weight (vertex 0 0 0) (vertex 0 0 0) ≡ pos (5 * 12 * 216_000_000 ^ 2) }
    ensures level_climbing { noisy_weight (vertex 0 0 0) (vertex 0 0 1) ≡ pos (5 * 5 * 216_000_000 ^ 2) }
    ensures top_level { noisy_weight (vertex 1 0 0) (vertex 0 0 0) ≡ pos (1 * 1 * 216_000_000 ^ 2) }
    ensures top_climbing { noisy_weight (vertex 1 0 1) (vertex 0 0 0) ≡ pos 0 }
    ensures contact { trajectory_cost noisy (without_memory always_clear) 0 (vertex 0 0 1)
        (vertex 1 0 0 ∷ vertex 0 0 0 ∷ []) ≡ pos 1 }
    ensures no_contact { trajectory_cost noisy (without_memory always_clear) 0 (vertex 0 0 1)
        (vertex 0 0 0 ∷ vertex 1 0 0 ∷ []) ≡ pos 0 }
    ensures sum { cost_over_trajectories noisy (without_memory always_clear) 2 0 (vertex 0 0 1)
        ≡ pos (170 * 216_000_000 ^ 2) }
{}

/// In the levelling model a second leads from the bottom to the top, and from there it stays at the top, under both advisories. The
/// policy chooses level, which costs 3, in the last second after a start at the bottom, and not after a start at the top: with two seconds
/// to go, and with three, where the state before the last is at the top in both. The total is 432,000,000.
pub fn memory_goes_back_to_the_start()
    ensures policy { IsMemoryPolicy levelling level_after_low }
    ensures two_from_bottom { cost_over_trajectories levelling level_after_low 2 0 (vertex 0 0 1)
        ≡ pos (3 * 432_000_000 ^ 2) }
    ensures two_from_top { cost_over_trajectories levelling level_after_low 2 0 (vertex 1 0 1) ≡ pos 0 }
    ensures three_from_bottom { cost_over_trajectories levelling level_after_low 3 0 (vertex 0 0 1)
        ≡ pos (3 * 432_000_000 ^ 3) }
    ensures three_from_top { cost_over_trajectories levelling level_after_low 3 0 (vertex 1 0 1) ≡ pos 0 }
{}
