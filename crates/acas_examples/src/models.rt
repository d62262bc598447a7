//! The models are within their limits, so the laws speak of them.
ghost use Rattle.acas_spec.specs.Limits.{IsModel};
ghost use Rattle.acas_process.specs.Cost.{IsEntry};
ghost use Rattle.acas_examples.specs.Models.{at_edge, at_radius, calm, evading, four_advisories, gusty, levelling, noisy, past_edge, small_climb, switching, tied};
ghost use Rattle.acas_examples.specs.Parts.{vertex};

/// Each model is one within its limits.
pub fn examples_are_models()
    ensures noisy { IsModel noisy }
    ensures tied { IsModel tied }
    ensures calm { IsModel calm }
    ensures switching { IsModel switching }
    ensures levelling { IsModel levelling }
    ensures evading { IsModel evading }
    ensures gusty { IsModel gusty }
    ensures small_climb { IsModel small_climb }
    ensures at_edge { IsModel at_edge }
    ensures past_edge { IsModel past_edge }
    ensures at_radius { IsModel at_radius }
    ensures four { IsModel four_advisories }
{}

/// The last layer of the noisy model, whose horizon is 2, has entries, and the next one has none. Nor has a third advisory, or a
/// third place on an axis.
pub fn entries_end_at_the_horizon()
    ensures last_layer { IsEntry noisy 2 1 (vertex 1 1 1) }
    ensures next_layer { IsEntry noisy 3 1 (vertex 1 1 1) → ⊥ }
    ensures next_advisory { IsEntry noisy 2 2 (vertex 1 1 1) → ⊥ }
    ensures next_altitude { IsEntry noisy 2 1 (vertex 2 1 1) → ⊥ }
    ensures next_own_rate { IsEntry noisy 2 1 (vertex 1 2 1) → ⊥ }
    ensures next_intruder_rate { IsEntry noisy 2 1 (vertex 1 1 2) → ⊥ }
{}
