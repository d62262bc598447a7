//! What is within the limits of a model and what is past them, in numbers.
ghost use Rattle.std.specs.Prelude.{ℕ, pos, [], ◌∷◌};
ghost use Rattle.acas_spec.specs.Axis.{IsWithin};
ghost use Rattle.acas_spec.specs.Limits.{AreDistinct, IsAdvisory, IsChoice, IsChoiceList, IsModel, IsSigma};
ghost use Rattle.acas_examples.specs.Models.{noisy};
ghost use Rattle.acas_examples.specs.Parts.{choice, clear, level, minus, sigma};

/// Each number of a list is to be within limits, the first and the last one too. Items are to be distinct, be they neighbours or not.
pub fn lists_have_limits()
    ensures first { IsWithin (pos 0) (pos 5) (minus 1 ∷ pos 3 ∷ pos 5 ∷ []) → ⊥ }
    ensures last { IsWithin (pos 0) (pos 5) (pos 0 ∷ pos 3 ∷ pos 6 ∷ []) → ⊥ }
    ensures neighbours { AreDistinct {A = ℕ} 0 (1 ∷ 2 ∷ 2 ∷ []) → ⊥ }
    ensures apart { AreDistinct {A = ℕ} 0 (2 ∷ 1 ∷ 2 ∷ []) → ⊥ }
{}

/// An advisory asks for rates from -10,000 to 10,000 ft/min, or for one rate.
pub fn advisories_have_limits()
    ensures widest { IsAdvisory (level (minus 10_000) (pos 10_000)) }
    ensures one_rate { IsAdvisory (level (pos 500) (pos 500)) }
    ensures too_low { IsAdvisory (level (minus 10_001) (pos 0)) → ⊥ }
    ensures too_high { IsAdvisory (level (pos 0) (pos 10_001)) → ⊥ }
    ensures falling { IsAdvisory (level (pos 1) (pos 0)) → ⊥ }
{}

/// A choice is one of the advisories, at a cost from -10^9 to 10^9. Something may be chosen, and nothing twice.
pub fn choices_have_limits()
    ensures least { IsChoice 2 (choice 0 (minus 1_000_000_000)) }
    ensures greatest { IsChoice 2 (choice 1 (pos 1_000_000_000)) }
    ensures unknown { IsChoice 2 (choice 2 (pos 0)) → ⊥ }
    ensures too_low { IsChoice 2 (choice 0 (minus 1_000_000_001)) → ⊥ }
    ensures too_high { IsChoice 2 (choice 0 (pos 1_000_000_001)) → ⊥ }
    ensures empty { IsChoiceList 2 [] → ⊥ }
    ensures twice { IsChoiceList 2 (choice 1 (pos 0) ∷ choice 1 (pos 3) ∷ []) → ⊥ }
{}

/// A sigma point has a weight from 1 to 1000, and changes each rate by at most 5000 ft/min.
pub fn sigma_points_have_limits()
    ensures least { IsSigma (sigma (pos 1) (minus 5000) (minus 5000)) }
    ensures greatest { IsSigma (sigma (pos 1000) (pos 5000) (pos 5000)) }
    ensures no_weight { IsSigma (sigma (pos 0) (pos 0) (pos 0)) → ⊥ }
    ensures heavy { IsSigma (sigma (pos 1001) (pos 0) (pos 0)) → ⊥ }
    ensures own_down { IsSigma (sigma (pos 1) (minus 5001) (pos 0)) → ⊥ }
    ensures own_up { IsSigma (sigma (pos 1) (pos 5001) (pos 0)) → ⊥ }
    ensures intruder_down { IsSigma (sigma (pos 1) (pos 0) (minus 5001)) → ⊥ }
    ensures intruder_up { IsSigma (sigma (pos 1) (pos 0) (pos 5001)) → ⊥ }
{}

/// The noisy model is none any more with one number past its limits. Its horizon is 2 and its pull 480 at a limit of 960; its radius
/// is 500, and its closing speeds are both 500, so that at a least closing speed of 1 its range needs 1002 of the 600 seconds.
pub fn models_have_limits()
    ensures no_pull { IsModel (record noisy { pull = 0 }) → ⊥ }
    ensures pull_past_limit { IsModel (record noisy { pull = 961 }) → ⊥ }
    ensures limit { IsModel (record noisy { limit = 2001 }) → ⊥ }
    ensures delay { IsModel (record noisy { delay = 11 }) → ⊥ }
    ensures gain { IsModel (record noisy { contact = minus 1_000_000_001 }) → ⊥ }
    ensures contact { IsModel (record noisy { contact = pos 1_000_000_001 }) → ⊥ }
    ensures no_radius { IsModel (record noisy { radius = 0 }) → ⊥ }
    ensures radius { IsModel (record noisy { radius = 5001 }) → ⊥ }
    ensures low { IsModel (record noisy { half = 119 }) → ⊥ }
    ensures high { IsModel (record noisy { half = 120_001 }) → ⊥ }
    ensures no_closing { IsModel (record noisy { least_closing = 0 }) → ⊥ }
    ensures closing_past_the_greatest { IsModel (record noisy { least_closing = 501 }) → ⊥ }
    ensures closing { IsModel (record noisy { greatest_closing = 5001 }) → ⊥ }
    ensures window { IsModel (record noisy { least_closing = 1 }) → ⊥ }
    ensures horizon { IsModel (record noisy { grid = record noisy.grid { horizon = 121 } }) → ⊥ }
    ensures advisory_names { IsModel (record noisy { advisories = clear ∷ clear ∷ [] }) → ⊥ }
    ensures no_sigma_points { IsModel (record noisy { sigmas = [] }) → ⊥ }
    ensures weights { IsModel (record noisy {
      sigmas =
          sigma (pos 1000) (pos 0) (pos 0) ∷ sigma (pos 1) (pos 0) (pos 600) ∷ [];
    }) → ⊥ }
{}
