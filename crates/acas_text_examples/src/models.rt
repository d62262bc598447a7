//! The texts of models.
ghost use Rattle.std.specs.Prelude.{◌≡◌, pos, codes, [], ◌∷◌};
ghost use Rattle.acas_model.specs.Axes.{in_model};
ghost use Rattle.acas_model.specs.Numbers.{pilot_keys};
ghost use Rattle.acas_model.specs.Text.{IsAdvisoryText, IsClosingText, IsCostText, IsDocumentText, IsPilotText, IsPuckText, IsSigmaText};
ghost use Rattle.acas_model.specs.declared.fault.AxisName.TheVariants.{Altitude, IntruderRate, OwnRate};
ghost use Rattle.acas_examples.specs.Parts.{minus};
ghost use Rattle.acas_text_examples.specs.Documents.{advisory_keys, closing_keys, cost_keys, delayed_keys, level_keys, prompt_keys, puck_keys, said, said_keys, sigma_keys};

/// Altitudes and half of the puck's height are in feet in the text, of 120 ticks, and all else is as it is in the model. A text of the
/// first version has no delay.
pub fn keys_say_their_numbers()
    ensures altitude { in_model Altitude (minus 30) ≡ minus 3600 }
    ensures own_rate { in_model OwnRate (minus 30) ≡ minus 30 }
    ensures intruder_rate { in_model IntruderRate (pos 30) ≡ pos 30 }
    ensures first_pilot { pilot_keys 1 ≡ codes "pull limit" }
    ensures second_pilot { pilot_keys 2 ≡ codes "pull limit delay" }
    ensures delay { IsPilotText (record said { delay = 5 }) 2 (delayed_keys (pos 5)) }
{}

/// The whole text says its model, in the first version and, with a delay of 0, in the second.
pub fn a_whole_text_says_its_model()
    ensures first { IsDocumentText said (said_keys (pos 1) (prompt_keys (pos 480) (pos 960))) }
    ensures second { IsDocumentText said (said_keys (pos 2) (delayed_keys (pos 0))) }
{}

/// No key may hold another number than the model has, and none may be missing.
pub fn other_numbers_are_not_said()
    ensures radius { IsPuckText said (puck_keys (pos 451) (pos 2)) → ⊥ }
    ensures half_height { IsPuckText said (puck_keys (pos 450) (pos 240)) → ⊥ }
    ensures least_closing { IsClosingText said (closing_keys (pos 401) (pos 500)) → ⊥ }
    ensures greatest_closing { IsClosingText said (closing_keys (pos 400) (pos 501)) → ⊥ }
    ensures pull { IsPilotText said 1 (prompt_keys (pos 481) (pos 960)) → ⊥ }
    ensures limit { IsPilotText said 1 (prompt_keys (pos 480) (pos 961)) → ⊥ }
    ensures delay_in_the_first_version { IsPilotText (record said { delay = 1 }) 1
        (prompt_keys (pos 480) (pos 960)) → ⊥ }
    ensures no_delay_in_the_second { IsPilotText said 2 (prompt_keys (pos 480) (pos 960)) → ⊥ }
    ensures contact { IsCostText said (cost_keys (pos 8)) → ⊥ }
    ensures name { IsAdvisoryText said 1 (level_keys (codes "clear") (minus 500) (pos 500)) → ⊥ }
    ensures lo { IsAdvisoryText said 1 (level_keys (codes "level") (minus 499) (pos 500)) → ⊥ }
    ensures hi { IsAdvisoryText said 1 (level_keys (codes "level") (minus 500) (pos 499)) → ⊥ }
    ensures choice { IsAdvisoryText said 1 (advisory_keys (codes "level") (minus 500) (pos 500)
        (codes "level" ∷ []) (pos 5 ∷ [])) → ⊥ }
    ensures cost { IsAdvisoryText said 1 (advisory_keys (codes "level") (minus 500) (pos 500)
        (codes "clear" ∷ []) (pos 4 ∷ [])) → ⊥ }
    ensures weight { IsSigmaText said 1 (sigma_keys (pos 2) (pos 60) (minus 90)) → ⊥ }
    ensures own { IsSigmaText said 1 (sigma_keys (pos 1) (pos 61) (minus 90)) → ⊥ }
    ensures intruder { IsSigmaText said 1 (sigma_keys (pos 1) (pos 60) (minus 91)) → ⊥ }
    ensures third_version { IsDocumentText said (said_keys (pos 3) (delayed_keys (pos 0))) → ⊥ }
    ensures delay_before_its_version { IsDocumentText said (said_keys (pos 1) (delayed_keys (pos 0))) → ⊥ }
{}
