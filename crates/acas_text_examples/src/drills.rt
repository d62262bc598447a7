//! The models of drills.
ghost use Rattle.std.specs.Prelude.{◌≡◌};
ghost use Rattle.acas_drill_model.specs.DrilledModel.{drilled_model};
ghost use Rattle.acas_text_examples.specs.Drilled.{drill_12345};

/// The model of drill 12345 is that which its number was worked out to.
pub fn a_drill_is_worked_out()
    ensures { drilled_model 12_345 ≡ drill_12345 }
{}
