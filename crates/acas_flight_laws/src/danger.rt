//! What holds of each area within the limits. The function does nothing: its clause is a law.
ghost use Rattle.std.specs.Prelude.{ℕ, ◌<◌};
ghost use Rattle.acas_spec.specs.Model.{ModelData};
ghost use Rattle.acas_spec.specs.Limits.{IsModel};
ghost use Rattle.acas_areas.specs.declared.parts.BoxState.{BoxState};
ghost use Rattle.acas_areas.specs.declared.parts.Window.{Window};
ghost use Rattle.acas_rulings.specs.Witness.{IsClearIn, IsEndangeredIn};

/// An area that is not clear in the window is endangered: some flight from it that meets the advisory ends within the half height at
/// a time of the window. So the test of clearness alone decides danger, and no search is needed for that.
pub fn areas_that_are_not_clear_are_endangered()
    ensures { (m : ModelData) (advisory : ℕ) (area : BoxState) (window : Window) → IsModel m →
        advisory < m.grid.advisories →
        ¬ IsClearIn m advisory area window → IsEndangeredIn m advisory area window }
{}
