//! The number of decisions of an audit. The function does nothing: its clause is the law.
ghost use Rattle.std.specs.Prelude.{◌≡◌, ℕ};
ghost use Rattle.acas_spec.specs.Model.{ModelData};
ghost use Rattle.acas_base.specs.Advices.{AdvicesData};
ghost use Rattle.acas_audit_blocks.specs.Decisions.{AreAuditsDecisions};

/// There is one number of decisions of an audit: the definition leaves no choice.
pub fn decisions_are_one()
    ensures { (m : ModelData) (a : AdvicesData) (x y : ℕ) → AreAuditsDecisions m a x
        → AreAuditsDecisions m a y → x ≡ y }
{}
