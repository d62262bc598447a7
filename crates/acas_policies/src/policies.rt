//! The laws of policies that are fixed: what bounds their costs and their chances of contact. The functions do nothing: each clause is a
//! law.
ghost use Rattle.std.specs.Prelude.{◌≡◌, ℕ, ◌+◌, ◌*◌, ◌<◌, ◌≤◌, ◌^◌, ℤ, pos, neg_ℤ, ◌+ℤ◌, ◌*ℤ◌, ◌<ℤ◌, ◌≤ℤ◌, unsigned_abs};
ghost use Rattle.acas_frac.specs.Rounding.{down, up};
ghost use Rattle.acas_spec.specs.Axis.{place_value};
ghost use Rattle.acas_spec.specs.Limits.{IsModel};
ghost use Rattle.acas_spec.specs.Model.{ModelData};
ghost use Rattle.acas_spec.specs.Table.{Policy, Table, Values};
ghost use Rattle.acas_spec.specs.declared.place.Vertex.{Vertex};
ghost use Rattle.acas_policies.specs.Allowed.{Allowed, AreHighEnough, AreLowEnough, KeepsTo, SaysAdvisories, any_choice, only};
ghost use Rattle.acas_policies.specs.Bounds.{IsSound};
ghost use Rattle.acas_process.specs.Compiled.{compiled};
ghost use Rattle.acas_process.specs.Cost.{IsEntry, IsPolicy, expected_cost, transition_total};
ghost use Rattle.acas_policies.specs.Policies.{AreBounds, AreChanceBounds, always_clear, contact_chance, counting_contact, policy_values};

/// One law for tables and for policies: values that are high enough over the advisories that are allowed are at least what a policy
/// costs that keeps to these, and values that are low enough are at most that.
pub fn values_bound_what_is_allowed()
    ensures above { (m : ModelData) (allowed : Allowed) (values : ℕ → Values) (policy : Policy) (n p : ℕ)
        (x : Vertex) →
        IsModel m → AreHighEnough m allowed values → KeepsTo m allowed policy → IsEntry m n p x →
        (pos 1_000_000 *ℤ expected_cost m policy n p x) ≤ℤ (pos (transition_total m ^ n) *ℤ values n p x) }
    ensures below { (m : ModelData) (allowed : Allowed) (values : ℕ → Values) (policy : Policy) (n p : ℕ)
        (x : Vertex) →
        IsModel m → AreLowEnough m allowed values → KeepsTo m allowed policy → IsEntry m n p x →
        (pos (transition_total m ^ n) *ℤ values n p x) ≤ℤ (pos 1_000_000 *ℤ expected_cost m policy n p x) }
{}

/// What that law is used for. The upper values of a sound table are high enough over its advice, and the lower ones low enough over all
/// choices. The values of a policy are both over what it says alone, those of its chance of contact among them.
pub fn tables_and_policies_have_such_values()
    ensures upper { (m : ModelData) (t : Table) → IsSound m t → AreHighEnough m (only t.advice) t.upper }
    ensures lower { (m : ModelData) (t : Table) → IsSound m t → AreLowEnough m (any_choice m) t.lower }
    ensures policy_upper { (m : ModelData) (policy : Policy) →
        AreHighEnough m (only policy) (policy_values up m policy) }
    ensures policy_lower { (m : ModelData) (policy : Policy) →
        AreLowEnough m (only policy) (policy_values down m policy) }
    ensures keeps { (m : ModelData) (policy : Policy) → SaysAdvisories m policy
        → KeepsTo m (only policy) policy }
    ensures chooses { (m : ModelData) (policy : Policy) → IsModel m → IsPolicy m policy →
        KeepsTo m (any_choice m) policy }
{}

/// The values of a policy are bounds of what it costs, whether or not it may choose what it says. The policy that always says clear of
/// conflict says advisories, and so does each policy.
pub fn policy_values_bound_costs()
    ensures bounds { (m : ModelData) (policy : Policy) (n p : ℕ) (x : Vertex) →
        IsModel m → SaysAdvisories m policy → IsEntry m n p x →
        AreBounds m n (expected_cost m policy n p x)
        (policy_values down m policy n p x) (policy_values up m policy n p x) }
    ensures clear { (m : ModelData) → IsModel m → SaysAdvisories m always_clear }
    ensures policies { (m : ModelData) (policy : Policy) → IsModel m → IsPolicy m policy
        → SaysAdvisories m policy }
{}

/// A chance of contact is an expected cost: that of the same policy in the same model where contact costs 1 and a second costs nothing,
/// which is a model within its limits too. It is from 0 to 1.
pub fn chances_are_expected_costs()
    ensures cost { (m : ModelData) (policy : Policy) (n p : ℕ) (x : Vertex) →
        contact_chance m policy n p x ≡ expected_cost (counting_contact m) policy n p x }
    ensures model { (m : ModelData) → IsModel m → IsModel (counting_contact m) }
    ensures least { (m : ModelData) (policy : Policy) (n p : ℕ) (x : Vertex)
        → pos 0 ≤ℤ contact_chance m policy n p x }
    ensures greatest { (m : ModelData) (policy : Policy) (n p : ℕ) (x : Vertex) → IsModel m →
        contact_chance m policy n p x ≤ℤ pos (transition_total m ^ n) }
{}

/// The values of a policy in that model are bounds of its chance of contact, from 0 to 1.
pub fn policy_values_bound_chances()
    ensures { (m : ModelData) (policy : Policy) (n p : ℕ) (x : Vertex) →
        IsModel m → SaysAdvisories m policy → IsEntry m n p x →
        AreChanceBounds m n (contact_chance m policy n p x)
        (policy_values down (counting_contact m) policy n p x) (policy_values up (counting_contact m) policy n p x) }
{}

/// What a sound table's advice costs is between the table's own values. The values of that policy and the table's own never contradict
/// each other, those of the compiled table among them.
pub fn policy_values_and_tables_never_contradict()
    ensures costs_below { (m : ModelData) (t : Table) (n p : ℕ) (x : Vertex) → IsModel m → IsSound m t →
        IsEntry m n p x →
        (pos (transition_total m ^ n) *ℤ t.lower n p x) ≤ℤ (pos 1_000_000 *ℤ expected_cost m t.advice n p x) }
    ensures costs_above { (m : ModelData) (t : Table) (n p : ℕ) (x : Vertex) → IsModel m → IsSound m t →
        IsEntry m n p x →
        (pos 1_000_000 *ℤ expected_cost m t.advice n p x) ≤ℤ (pos (transition_total m ^ n) *ℤ t.upper n p x) }
    ensures upper { (m : ModelData) (t : Table) (n p : ℕ) (x : Vertex) → IsModel m → IsSound m t →
        IsEntry m n p x →
        t.lower n p x ≤ℤ policy_values up m t.advice n p x }
    ensures lower { (m : ModelData) (t : Table) (n p : ℕ) (x : Vertex) → IsModel m → IsSound m t →
        IsEntry m n p x →
        policy_values down m t.advice n p x ≤ℤ t.upper n p x }
    ensures compiled { (m : ModelData) (n p : ℕ) (x : Vertex) → IsModel m → IsEntry m n p x →
        let t = compiled m in
        (t.lower n p x ≤ℤ policy_values up m t.advice n p x)
        × (policy_values down m t.advice n p x ≤ℤ t.upper n p x) }
{}

/// Policies that say the same with a second to go and more cost the same, are as likely to end in contact, and have the same values.
pub fn policies_that_say_the_same_are_one()
    ensures cost { (m : ModelData) (one other : Policy) (n p : ℕ) (x : Vertex) → SaysAdvisories m one →
        ((k q : ℕ) (y : Vertex) → IsEntry m k q y → 0 < k → one k q y ≡ other k q y) → IsEntry m n p x →
        expected_cost m one n p x ≡ expected_cost m other n p x }
    ensures chance { (m : ModelData) (one other : Policy) (n p : ℕ) (x : Vertex) → SaysAdvisories m one →
        ((k q : ℕ) (y : Vertex) → IsEntry m k q y → 0 < k → one k q y ≡ other k q y) → IsEntry m n p x →
        contact_chance m one n p x ≡ contact_chance m other n p x }
    ensures values { (round : ℤ → ℤ → ℤ) (m : ModelData) (one other : Policy) (n p : ℕ) (x : Vertex) →
        SaysAdvisories m one →
        ((k q : ℕ) (y : Vertex) → IsEntry m k q y → 0 < k → one k q y ≡ other k q y) → IsEntry m n p x →
        policy_values round m one n p x ≡ policy_values round m other n p x }
{}

/// The values of a policy are at most 10^15 for each second to go and one more, so they fit 64 bits.
pub fn policy_values_fit()
    ensures upper { (m : ModelData) (policy : Policy) (n p : ℕ) (x : Vertex) → IsModel m →
        SaysAdvisories m policy →
        IsEntry m n p x → unsigned_abs (policy_values up m policy n p x) ≤ (n + 1) * 10 ^ 15 }
    ensures lower { (m : ModelData) (policy : Policy) (n p : ℕ) (x : Vertex) → IsModel m →
        SaysAdvisories m policy →
        IsEntry m n p x → unsigned_abs (policy_values down m policy n p x) ≤ (n + 1) * 10 ^ 15 }
{}

/// What such bounds say, in numbers; and what ends in contact: a flight that has come to an altitude at most half the puck's height away.
pub fn policy_bounds_in_numbers()
    ensures costs { (m : ModelData) (n : ℕ) (number lower upper : ℤ) → AreBounds m n number lower upper →
        ((pos (transition_total m ^ n) *ℤ lower) ≤ℤ (pos 1_000_000 *ℤ number))
        × ((pos 1_000_000 *ℤ number) ≤ℤ (pos (transition_total m ^ n) *ℤ upper))
        × (upper ≤ℤ (lower +ℤ pos (2 * n))) }
    ensures chances { (m : ModelData) (n : ℕ) (chance lower upper : ℤ) →
        AreChanceBounds m n chance lower upper →
        AreBounds m n chance lower upper × (pos 0 ≤ℤ lower) × (upper ≤ℤ pos 1_000_000) }
    ensures contact { (m : ModelData) (policy : Policy) (p : ℕ) (x : Vertex) →
        let h = place_value m.grid.h x.i in
        neg_ℤ (pos m.half) ≤ℤ h → h ≤ℤ pos m.half → contact_chance m policy 0 p x ≡ pos 1 }
    ensures above { (m : ModelData) (policy : Policy) (p : ℕ) (x : Vertex) →
        let h = place_value m.grid.h x.i in
        pos m.half <ℤ h → contact_chance m policy 0 p x ≡ pos 0 }
    ensures below { (m : ModelData) (policy : Policy) (p : ℕ) (x : Vertex) →
        let h = place_value m.grid.h x.i in
        h <ℤ neg_ℤ (pos m.half) → contact_chance m policy 0 p x ≡ pos 0 }
{}
