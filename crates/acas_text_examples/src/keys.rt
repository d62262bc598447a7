//! The keys of tables, and what a reader of them answers.
ghost use Rattle.std.specs.Prelude.{◌≡◌, true, false, codes, pos, ℕ, Ok, Err};
ghost use Rattle.acas_doc.specs.Answers.{Answers};
ghost use Rattle.acas_doc.specs.Known.{IsUnknown, is_known};
ghost use Rattle.acas_doc.specs.declared.fault.DocError.TheVariants.{Fault, Memory};
ghost use Rattle.acas_doc.specs.declared.fault.DocFault.{DocFault};
ghost use Rattle.acas_model.specs.Text.{HasOnly};
ghost use Rattle.acas_text_examples.specs.Documents.{cost_keys, puck_keys};

/// Of the words "radius half_height" each is a known key, and no part of one, nor both with the space. A table has no unknown key but
/// one that it has.
pub fn keys_are_known_or_not()
    ensures first { is_known (codes "radius half_height") (codes "radius") ≡ true }
    ensures last { is_known (codes "radius half_height") (codes "half_height") ≡ true }
    ensures part { is_known (codes "radius half_height") (codes "half") ≡ false }
    ensures both { is_known (codes "radius half_height") (codes "radius half_height") ≡ false }
    ensures unknown { IsUnknown (codes "radius") (puck_keys (pos 500) (pos 100)) (codes "half_height") }
    ensures known { IsUnknown (codes "radius") (puck_keys (pos 500) (pos 100)) (codes "radius") → ⊥ }
    ensures not_there { IsUnknown (codes "radius") (puck_keys (pos 500) (pos 100)) (codes "height") → ⊥ }
    ensures only { HasOnly (codes "contact") (cost_keys (pos 1)) }
    ensures not_only { HasOnly (codes "radius") (puck_keys (pos 500) (pos 100)) → ⊥ }
{}

/// A reader gives what the rules give: the value, or the fault. It is out of memory only in place of a fault.
pub fn answers_are_those_of_the_rules()
    ensures value { Answers (λ (k : ℕ). k) (Ok 3) (Ok 3) }
    ensures other_value { Answers (λ (k : ℕ). k) (Ok 3) (Ok 4) → ⊥ }
    ensures no_value { (f : DocFault) → Answers (λ (k : ℕ). k) (Ok 3) (Err f) → ⊥ }
    ensures fault { (f g : DocFault) → Answers (λ (k : ℕ). k) (Err (Fault f)) (Err g) → f ≡ g }
    ensures no_fault { (f : DocFault) → Answers (λ (k : ℕ). k) (Err (Fault f)) (Ok 3) → ⊥ }
    ensures memory { (f : DocFault) → Answers (λ (k : ℕ). k) (Err Memory) (Err f) }
    ensures memory_for_nothing { Answers (λ (k : ℕ). k) (Err Memory) (Ok 3) → ⊥ }
{}
