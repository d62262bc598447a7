//! The definition of names at its edges.
ghost use Rattle.std.specs.Prelude.{◌≡◌, codes, false, true};
ghost use Rattle.acas_spec.specs.Limits.{is_name};

/// The first and the last letters and digits, `_` and `-` make a name. The bytes beside them in ASCII make none.
pub fn names_are_of_letters_and_digits()
    ensures ends { is_name (codes "AZaz09_-") ≡ true }
    ensures below_upper_case { is_name (codes "@") ≡ false }
    ensures above_upper_case { is_name (codes "[") ≡ false }
    ensures below_lower_case { is_name (codes "`") ≡ false }
    ensures above_lower_case { is_name (codes "{") ≡ false }
    ensures below_digits { is_name (codes "/") ≡ false }
    ensures above_digits { is_name (codes ":") ≡ false }
{}

/// One byte makes a name, and 32 do. No byte makes none, and 33 do not.
pub fn names_are_short_and_not_empty()
    ensures shortest { is_name (codes "c") ≡ true }
    ensures longest { is_name (codes "abcdefghijklmnopqrstuvwxyz-_0123") ≡ true }
    ensures empty { is_name (codes "") ≡ false }
    ensures too_long { is_name (codes "abcdefghijklmnopqrstuvwxyz-_01234") ≡ false }
{}
