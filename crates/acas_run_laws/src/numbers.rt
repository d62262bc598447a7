//! Numbers of planes and of tables, below the runs.
ghost use Rattle.std.specs.Prelude.{◌≡◌, ◌+◌, ◌-◌, ◌^◌, ◌∷◌, ◌++◌, [], ℕ, List, All, codes, length, replicate, map, pos, negsuc, Option, Some, None};
ghost use Rattle.acas_units.specs.declared.pair.Entry.{Entry};
ghost use Rattle.acas_units.specs.declared.pair.Pair.{Pair};
ghost use Rattle.acas_outside.specs.Counts.{Rose, raised};
ghost use Rattle.acas_outside.specs.Printed.{millionths_text};
ghost use Rattle.acas_outside.specs.Printing.{below};
ghost use Rattle.acas_plane.specs.Plane.{fresh, missing_in};
ghost use Rattle.acas_table_text.specs.Faults.{more_fault};
ghost use Rattle.acas_table_text.specs.Format.{length_of};
ghost use Rattle.acas_table_text.specs.Text.{text_of_layers};
ghost use Rattle.acas_table_text.specs.declared.format.Format.{Format as FileFormat};
ghost use Rattle.acas_table_text.specs.declared.fault.TableFault.TheVariants.{Length};
ghost use Rattle.acas_table_text.specs.declared.shape.TableShape.{TableShape};

/// In a plane in which nothing was written each place is missing, and in one that is written to the end none; each is
/// missing once.
pub fn missing_places_are_counted_once()
    ensures none_written { (n : ℕ) → missing_in (fresh n).work ≡ n }
    ensures all_written { (pairs : List Pair) → let work : List (Option Pair) = map Some pairs in
        missing_in work ≡ 0 }
    ensures one_missing { (pairs more : List Pair) → let work : List (Option Pair) = map Some pairs in
        let rest : List (Option Pair) = map Some more in missing_in (work ++ None ∷ rest) ≡ 1 }
{}

/// The text of a table in either version is as long as its shape says, where the digest has 32 bytes, there is a layer
/// for each number of seconds to go and an entry for each state.
pub fn texts_have_the_length_of_their_shape()
    ensures { (f : FileFormat) (digest : List ℕ) (s : TableShape) (layers : List (List Entry))
        → length digest ≡ 32 → length layers ≡ s.horizon + 1 → All (λ layer. length layer ≡ s.states) layers
        → length (text_of_layers f digest s layers) ≡ length_of f s }
{}

/// However many bytes stand behind a table, it is found to be one byte too long, and where none does it is not.
pub fn tables_are_too_long_by_one_byte()
    ensures two { more_fault 3 (1 ∷ 2 ∷ 3 ∷ 4 ∷ 5 ∷ []) ≡ Some (Length 3 4) }
    ensures one { more_fault 3 (1 ∷ 2 ∷ 3 ∷ 4 ∷ []) ≡ Some (Length 3 4) }
    ensures none { more_fault 3 (1 ∷ 2 ∷ 3 ∷ []) ≡ None }
{}

/// A count rises by what is counted, as far as 64 bits have room, and stands at their end.
pub fn counts_stand_at_their_end()
    ensures some { raised 5 3 ≡ 8 }
    ensures last { raised (2 ^ 64 - 3) 2 ≡ 2 ^ 64 - 1 }
    ensures more { raised (2 ^ 64 - 3) 7 ≡ 2 ^ 64 - 1 }
    ensures rose { Rose 5 6 }
    ensures stood { Rose (2 ^ 64 - 1) (2 ^ 64 - 1) }
{}

/// A number of millionths is printed with its sign, its whole units, a point and six digits.
pub fn millionths_have_six_digits()
    ensures some { millionths_text (pos 25082660) ≡ codes "25.082660" }
    ensures none { millionths_text (pos 0) ≡ codes "0.000000" }
    ensures below_zero { millionths_text (negsuc 1234566) ≡ codes "-1.234567" }
    ensures a_millionth_below { millionths_text (negsuc 0) ≡ codes "-0.000001" }
{}

/// What is printed of each number below another goes from 0 up.
pub fn parts_go_from_0_up()
    ensures { below 3 (λ k. k ∷ []) ≡ 0 ∷ 1 ∷ 2 ∷ [] }
{}
