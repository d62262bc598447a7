//! What holds of the text of every table, in either format. The functions do nothing: each clause is a law.
ghost use Rattle.std.specs.Prelude.{◌≡◌, ◌≤◌, ◌<◌, ◌+◌, ◌*◌, ◌∷◌, [], ◌++◌, ℕ, List, Option, length, take, Some, None};
ghost use Rattle.acas_units.specs.declared.pair.Entry.{Entry as TableEntry};
ghost use Rattle.acas_outside.specs.Bytes.{IsBytes};
ghost use Rattle.acas_outside.specs.Files.{Files, Grows, GrowsPart, Stores, StoresPart};
ghost use Rattle.acas_table_text.specs.declared.format.Format.{Format as FileFormat};
ghost use Rattle.acas_table_text.specs.declared.format.Format.TheVariants.{Layered};
ghost use Rattle.acas_table_text.specs.declared.shape.TableShape.{TableShape as Shape};
ghost use Rattle.acas_table_text.specs.declared.fault.TableFault.TheVariants.{Length};
ghost use Rattle.acas_table_text.specs.Shape.{IsShape, entry_count};
ghost use Rattle.acas_table_text.specs.Format.{expected_length, format_of, group_size};
ghost use Rattle.acas_table_text.specs.Text.{entry_at, header, text_of_layers};
ghost use Rattle.acas_table_text.specs.Growth.{base, ending, front, layer_bytes, text_behind};
ghost use Rattle.acas_table_text.specs.Faults.{digest_fault, entry_fault, first_below, first_fault};
ghost use Rattle.acas_table_text.specs.Tables.{IsTable, as_layered, entry_of_state, layers_at};

/// A proper prefix of a table is too short, and has no fault before that.
pub fn prefixes_are_too_short()
    ensures { (digest : List ℕ) (s : Shape) (bytes : List ℕ) (n : ℕ) → IsShape s
        → first_fault digest s bytes ≡ None → n < length bytes
        → first_fault digest s (take n bytes) ≡ Some (Length (expected_length s (take n bytes)) n) }
{}

/// The text of a table is of its format and has no fault, and each entry is read as it was written.
pub fn texts_are_read_again()
    ensures format { (f : FileFormat) (digest : List ℕ) (s : Shape) (layers : List (List TableEntry))
        → format_of (text_of_layers f digest s layers) ≡ f }
    ensures no_fault { (f : FileFormat) (digest : List ℕ) (s : Shape) (layers : List (List TableEntry))
        → IsTable digest s layers → first_fault digest s (text_of_layers f digest s layers) ≡ None }
    ensures entries { (f : FileFormat) (digest : List ℕ) (s : Shape) (layers : List (List TableEntry))
        (n state : ℕ) → IsTable digest s layers → n < s.horizon + 1 → state < s.states
        → entry_at s (text_of_layers f digest s layers) (n * s.states + state)
        ≡ entry_of_state layers n state }
{}

/// Bytes without fault are the text of their layers, in their format.
pub fn only_texts_have_no_fault()
    ensures { (digest : List ℕ) (s : Shape) (bytes : List ℕ)
        → IsShape s → IsBytes bytes → first_fault digest s bytes ≡ None
        → bytes ≡ text_of_layers (format_of bytes) digest s (layers_at s bytes) }
{}

/// A text is that of one table only, in one format.
pub fn texts_are_one_to_one()
    ensures format { (f g : FileFormat) (digest : List ℕ) (s : Shape) (one two : List (List TableEntry))
        → text_of_layers f digest s one ≡ text_of_layers g digest s two → f ≡ g }
    ensures table { (f g : FileFormat) (digest : List ℕ) (s : Shape) (one two : List (List TableEntry))
        → IsTable digest s one → IsTable digest s two
        → text_of_layers f digest s one ≡ text_of_layers g digest s two → one ≡ two }
{}

/// Two files without fault, the second in version 2, have the same layers exactly where the second is the text in
/// version 2 of the table that the first has.
pub fn texts_in_two_formats_are_of_one_table()
    ensures same { (digest : List ℕ) (s : Shape) (first second : List ℕ)
        → IsShape s → IsBytes second → first_fault digest s second ≡ None → format_of second ≡ Layered
        → layers_at s first ≡ layers_at s second → second ≡ as_layered digest s first }
    ensures made { (digest : List ℕ) (s : Shape) (first second : List ℕ)
        → length digest ≡ 32 → IsShape s → IsBytes first → first_fault digest s first ≡ None
        → second ≡ as_layered digest s first → layers_at s first ≡ layers_at s second }
{}

/// No entry behind a digest that is wrong, or that the file ends before, is read without fault: a reader that goes
/// entry by entry never gives it.
pub fn a_wrong_digest_is_the_last_that_is_read()
    ensures { (s : Shape) (bytes : List ℕ) (k i : ℕ) → IsShape s
        → (digest_fault s bytes k ≡ None → ⊥)
        → (k + 1) * group_size (format_of bytes) s ≤ i → i < entry_count s
        → first_below (entry_fault s bytes) (i + 1) ≡ None → ⊥ }
{}

/// A header that is stored, and then grows by the bytes of each layer and by those of the end, is the text. Where it
/// grew by a part of a layer's bytes only, or of those of the end, a proper prefix of the text is stored.
pub fn layers_grow_to_the_text()
    ensures header { (f : FileFormat) (head : List ℕ) → front f head [] ≡ head }
    ensures text { (f : FileFormat) (digest : List ℕ) (s : Shape) (layers : List (List TableEntry))
        → text_behind f (header f digest s) layers ≡ text_of_layers f digest s layers }
    ensures layer { (before old new : Option Files) (name : List ℕ)
        (f : FileFormat) (head : List ℕ) (layers : List (List TableEntry)) (layer : List TableEntry)
        → Stores before old name (front f head layers)
        → Grows old new name (layer_bytes f (base f head layers) layer)
        → Stores before new name (front f head (layers ++ layer ∷ [])) }
    ensures end { (before old new : Option Files) (name : List ℕ)
        (f : FileFormat) (head : List ℕ) (layers : List (List TableEntry))
        → Stores before old name (front f head layers)
        → Grows old new name (ending f (base f head layers))
        → Stores before new name (text_behind f head layers) }
    ensures part_of_header { (before new : Option Files) (name : List ℕ)
        (f : FileFormat) (head : List ℕ) (layers : List (List TableEntry))
        → StoresPart before new name head → StoresPart before new name (text_behind f head layers) }
    ensures part_of_layer { (before old new : Option Files) (name : List ℕ)
        (f : FileFormat) (head : List ℕ) (layers : List (List TableEntry)) (layer : List TableEntry)
        (more : List (List TableEntry))
        → Stores before old name (front f head layers)
        → GrowsPart old new name (layer_bytes f (base f head layers) layer)
        → StoresPart before new name (text_behind f head (layers ++ layer ∷ more)) }
    ensures part_of_end { (before old new : Option Files) (name : List ℕ)
        (f : FileFormat) (head : List ℕ) (layers : List (List TableEntry))
        → Stores before old name (front f head layers)
        → GrowsPart old new name (ending f (base f head layers))
        → StoresPart before new name (text_behind f head layers) }
{}
