//! What is accepted, and what that is worth. The functions do nothing: each clause is a law.
ghost use Rattle.std.specs.Prelude.{◌≡◌, List, ℕ, None, length};
ghost use Rattle.acas_spec.specs.Limits.{IsModel};
ghost use Rattle.acas_spec.specs.Model.{ModelData};
ghost use Rattle.acas_outside.specs.Bytes.{IsBytes};
ghost use Rattle.acas_spec.specs.Table.{Table};
ghost use Rattle.acas_policies.specs.Bounds.{HasTwoSidedBounds};
ghost use Rattle.acas_process.specs.Compiled.{compiled};
ghost use Rattle.acas_table_text.specs.Layers.{table_text};
ghost use Rattle.acas_table_text.specs.Shape.{shape_of};
ghost use Rattle.acas_table_text.specs.Tables.{as_layered};
ghost use Rattle.acas_table_text.specs.declared.format.Format.{Format as FileFormat};
ghost use Rattle.acas_table_text.specs.declared.format.Format.TheVariants.{Layered};
ghost use Rattle.acas_accept.specs.Accepted.{IsAcceptedTable};
ghost use Rattle.acas_accept.specs.GivenTable.{given_table};
ghost use Rattle.acas_accept.specs.Refusals.{first_refusal};

/// Bytes have no refusal exactly where they are the text of a table whose entries are all sound; then that is the table
/// that they are read as.
pub fn accepted_tables_have_no_refusal()
    ensures accepted { (m : ModelData) (digest bytes : List ℕ) → IsModel m → IsBytes bytes
        → first_refusal m digest bytes ≡ None → IsAcceptedTable m digest bytes (given_table m.grid bytes) }
    ensures no_refusal { (m : ModelData) (digest bytes : List ℕ) (t : Table) → IsModel m → length digest ≡ 32
        → IsAcceptedTable m digest bytes t → first_refusal m digest bytes ≡ None }
{}

/// Every accepted table has two-sided bounds: its advices cost at most its upper values, and no policy costs less than
/// its lower values.
pub fn accepted_tables_have_two_sided_bounds()
    ensures { (m : ModelData) (digest bytes : List ℕ) (t : Table) → IsModel m
        → IsAcceptedTable m digest bytes t → HasTwoSidedBounds m t }
{}

/// The text of the compiled table of a model is accepted, in either format.
pub fn compiled_tables_are_accepted()
    ensures table { (m : ModelData) (f : FileFormat) (digest : List ℕ) → IsModel m
        → IsAcceptedTable m digest (table_text f digest m.grid (compiled m)) (compiled m) }
    ensures no_refusal { (m : ModelData) (f : FileFormat) (digest : List ℕ) → IsModel m → length digest ≡ 32
        → first_refusal m digest (table_text f digest m.grid (compiled m)) ≡ None }
{}

/// The text in version 2 of the table that accepted bytes have is that of the same table, and is accepted.
pub fn migrated_texts_are_accepted()
    ensures text { (m : ModelData) (digest bytes : List ℕ) (t : Table) → IsModel m → IsBytes bytes
        → length digest ≡ 32 → IsAcceptedTable m digest bytes t
        → as_layered digest (shape_of m.grid) bytes ≡ table_text Layered digest m.grid t }
    ensures accepted { (m : ModelData) (digest bytes : List ℕ) (t : Table) → IsModel m → IsBytes bytes
        → length digest ≡ 32 → IsAcceptedTable m digest bytes t
        → IsAcceptedTable m digest (as_layered digest (shape_of m.grid) bytes) t }
{}
