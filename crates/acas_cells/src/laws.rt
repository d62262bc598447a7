//! Laws of cells and advisory cells. The functions do nothing: their clauses are the laws.
ghost use Rattle.std.specs.Prelude.{◌≡◌, ◌↔◌, ℕ, ◌+◌, ◌*◌, ◌≤◌, true};
ghost use Rattle.std.specs.List.{Contains};
ghost use Rattle.std.specs.List.Sorted.{IsStrictlySortedBy};
ghost use Rattle.acas_spec.specs.Model.{ModelData, vertices};
ghost use Rattle.acas_spec.specs.declared.place.Vertex.{Vertex};
ghost use Rattle.acas_grid.specs.Grid.{vertex_number};
ghost use Rattle.acas_base.specs.Advices.{AdvicesData, AreAdvices, AreAdvicesOf, advice_at};
ghost use Rattle.acas_cells.specs.Cells.{Cell, IsCellOf, cells_of};
ghost use Rattle.acas_cells.specs.Corners.{advisory_cells, is_at_corner, is_clear_cell, under};
ghost use Rattle.acas_cells.specs.Order.{IsAdvisoryCell, by_numbers, by_places};
ghost use Rattle.acas_cells.specs.declared.name.CellName.{CellName};

/// The list of the cells of a model has each of them, once, in the order of their numbers.
pub fn cells_are_in_order()
    ensures order { (m : ModelData) → IsStrictlySortedBy by_places (cells_of m) }
    ensures exact { (m : ModelData) (c : Cell) → Contains (cells_of m) c ↔ IsCellOf m c }
{}

/// The list of the advisory cells of a model and its advices has each of them, once, in the order of their numbers: each cell of the
/// model under each advice that is not clear of conflict and is tabled in layer n + 1 at one of its corners.
pub fn advisory_cells_are_in_order()
    ensures order { (m : ModelData) (a : AdvicesData) → IsStrictlySortedBy by_numbers (advisory_cells m a) }
    ensures exact { (m : ModelData) (a : AdvicesData) (name : CellName) → AreAdvices a → AreAdvicesOf m a →
        Contains (advisory_cells m a) name ↔ IsAdvisoryCell m a name }
{}

/// The advices at the corners of a cell are those that are tabled in layer n + 1, under its present advisory, at a vertex whose places
/// are the cell's or the next.
pub fn advices_at_corners_are_tabled()
    ensures { (m : ModelData) (a : AdvicesData) (c : Cell) (advice : ℕ) →
        (is_at_corner m a c advice ≡ true)
        ↔ ((y : Vertex) × (c.i ≤ y.i) × (y.i ≤ c.i + 1) × (c.j ≤ y.j) × (y.j ≤ c.j + 1) × (c.k ≤ y.k)
        × (y.k ≤ c.k + 1)
        × (advice_at a (c.n + 1) (c.present * vertices m.grid + vertex_number m.grid y) ≡ advice)) }
{}

/// A cell is clear exactly where it is an advisory cell under no advice.
pub fn clear_cells_have_no_advisory()
    ensures { (m : ModelData) (a : AdvicesData) (c : Cell) → IsCellOf m c →
        (is_clear_cell m a c ≡ true) ↔ ((advice : ℕ) → ¬ IsAdvisoryCell m a (under c advice)) }
{}
