//! The cells of the model, what is tabled at their corners, and the advisory cells.
ghost use Rattle.std.specs.Prelude.{◌≡◌, [], ◌∷◌, true, false};
ghost use Rattle.std.specs.declared.cmp.Ordering.TheVariants.{Equal, Greater, Less};
ghost use Rattle.acas_cells.specs.Cells.{IsCellOf, cell_at, cells_of};
ghost use Rattle.acas_cells.specs.Corners.{advice_at_vertex, advisory_cells, corner_advices, corners, is_advised, is_at_corner, is_clear_cell, names_at};
ghost use Rattle.acas_cells.specs.Order.{by_numbers, numbers, places};
ghost use Rattle.acas_cell_examples.specs.Tabled.{stacked, tabled, under_climb, vertex};

/// For each of 2 seconds and of 2 present advisories there are 2 cells, one above the other.
pub fn cells_are_listed()
    ensures { cells_of stacked
        ≡ cell_at 0 0 0 0 0 ∷ cell_at 0 0 1 0 0 ∷ cell_at 0 1 0 0 0 ∷ cell_at 0 1 1 0 0
        ∷ cell_at 1 0 0 0 0 ∷ cell_at 1 0 1 0 0 ∷ cell_at 1 1 0 0 0 ∷ cell_at 1 1 1 0 0 ∷ [] }
{}

/// There is no third second, present advisory or altitude, and no second rate.
pub fn cells_are_those_of_a_model_or_not()
    ensures last { IsCellOf stacked (cell_at 1 1 1 0 0) }
    ensures second { IsCellOf stacked (cell_at 2 1 1 0 0) → ⊥ }
    ensures present { IsCellOf stacked (cell_at 1 2 1 0 0) → ⊥ }
    ensures altitude { IsCellOf stacked (cell_at 1 1 2 0 0) → ⊥ }
    ensures own { IsCellOf stacked (cell_at 1 1 1 1 0) → ⊥ }
    ensures intruder { IsCellOf stacked (cell_at 1 1 1 0 1) → ⊥ }
{}

/// The lower cell of 0 seconds has the climb of 0 ticks at its last corner but four, the upper one that of 240 at its last but three,
/// and under climb it has the one of 240 at its last corner. The lower cell of 1 second has that of layer 2 at its first.
pub fn corners_are_advised()
    ensures eight { corners 1 2 3
        ≡ vertex 1 2 3 ∷ vertex 1 2 4 ∷ vertex 1 3 3 ∷ vertex 1 3 4 ∷ vertex 2 2 3 ∷ vertex 2 2 4 ∷ vertex 2 3 3 ∷ vertex 2 3 4 ∷ [] }
    ensures at_vertex { advice_at_vertex stacked tabled 0 1 (vertex 2 1 1) ≡ 1 }
    ensures lower { corner_advices stacked tabled (cell_at 0 0 0 0 0) ≡ 0 ∷ 0 ∷ 0 ∷ 1 ∷ 0 ∷ 0 ∷ 0 ∷ 0 ∷ [] }
    ensures upper { corner_advices stacked tabled (cell_at 0 0 1 0 0) ≡ 0 ∷ 0 ∷ 0 ∷ 0 ∷ 1 ∷ 0 ∷ 0 ∷ 0 ∷ [] }
    ensures under_climb { corner_advices stacked tabled (cell_at 0 1 1 0 0) ≡
        0 ∷ 0 ∷ 0 ∷ 0 ∷ 0 ∷ 0 ∷ 0 ∷ 1 ∷ [] }
    ensures later { corner_advices stacked tabled (cell_at 1 0 0 0 0) ≡ 1 ∷ 0 ∷ 0 ∷ 0 ∷ 0 ∷ 0 ∷ 0 ∷ 0 ∷ [] }
    ensures climb { is_at_corner stacked tabled (cell_at 0 0 0 0 0) 1 ≡ true }
    ensures no_climb { is_at_corner stacked tabled (cell_at 0 1 0 0 0) 1 ≡ false }
    ensures not_clear { is_clear_cell stacked tabled (cell_at 0 0 0 0 0) ≡ false }
    ensures clear { is_clear_cell stacked tabled (cell_at 0 1 0 0 0) ≡ true }
    ensures advised { is_advised stacked tabled (cell_at 0 0 0 0 0) 1 ≡ true }
    ensures not_advised { is_advised stacked tabled (cell_at 0 0 0 0 0) 0 ≡ false }
    ensures names { names_at stacked tabled (cell_at 0 0 1 0 0) ≡ under_climb 0 0 1 ∷ [] }
    ensures no_names { names_at stacked tabled (cell_at 0 1 0 0 0) ≡ [] }
{}

/// So there are four advisory cells.
pub fn advisory_cells_are_listed()
    ensures { advisory_cells stacked tabled
        ≡ under_climb 0 0 0 ∷ under_climb 0 0 1 ∷ under_climb 0 1 1 ∷ under_climb 1 0 0 ∷ [] }
{}

/// A name has six numbers, and the first that differs decides: the seconds before the present advisory, and the advice at last.
pub fn names_are_ordered()
    ensures numbers { numbers (record { n = 1; present = 2; i = 3; j = 4; k = 5; advice = 6 })
        ≡ 1 ∷ 2 ∷ 3 ∷ 4 ∷ 5 ∷ 6 ∷ [] }
    ensures places { places (cell_at 1 2 3 4 5) ≡ 1 ∷ 2 ∷ 3 ∷ 4 ∷ 5 ∷ [] }
    ensures seconds { by_numbers (under_climb 0 1 1) (under_climb 1 0 0) ≡ Less }
    ensures present { by_numbers (under_climb 0 1 0) (under_climb 0 0 1) ≡ Greater }
    ensures advice { by_numbers (under_climb 0 0 1) (record (under_climb 0 0 1) { advice = 2 }) ≡ Less }
    ensures same { by_numbers (under_climb 0 0 1) (under_climb 0 0 1) ≡ Equal }
{}
