//! Laws of the definitions. The functions do nothing: their clauses are the laws.
ghost use Rattle.std.specs.Prelude.{◌≡◌, ℕ, ◌+◌, ℤ, List, Some, None, ◌↔◌};
ghost use Rattle.acas_spec.specs.Axis.{Rises};
ghost use Rattle.acas_spec.specs.Model.{GridData};
ghost use Rattle.acas_grid.specs.Axis.{IsFirstFall, first_fall};
ghost use Rattle.acas_grid.specs.Grid.{AreStatesOneToOne, AreVerticesOneToOne};
ghost use Rattle.acas_grid.specs.States.{AreStateNumbersInverse, AreVertexNumbersInverse};

/// A list has a first fall exactly where its number there is the first that is not above the one before it, and
/// none exactly where it rises.
pub fn falls_are_first()
    ensures found { (axis : List ℤ) (k : ℕ) → (first_fall 0 axis ≡ Some (k + 1)) ↔ IsFirstFall axis k }
    ensures none { (axis : List ℤ) → (first_fall 0 axis ≡ None) ↔ Rises axis }
{}

/// On every grid, different vertices have different numbers, these are below the count of vertices, and each number
/// below the count is some vertex's. The same holds of states.
pub fn numbers_are_one_to_one()
    ensures vertices { (g : GridData) → AreVerticesOneToOne g }
    ensures states { (g : GridData) → AreStatesOneToOne g }
{}

/// On every grid, a vertex comes back from its number, and the number from its vertex. The same holds of a state and
/// its parts.
pub fn numbers_give_back_their_parts()
    ensures vertices { (g : GridData) → AreVertexNumbersInverse g }
    ensures states { (g : GridData) → AreStateNumbersInverse g }
{}
