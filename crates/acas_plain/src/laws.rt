//! Laws of the definitions. The functions do nothing: each clause is a law.
ghost use Rattle.std.specs.Prelude.{◌≡◌, length};
ghost use Rattle.acas_spec.specs.Limits.{IsGrid};
ghost use Rattle.acas_spec.specs.Model.{GridData};
ghost use Rattle.acas_spec.specs.declared.place.Point.{Point};
ghost use Rattle.acas_step.specs.Corners.{AreCorners};
ghost use Rattle.acas_step.specs.declared.cell.CornerSet.{CornerSet};

/// The corners of the cell that holds a point are one set, with one total. So what `Stencils::corners` gives is what `corners` gives of
/// the point that `moved` gives.
pub fn corners_are_one()
    ensures { (g : GridData) (s : Point) (set other : CornerSet)
        → IsGrid g → length set.corners ≡ 8 → length other.corners ≡ 8
        → AreCorners g s set.corners set.total → AreCorners g s other.corners other.total → set ≡ other }
{}
