//! The laws of witnesses, of rulings and of verdicts against an intruder that may change its rate. The functions do nothing: each clause
//! is a law.
ghost use Rattle.std.specs.Prelude.{◌≡◌, ℕ, ◌<◌, ◌≤◌, ◌≤ℤ◌};
ghost use Rattle.std.specs.List.{All};
ghost use Rattle.acas_spec.specs.Limits.{IsModel};
ghost use Rattle.acas_spec.specs.Model.{ModelData};
ghost use Rattle.acas_frac.specs.Fraction.{IsReduced};
ghost use Rattle.acas_flight.specs.Response.{demand_of};
ghost use Rattle.acas_flight.specs.Window.{Times};
ghost use Rattle.acas_flight.specs.Clear.{Area, IsClear, area_of_box};
ghost use Rattle.acas_areas.specs.Limits.{AreEnds, IsArea};
ghost use Rattle.acas_areas.specs.Search.{AreRates, fastest};
ghost use Rattle.acas_rulings.specs.declared.flight.Flight.{Flight};
ghost use Rattle.acas_rulings.specs.Witness.{IsWitnessOf};
ghost use Rattle.acas_rulings.specs.Printed.{flight_fractions};
ghost use Rattle.acas_rulings.specs.Boxes.{AuditedBox, IsBoxOf};
ghost use Rattle.acas_cells.specs.Cells.{IsCellOf};
ghost use Rattle.acas_cells.specs.Order.{cell_of};
ghost use Rattle.acas_cells.specs.declared.name.CellName.{CellName};
ghost use Rattle.acas_rulings.specs.declared.ruling.Ruling.{Ruling};
ghost use Rattle.acas_rulings.specs.Rulings.{IsRulingOfBox, IsRulingOfCell};
ghost use Rattle.acas_rulings.specs.Intruder.{Manoeuvre, RatesFit};
ghost use Rattle.acas_rulings.specs.Verdicts.{IsMeetVerdict};
ghost use Rattle.acas_rulings.specs.declared.verdict.MeetVerdict.{MeetVerdict};

/// An area that is not clear in a window has a witness whose fractions are in lowest terms, and no other: the rule says every number
/// that is printed. The area is in order, of rates within the limits.
pub fn witnesses_are_one()
    ensures some { (m : ModelData) (advisory : ℕ) (area : Area) (w : Times) → IsModel m →
        advisory < m.grid.advisories →
        area.altitude.least ≤ℤ area.altitude.greatest → AreRates area.own → AreRates area.intruder →
        AreEnds w →
        ¬ IsClear m.half (demand_of m advisory) area w →
        (f : Flight) × IsWitnessOf m.half (demand_of m advisory) area w f
        × All IsReduced (flight_fractions f) }
    ensures one { (m : ModelData) (advisory : ℕ) (area : Area) (w : Times) (f g : Flight) → IsModel m →
        advisory < m.grid.advisories →
        IsWitnessOf m.half (demand_of m advisory) area w f →
        IsWitnessOf m.half (demand_of m advisory) area w g →
        All IsReduced (flight_fractions f) → All IsReduced (flight_fractions g) → f ≡ g }
{}

/// Each cell of a model has a ruling under each advice, and no other. So has each box under its advisory, where its altitudes and rates
/// are within the limits.
pub fn rulings_are_one()
    ensures cells_some { (m : ModelData) (name : CellName) → IsModel m → IsCellOf m (cell_of name) →
        name.advice < m.grid.advisories →
        (r : Ruling) × IsRulingOfCell m name r }
    ensures cells_one { (m : ModelData) (name : CellName) (r s : Ruling) → IsModel m →
        IsCellOf m (cell_of name) → name.advice < m.grid.advisories →
        IsRulingOfCell m name r → IsRulingOfCell m name s → r ≡ s }
    ensures boxes_some { (m : ModelData) (b : AuditedBox) → IsModel m → IsBoxOf m b →
        IsArea (area_of_box b.states) →
        (r : Ruling) × IsRulingOfBox m b r }
    ensures boxes_one { (m : ModelData) (b : AuditedBox) (r s : Ruling) → IsModel m → IsBoxOf m b →
        IsRulingOfBox m b r → IsRulingOfBox m b s → r ≡ s }
{}

/// Each box of a model has a verdict against an intruder that may change its rate, and no other: the rule says every number that is
/// printed. The intruder has some acceleration and may have the box's rates; a box has a verdict where its altitudes and rates are
/// within the limits.
pub fn meetings_are_one()
    ensures some { (m : ModelData) (may : Manoeuvre) (b : AuditedBox) → IsModel m → IsBoxOf m b →
        IsArea (area_of_box b.states) → 0 < may.accel → may.rate ≤ fastest → RatesFit may b.states.intruder →
        (v : MeetVerdict) × IsMeetVerdict m may b v }
    ensures one { (m : ModelData) (may : Manoeuvre) (b : AuditedBox) (v u : MeetVerdict) → IsModel m →
        IsBoxOf m b →
        0 < may.accel → IsMeetVerdict m may b v → IsMeetVerdict m may b u → v ≡ u }
{}
