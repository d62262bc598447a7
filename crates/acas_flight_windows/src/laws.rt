//! The law of windows. The function does nothing: each clause is a law.
ghost use Rattle.std.specs.Prelude.{ℕ, ◌+◌, ◌-◌, ◌*◌, ◌<◌, ◌≤◌, ◌↔◌, pos};
ghost use Rattle.acas_spec.specs.Limits.{IsModel};
ghost use Rattle.acas_spec.specs.Model.{ModelData};
ghost use Rattle.acas_flight.specs.State.{Interval};
ghost use Rattle.acas_flight.specs.Window.{IsContactTimeOfBox, IsContactTimeOfCell};

/// The times of horizontal contact in numbers. Those of a cell of n seconds go from n to n + 1 and the time through the puck at the
/// least closing speed. Those of a box go from when the least range comes within the radius at the greatest closing speed to when
/// the greatest range leaves it at the least.
pub fn windows_in_numbers()
    ensures cells { (m : ModelData) (n q t : ℕ) → IsModel m → 0 < q → let slow = m.least_closing in
        ((n * q ≤ t) × (slow * t ≤ slow * ((n + 1) * q) + 2 * m.radius * q)) ↔ IsContactTimeOfCell m n q t }
    ensures boxes { (radius near far slow fast q t : ℕ) → 0 < q → near ≤ far → slow ≤ fast →
        let ranges : Interval = record { least = pos near; greatest = pos far } in
        let speeds : Interval = record { least = pos slow; greatest = pos fast } in
        (((near - radius) * q ≤ t * fast) × (t * slow ≤ (far + radius) * q))
        ↔ IsContactTimeOfBox radius ranges speeds q t }
{}
