//! The times at which ranges and closing speeds are in horizontal contact.
ghost use Rattle.std.specs.Prelude.{◌≡◌, ◌+◌, ◌-◌, ◌*◌, ◌<◌, ◌≤◌, pos, ◌*ℤ◌};
ghost use Rattle.acas_spec.specs.Limits.{IsModel};
ghost use Rattle.acas_frac.specs.Fraction.{Fraction};
ghost use Rattle.acas_flight.specs.Window.{IsWindowOfBox, IsWindowOfCell};
ghost use Rattle.acas_areas.specs.Limits.{IsEnd, IsFlownInTime, interval_of};
ghost use Rattle.acas_areas.specs.View.{times_of};

use crate::numbers::natural;
use acas_areas::Window;
use acas_base::Model;
use acas_frac::Frac;
use acas_units::{GREATEST_CLOSING, GREATEST_HORIZON, GREATEST_RADIUS, Span, WINDOW_SECONDS};

/// A time as a fraction: from 0 to 600 seconds, over a closing speed at most.
#[tactic(auto, using(acas_flight_windows::proofs::Ends::quotient_reduces))]
pub fn time_of(num: u64, den: u64) -> Frac
    requires some { 0 < den }
    requires den { den ≤ GREATEST_CLOSING }
    requires num { num ≤ WINDOW_SECONDS * den }
    ensures value { Fraction.num result *ℤ pos den ≡ pos num *ℤ pos (Fraction.den result) }
    ensures end { IsEnd result }
{
    Frac::new(num as i128, den as i128)
}

// What a model says of horizontal contact: the radius in ft, and the closing speeds in ft/s.
#[derive(Clone, Copy)]
struct Disc {
    radius: u64,
    slow: u64,
    fast: u64,
}

// What a model says of it.
fn disc_of(model: &Model) -> Disc
    ensures radius { result.radius ≡ model.now.radius }
    ensures slow { result.slow ≡ model.now.least_closing }
    ensures fast { result.fast ≡ model.now.greatest_closing }
    ensures valid { IsModel model.now }
{
    let _ = model.grid();
    let closing = model.closing();
    Disc {
        radius: model.radius() as u64,
        slow: closing.least as u64,
        fast: closing.greatest as u64,
    }
}

// From n seconds on, through a second and the way through the puck.
fn through(radius: u64, slow: u64, n: u64) -> Window
    requires some { 0 < slow }
    requires slow { slow ≤ GREATEST_CLOSING }
    requires radius { radius ≤ GREATEST_RADIUS }
    requires number { n < GREATEST_HORIZON }
    requires short { (n + 1) * slow + 2 * radius ≤ WINDOW_SECONDS * slow }
    ensures from { Fraction.num (result.from) *ℤ pos 1 ≡ pos n *ℤ pos (Fraction.den (result.from)) }
    ensures to { Fraction.num (result.to) *ℤ pos slow ≡
        pos ((n + 1) * slow + 2 * radius) *ℤ pos (Fraction.den (result.to)) }
{
    Window {
        from: time_of(n, 1),
        to: time_of((n + 1) * slow + 2 * radius, slow),
    }
}

/// The times at which some range and closing speed of a cell of number n, one that loses horizontal separation in n to n + 1
/// seconds, are in horizontal contact: from n to n + 1 and the time through the puck at the least closing speed.
pub fn window_of_cell(model: &Model, n: u32) -> Window
    requires { n < model.now.grid.horizon }
    ensures { IsWindowOfCell model.now n (times_of result) }
{
    let disc = disc_of(model);
    through(disc.radius, disc.slow, u64::from(n))
}

// From (near - radius) / fast, or 0, to (far + radius) / slow.
fn between(radius: u64, near: u64, far: u64, slow: u64, fast: u64) -> Window
    requires some { 0 < slow }
    requires speeds { slow ≤ fast }
    requires fast { fast ≤ GREATEST_CLOSING }
    requires ranges { near ≤ far }
    requires radius { radius ≤ GREATEST_RADIUS }
    requires short { far + radius ≤ WINDOW_SECONDS * slow }
    ensures from { Fraction.num (result.from) *ℤ pos fast ≡
        pos (near - radius) *ℤ pos (Fraction.den (result.from)) }
    ensures to { Fraction.num (result.to) *ℤ pos slow ≡ pos (far + radius) *ℤ pos (Fraction.den (result.to)) }
{
    Window {
        from: time_of(near.saturating_sub(radius), fast),
        to: time_of(far + radius, slow),
    }
}

/// The times at which some range and closing speed of a box are in horizontal contact. The range is not negative, the closing
/// speed is from 1 to 5000, and the greatest range and the radius are flown within 600 seconds at the least closing speed.
pub fn window_of_box(model: &Model, range: Span, closing: Span) -> Window
    requires { IsFlownInTime model.now (interval_of range) (interval_of closing) }
    ensures { IsWindowOfBox model.now (interval_of range) (interval_of closing) (times_of result) }
{
    let disc = disc_of(model);
    between(
        disc.radius,
        natural(range.least),
        natural(range.greatest),
        natural(closing.least),
        natural(closing.greatest),
    )
}
