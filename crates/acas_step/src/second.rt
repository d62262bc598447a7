//! One second of flight. The state variables and the sigma points follow the vertical advisories of ATC-371 (Kochenderfer
//! and Chryssanthacopoulos, MIT Lincoln Laboratory, 2011).
ghost use Rattle.std.specs.Prelude.{◌≡◌, ◌<◌, ◌≤◌, ◌*◌, pos, ◌+ℤ◌, ◌-ℤ◌, ◌*ℤ◌, length, unsigned_abs};
ghost use Rattle.acas_spec.specs.Model.{advisory_at, sigma_at, vertices};
ghost use Rattle.acas_grid.specs.Grid.{IsInside, IsVertex};
ghost use Rattle.acas_process.specs.Step as process;
ghost use Rattle.acas_grid.specs.States as numbers;
ghost use Rattle.acas_means.specs.Reach.{change_from, own_rate};
ghost use Rattle.acas_step.specs.Second.{IsAltitude, IsAxisPoint, IsNoise, IsOwnChange, IsPull, IsRate, IsRateChange, led_past};

use acas_base::Model;
use acas_grid::{Point, Vertex, vertex_at};
use acas_spec::SigmaPoint;
use acas_units::GREATEST_RATE;

// How much the pilot changes the own rate v within a second, where an advisory asks for a rate from lo to hi.
#[tactic(auto, using(std::proofs::lemmas::Int::clamps))]
fn command(lo: i64, hi: i64, pull: i64, v: i64) -> i64
    requires lo { IsRate lo }
    requires hi { IsRate hi }
    requires pull { IsPull pull }
    requires rate { IsRate v }
    ensures value { result ≡ process.command lo hi pull v }
    ensures small { IsRateChange result }
{
    if v < lo {
        return pull.min(lo - v);
    }
    if hi < v {
        let fall = pull.min(v - hi);
        return -fall;
    }
    0
}

// The relative climb of one second at these rates.
fn climb(v0: i64, v1: i64) -> i64
    requires v0 { IsRate v0 }
    requires v1 { IsRate v1 }
    ensures value { result ≡ pos 2 *ℤ (v1 -ℤ v0) }
    ensures small { unsigned_abs result ≤ 4 * unsigned_abs GREATEST_RATE }
{
    2 * (v1 - v0)
}

// The relative altitude after a climb and changes of both rates.
fn next_altitude(h: i64, climb: i64, own: i64, intruder: i64) -> i64
    requires h { IsAltitude h }
    requires climb { unsigned_abs climb ≤ 4 * unsigned_abs GREATEST_RATE }
    requires own { IsOwnChange own }
    requires intruder { IsNoise intruder }
    ensures { result ≡ h +ℤ climb +ℤ intruder -ℤ own }
{
    h + climb + intruder - own
}

// One second of flight in which both rates change evenly by so much.
fn after_second(from: Point, own: i64, intruder: i64) -> Point
    requires from { IsAxisPoint from }
    requires own { IsOwnChange own }
    requires intruder { IsNoise intruder }
    ensures { result ≡ process.after_second from own intruder }
{
    let h = next_altitude(from.h, climb(from.v0, from.v1), own, intruder);
    let v0 = from.v0 + own;
    let v1 = from.v1 + intruder;
    Point { h, v0, v1 }
}

// The point at a vertex.
fn vertex_point(model: &Model, vertex: Vertex) -> Point
    requires { IsVertex model.now.grid vertex }
    ensures value { result ≡ process.vertex_point model.now.grid vertex }
    ensures on_axes { IsAxisPoint result }
{
    let grid = model.grid();
    Point {
        h: grid.h.value(vertex.i),
        v0: grid.v0.value(vertex.j),
        v1: grid.v1.value(vertex.k),
    }
}

// The sigma point of a number.
fn noise(model: &Model, sigma: u32) -> SigmaPoint
    requires { sigma < length model.now.sigmas }
    ensures value { result ≡ sigma_at model.now sigma }
    ensures own { IsNoise result.own }
    ensures intruder { IsNoise result.intruder }
{
    let _ = model.grid();
    model.points()[sigma as usize]
}

// The change of the own rate within a second: what an advisory of the model commands, and a noise.
fn own_change(model: &Model, advisory: u8, v: i64, noise: i64) -> i64
    requires advisory { advisory < model.now.grid.advisories }
    requires rate { IsRate v }
    requires noise { IsNoise noise }
    ensures value { let asked = advisory_at model.now advisory in
        result ≡ process.command asked.lo asked.hi (pos model.now.pull) v +ℤ noise }
    ensures small { IsOwnChange result }
{
    let _ = model.grid();
    let pull = model.pull();
    let asked = model.advisory(advisory);
    command(asked.lo, asked.hi, pull, v) + noise
}

// The own rate at a vertex.
pub fn own_rate_at(model: &Model, vertex: u32) -> i64
    requires { vertex < vertices model.now.grid }
    ensures value { result ≡ own_rate model.now.grid (numbers.vertex_at model.now.grid vertex) }
    ensures rate { IsRate result }
{
    vertex_point(model, vertex_at(model.grid(), vertex)).v0
}

// How much the pilot changes an own rate within a second under an advisory.
pub(crate) fn pilot_change(model: &Model, advisory: u8, v: i64) -> i64
    requires advisory { advisory < model.now.grid.advisories }
    requires rate { IsRate v }
    ensures { result ≡ change_from model.now v advisory }
{
    own_change(model, advisory, v, 0)
}

// Where a sigma point takes a vertex within a second under an advisory, be that beside the grid.
pub fn led_past(model: &Model, from: Vertex, advisory: u8, sigma: u32) -> Point
    requires vertex { IsVertex model.now.grid from }
    requires advisory { advisory < model.now.grid.advisories }
    requires sigma { sigma < length model.now.sigmas }
    ensures value { result ≡ led_past model.now from advisory sigma }
    ensures near { unsigned_abs result.h ≤ 2_000_000 }
{
    let start = vertex_point(model, from);
    let noise = noise(model, sigma);
    let own = own_change(model, advisory, start.v0, noise.own);
    after_second(start, own, noise.intruder)
}

// Where a sigma point takes a vertex within a second under an advisory.
pub fn moved_from(model: &Model, from: Vertex, advisory: u8, sigma: u32) -> Point
    requires vertex { IsVertex model.now.grid from }
    requires advisory { advisory < model.now.grid.advisories }
    requires sigma { sigma < length model.now.sigmas }
    ensures value { result ≡ process.moved model.now from advisory sigma }
    ensures inside { IsInside model.now.grid result }
{
    let end = led_past(model, from, advisory, sigma);
    model.grid().clamp(end)
}

/// Where a sigma point takes a vertex within a second under an advisory: the nearest point of the grid.
pub fn moved(model: &Model, vertex: u32, advisory: u8, sigma: u32) -> Point
    requires vertex { vertex < vertices model.now.grid }
    requires advisory { advisory < model.now.grid.advisories }
    requires sigma { sigma < length model.now.sigmas }
    ensures value { let x = numbers.vertex_at model.now.grid vertex in
        result ≡ process.moved model.now x advisory sigma }
    ensures inside { IsInside model.now.grid result }
{
    moved_from(model, vertex_at(model.grid(), vertex), advisory, sigma)
}
