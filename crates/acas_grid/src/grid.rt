//! The grid of a model.
ghost use Rattle.std.specs.Prelude.{◌≡◌, ◌*◌, ◌<◌, ◌≤◌};
ghost use Rattle.acas_spec.specs.Model.{entries, states, vertices};
ghost use Rattle.acas_grid.specs.Grid.{IsInside, IsLimited, IsLowerCorner, IsVertex, clamp_point, state_number, vertex_number};

use crate::axis::Axis;
use acas_spec::{Point, Vertex};
use acas_units::GREATEST_VERTICES;
use std::marker::Model;

/// The axes of relative altitude, own rate and intruder rate, how many advisories there are, and how many seconds a
/// table goes back, neither more than a model may have. In a model's grid the altitudes are in ticks and the rates
/// in ft/min.
#[derive(Drop)]
pub struct Grid {
    pub h: Axis,
    pub v0: Axis,
    pub v1: Axis,
    pub advisories: u32,
    pub horizon: u32,
}

impl Model for Grid {
    ghost use Rattle.acas_spec.specs.Model.{GridData};

    ghost Value = { GridData };

    ghost use Rattle.acas_grid.specs.Grid.{IsLimited};

    ghost view = { λ g. record { h = g.h; v0 = g.v0; v1 = g.v1; advisories = g.advisories; horizon = g.horizon } };

    ghost invariant = { λ g. IsLimited g.advisories g.horizon };
}

impl Grid {
    /// How many vertices the grid has.
    pub fn vertices(&self) -> u32
        ensures value { result ≡ vertices self.now }
        ensures few { result ≤ GREATEST_VERTICES * GREATEST_VERTICES * GREATEST_VERTICES }
    {
        self.h.len() * self.v0.len() * self.v1.len()
    }

    /// How many states the grid has: a vertex under each present advisory.
    pub fn states(&self) -> u32
        ensures value { result ≡ states self.now }
        ensures limited { IsLimited self.now.advisories self.now.horizon }
    {
        self.advisories * self.vertices()
    }

    /// How many entries a table over the grid has: one for each state in each layer, from 0 to the horizon.
    pub fn entries(&self) -> u64
        ensures { result ≡ entries self.now }
    {
        (u64::from(self.horizon) + 1) * u64::from(self.states())
    }

    /// The number of a vertex, with the place on the last axis running fastest.
    pub fn vertex_number(&self, vertex: Vertex) -> u32
        requires { IsVertex self.now vertex }
        ensures value { result ≡ vertex_number self.now vertex }
        ensures below { result < vertices self.now }
    {
        // Opens the altitudes: they are so few that no product is too large.
        let _ = self.h.len();
        (vertex.i * self.v0.len() + vertex.j) * self.v1.len() + vertex.k
    }

    /// The vertex of a number.
    #[tactic(auto, using(crate::proofs::Vertices::from_parts))]
    pub fn vertex_of(&self, number: u32) -> Vertex
        requires { number < vertices self.now }
        ensures vertex { IsVertex self.now result }
        ensures number { vertex_number self.now result ≡ number }
        ensures inverse { (y : Vertex) → IsVertex self.now y → vertex_number self.now y ≡ number →
            result ≡ y }
    {
        let row = number / self.v1.len();
        Vertex {
            i: row / self.v0.len(),
            j: row % self.v0.len(),
            k: number % self.v1.len(),
        }
    }

    /// The number of a state, from its present advisory and the number of its vertex.
    pub fn state_number(&self, present: u8, vertex: u32) -> u32
        requires present { present < self.now.advisories }
        requires vertex { vertex < vertices self.now }
        ensures value { result ≡ state_number self.now present vertex }
        ensures below { result < states self.now }
    {
        u32::from(present) * self.vertices() + vertex
    }

    /// The nearest point of the grid.
    pub fn clamp(&self, point: Point) -> Point
        ensures value { result ≡ clamp_point self.now point }
        ensures inside { IsInside self.now result }
    {
        Point {
            h: self.h.clamp(point.h),
            v0: self.v0.clamp(point.v0),
            v1: self.v1.clamp(point.v1),
        }
    }

    /// The lower corner of the cell that holds a point.
    pub fn locate(&self, point: Point) -> Vertex
        requires { IsInside self.now point }
        ensures { IsLowerCorner self.now result point }
    {
        Vertex {
            i: self.h.cell_of(point.h),
            j: self.v0.cell_of(point.v0),
            k: self.v1.cell_of(point.v1),
        }
    }
}
