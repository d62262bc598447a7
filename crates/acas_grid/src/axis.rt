//! An axis: numbers that rise, neither too few nor too many.
ghost use Rattle.std.specs.Prelude.{◌≡◌, ◌+◌, ◌<◌, ◌≤◌, ◌≤ℤ◌, ◌<ℤ◌, length, IfNone, IfSome};
ghost use Rattle.std.specs.Int.{int_max, int_min};
ghost use Rattle.acas_spec.specs.Axis.{IsAxis, Rises, place_value};
ghost use Rattle.acas_grid.specs.Axis.{IsBetweenEnds, IsCell, axis_of, clamp_to, first_fall};

use acas_units::{GREATEST_VERTICES, LEAST_VERTICES};
use std::marker::Model;

/// Why a list of numbers is no axis. The causes are looked at in this order.
#[derive(Clone, Copy, PartialEq, Eq)]
pub enum AxisFault {
    /// There are fewer than [`LEAST_VERTICES`] numbers.
    TooShort,
    /// There are more than [`GREATEST_VERTICES`] numbers.
    TooLong,
    /// The number at `place` is the first that is not above the one before it.
    NotRising { place: u32 },
}

/// The numbers of an axis, from [`LEAST_VERTICES`] to [`GREATEST_VERTICES`] of them, each above the one before it.
/// Contracts see it as their list.
#[derive(Drop)]
pub struct Axis {
    values: Vec<i64>,
}

impl Model for Axis {
    ghost use Rattle.std.specs.Prelude.{List, ℤ};

    ghost Value = { List ℤ };

    ghost use Rattle.acas_spec.specs.Axis.{IsAxis};

    ghost view = { λ a. a.values.items };

    ghost invariant = { λ a. IsAxis a.values.items };
}

// The first place whose number is not above the one before it.
#[tactic(auto, unfolding(acas_spec::specs::Axis::Rises))]
fn falls_at(values: &[i64]) -> Option<usize>
    requires { 0 < length values.now }
    ensures fall { result ≡ first_fall 0 values.now }
    ensures rising { IfNone result (Rises values.now) }
    ensures within { IfSome result (λ place. place < length values.now) }
{
    for place in 1..values.len() {
        if values[place] <= values[place - 1] {
            return Some(place);
        }
    }
    None
}

// The nearest number from first to last.
fn nearest(x: i64, first: i64, last: i64) -> i64
    requires { first ≤ℤ last }
    ensures value { result ≡ int_max first (int_min x last) }
    ensures above { first ≤ℤ result }
    ensures below { result ≤ℤ last }
{
    x.min(last).max(first)
}

// The first place whose next number is above x, but never the last.
fn cell_at(values: &[i64], x: i64) -> usize
    requires some { 2 ≤ length values.now }
    requires between { IsBetweenEnds values.now x }
    ensures before_last { result + 1 < length values.now }
    ensures lower { place_value values.now result ≤ℤ x }
    ensures upper { x ≤ℤ place_value values.now (result + 1) }
    ensures next { result + 2 < length values.now → x <ℤ place_value values.now (result + 1) }
{
    let mut place = 0;
    while place + 2 < values.len() && values[place + 1] <= x {
        place += 1;
    }
    place
}

impl Axis {
    /// The axis of these numbers, or why they are none.
    #[tactic(auto, unfolding(crate::specs::Axis::axis_of))]
    pub fn new(values: Vec<i64>) -> Result<Axis, AxisFault>
        ensures { result ≡ axis_of values.items }
    {
        if values.len() < LEAST_VERTICES as usize {
            return Err(AxisFault::TooShort);
        }
        if values.len() > GREATEST_VERTICES as usize {
            return Err(AxisFault::TooLong);
        }
        match falls_at(values.as_slice()) {
            Some(place) => Err(AxisFault::NotRising {
                place: place as u32,
            }),
            None => Ok(Axis { values }),
        }
    }

    /// How many numbers the axis has.
    pub fn len(&self) -> u32
        ensures value { result ≡ length self.now }
        ensures axis { IsAxis self.now }
    {
        self.values.len() as u32
    }

    /// The number at a place of the axis.
    pub fn value(&self, place: u32) -> i64
        requires { place < length self.now }
        ensures value { result ≡ place_value self.now place }
        ensures axis { IsAxis self.now }
    {
        self.values[place as usize]
    }

    /// The nearest number between the ends of the axis.
    pub fn clamp(&self, x: i64) -> i64
        ensures value { result ≡ clamp_to self.now x }
        ensures between { IsBetweenEnds self.now result }
    {
        let last = self.value(self.len() - 1);
        let first = self.value(0);
        nearest(x, first, last)
    }

    /// The place where the cell of a number begins: the greatest whose number is at or below it, but never the last.
    pub fn cell_of(&self, x: i64) -> u32
        requires { IsBetweenEnds self.now x }
        ensures { IsCell self.now result x }
    {
        cell_at(self.values.as_slice(), x) as u32
    }
}
