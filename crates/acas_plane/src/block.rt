//! A block of two planes. All of it is safe code over the row of places.
ghost use Rattle.std.specs.Prelude.{◌≡◌, ◌+◌, ◌<◌, ◌≤◌, ◌^◌, Some, None, length, map, replicate, slice_get, IfOk};
ghost use Rattle.std.specs.Bool.{OnFalse, OnTrue};
ghost use Rattle.acas_plane.specs.Plane.{IsFree, IsWritten, fresh, missing_in, with_pair};

use crate::places::{Places, Right};
use crate::turned::{Turned, TurnedPair};
use acas_units::Pair;
use std::alloc::{AllocError, Global};
use std::marker::Model;

/// One block of memory for two planes of pairs, each with a place for each state. Contracts see the number of states, the pairs of
/// the plane that is finished, of which there are none at first, and the places of the plane that is being written, of which none
/// is written at first. A place that was not written cannot be read. It takes 33 bytes for each state, all at the start.
pub struct PlaneBlock {
    places: Places,
    right: Right<Global>,
    alloc: Global,
    states: u32,
    work_from: usize,
    finished_from: usize,
    count: u32,
    marks: Vec<bool>,
    missing: u32,
}

impl Model for PlaneBlock {
    ghost use Rattle.acas_plane.specs.Plane.{Plane};
    ghost use Rattle.acas_plane.specs.Fields.{IsPlane, plane_of};

    ghost Value = { Plane };

    ghost view = { plane_of };

    ghost invariant = { IsPlane };
}

impl PlaneBlock {
    /// A block for so many states, at most 4,000,000, in which nothing stands.
    pub fn make(alloc: Global, states: u32) -> Result<PlaneBlock, AllocError>
        requires { states ≤ 4_000_000 }
        ensures { IfOk result (λ b. b ≡ fresh states) }
    {
        let marks = vec![in alloc; false; states as usize]?;
        match Places::make(&alloc, 2 * states as usize) {
            Some((places, right)) => Ok(PlaneBlock {
                places,
                right,
                alloc,
                states,
                work_from: 0,
                finished_from: states as usize,
                count: 0,
                marks,
                missing: states,
            }),
            None => Err(AllocError),
        }
    }

    /// Writes a pair at a place that was not written.
    pub fn put(&mut self, place: u32, pair: Pair)
        requires in_range { place < self.old.states }
        requires free { IsFree self.old.work place }
        ensures { self.new ≡ with_pair self.old place pair }
    {
        let at = self.work_from + place as usize;
        self.places.put(at, pair);
        self.marks[place as usize] = true;
        self.missing -= 1;
    }

    /// Whether a place was written.
    pub fn written(&self, place: u32) -> bool
        requires { place < self.now.states }
        ensures yes { OnTrue result (IsWritten self.now.work place) }
        ensures no { OnFalse result (IsFree self.now.work place) }
    {
        self.marks[place as usize]
    }

    /// How many places were not written.
    pub fn missing(&self) -> u32
        ensures { result ≡ missing_in self.now.work }
    {
        self.missing
    }

    /// Makes the written plane the finished one, and begins another. It counts the pairs.
    pub fn turn(&mut self, turned: &mut Turned)
        requires full { missing_in self.old.work ≡ 0 }
        requires in_range { turned.old + self.old.states < 2 ^ 64 }
        ensures states { self.new.states ≡ self.old.states }
        ensures finished { map Some self.new.finished ≡ self.old.work }
        ensures work { self.new.work ≡ replicate self.old.states None }
        ensures turned { turned.new ≡ turned.old + self.old.states }
    {
        let finished_from = self.work_from;
        self.work_from = self.finished_from;
        self.finished_from = finished_from;
        self.count = self.states;
        self.marks.fill(false);
        self.missing = self.states;
        turned.raise(u64::from(self.states), &TurnedPair { by_a_turn: () });
    }

    /// The pair of the finished plane at a place.
    pub fn last(&self, place: u32) -> Pair
        requires { place < length self.now.finished }
        ensures { slice_get self.now.finished place ≡ Some result }
    {
        self.finished()[place as usize]
    }

    /// The pairs of the finished plane, without a copy.
    pub fn finished(&self) -> &[Pair]
        ensures { result.now ≡ self.now.finished }
    {
        self.places.run(self.finished_from, self.count as usize)
    }
}

impl Drop for PlaneBlock {
    fn drop(self) {
        let PlaneBlock {
            places,
            right,
            alloc,
            states,
            work_from: _,
            finished_from: _,
            count: _,
            marks: _,
            missing: _,
        } = self;
        places.free(right, &alloc, 2 * states as usize);
    }
}
