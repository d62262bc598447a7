//! The block itself: a row of places, each of which holds a pair or nothing. It has all the code with a pointer.
ghost use Rattle.std.specs.Prelude.{◌≡◌, ℕ, ◌<◌, ◌≤◌, List, Option, Some, None, map, length, take, drop, replicate, slice_set, IfSome};
ghost use Rattle.acas_units.specs.declared.pair.Pair.{Pair as PairValue};
ghost use Rattle.circular_buffer.specs.Ownership.{cells_own, cells_lent};
ghost use Rattle.circular_buffer.specs.Places.{IsRun};
ghost use Rattle.acas_plane.specs.Ownership.{block_of, one_pair};
ghost use denote.RawPtr.{Ptr};

use acas_units::Pair;
use std::alloc::Allocator;
use std::marker::{Model, PhantomData};
use std::slice;

/// Places side by side. It owns the pairs that stand there, and the memory of all places.
pub(crate) struct Places {
    at: *mut Pair,
    ghost slots: { List (Option PairValue) },
}

impl Model for Places {
    ghost also_owns = { λ p. cells_own one_pair p.at p.slots };

    ghost also_shares = { λ p _ κ. cells_lent one_pair p.at p.slots κ };
}

/// The right to give the memory of so many places back to the allocator that it came from. It takes no space.
pub(crate) struct Right<A: Allocator> {
    marker: PhantomData<A>,
    ghost alloc: { A },
    ghost at: { Ptr },
    ghost len: { ℕ },
}

impl<A: Allocator> Model for Right<A> {
    ghost also_owns = { λ r. A.dealloc_token r.alloc (block_of r.len) r.at };
}

impl Places {
    /// So many places, none of which holds a pair, and the right to give them back. `None` is want of memory.
    pub(crate) fn make<A: Allocator>(alloc: &A, len: usize) -> Option<(Places, Right<A>)>
        requires { len ≤ 8_000_000 }
        ensures { IfSome result
            (λ m. (m.0.slots ≡ replicate len None) × (m.1.alloc ≡ alloc.now) × (m.1.at ≡ m.0.at)
            × (m.1.len ≡ len)) }
    {
        match alloc.allocate(len * 16, 8) {
            Ok(block) => {
                let at = block as *mut Pair;
                let marker = PhantomData;
                Some((Places { at }, Right { marker }))
            }
            Err(_) => None,
        }
    }

    /// Gives the memory of all places back, whatever stands there.
    pub(crate) fn free<A: Allocator>(self, right: Right<A>, alloc: &A, len: usize)
        requires { (right.alloc ≡ alloc.now) × (right.at ≡ self.at) × (right.len ≡ len)
            × (length self.slots ≡ len) }
    {
        let Places { at } = self;
        let Right { marker: _ } = right;
        unsafe { alloc.deallocate(at as *mut u8, len * 16, 8) }
    }

    /// Writes a pair at a place, whatever stands there.
    pub(crate) fn put(&mut self, index: usize, pair: Pair)
        requires { index < length self.old.slots }
        ensures { (self.new.at ≡ self.old.at)
            × (self.new.slots ≡ slice_set self.old.slots index (Some pair)) }
    {
        unsafe { self.at.add(index).write(pair) }
    }

    /// The pairs of so many places from one on, each of which holds a pair.
    pub(crate) fn run(&self, from: usize, len: usize) -> &[Pair]
        requires { IsRun self.now.slots from len }
        ensures { take len (drop from self.now.slots) ≡ map Some result.now }
    {
        unsafe { slice::from_raw_parts(self.at.add(from), len) }
    }
}
