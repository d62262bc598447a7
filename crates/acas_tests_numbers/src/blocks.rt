//! What stands in a block, and blocks that are let go in each state.
ghost use Rattle.std.specs.Prelude.{◌≡◌, ◌<◌};

use acas_plane::{PlaneBlock, Turned};
use acas_units::Pair;
use std::alloc::Global;

// What is done with a block before it is let go: the places that this number divides are written (with 0 none is), whether a full plane
// is turned then, and the places of the next plane that are written, in the same way.
type Stage = (u32, bool, u32);

// What is seen of a block at the end: how many places are missing, the sum of the upper values of the finished plane and the last of
// them, and how many states were turned.
type Seen = (u32, i64, i64, u64);

// The number of a place counted from 1, and its negative.
fn pair_of(place: u32) -> Pair {
    let upper = i64::from(place) + 1;
    Pair {
        upper,
        lower: -upper,
    }
}

// Writes the places that a number divides.
fn write_places(block: &mut PlaneBlock, states: u32, step: u32)
    requires { block.old.states ≡ states }
    ensures { block.new.states ≡ states }
{
    if step == 0 {
        return;
    }
    for place in 0..states {
        if place % step == 0 && !block.written(place) {
            block.put(place, pair_of(place));
        }
    }
}

// Turns a plane where it is full.
fn turn_full(block: &mut PlaneBlock, states: u32, turned: &mut Turned)
    requires states { block.old.states ≡ states }
    requires turned { turned.old ≡ 0 }
    ensures { block.new.states ≡ states }
{
    if block.missing() == 0 {
        block.turn(turned);
    }
}

// The sum of the upper values of the finished plane, and the last of them.
fn sum_of(block: &PlaneBlock) -> (i64, i64) {
    let mut sum = 0i64;
    for pair in block.finished() {
        sum = sum.wrapping_add(pair.upper);
    }
    let count = block.finished().len();
    if count == 0 || count > 4_000_000 {
        return (sum, 0);
    }
    (sum, block.last(count as u32 - 1).upper)
}

// Takes a block to a stage, looks at it, and lets it go.
fn seen_at(alloc: Global, states: u32, stage: Stage) -> Option<Seen> {
    if states > 4_000_000 {
        return None;
    }
    let mut block = PlaneBlock::make(alloc, states).ok()?;
    let mut turned = Turned::new();
    let (step, turns, next_step) = stage;
    write_places(&mut block, states, step);
    if turns {
        turn_full(&mut block, states, &mut turned);
    }
    write_places(&mut block, states, next_step);
    let (sum, last) = sum_of(&block);
    Some((block.missing(), sum, last, turned.count()))
}

// Nothing is written; every second place; all; all, and turned; that, and every second place of the next plane.
const NOTHING: Stage = (0, false, 0);

const HALF: Stage = (2, false, 0);

const FULL: Stage = (1, false, 0);

const TURNED: Stage = (1, true, 0);

const TURNED_HALF: Stage = (1, true, 2);

// The greatest number of states here, and the sum of the numbers from 1 to it.
const MOST: u32 = 4_000_000;

const SUM: i64 = 8_000_002_000_000;

// The states of a block, a stage, and what is seen of the block there.
const SEEN: [(u32, Stage, Seen); 15] = [
    (1, NOTHING, (1, 0, 0, 0)),
    (1, HALF, (0, 0, 0, 0)),
    (1, FULL, (0, 0, 0, 0)),
    (1, TURNED, (1, 1, 1, 1)),
    (1, TURNED_HALF, (0, 1, 1, 1)),
    (2, NOTHING, (2, 0, 0, 0)),
    (2, HALF, (1, 0, 0, 0)),
    (2, FULL, (0, 0, 0, 0)),
    (2, TURNED, (2, 3, 2, 2)),
    (2, TURNED_HALF, (1, 3, 2, 2)),
    (MOST, NOTHING, (4_000_000, 0, 0, 0)),
    (MOST, HALF, (2_000_000, 0, 0, 0)),
    (MOST, FULL, (0, 0, 0, 0)),
    (MOST, TURNED, (4_000_000, SUM, 4_000_000, 4_000_000)),
    (MOST, TURNED_HALF, (2_000_000, SUM, 4_000_000, 4_000_000)),
];

#[test]
fn blocks_are_let_go_in_each_state(rt: HostRuntime) {
    for (states, stage, seen) in SEEN {
        assert!(rt;
            seen_at(rt.alloc(), states, stage) == Some(seen),
            "{states} states"
        );
    }
}
