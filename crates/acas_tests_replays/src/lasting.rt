//! The longest encounter, with the largest numbers.
use crate::parts::Encountered;
use crate::rows::{replayed, sink_with};
use std::alloc::Global;

// Encounters of 600 seconds in which both aircraft accelerate away from each other: an item of the own list and one of the intruder's,
// the start, and how what is printed ends.
const ROWS: [(&str, &str, &str, &str); 2] = [
    (
        "-2000, ",
        "2000, ",
        "clear 3000000 5000 10000 -10000 10000",
        "599 descend range 5000 ticks 1460364000 own -1208000 intruder 1208000 apart\nseconds 600 contact 0\n",
    ),
    (
        "2000, ",
        "-2000, ",
        "clear 3000000 5000 -10000 10000 -10000",
        "599 climb range 5000 ticks -1460364000 own 1208000 intruder -1208000 apart\nseconds 600 contact 0\n",
    ),
];

const ADVICES: &str = "111122220000000000000000";

// Whether an encounter with 600 items in each list is replayed with no second in contact, and what is printed ends so.
fn ends_with(alloc: Global, own: &str, intruder: &str, start: &str, want: &str) -> Option<bool> {
    let mut sink = sink_with(alloc, &[], 100_000)?;
    let own = own.repeat(alloc, 600).ok()?;
    let intruder = intruder.repeat(alloc, 600).ok()?;
    let words = Encountered {
        start,
        own: own.as_str(),
        intruder: intruder.as_str(),
    };
    let answer = replayed(alloc, "1 1000", ADVICES, &words, &mut sink);
    Some(answer == Some(Ok(0)) && sink.written().ends_with(want.as_bytes()))
}

#[test]
fn numbers_stay_within_their_types(rt: HostRuntime) {
    for (own, intruder, start, want) in ROWS {
        let met = ends_with(rt.alloc(), own, intruder, start, want);
        assert!(rt; met == Some(true), "{start}");
    }
}
