//! Whole replays.
use crate::rows::{row_replayed, sink_with};
use acas_outside::PrintFault;
use std::alloc::Global;

// A second that is in contact only between its ends, and then one that is not.
const WORKED: &str = r"1 100 : 111122220000000000000000 : clear 500 500 101 240 0 : -480, 0 : 0, 0
0 descend range 500 ticks 12120 own 240 intruder 0 contact
1 clear range 0 ticks 12120 own -240 intruder 0 apart
seconds 2 contact 1

1 100 : 111122220000000000000000 : clear 500 500 101 240 0 : -480, 0, 0, 0 : 0, 0, 0, 0
0 descend range 500 ticks 12120 own 240 intruder 0 contact
1 clear range 0 ticks 12120 own -240 intruder 0 apart
2 descend range -500 ticks 12600 own -240 intruder 0 apart
3 clear range -1000 ticks 13080 own -240 intruder 0 apart
seconds 4 contact 1";

// The layer that advises: none beyond the horizon, none where the intruder has left the radius, and none at all at horizon 0.
const LAYERS: &str =
    r"2 100 : 111111110000000000000000222222220000000000000000 : clear 1501 500 -335 0 0 : 0 : 0
0 clear range 1501 ticks -40200 own 0 intruder 0 apart
seconds 1 contact 0

2 100 : 111111110000000000000000222222220000000000000000 : clear 1500 500 -335 0 0 : 0 : 0
0 descend range 1500 ticks -40200 own 0 intruder 0 apart
seconds 1 contact 0

2 100 : 111111110000000000000000222222220000000000000000 : clear 1001 500 -335 0 0 : 0 : 0
0 descend range 1001 ticks -40200 own 0 intruder 0 apart
seconds 1 contact 0

2 100 : 111111110000000000000000222222220000000000000000 : clear 1000 500 -335 0 0 : 0 : 0
0 climb range 1000 ticks -40200 own 0 intruder 0 apart
seconds 1 contact 0

2 100 : 111111110000000000000000222222220000000000000000 : clear 0 500 -335 0 0 : 0 : 0
0 climb range 0 ticks -40200 own 0 intruder 0 apart
seconds 1 contact 0

1 100 : 111111111111111111111111 : clear 0 500 -335 0 0 : 0, 0 : 0, 0
0 climb range 0 ticks -40200 own 0 intruder 0 apart
1 climb range -500 ticks -40200 own 0 intruder 0 apart
seconds 2 contact 0

1 100 : 111111111111111111111111 : clear 0 501 -335 0 0 : 0, 0 : 0, 0
0 climb range 0 ticks -40200 own 0 intruder 0 apart
1 clear range -501 ticks -40200 own 0 intruder 0 apart
seconds 2 contact 0

0 100 :  : clear 500 500 -335 0 0 : 0 : 0
0 clear range 500 ticks -40200 own 0 intruder 0 apart
seconds 1 contact 0";

// The vertex: the first of several that are equally near, on each axis the nearer one; and the present advisory is the last advice.
const VERTICES: &str = r"1 100 : 122222220000000000000000 : clear 500 500 -585 30 -30 : 0 : 0
0 climb range 500 ticks -70200 own 30 intruder -30 apart
seconds 1 contact 0

1 100 : 222212220000000000000000 : clear 500 500 -584 30 -30 : 0 : 0
0 climb range 500 ticks -70080 own 30 intruder -30 apart
seconds 1 contact 0

1 100 : 221222220000000000000000 : clear 500 500 -585 31 -30 : 0 : 0
0 climb range 500 ticks -70200 own 31 intruder -30 apart
seconds 1 contact 0

1 100 : 212222220000000000000000 : clear 500 500 -585 30 -29 : 0 : 0
0 climb range 500 ticks -70200 own 30 intruder -29 apart
seconds 1 contact 0

1 100 : 222222210000000000000000 : clear 500 500 10000 10000 10000 : 0 : 0
0 climb range 500 ticks 1200000 own 10000 intruder 10000 apart
seconds 1 contact 0

1 100 : 122222220000000000000000 : clear 500 500 -10000 -10000 -10000 : 0 : 0
0 climb range 500 ticks -1200000 own -10000 intruder -10000 apart
seconds 1 contact 0

1 100 : 000000000000000011111111 : descend 500 500 -335 0 0 : 0 : 0
0 climb range 500 ticks -40200 own 0 intruder 0 apart
seconds 1 contact 0

1 100 : 222222221111111100000000 : clear 500 500 -335 0 0 : 0, 0, 0 : 0, 0, 0
0 descend range 500 ticks -40200 own 0 intruder 0 apart
1 clear range 0 ticks -40200 own 0 intruder 0 apart
2 descend range -500 ticks -40200 own 0 intruder 0 apart
seconds 3 contact 0";

// Contact: at the edge of the puck, from above and from below, as it passes through, and only while the range is near.
const CONTACTS: &str = r"1 100 : 000000000000000000000000 : clear 500 500 101 239 0 : -480 : 0
0 clear range 500 ticks 12120 own 239 intruder 0 apart
seconds 1 contact 0

1 100 : 000000000000000000000000 : clear 500 500 -101 -240 0 : 480 : 0
0 clear range 500 ticks -12120 own -240 intruder 0 contact
seconds 1 contact 1

1 100 : 000000000000000000000000 : clear 500 500 -101 -239 0 : 480 : 0
0 clear range 500 ticks -12120 own -239 intruder 0 apart
seconds 1 contact 0

1 100 : 000000000000000000000000 : clear 1000 500 100 0 0 : 0 : 0
0 clear range 1000 ticks 12000 own 0 intruder 0 contact
seconds 1 contact 1

1 100 : 000000000000000000000000 : clear 1001 500 100 0 0 : 0 : 0
0 clear range 1001 ticks 12000 own 0 intruder 0 apart
seconds 1 contact 0

1 1 : 000000000000000000000000 : clear 500 500 10 0 -10000 : 0 : 0
0 clear range 500 ticks 1200 own 0 intruder -10000 contact
seconds 1 contact 1

1 1 : 000000000000000000000000 : clear 533 500 10 0 -10000 : 0 : 0
0 clear range 533 ticks 1200 own 0 intruder -10000 contact
seconds 1 contact 1

1 1 : 000000000000000000000000 : clear 534 500 10 0 -10000 : 0 : 0
0 clear range 534 ticks 1200 own 0 intruder -10000 apart
seconds 1 contact 0

1 1 : 000000000000000000000000 : clear 5 500 18 0 0 : 0, 0 : -2000, 0
0 clear range 5 ticks 2160 own 0 intruder 0 apart
1 clear range -495 ticks 160 own 0 intruder -2000 contact
seconds 2 contact 1

1 1 : 000000000000000000000000 : clear 4 500 18 0 0 : 0, 0 : -2000, 0
0 clear range 4 ticks 2160 own 0 intruder 0 apart
1 clear range -496 ticks 160 own 0 intruder -2000 apart
seconds 2 contact 0";

// Whether a text has these lines, each ended by a line feed.
fn has_lines(text: &[u8], lines: &str) -> bool {
    text.len() == lines.len().saturating_add(1)
        && text.starts_with(lines.as_bytes())
        && text.ends_with(b"\n")
}

// The count with which lines end.
fn last_count(lines: &str) -> Option<u32> {
    let (_, last) = lines.rsplit_once(' ')?;
    last.parse::<u32>().ok()
}

// Whether a row is replayed with these lines, and with the count with which they end, to a sink that takes so many bytes a write.
fn has_replay(alloc: Global, case: &str, most: u32) -> Option<bool> {
    let (row, want) = case.split_once("\n")?;
    let count = last_count(want)?;
    let mut sink = sink_with(alloc, &[], most)?;
    let answer = row_replayed(alloc, row, &mut sink);
    Some(answer == Some(Ok(count)) && has_lines(sink.written(), want))
}

#[test]
fn replays_have_their_lines(rt: HostRuntime) {
    for rows in [WORKED, LAYERS, VERTICES, CONTACTS] {
        for case in rows.split("\n\n") {
            for most in [1, 100_000] {
                assert!(rt; has_replay(rt.alloc(), case, most) == Some(true), "{case}");
            }
        }
    }
}

const FAILING: &str = "1 100 : 000000000000000000000000 : clear 500 500 0 0 0 : 0 : 0";

// Whether the replay ends with a failed sink, to which so many bytes are written, where a write fails.
fn fails(alloc: Global, failing: u64, most: u32, count: usize) -> Option<bool> {
    let mut sink = sink_with(alloc, &[failing], most)?;
    let answer = row_replayed(alloc, FAILING, &mut sink);
    Some(answer == Some(Err(PrintFault::Sink)) && sink.written().len() == count)
}

#[test]
fn a_failing_sink_is_named(rt: HostRuntime) {
    for (failing, most, count) in [(0, 100, 0), (1, 10, 10), (2, 30, 60)] {
        assert!(rt;
            fails(rt.alloc(), failing, most, count) == Some(true),
            "{failing}"
        );
    }
}
