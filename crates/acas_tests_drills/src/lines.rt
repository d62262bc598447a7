//! What drills print.
ghost use Rattle.std.specs.Prelude.{◌≤◌};

use acas_command::Cause;
use acas_drill::drill;
use acas_memory_sink::MemorySink;
use acas_step_columns::StencilMeans;
use acas_units::GREATEST_DRILL_NUMBER;
use std::alloc::Global;

/// The first drill, and its lines.
const FIRST: &str =
    "drill 0 states 2275 entries 25025 bytes 425837\naccepted\ncertified 6342 reported 5978 clear 5012\n";

// Whether the drill of a number prints these lines, and answers so many reported.
fn prints(alloc: Global, number: u32, lines: &str, reported: u64) -> Option<bool> {
    if number > GREATEST_DRILL_NUMBER {
        return None;
    }
    let mut out = MemorySink::new(alloc, Vec::new(alloc), 65_536).ok()?;
    let answer = drill::<StencilMeans, MemorySink>(alloc, number, &mut out).ok()?;
    Some(answer == reported && out.written() == lines.as_bytes())
}

// Whether the first drill ends with a failed output, of which the first so many bytes are out, where a write fails.
fn fails(alloc: Global, write: u64, most: u32, count: usize) -> Option<bool>
    requires { 1 ≤ most }
{
    let mut out = MemorySink::new(alloc, [write].to_vec(alloc).ok()?, most).ok()?;
    let answer = drill::<StencilMeans, MemorySink>(alloc, 0, &mut out);
    let begun = FIRST.as_bytes().get(..count)?;
    Some(matches!(answer, Err(Cause::Output)) && out.written() == begun)
}

// A number, the lines, and how many are reported. The first twice. Then one with the most altitudes, with the most own rates, with the
// most of the intruder's; and with the grid of the first one that goes back a second more, and one in which contact costs more.
const DRILLS: [(u32, &str, u64); 7] = [
    (0, FIRST, 5_978),
    (0, FIRST, 5_978),
    (
        6,
        "drill 6 states 4375 entries 48125 bytes 818537\naccepted\ncertified 6454 reported 5978 clear 18340\n",
        5_978,
    ),
    (
        21,
        "drill 21 states 5005 entries 55055 bytes 936347\naccepted\ncertified 13314 reported 12299 clear 14217\n",
        12_299,
    ),
    (
        84,
        "drill 84 states 5005 entries 55055 bytes 936347\naccepted\ncertified 14924 reported 14938 clear 13048\n",
        14_938,
    ),
    (
        112,
        "drill 112 states 2275 entries 27300 bytes 464544\naccepted\ncertified 7252 reported 6503 clear 5404\n",
        6_503,
    ),
    (
        3_472,
        "drill 3472 states 2275 entries 25025 bytes 425837\naccepted\ncertified 6790 reported 6013 clear 4620\n",
        6_013,
    ),
];

#[test]
fn drills_print_their_lines(rt: HostRuntime) {
    for (number, lines, reported) in DRILLS {
        let found = prints(rt.alloc(), number, lines, reported);
        assert!(rt; found == Some(true), "drill {number}");
    }
}

#[test]
fn a_failed_output_ends_a_drill(rt: HostRuntime) {
    let alloc = rt.alloc();
    assert!(rt; fails(alloc, 0, 65_536, 0) == Some(true));
    assert!(rt; fails(alloc, 1, 50, 50) == Some(true));
}
