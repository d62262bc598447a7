//! What is told of boxes and of cells: windows, gaps, whether they are clear, and witnesses.
ghost use Rattle.std.specs.Prelude.{◌≤◌};

use crate::print::{tell, tell_no_witness, tell_witness};
use crate::rows::span;
use acas_areas::BoxState;
use acas_base::Model;
use acas_region::{window_of_box, window_of_cell};
use acas_tests_data::{model_of, numbers};
use acas_units::Span;
use acas_witness::contact_in;
use acas_witness_response::{of_box, of_cell};
use std::alloc::Global;

// The altitudes, own and intruder rates at a place of a row.
fn area_at(row: &[i64], place: usize) -> Option<BoxState>
    requires { place ≤ 10 }
{
    let h = span(row, place, 1_200_000)?;
    let v0 = span(row, place + 2, 10_000)?;
    let v1 = span(row, place + 4, 10_000)?;
    Some(BoxState { h, v0, v1 })
}

// Tells of a box of these ranges and closing speeds.
fn found_between(
    out: &mut Vec<u8>,
    model: &Model,
    range: Span,
    closing: Span,
    area: &BoxState,
    advisory: u8,
) -> Option<()> {
    let radius = model.radius();
    if 0 <= range.least
        && range.greatest <= 3_000_000
        && 1 <= closing.least
        && closing.greatest <= 5_000
        && radius <= 5_000
        && range.greatest + radius <= 600 * closing.least
        && u32::from(advisory) < model.grid().advisories
    {
        let window = window_of_box(model, range, closing);
        tell(out, model, area, &window, advisory)?;
        match contact_in(model, area, &window, advisory) {
            Some(flight) => tell_witness(out, &of_box(model, range, closing, flight)),
            None => tell_no_witness(out),
        }
    } else {
        None
    }
}

// Tells of a row's box: ranges, closing speeds, an advisory, altitudes, own and intruder rates.
fn found_in_box(out: &mut Vec<u8>, model: &Model, row: &[i64]) -> Option<()> {
    let range = span(row, 0, 3_000_000)?;
    let closing = span(row, 2, 5_000)?;
    let advisory = u8::try_from(*row.get(4)?).ok()?;
    found_between(out, model, range, closing, &area_at(row, 5)?, advisory)
}

// Tells of a row's cell: seconds away, an advisory, altitudes, own and intruder rates.
fn found_in_cell(out: &mut Vec<u8>, model: &Model, row: &[i64]) -> Option<()> {
    let n = u32::try_from(*row.get(0)?).ok()?;
    let advisory = u8::try_from(*row.get(1)?).ok()?;
    let area = area_at(row, 2)?;
    if n < model.grid().horizon && u32::from(advisory) < model.grid().advisories {
        let window = window_of_cell(model, n);
        tell(out, model, &area, &window, advisory)?;
        match contact_in(model, &area, &window, advisory) {
            Some(flight) => tell_witness(out, &of_cell(model, n, flight)),
            None => tell_no_witness(out),
        }
    } else {
        None
    }
}

// Whether what is told under a model of the box or the cell in the first line of a text has each of the other lines.
fn are_told(alloc: Global, recipe: &str, text: &str) -> Option<bool> {
    let (row, wanted) = text.split_once("\n")?;
    let row = numbers(alloc, row)?;
    let model = model_of(alloc, recipe)?;
    let mut told = Vec::new(alloc);
    if row.len() == 8 {
        found_in_cell(&mut told, &model, &row)?;
    } else {
        found_in_box(&mut told, &model, &row)?;
    }
    has_lines(&told, wanted)
}

fn has_line(told: &str, wanted: &str) -> bool {
    for line in told.lines() {
        if line == wanted {
            return true;
        }
    }
    false
}

fn has_lines(told: &[u8], wanted: &str) -> Option<bool> {
    let told = std::str::from_utf8(told).ok()?;
    for line in wanted.lines() {
        if !has_line(told, line) {
            return Some(false);
        }
    }
    Some(true)
}

// Boxes by their ranges, closing speeds, advisory, altitudes, own and intruder rates, and cells by their seconds, advisory, altitudes,
// own and intruder rates. Two boxes are clear, the others are not: one a little higher than the first, one whose gap is least where the
// curve is level, one at the edge of the puck, one whose flight passes through the puck within the window, one with a flight from an own
// rate in between alone, and a cell. The gap of a descent is looked at upside down. The other windows begin at once or last long.
const AREAS: &str = "10500 11000 500 500 1 0 43200 0 0 0 0
window 20 23
least 24225/2 at 20
greatest 1067500/3 at 23
clear
no contact

10500 11000 500 500 1 47880 47880 1500 1500 0 0
least 12120 at 20
greatest 4042315/12 at 23
clear
no contact

10500 11000 500 500 1 0 43320 0 0 0 0
least 23985/2 at 20
not clear
time 20 range 10500 speed 500 ticks 43320 own 0 intruder 0 response 25/8@480 135/8@0

1500 2000 500 500 1 -16440 -16440 -1500 -1500 0 0
window 2 5
least 23505/2 at 25/8
not clear
time 25/8 range 3125/2 speed 500 ticks -16440 own -1500 intruder 0 response 25/8@480

10500 11000 500 500 1 48000 48000 1500 1500 0 0
least 12000 at 20
not clear
time 20 range 10500 speed 500 ticks 48000 own 1500 intruder 0 response 20@0

10500 11000 500 500 1 276000 276000 1500 1500 -5000 -5000
least -16000 at 20
not clear
time 5199/256 range 10500 speed 500 ticks 276000 own 1500 intruder -5000 response 5199/256@0

15500 15500 5000 5000 3 18000 18000 -3000 9000 0 0
window 3 16/5
least -161424/5 at 16/5
greatest 173424/5 at 16/5
not clear
time 16/5 range 15500 speed 5000 ticks 18000 own 13275/8 intruder 0 response 1855/768@-480 3013/3840@0

10500 11000 500 500 2 -43200 0 0 0 0 0
greatest -24225/2 at 20

0 400 700 900 0 0 0 0 0 0 0
window 0 9/7

299500 299500 500 500 0 0 0 0 0 0 0
window 598 600

20 1 -120000 -80400 1500 3000 0 3000
window 20 23
least 11400 at 23
not clear
time 23 range 11000 speed 500 ticks -80400 own 1500 intruder 3000 response 23@0

0 1 -120000 -80400 1500 3000 0 3000
window 0 3

29 1 -120000 -80400 1500 3000 0 3000
window 29 32";

// The same where the pilots may hold their rate for 5 seconds: the lowest flight of a climb holds, and so does the highest of a
// descent; with an altitude that is a foot less each is clear.
const AREAS_AFTER_FIVE: &str = "10500 11000 500 500 1 0 28320 0 0 0 0
time 20 range 10500 speed 500 ticks 28320 own 0 intruder 0 response 5@0 25/8@480 95/8@0

10500 11000 500 500 1 0 28200 0 0 0 0
least 24225/2 at 20
greatest 1067500/3 at 23
clear
no contact

10500 11000 500 500 2 -28320 0 0 0 0 0
time 20 range 10500 speed 500 ticks -28320 own 0 intruder 0 response 5@0 25/8@-480 95/8@0

10500 11000 500 500 2 -28200 0 0 0 0 0
least -1067500/3 at 23
greatest -24225/2 at 20
clear
no contact";

// The same where they may for 10 seconds: by the pass over the hold, in a climb and in a descent; and a flight that does nothing but
// hold.
const AREAS_AFTER_TEN: &str = "50500 50500 5000 5000 1 48000 48000 0 0 0 0
time 51/5 range 50500 speed 5000 ticks 48000 own 0 intruder 0 response 1043/256@0 7841/1280@960

50500 50500 5000 5000 2 -13200 -13200 0 0 0 0
time 10 range 50500 speed 5000 ticks -13200 own 0 intruder 0 response 5/128@0 25/8@-480 875/128@0

2500 2500 500 500 1 12000 12000 0 0 0 0
time 4 range 2500 speed 500 ticks 12000 own 0 intruder 0 response 4@0";

// Models, for how many seconds the pilots may hold their rate, and areas.
const MODELS: [(&str, i64, &str); 4] = [
    ("d", 0, AREAS),
    (
        "d\nversion = 1 => version = 2\nlimit = 960 => limit = 960|delay = 0",
        0,
        AREAS,
    ),
    (
        "d\nversion = 1 => version = 2\nlimit = 960 => limit = 960|delay = 5",
        5,
        AREAS_AFTER_FIVE,
    ),
    (
        "d\nversion = 1 => version = 2\nlimit = 960 => limit = 960|delay = 10",
        10,
        AREAS_AFTER_TEN,
    ),
];

fn delay_of(alloc: Global, recipe: &str) -> Option<i64> {
    Some(model_of(alloc, recipe)?.delay())
}

#[test]
fn areas_have_windows_gaps_and_witnesses(rt: HostRuntime) {
    for (recipe, delay, areas) in MODELS {
        assert!(rt; delay_of(rt.alloc(), recipe) == Some(delay), "{recipe}");
        for area in areas.split("\n\n") {
            let told = are_told(rt.alloc(), recipe, area);
            assert!(rt; told == Some(true), "{delay} {area}");
        }
    }
}
