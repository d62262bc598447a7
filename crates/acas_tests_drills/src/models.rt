//! The models of drills.
use acas_base::{Choice, Model, SigmaPoint};
use acas_drill_model::drill_model;
use acas_grid::Axis;
use acas_tests_data::numbers;
use acas_units::GREATEST_DRILL_NUMBER;
use std::alloc::Global;

// Whether these words are the numbers that were found.
fn says(alloc: Global, words: &str, found: &[i64]) -> bool {
    match numbers(alloc, words) {
        Some(wanted) => wanted.as_slice() == found,
        None => false,
    }
}

// How many numbers an axis has, and the first, the second and the last of them.
fn ends_of(axis: &Axis) -> [i64; 4] {
    let len = axis.len();
    let last = axis.value(len - 1);
    [i64::from(len), axis.value(0), axis.value(1), last]
}

// What a second under each advisory costs.
const COSTS: [i64; 7] = [0, 1, 1, 2, 5, 5, 8];

// Whether the choices are all advisories, by their numbers, at those costs.
fn are_all(choices: &[Choice]) -> bool {
    let mut all = choices.len() == COSTS.len();
    for advisory in 0..7u8 {
        let place = usize::from(advisory);
        let cost = COSTS[place];
        all = all && choices.get(place) == Some(&Choice { advisory, cost });
    }
    all
}

// Whether a model has seven advisories, the one of a number has this name and this interval of rates, and under it each may be chosen
// at its cost.
fn asks(model: &Model, a: u8, name: &str, lo: i64, hi: i64) -> bool {
    if model.grid().advisories != 7 || a >= 7 {
        return false;
    }
    let found = model.advisory(a);
    let named = found.name.bytes() == name.as_bytes();
    named && found.lo == lo && found.hi == hi && are_all(model.choices(a))
}

// A number; the horizon and the cost of contact; the ends of the altitudes, the own rates and the intruder's. 12345 is 7 * 1763 + 4,
// 1763 is 4 * 440 + 3, 440 is 4 * 110, and 110 is 31 * 3 + 17. 999999999 is 7 * 142857142 + 5, 142857142 is 4 * 35714285 + 2, 35714285
// is 4 * 8928571 + 1, 8928571 is 31 * 288018 + 13, and 999999999 is 9000 * 111111 + 999.
const GRIDS: [&str; 2] = [
    "12345 : 27 4345 : 21 -120000 -108000 120000 : 11 -2500 -2000 2500 : 5 -1000 -500 1000",
    "999999999 : 23 1999 : 23 -132000 -120000 132000 : 9 -2000 -1500 2000 : 7 -1500 -1000 1500",
];

// The parts of a row.
#[derive(Clone, Copy)]
struct Row<'r> {
    number: &'r str,
    costs: &'r str,
    h: &'r str,
    v0: &'r str,
    v1: &'r str,
}

fn row_of(text: &str) -> Option<Row<'_>> {
    let mut parts = text.split(" : ");
    Some(Row {
        number: parts.next()?,
        costs: parts.next()?,
        h: parts.next()?,
        v0: parts.next()?,
        v1: parts.next()?,
    })
}

// Whether the model of a row's number is as the row says.
fn has_grid(alloc: Global, text: &str) -> Option<bool> {
    let row = row_of(text)?;
    let number = row.number.parse::<u32>().ok()?;
    if number > GREATEST_DRILL_NUMBER {
        return None;
    }
    let model = drill_model(alloc, number).ok()?;
    let grid = model.grid();
    let costs = says(
        alloc,
        row.costs,
        &[i64::from(grid.horizon), model.contact()],
    );
    let rates = says(alloc, row.v0, &ends_of(&grid.v0)) && says(alloc, row.v1, &ends_of(&grid.v1));
    Some(costs && says(alloc, row.h, &ends_of(&grid.h)) && rates)
}

#[test]
fn the_grids_of_drills(rt: HostRuntime) {
    for text in GRIDS {
        assert!(rt; has_grid(rt.alloc(), text) == Some(true), "{text}");
    }
}

// An advisory, its name, and the least and the greatest rate that it asks for.
const ADVISORIES: [(u8, &str, i64, i64); 7] = [
    (0, "clear", -10_000, 10_000),
    (1, "no-climb", -10_000, 0),
    (2, "no-descend", 0, 10_000),
    (3, "level", -500, 500),
    (4, "climb", 1_500, 10_000),
    (5, "descend", -10_000, -1_500),
    (6, "climb-fast", 2_500, 10_000),
];

fn has_advisory(alloc: Global, a: u8, name: &str, lo: i64, hi: i64) -> Option<bool> {
    let model = drill_model(alloc, 1).ok()?;
    Some(asks(&model, a, name, lo, hi))
}

#[test]
fn the_advisories_of_drills(rt: HostRuntime) {
    for (a, name, lo, hi) in ADVISORIES {
        let met = has_advisory(rt.alloc(), a, name, lo, hi);
        assert!(rt; met == Some(true), "{name}");
    }
}

const POINTS: [SigmaPoint; 3] = [
    SigmaPoint {
        weight: 2,
        own: 0,
        intruder: 0,
    },
    SigmaPoint {
        weight: 1,
        own: 60,
        intruder: -60,
    },
    SigmaPoint {
        weight: 1,
        own: -60,
        intruder: 60,
    },
];

// Whether the pull, the limit and the delay of the pilot, and the radius and the half of the height of the puck are those of a drill.
fn has_pilot_and_puck(model: &Model) -> bool {
    let pilot = model.pull() == 480 && model.limit() == 960 && model.delay() == 0;
    pilot && model.radius() == 500 && model.half() == 12_000
}

// Whether the model of a drill has its pilot, its puck, its closing speeds and its sigma points.
fn has_numbers(alloc: Global) -> Option<bool> {
    let model = drill_model(alloc, 2).ok()?;
    let closing = model.closing();
    let closes = closing.least == 500 && closing.greatest == 1_500;
    Some(has_pilot_and_puck(&model) && closes && model.points() == POINTS.as_slice())
}

#[test]
fn the_numbers_of_drills(rt: HostRuntime) {
    assert!(rt; has_numbers(rt.alloc()) == Some(true));
}
