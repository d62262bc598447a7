//! The climbs of curves, in ticks.
use crate::limits::{is_curve, is_held_curve, is_start};
use crate::rows::{fractions, is_at};
use acas_base::Model;
use acas_frac::Frac;
use acas_region::{highest, lowest};
use acas_region_curves::{approach, held};
use acas_tests_data::model_of;
use std::alloc::Global;
use std::test::Fail;

// The climb of an approach, if the row begins with numbers within its limits.
fn approached(row: &[Frac]) -> Option<Frac> {
    let (v, aim, pull, t) = (row.get(0)?, row.get(1)?, row.get(2)?, row.get(3)?);
    if is_curve(v, aim, pull, t) {
        Some(approach(v, aim, pull, t))
    } else {
        None
    }
}

// The climb after a hold, if the row begins with numbers within its limits.
fn flown(row: &[Frac]) -> Option<Frac> {
    let (v, aim, pull) = (row.get(0)?, row.get(1)?, row.get(2)?);
    let (hold, t) = (row.get(3)?, row.get(4)?);
    if is_held_curve(v, aim, pull, hold, t) {
        Some(held(v, aim, pull, hold, t))
    } else {
        None
    }
}

// a start rate, an aim, a pull, a time; the climb: up before and after the bend, down after it and before, at the aim, and with fine
// rates, pulls and times
const APPROACHES: &str = "0 1500 480 2 1920
0 1500 480 20 110625/2
3000 500 480 20 198125/6
3000 500 480 1 5520
-700 -700 1 600 -840000
1/8 1 1 1/2 3/8
0 1/8 1 1 15/64
0 1000 2049/2048 1 2049/2048
0 1 2000 1/1280000 1/819200000";

// a start rate, an aim, a pull, a hold, a time; the climb
const HOLDS: &str = "0 1500 480 0 20 110625/2
0 1500 480 5 20 80625/2
-1500 1500 480 10 6 -18000
0 1500 480 1/2 1 120
100 -100 50 1/256 257/256 4825/32";

// Whether a line ends with the climb of its approach.
fn is_approached(alloc: Global, line: &str) -> Option<bool> {
    let row = fractions(alloc, line)?;
    is_at(&row, 4, &approached(&row)?)
}

// Whether a line ends with the climb after its hold.
fn is_flown(alloc: Global, line: &str) -> Option<bool> {
    let row = fractions(alloc, line)?;
    is_at(&row, 5, &flown(&row)?)
}

#[test]
fn approaches_bend_at_the_aim_and_holds_come_before(rt: HostRuntime) {
    for line in APPROACHES.lines() {
        assert!(rt; is_approached(rt.alloc(), line) == Some(true), "{line}");
    }
    for line in HOLDS.lines() {
        assert!(rt; is_flown(rt.alloc(), line) == Some(true), "{line}");
    }
}

// The least and the greatest climb.
#[derive(Clone, Copy)]
struct Climbs {
    least: Frac,
    greatest: Frac,
}

// Under the advisory, from the rate and in the time that a row begins with, if they are within the limits.
fn climbs_of(model: &Model, row: &[Frac]) -> Option<Climbs> {
    let advisory = u8::try_from(row.get(0)?.num()).ok()?;
    let (v, t) = (row.get(1)?, row.get(2)?);
    if u32::from(advisory) < model.grid().advisories && is_start(v, t) {
        Some(Climbs {
            least: lowest(model, advisory, v, t),
            greatest: highest(model, advisory, v, t),
        })
    } else {
        None
    }
}

// an advisory, a start rate, a time; the least and the greatest climb: level from above it, climb from below it, clear from within
const CLIMBS: &str = "3 3000 20 -86875/12 198125/6
1 0 20 110625/2 887500/3
0 1/8 1/2 -1919/8 1921/8";

// Whether a line ends with the least and the greatest climb.
fn is_between(alloc: Global, model: &Model, line: &str) -> Option<bool> {
    let row = fractions(alloc, line)?;
    let climbs = climbs_of(model, &row)?;
    Some(is_at(&row, 3, &climbs.least)? && is_at(&row, 4, &climbs.greatest)?)
}

#[test]
fn climbs_are_between_two_curves(rt: HostRuntime) -> Result<(), Fail> {
    let model = model_of(rt.alloc(), "d").ok_or("a model")?;
    for line in CLIMBS.lines() {
        let met = is_between(rt.alloc(), &model, line);
        assert!(rt; met == Some(true), "{line}");
    }
    Ok(())
}
