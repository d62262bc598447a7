//! What is reached from a cell within a second under clear of conflict.
use acas_base::Model;
use acas_safeable::{ClearCell, reached};
use acas_tests_data::{model_of, numbers};
use std::alloc::Global;

// The six ends that are reached from the cell of 1 second at the first places, if the model has it: of altitudes, own and intruder rates.
fn ends_of(alloc: Global, model: &Model) -> Option<Vec<i64>> {
    if model.grid().horizon <= 1 {
        return None;
    }
    let cell = ClearCell {
        n: 1,
        present: 0,
        i: 0,
        j: 0,
        k: 0,
    };
    let mut ends = Vec::new(alloc);
    if let Some(area) = reached(model, &cell) {
        for span in [area.h, area.v0, area.v1] {
            ends.push(span.least).ok()?;
            ends.push(span.greatest).ok()?;
        }
    }
    Some(ends)
}

// What is changed in the model of two seconds, and the ends in ticks and ft/min, or none where an altitude is past the limit. A pilot
// may change the rate by 960 ft/min in the second. Of a clear of conflict that asks for 1000 to 2000 ft/min, one who flies at 0 to 60 climbs
// with 480 ft/min per second at least, or holds the rate for the second; of one that asks for -500 to 500, each rate is reached on the way.
const CELLS: &str = "-1000, -170 => -3000, -2000 :: -361200 -239040 -960 1020 -60 0
-1000, -170 => -100, 0 :: -13200 960 -960 1020 -60 0
-1000, -170 => -9990, -9000 :: -1200000 -1079040 -960 1020 -60 0
-1000, -170 => -9991, -9000 ::
-1000, -170 => 9000, 9992 :: 1078800 1200000 -960 1020 -60 0
-1000, -170 => 9000, 9993 ::
lo = -10000|hi = 10000 => lo = 1000|hi = 2000 :: -121200 -20880 0 1020 -60 0
version = 1 => version = 2; limit = 960 => limit = 960|delay = 1; lo = -10000|hi = 10000 => lo = 1000|hi = 2000 :: -121200 -20400 0 1020 -60 0
lo = -10000|hi = 10000 => lo = -500|hi = 500 :: -120919 -19660 -500 500 -60 0";

// Whether what is reached is what a line says.
fn is_reached(alloc: Global, line: &str) -> Option<bool> {
    let (changes, ends) = line.split_once(" ::")?;
    let changes = changes.replace(alloc, "; ", "\n").ok()?;
    let recipe = format!(in alloc; "c\nhorizon = 1 => horizon = 2\n{changes}").ok()?;
    let model = model_of(alloc, recipe.as_str())?;
    Some(ends_of(alloc, &model)? == numbers(alloc, ends)?)
}

#[test]
fn a_second_leads_to_an_area(rt: HostRuntime) {
    for line in CELLS.lines() {
        let reached = is_reached(rt.alloc(), line);
        assert!(rt; reached == Some(true), "{line}");
    }
}
