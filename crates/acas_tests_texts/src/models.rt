//! A model in two spellings, and what it says.
use acas_base::{Advices, Choice, Model, SigmaPoint};
use acas_model::read_model;
use std::alloc::Global;

/// A model's text of version 1.
pub const PLAIN: &str = r#"
version = 1
horizon = 2
[grid]
altitude = [-10, 0, 20]
own_rate = [0, 600]
intruder_rate = [-600, 600]
[puck]
radius = 500
half_height = 100
[closing]
least = 500
greatest = 1500
[pilot]
pull = 480
limit = 960
[cost]
contact = 10000
[[advisory]]
name = "clear"
lo = -10000
hi = 10000
choices = ["clear", "level"]
costs = [0, -7]
[[advisory]]
name = "level"
lo = -500
hi = 500
choices = ["level"]
costs = [1]
[[sigma]]
weight = 2
own = 0
intruder = 0
[[sigma]]
weight = 1
own = 60
intruder = -60
"#;

const OTHER: &str = r#"
# the same model
advisory = [
  { hi = 10_000, choices = ["clear", 'level'], costs = [0, -7], name = "clear", lo = -10000 },
  { costs = [1], name = "level", choices = ["level"], lo = -500, hi = 0x1F4 },
]
puck.half_height = 100 # in feet
puck.radius = 500
closing = { greatest = 1500, least = 500 }
cost.contact = 10_000
horizon = 2
"version" = 1
sigma = [
  { weight = 2, own = 0, intruder = 0 },
  { intruder = -60, own = 60, weight = 1 },
]
[pilot]
limit = 960
pull = 480
[grid]
intruder_rate = [-600, 600]
own_rate = [
  0,
  600,
]
altitude = [-10, 0, 20]
"#;

fn says_grid(model: &Model) -> bool {
    let grid = model.grid();
    let altitudes = grid.h.len() == 3
        && grid.h.value(0) == -1200
        && grid.h.value(1) == 0
        && grid.v0.value(1) == 600;
    altitudes && grid.v1.value(0) == -600 && grid.advisories == 2 && grid.horizon == 2
}

fn says_advisories(model: &Model) -> bool {
    let _valid = model.grid();
    let level = model.advisory(1);
    let paid = [
        Choice {
            advisory: 0,
            cost: 0,
        },
        Choice {
            advisory: 1,
            cost: -7,
        },
    ];
    let names = level.name.bytes() == b"level".as_slice()
        && model.find_name(b"level") == Some(1)
        && model.find_name(b"climb") == None;
    names
        && level.lo == -500
        && level.hi == 500
        && model.advisory(0).hi == 10_000
        && model.choices(0) == paid.as_slice()
        && model.choices(1).len() == 1
}

fn says_numbers(model: &Model) -> bool {
    let last = SigmaPoint {
        weight: 1,
        own: 60,
        intruder: -60,
    };
    let closing = model.closing();
    let noise = model.points().len() == 2
        && model.points().last() == Some(&last)
        && model.total_weight() == 3;
    let pilot = model.pull() == 480 && model.limit() == 960;
    let puck = model.radius() == 500 && model.half() == 12_000;
    let speeds = closing.least == 500 && closing.greatest == 1500;
    noise && pilot && puck && speeds && model.contact() == 10_000
}

// Whether an advice that is kept is found again, and alone, in a model of two layers above layer 0 and 24 states.
fn keeps_advices(alloc: Global, model: &Model) -> bool {
    let Ok(mut advices) = Advices::new(alloc, model) else {
        return false;
    };
    let grid = model.grid();
    if grid.horizon != 2 || grid.states() != 24 || grid.advisories != 2 {
        return false;
    }
    advices.set(2, 3, 1);
    let others = advices.at(1, 3) == 0 && advices.at(2, 2) == 0 && advices.at(2, 4) == 0;
    others && advices.at(2, 3) == 1
}

/// Whether a model is the one of the plain text, whatever its pilot's delay is.
pub fn says_same(model: &Model) -> bool {
    says_grid(model) && says_advisories(model) && says_numbers(model)
}

// Whether a text is that of the model, without a delay, and advices are kept for it.
fn says_model(alloc: Global, text: &str) -> Option<bool> {
    let model = read_model(alloc, text.as_bytes()).ok()?;
    Some(says_same(&model) && model.delay() == 0 && keeps_advices(alloc, &model))
}

#[test]
fn any_spelling_says_the_same(rt: HostRuntime) {
    for text in [PLAIN, OTHER] {
        assert!(rt; says_model(rt.alloc(), text) == Some(true));
    }
}
