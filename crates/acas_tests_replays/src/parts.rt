//! A model, the advices of a table and an encounter, each from a few words.
ghost use Rattle.std.specs.Prelude.{IfSome};
ghost use Rattle.acas_base.specs.Advices.{AreAdvicesOf};
ghost use Rattle.acas_replay.specs.Encounter.{IsEncounterOf};

use acas_base::{Advices, Model};
use acas_replay::{Encounter, read_encounter};
use acas_tests_data::model_of;
use std::alloc::Global;

/// A model of a horizon and half a height in ft, in this order: two altitudes, two own rates and two of the intruder, and three advisories.
/// The radius of its puck is 500 ft.
pub fn model_with(alloc: Global, words: &str) -> Option<Model> {
    let (horizon, half) = words.split_once(' ')?;
    let pieces = [
        "c\nhorizon = 1 => horizon = ",
        horizon,
        "\nhalf_height = 100 => half_height = ",
        half,
    ];
    model_of(alloc, pieces.join(alloc, "").ok()?.as_str())
}

// Keeps the advice at a place of a table's advices, one layer after the other.
fn keep(model: &Model, advices: &mut Advices, place: u32, advice: u8) -> Option<()>
    requires { AreAdvicesOf model.now advices.old }
    ensures { AreAdvicesOf model.now advices.new }
{
    let grid = model.grid();
    let states = grid.states();
    if states == 0 || grid.horizon <= place / states || grid.advisories <= u32::from(advice) {
        return None;
    }
    advices.set(place / states + 1, place % states, advice);
    Some(())
}

/// The advices of a table from layer 1 on, each by its digit: clear, climb, descend. The states are in the order of their numbers.
pub fn advices_of(alloc: Global, model: &Model, digits: &str) -> Option<Advices>
    ensures { IfSome result (AreAdvicesOf model.now) }
{
    let Ok(mut advices) = Advices::new(alloc, model) else {
        return None;
    };
    let mut place = 0u32;
    for digit in digits.as_bytes() {
        keep(model, &mut advices, place, digit.checked_sub(b'0')?)?;
        place = place.checked_add(1)?;
    }
    Some(advices)
}

/// The words of an encounter: its start by the name of the present advisory, the range, the closing speed, the altitude in ft, the own
/// and the intruder's rate; and the items of both lists.
#[derive(Clone, Copy)]
pub struct Encountered<'a> {
    pub start: &'a str,
    pub own: &'a str,
    pub intruder: &'a str,
}

// What stands before each word of a start.
const BEFORE_WORDS: [&str; 6] = [
    "version = 1\nadvisory = \"",
    "\"\nrange = ",
    "\nclosing = ",
    "\naltitude = ",
    "\nown = ",
    "\nintruder = ",
];

// The text of an encounter up to its lists.
fn start_text(alloc: Global, start: &str) -> Option<String> {
    let mut text = String::new(alloc);
    let mut words = start.split_whitespace();
    for before in BEFORE_WORDS {
        let word = words.next()?;
        text.push_str(before).ok()?;
        text.push_str(word).ok()?;
    }
    Some(text)
}

// The text of the encounter of these words.
fn text_of(alloc: Global, words: &Encountered) -> Option<String> {
    let start = start_text(alloc, words.start)?;
    let pieces = [
        start.as_str(),
        "\nown_accel = [",
        words.own,
        "]\nintruder_accel = [",
        words.intruder,
        "]\n",
    ];
    pieces.join(alloc, "").ok()
}

/// The encounter of these words.
pub fn encounter_of(alloc: Global, model: &Model, words: &Encountered) -> Option<Encounter>
    ensures { IfSome result (IsEncounterOf model.now) }
{
    let text = text_of(alloc, words)?;
    match read_encounter(alloc, model, text.as_bytes()) {
        Ok(encounter) => Some(encounter),
        Err(_) => None,
    }
}
