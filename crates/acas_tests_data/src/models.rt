//! The models of tests by their names, each made of the numbers in which the models differ.
use crate::rows::{changed, filled};
use acas_base::Model;
use acas_model::read_model;
use std::alloc::Global;

/// A model before its advisories: the horizon, the three axes, half of the puck's height, the greatest closing speed and the cost of
/// contact.
const MODEL: &str = r#"version = 1
horizon = $1
[grid]
altitude = [$2]
own_rate = [$3]
intruder_rate = [$4]
[puck]
radius = 500
half_height = $5
[closing]
least = 500
greatest = $6
[pilot]
pull = 480
limit = 960
[cost]
contact = $7
"#;

/// An advisory: its name and its two rates, and what is chosen under it.
const ADVISORY: &str = r#"[[advisory]]
name = "$1"
lo = $2
hi = $3
CHOICES
"#;

/// A sigma point: its weight and its two accelerations.
const SIGMA: &str = r#"[[sigma]]
weight = $1
own = $2
intruder = $3
"#;

/// Of each model its name, the numbers before the advisories, what is chosen under each advisory, the advisories, and the sigma points:
///
/// - `a` has two altitudes and two advisories, with no second to go;
/// - `b` is the same with two seconds, altitudes 30 ft apart, a thinner puck, a contact that costs 1 and three sigma points;
/// - `c` has three advisories, with one second to go;
/// - `d` has four altitudes and four advisories, with thirty seconds to go;
/// - `e` has the size that is used;
/// - in `f` climb and ease ask for less than the pull;
/// - `g` is one cell with the widest gaps that a model may have, and the greatest costs.
const MODELS: &str = r#"a
0 : 0, 200 : 0, 600 : 0, 600 : 100 : 500 : 5
choices = ["clear"]|costs = [0]
clear : -10000 : 10000; level : -500 : 500
1 : 0 : 0

b
2 : 0, 30 : 0, 600 : 0, 600 : 1 : 500 : 1
choices = ["clear"]|costs = [0]
clear : -10000 : 10000; level : -500 : 500
1 : 0 : 0; 1 : 0 : 600; 1 : 0 : -600

c
1 : -1000, -170 : 0, 60 : -60, 0 : 100 : 500 : 5
choices = ["clear", "climb", "descend"]|costs = [0, 0, 0]
clear : -10000 : 10000; climb : 1500 : 10000; descend : -10000 : -1500
1 : 0 : 0

d
30 : -1000, -670, 0, 1000 : 0, 1500, 3000 : 0, 3000 : 100 : 500 : 5
choices = ["clear", "climb", "descend", "level"]|costs = [0, 1, 1, 1]
clear : -10000 : 10000; climb : 1500 : 10000; descend : -10000 : -1500; level : -500 : 500
1 : 0 : 0

e
40 : -1000, -900, -800, -700, -600, -500, -400, -300, -200, -100, 0, 100, 200, 300, 400, 500, 600, 700, 800, 900, 1000 : -2500, -2000, -1500, -1000, -500, 0, 500, 1000, 1500, 2000, 2500 : -2500, -2000, -1500, -1000, -500, 0, 500, 1000, 1500, 2000, 2500 : 100 : 1500 : 10000
choices = ["clear", "no-climb", "no-descend", "level", "climb", "descend", "climb-fast"]|costs = [0, 1, 1, 2, 5, 5, 8]
clear : -10000 : 10000; no-climb : -10000 : 0; no-descend : 0 : 10000; level : -500 : 500; climb : 1500 : 10000; descend : -10000 : -1500; climb-fast : 2500 : 10000
2 : 0 : 0; 1 : 60 : -60; 1 : -60 : 60

f
1 : -10, 0 : 1200, 1500 : 1200, 1500 : 1 : 500 : 1
choices = ["$1"]|costs = [0]
clear : -10000 : 10000; climb : 1500 : 10000; ease : -10000 : 1200
1 : 0 : 0

g
2 : -10000, 10000 : -10000, 10000 : -10000, 10000 : 1000 : 500 : 1000000000
choices = ["clear", "climb"]|costs = [0, 1000000000]
clear : -10000 : 10000; climb : 1500 : 10000
333 : 7 : -11; 334 : -600 : 600; 333 : 1 : 0"#;

/// The text of the model of this name, if there is one.
pub fn model_text(alloc: Global, name: &str) -> Option<String> {
    for model in MODELS.split("\n\n") {
        let (first, rows) = model.split_once("\n")?;
        if first == name {
            return text_of(alloc, rows);
        }
    }
    None
}

/// The model of the name in the first line, with the changes of its text that the other lines say, if there is one.
pub fn model_of(alloc: Global, recipe: &str) -> Option<Model> {
    let mut steps = recipe.lines();
    let mut text = model_text(alloc, steps.next()?)?;
    for change in steps {
        text = changed(alloc, text.as_str(), change)?;
    }
    read_model(alloc, text.as_bytes()).ok()
}

// The text of a model whose name stands before these rows.
fn text_of(alloc: Global, rows: &str) -> Option<String> {
    let (numbers, rows) = rows.split_once("\n")?;
    let (choices, rows) = rows.split_once("\n")?;
    let (advisories, sigmas) = rows.split_once("\n")?;
    let choices = choices.replace(alloc, "|", "\n").ok()?;
    let advisory = ADVISORY.replace(alloc, "CHOICES", choices.as_str()).ok()?;
    let mut text = String::new(alloc);
    push_filled(alloc, &mut text, MODEL, numbers)?;
    push_filled(alloc, &mut text, advisory.as_str(), advisories)?;
    push_filled(alloc, &mut text, SIGMA, sigmas)?;
    Some(text)
}

// Pushes a text with the values of each row in it.
fn push_filled(alloc: Global, text: &mut String, template: &str, rows: &str) -> Option<()> {
    for row in rows.split("; ") {
        let piece = filled(alloc, template, &values_of(alloc, row)?).ok()?;
        text.push_str(piece.as_str()).ok()?;
    }
    Some(())
}

fn values_of(alloc: Global, row: &str) -> Option<Vec<String>> {
    let mut values = Vec::new(alloc);
    for value in row.split(" : ") {
        values.push(String::from_str(alloc, value).ok()?).ok()?;
    }
    Some(values)
}
