//! Numbers as texts, and units.
ghost use Rattle.std.specs.Prelude.{◌≤◌, ◌^◌, unsigned_abs};

use acas_number_texts::print_millionths;
use acas_outside::Line;
use acas_units::{Span, feet_to_ticks};
use std::alloc::Global;

// 10^30.
const LARGEST: i128 = 1_000_000_000_000_000_000_000_000_000_000;

fn write_millionths(line: &mut Line, value: i128)
    requires { unsigned_abs value ≤ 10 ^ 30 }
{
    line.clear();
    line.millionths(value);
}

fn write_number(line: &mut Line, value: i128) {
    line.clear();
    line.number(value);
}

// Numbers of millionths, and how they are printed.
const MILLIONTHS: [(i128, &str); 11] = [
    (0, "0.000000"),
    (1, "0.000001"),
    (-1, "-0.000001"),
    (10, "0.000010"),
    (999_999, "0.999999"),
    (1_000_000, "1.000000"),
    (-1_000_000, "-1.000000"),
    (-1_234_567, "-1.234567"),
    (20_305_007, "20.305007"),
    (LARGEST, "1000000000000000000000000.000000"),
    (-LARGEST, "-1000000000000000000000000.000000"),
];

// Whether a number is printed so behind bytes, which stay.
fn is_printed(alloc: Global, value: i128, text: &str) -> Option<bool>
    requires { unsigned_abs value ≤ 10 ^ 30 }
{
    let mut out = Vec::from_slice(alloc, b"cost ").ok()?;
    print_millionths(&mut out, value).ok()?;
    Some(&out[..5] == b"cost ".as_slice() && &out[5..] == text.as_bytes())
}

// Whether it is printed so, and on a line.
fn is_written(alloc: Global, line: &mut Line, value: i128, text: &str) -> bool {
    if value.unsigned_abs() > LARGEST.unsigned_abs() {
        return false;
    }
    write_millionths(line, value);
    line.bytes() == text.as_bytes() && is_printed(alloc, value, text) == Some(true)
}

fn millionths_are_written(alloc: Global, line: &mut Line) -> bool {
    for (value, text) in MILLIONTHS {
        if !is_written(alloc, line, value, text) {
            return false;
        }
    }
    true
}

const NUMBERS: [(i128, &str); 6] = [
    (0, "0"),
    (7, "7"),
    (-10, "-10"),
    (100, "100"),
    (i128::MAX, "170141183460469231731687303715884105727"),
    (i128::MIN, "-170141183460469231731687303715884105728"),
];

fn numbers_are_written(line: &mut Line) -> bool {
    for (value, text) in NUMBERS {
        write_number(line, value);
        if line.bytes() != text.as_bytes() {
            return false;
        }
    }
    true
}

// Whether two pieces are written, and one that fills the line.
fn pieces_are_written(line: &mut Line) -> bool {
    line.clear();
    line.push(b"cell ");
    line.push(b"7");
    let two = line.bytes() == b"cell 7".as_slice();
    line.clear();
    line.push(&[b'x'; 1_024]);
    two && line.bytes().len() == 1_024
}

// Whether a line is empty at first, and what is written on it stands there.
fn on_a_line(alloc: Global) -> [bool; 4] {
    let mut line = Line::new();
    [
        line.bytes().is_empty(),
        millionths_are_written(alloc, &mut line),
        numbers_are_written(&mut line),
        pieces_are_written(&mut line),
    ]
}

#[test]
fn a_line_takes_millionths_and_numbers_and_pieces(rt: HostRuntime) {
    assert!(rt; on_a_line(rt.alloc()) == [true; 4]);
}

const FEET: [(i64, i64); 4] = [(0, 0), (1, 120), (-10_000, -1_200_000), (10_000, 1_200_000)];

#[test]
fn feet_are_ticks(rt: HostRuntime) {
    for (feet, ticks) in FEET {
        assert!(rt; feet_to_ticks(feet) == ticks);
    }
}

#[test]
fn spans_have_two_ends(rt: HostRuntime) {
    let span = Span::new(-3, -3);
    assert!(rt; span.least == -3 && span.greatest == -3);
}
