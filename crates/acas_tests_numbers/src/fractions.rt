//! Quotients that are rounded, and fractions with signs, zero and numbers at the bounds.
ghost use Rattle.std.specs.Prelude.{◌^◌, ◌<◌, ◌≤◌, IsTrue, unsigned_abs};
ghost use Rattle.acas_frac.specs.Fraction.{Fraction};

use acas_frac::{Down, Frac, Rounding, Up};
use acas_number_texts::print_frac;
use std::alloc::Global;
use std::cmp::Ordering;

// 10^37.
const MOST: i128 = 10_000_000_000_000_000_000_000_000_000_000_000_000;

// A numerator and a denominator, the quotient rounded down, and up.
const QUOTIENTS: &[(i128, i128, i128, i128)] = &[
    (-1, 3, -1, 0),
    (6, 3, 2, 2),
    (0, 5, 0, 0),
    (1, 3, 0, 1),
    (-6, 3, -2, -2),
    (-7, 2, -4, -3),
    (7, 2, 3, 4),
    (-MOST, 1, -MOST, -MOST),
    (-MOST, MOST, -1, -1),
    (1 - MOST, MOST, -1, 0),
    (MOST - 1, MOST, 0, 1),
];

// Whether a quotient is rounded so down and up, for a den above 0 and both numbers at most 10^37 in size.
fn is_rounded(num: i128, den: i128, down: i128, up: i128) -> bool {
    if 0 < den && den <= MOST && num.unsigned_abs() <= MOST.unsigned_abs() {
        Down::div(num, den) == down && Up::div(num, den) == up
    } else {
        false
    }
}

fn are_rounded() -> bool {
    for &(num, den, down, up) in QUOTIENTS {
        if !is_rounded(num, den, down, up) {
            return false;
        }
    }
    true
}

#[test]
fn quotients_are_rounded_down_and_up(rt: HostRuntime) {
    assert!(rt; are_rounded());
}

// The value num/den, for a den that is not 0 and at most 10^13 in size.
fn ratio(num: i64, den: i64) -> Option<Frac> {
    if den == 0 || den.unsigned_abs() > 10_000_000_000_000 {
        return None;
    }
    Some(Frac::new(i128::from(num), i128::from(den)))
}

// Whether products and sums with another such fraction are within the bounds.
fn is_small(value: &Frac) -> bool
    ensures some { 0 < Fraction.den value.now }
    ensures num { IsTrue result → unsigned_abs (Fraction.num value.now) ≤ 10 ^ 12 }
    ensures den { IsTrue result → Fraction.den value.now ≤ 10 ^ 6 }
{
    value.num().unsigned_abs() <= 1_000_000_000_000 && value.den() <= 1_000_000
}

fn sum(a: &Frac, b: &Frac) -> Option<Frac> {
    if is_small(a) && is_small(b) {
        Some(a.add(b))
    } else {
        None
    }
}

fn difference(a: &Frac, b: &Frac) -> Option<Frac> {
    if is_small(a) && is_small(b) {
        Some(a.sub(b))
    } else {
        None
    }
}

fn product(a: &Frac, b: &Frac) -> Option<Frac> {
    if is_small(a) && is_small(b) {
        Some(a.mul(b))
    } else {
        None
    }
}

fn multiple(a: &Frac, factor: i64) -> Option<Frac> {
    if is_small(a) && factor.unsigned_abs() <= 1_000_000_000 {
        Some(a.mul_small(factor))
    } else {
        None
    }
}

// Whether there is a fraction, and it has this numerator and this denominator.
fn is_of(value: Option<Frac>, num: i128, den: i128) -> bool {
    match value {
        Some(value) => value.num() == num && value.den() == den,
        None => false,
    }
}

// A numerator and a denominator, and both in lowest terms.
const LOWEST: &[(i64, i64, i128, i128)] = &[
    (6, 4, 3, 2),
    (-6, 4, -3, 2),
    (6, -4, -3, 2),
    (-6, -4, 3, 2),
    (0, -7, 0, 1),
    (5, 5, 1, 1),
    (1, 10_000_000_000_000, 1, 10_000_000_000_000),
    (i64::MIN, 2, -4_611_686_018_427_387_904, 1),
];

fn are_lowest() -> bool {
    for &(num, den, lowest_num, lowest_den) in LOWEST {
        if !is_of(ratio(num, den), lowest_num, lowest_den) {
            return false;
        }
    }
    true
}

#[test]
fn fractions_are_in_lowest_terms(rt: HostRuntime) {
    assert!(rt; are_lowest());
}

// What is added and multiplied, and the numerator and the denominator of what comes of it.
fn results() -> Option<[(Option<Frac>, i128, i128); 12]> {
    let half = ratio(1, 2)?;
    let third = ratio(-1, 3)?;
    let large = Frac::whole(1_000_000_000_000);
    let tiny = ratio(1, 1_000_000)?;
    Some([
        (sum(&half, &third), 1, 6),
        (difference(&half, &third), 5, 6),
        (product(&half, &third), -1, 6),
        (sum(&half, &half), 1, 1),
        (difference(&third, &third), 0, 1),
        (multiple(&third, -6), 2, 1),
        (multiple(&half, 3), 3, 2),
        (multiple(&half, 0), 0, 1),
        (
            product(&large, &large),
            1_000_000_000_000_000_000_000_000,
            1,
        ),
        (product(&tiny, &tiny), 1, 1_000_000_000_000),
        (product(&large, &tiny), 1_000_000, 1),
        (sum(&large, &tiny), 1_000_000_000_000_000_001, 1_000_000),
    ])
}

fn are_exact() -> Option<bool> {
    for (value, num, den) in results()? {
        if !is_of(value, num, den) {
            return Some(false);
        }
    }
    Some(true)
}

#[test]
fn fractions_are_added_and_multiplied_exactly(rt: HostRuntime) {
    assert!(rt; are_exact() == Some(true));
}

// The numerators and denominators of two fractions, and their order.
const ORDERS: [(i64, i64, i64, i64, Ordering); 5] = [
    (1, 2, 1, 3, Ordering::Greater),
    (-1, 2, -1, 3, Ordering::Less),
    (2, 4, 1, 2, Ordering::Equal),
    (-1, 2, 1, 3, Ordering::Less),
    (0, 9, 0, -4, Ordering::Equal),
];

fn order_of(a: i64, b: i64, c: i64, d: i64) -> Option<Ordering> {
    let left = ratio(a, b)?;
    let right = ratio(c, d)?;
    Some(left.compare(&right))
}

// Numerators and denominators, and how they are printed one after the other.
const PRINTED: [(i64, i64); 5] = [(15, 10), (-15, 10), (4, -2), (0, 3), (-1, 3)];

const TEXT: &str = "t 3/2 -3/2 -2 0 -1/3 ";

fn print_all(out: &mut Vec<u8>) -> Option<()> {
    for (num, den) in PRINTED {
        print_frac(out, &ratio(num, den)?).ok()?;
        out.push(b' ').ok()?;
    }
    Some(())
}

fn is_printed(alloc: Global) -> Option<bool> {
    let mut out = Vec::from_slice(alloc, b"t ").ok()?;
    let all = print_all(&mut out).is_some();
    Some(all && out.as_slice() == TEXT.as_bytes())
}

#[test]
fn fractions_have_an_order_and_a_text(rt: HostRuntime) {
    for (a, b, c, d, order) in ORDERS {
        assert!(rt; order_of(a, b, c, d) == Some(order));
    }
    assert!(rt; is_printed(rt.alloc()) == Some(true));
}
