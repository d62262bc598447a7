//! Fields of a line, with room for several of them.
ghost use Rattle.std.specs.Prelude.{◌≡◌, ◌+◌, ◌≤◌, ◌++◌, ◌∷◌, [], length};
ghost use Rattle.std.specs.Fmt.{decimal, signed_decimal};
ghost use Rattle.acas_outside.specs.Printed.{millionths_text};

use acas_outside::{LINE_BYTES, Line};

/// Appends a text.
pub fn put_text(line: &mut Line, text: &str)
    requires { length line.old + length text.now ≤ LINE_BYTES }
    ensures value { line.new ≡ line.old ++ text.now }
    ensures room { length line.new ≡ length line.old + length text.now }
{
    line.push(text.as_bytes());
}

/// Appends a number that is not negative.
pub fn put_count(line: &mut Line, value: u64)
    requires { length line.old + 20 ≤ LINE_BYTES }
    ensures value { line.new ≡ line.old ++ decimal value }
    ensures room { length line.new ≤ length line.old + 20 }
{
    line.number(i128::from(value));
}

/// Appends a number.
pub(crate) fn put_number(line: &mut Line, value: i64)
    requires { length line.old + 20 ≤ LINE_BYTES }
    ensures value { line.new ≡ line.old ++ signed_decimal value }
    ensures room { length line.new ≤ length line.old + 20 }
{
    line.number(i128::from(value));
}

/// Appends a number of millionths.
pub fn put_millionths(line: &mut Line, value: i64)
    requires { length line.old + 23 ≤ LINE_BYTES }
    ensures value { line.new ≡ line.old ++ millionths_text value }
    ensures room { length line.new ≤ length line.old + 23 }
{
    line.millionths(i128::from(value));
}

/// Appends a number of millionths that may be wider than 64 bits.
pub fn put_wide_millionths(line: &mut Line, value: i128)
    requires { length line.old + 41 ≤ LINE_BYTES }
    ensures value { line.new ≡ line.old ++ millionths_text value }
    ensures room { length line.new ≤ length line.old + 41 }
{
    line.millionths(value);
}

/// Appends two numbers that are not negative, each behind a text.
pub(crate) fn put_counts(line: &mut Line, head: &str, first: u64, between: &str, second: u64)
    requires { length line.old + length head.now + length between.now + 40 ≤ LINE_BYTES }
    ensures value { line.new ≡ line.old ++ head.now ++ decimal first ++ between.now ++ decimal second }
    ensures room { length line.new ≤ length line.old + length head.now + length between.now + 40 }
{
    put_text(line, head);
    put_count(line, first);
    put_text(line, between);
    put_count(line, second);
}

/// Appends two numbers, each behind a text.
pub(crate) fn put_numbers(line: &mut Line, head: &str, first: i64, between: &str, second: i64)
    requires { length line.old + length head.now + length between.now + 40 ≤ LINE_BYTES }
    ensures { line.new ≡ line.old ++ head.now ++ signed_decimal first ++ between.now ++ signed_decimal second }
{
    put_text(line, head);
    put_number(line, first);
    put_text(line, between);
    put_number(line, second);
}
