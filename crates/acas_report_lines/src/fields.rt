//! Fields of a line.
ghost use Rattle.std.specs.Prelude.{◌≡◌, ◌+◌, ◌≤◌, ◌++◌, length};
ghost use Rattle.std.specs.Fmt.{decimal};
ghost use Rattle.acas_frac.specs.Fraction.{fraction_text};
ghost use Rattle.acas_report_lines.specs.Text.{field};

use acas_frac::Frac;
use acas_outside::{LINE_BYTES, Line};
use acas_units::GREATEST_NAME_BYTES;

/// The greatest number of bytes of a fraction: a sign and 25 digits, a stroke and 14 digits.
pub const FRAC_BYTES: usize = 41;

/// Appends the text of a fraction: `n`, where the denominator is 1, and else `n/d`.
pub fn line_frac(line: &mut Line, value: &Frac)
    requires { length line.old + FRAC_BYTES ≤ LINE_BYTES }
    ensures value { line.new ≡ line.old ++ fraction_text value.now }
    ensures room { length line.new ≤ length line.old + FRAC_BYTES }
{
    line.number(value.num());
    if value.den() != 1 {
        line.push(b"/");
        line.number(value.den());
    }
}

/// Appends a space and a number.
#[tactic(auto, unfolding(crate::specs::Text::field))]
pub(crate) fn line_count(line: &mut Line, value: u64)
    requires { length line.old + 21 ≤ LINE_BYTES }
    ensures value { line.new ≡ line.old ++ field (decimal value) }
    ensures room { length line.new ≤ length line.old + 21 }
{
    line.push(b" ");
    line.number(i128::from(value));
}

/// Appends a space and the name of an advisory.
#[tactic(auto, unfolding(crate::specs::Text::field))]
pub(crate) fn line_name(line: &mut Line, name: &[u8])
    requires short { length name.now ≤ GREATEST_NAME_BYTES }
    requires room { length line.old + GREATEST_NAME_BYTES + 1 ≤ LINE_BYTES }
    ensures value { line.new ≡ line.old ++ field name.now }
    ensures room { length line.new ≤ length line.old + GREATEST_NAME_BYTES + 1 }
{
    line.push(b" ");
    line.push(name);
}
