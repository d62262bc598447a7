//! The text of a witness, and of a meeting.
ghost use Rattle.std.specs.Prelude.{◌≡◌, ◌+◌, ◌*◌, ◌≤◌, ◌++◌, length, codes};
ghost use Rattle.std.specs.Fmt.{signed_decimal};
ghost use Rattle.acas_frac.specs.Fraction.{fraction_text};
ghost use Rattle.acas_rulings.specs.Printed.{segments_of, some_part};
ghost use Rattle.acas_rulings.specs.PrintedMeetings.{against_of};
ghost use Rattle.acas_report_lines.specs.Meetings.{meeting_text};
ghost use Rattle.acas_report_lines.specs.Text.{labelled, parts_text, response_text, segment_text, witness_text};

use crate::fields::{FRAC_BYTES, line_frac};
use acas_frac::Frac;
use acas_outside::{LINE_BYTES, Line};
use acas_rulings::{Flight, Meeting, Segment, Witness};

/// The greatest number of bytes of a segment: two fractions and an `@`.
const SEGMENT_BYTES: usize = 2 * FRAC_BYTES + 1;

/// The greatest number of bytes of a response: three segments, with a space between them.
const RESPONSE_BYTES: usize = 3 * SEGMENT_BYTES + 2;

/// The greatest number of bytes of a witness: its words, the spaces before them and behind them, five fractions, an altitude
/// and a response.
const WITNESS_BYTES: usize = 72 + 5 * FRAC_BYTES + RESPONSE_BYTES;

/// The greatest number of bytes of a meeting: a witness, a word between two spaces, and two segments with a space between them.
pub(crate) const MEETING_BYTES: usize = WITNESS_BYTES + 10 + 2 * SEGMENT_BYTES;

/// Appends the text of a witness: its state, and its response.
#[tactic(auto, unfolding(crate::specs::Text::witness_text))]
pub fn line_witness(line: &mut Line, witness: &Witness)
    requires { length line.old + WITNESS_BYTES ≤ LINE_BYTES }
    ensures value { line.new ≡ line.old ++ witness_text witness.now }
    ensures room { length line.new ≤ length line.old + WITNESS_BYTES }
{
    let flight = &witness.flight;
    line_labelled(line, b"time", &flight.time);
    line_labelled(line, b"range", &witness.range);
    line_labelled(line, b"speed", &witness.speed);
    line_altitude(line, flight);
    line_labelled(line, b"own", &flight.v0);
    line_labelled(line, b"intruder", &flight.v1);
    line_response(line, flight);
}

/// Appends the text of a meeting: that of its witness, and the segments of the intruder.
#[tactic(auto, unfolding(crate::specs::Meetings::meeting_text))]
pub(crate) fn line_meeting(line: &mut Line, meeting: &Meeting)
    requires { length line.old + MEETING_BYTES ≤ LINE_BYTES }
    ensures value { line.new ≡ line.old ++ meeting_text meeting.now }
    ensures room { length line.new ≤ length line.old + MEETING_BYTES }
{
    line_witness(line, &meeting.witness);
    line_against(line, meeting);
}

// Appends the segments of the intruder, behind a word.
#[tactic(auto, unfolding(crate::specs::Text::labelled, crate::specs::Text::field))]
fn line_against(line: &mut Line, meeting: &Meeting)
    requires { length line.old + 10 + 2 * SEGMENT_BYTES ≤ LINE_BYTES }
    ensures value { line.new
        ≡ line.old ++ labelled (codes "against") (response_text (against_of meeting.now)) }
    ensures room { length line.new ≤ length line.old + 10 + 2 * SEGMENT_BYTES }
{
    line.push(b" against ");
    line_segments(line, &meeting.intruder_first, &meeting.intruder_second);
}

// Appends a word and a fraction, each behind a space.
#[inline(always)]
#[tactic(auto, unfolding(crate::specs::Text::labelled, crate::specs::Text::field))]
fn line_labelled(line: &mut Line, word: &[u8], value: &Frac)
    requires short { length word.now ≤ 8 }
    requires room { length line.old + length word.now + 2 + FRAC_BYTES ≤ LINE_BYTES }
    ensures value { line.new ≡ line.old ++ labelled word.now (fraction_text value.now) }
    ensures room { length line.new ≤ length line.old + length word.now + 2 + FRAC_BYTES }
{
    line.push(b" ");
    line.push(word);
    line.push(b" ");
    line_frac(line, value);
}

// Appends the altitude in ticks.
#[tactic(auto, unfolding(crate::specs::Text::labelled, crate::specs::Text::field))]
fn line_altitude(line: &mut Line, flight: &Flight)
    requires { length line.old + 27 ≤ LINE_BYTES }
    ensures value { line.new ≡ line.old ++ labelled (codes "ticks") (signed_decimal flight.now.h) }
    ensures room { length line.new ≤ length line.old + 27 }
{
    line.push(b" ticks ");
    line.number(i128::from(flight.h));
}

// Appends a response.
#[tactic(auto, unfolding(crate::specs::Text::labelled, crate::specs::Text::field))]
fn line_response(line: &mut Line, flight: &Flight)
    requires { length line.old + 10 + RESPONSE_BYTES ≤ LINE_BYTES }
    ensures value { line.new ≡
        line.old ++ labelled (codes "response") (response_text (segments_of flight.now)) }
    ensures room { length line.new ≤ length line.old + 10 + RESPONSE_BYTES }
{
    line.push(b" response ");
    match &flight.hold {
        Some(duration) => {
            let acceleration = Frac::whole(0);
            line_segment(
                line,
                &Segment {
                    duration: *duration,
                    acceleration,
                },
            );
            line_next(line, &flight.first);
            line_next(line, &flight.second);
        }
        None => line_segments(line, &flight.first, &flight.second),
    }
}

// Appends up to two segments, or `none`.
fn line_segments(line: &mut Line, first: &Option<Segment>, second: &Option<Segment>)
    requires { length line.old + 2 * SEGMENT_BYTES + 1 ≤ LINE_BYTES }
    ensures value { line.new ≡ line.old ++ response_text (some_part first.now ++ some_part second.now) }
    ensures room { length line.new ≤ length line.old + 2 * SEGMENT_BYTES + 1 }
{
    match first {
        Some(segment) => {
            line_segment(line, segment);
            line_next(line, second);
        }
        None => line_only(line, second),
    }
}

// Appends a segment, or `none`.
fn line_only(line: &mut Line, segment: &Option<Segment>)
    requires { length line.old + SEGMENT_BYTES ≤ LINE_BYTES }
    ensures value { line.new ≡ line.old ++ response_text (some_part segment.now) }
    ensures room { length line.new ≤ length line.old + SEGMENT_BYTES }
{
    match segment {
        Some(segment) => line_segment(line, segment),
        None => line.push(b"none"),
    }
}

// Appends a space and a segment, if there is one.
#[tactic(auto, unfolding(crate::specs::Text::field))]
fn line_next(line: &mut Line, segment: &Option<Segment>)
    requires { length line.old + 1 + SEGMENT_BYTES ≤ LINE_BYTES }
    ensures value { line.new ≡ line.old ++ parts_text (some_part segment.now) }
    ensures room { length line.new ≤ length line.old + 1 + SEGMENT_BYTES }
{
    match segment {
        Some(segment) => {
            line.push(b" ");
            line_segment(line, segment);
        }
        None => {}
    }
}

// Appends a segment.
#[tactic(auto, unfolding(crate::specs::Text::segment_text))]
fn line_segment(line: &mut Line, segment: &Segment)
    requires { length line.old + SEGMENT_BYTES ≤ LINE_BYTES }
    ensures value { line.new ≡ line.old ++ segment_text segment.now }
    ensures room { length line.new ≤ length line.old + SEGMENT_BYTES }
{
    line_frac(line, &segment.duration);
    line.push(b"@");
    line_frac(line, &segment.acceleration);
}
