//! What is printed of a table's refusal.
ghost use Rattle.std.specs.Prelude.{[], ◌≡◌, ◌++◌, ◌+◌, ◌≤◌, length};
ghost use Rattle.hex.specs.Hex.{encode_lower};
ghost use Rattle.acas_outside.specs.Printed.{millionths_text};
ghost use Rattle.acas_command.specs.RefusalText.{bound_text, byte_text, digest_text, form_text, layer_digest_text, model_text, refusal_text, shape_text, state_text};

use crate::line_fields::{put_count, put_counts, put_millionths, put_text, put_wide_millionths};
use acas_outside::Line;
use acas_spec::BoundFault;
use acas_table_text::{TableFault, TableRefusal};

/// Makes a line of what is printed of a refusal.
pub(crate) fn write_refusal(line: &mut Line, refusal: &TableRefusal)
    requires { line.old ≡ [] }
    ensures { line.new ≡ refusal_text refusal.now }
{
    match refusal {
        TableRefusal::Form(fault) => write_form(line, fault),
        TableRefusal::Entry {
            layer,
            state,
            fault,
        } => {
            write_state(line, *layer, *state);
            write_bound(line, fault);
        }
    }
}

#[tactic(auto, unfolding(crate::specs::RefusalText::length_text))]
fn write_form(line: &mut Line, fault: &TableFault)
    requires { line.old ≡ [] }
    ensures { line.new ≡ form_text fault.now }
{
    match fault {
        TableFault::Magic => put_text(line, "magic"),
        TableFault::Version { found } => {
            put_text(line, "version ");
            put_count(line, u64::from(*found));
        }
        TableFault::OtherModel { kept, found } => write_model(line, kept, found),
        TableFault::Shape {
            place,
            kept,
            expected,
        } => write_shape(line, *place, *kept, *expected),
        TableFault::Length { expected, found } => {
            put_counts(line, "length ", *found, " of ", *expected)
        }
        TableFault::Advice { layer, state, byte } => write_byte(line, *layer, *state, *byte),
        TableFault::Digest { kept, computed } => put_digest(line, kept, computed),
        TableFault::LayerDigest {
            layer,
            kept,
            computed,
        } => write_layer_digest(line, *layer, kept, computed),
        TableFault::Failed => put_text(line, "read failed"),
        TableFault::Absent => put_text(line, "absent"),
        TableFault::Memory => put_text(line, "out of memory"),
    }
}

// Appends the hexadecimal digits of a digest.
fn put_digits(line: &mut Line, digest: &[u8; 32])
    requires { length line.old + 64 ≤ 1024 }
    ensures value { line.new ≡ line.old ++ encode_lower digest.now }
    ensures room { length line.new ≡ length line.old + 64 }
{
    let mut digits = [0u8; 64];
    let written = hex::encode_to_slice(digest.as_slice(), &mut digits);
    prove!(written.is_ok());
    line.push(&digits);
}

#[tactic(auto, unfolding(crate::specs::RefusalText::model_text))]
fn write_model(line: &mut Line, kept: &[u8; 32], found: &[u8; 32])
    requires { line.old ≡ [] }
    ensures { line.new ≡ model_text kept.now found.now }
{
    put_text(line, "other model ");
    put_digits(line, kept);
    put_text(line, " found ");
    put_digits(line, found);
}

#[tactic(auto, unfolding(crate::specs::RefusalText::digest_text))]
fn put_digest(line: &mut Line, kept: &[u8; 32], computed: &[u8; 32])
    requires { length line.old + 145 ≤ 1024 }
    ensures { line.new ≡ line.old ++ digest_text kept.now computed.now }
{
    put_text(line, "digest ");
    put_digits(line, kept);
    put_text(line, " computed ");
    put_digits(line, computed);
}

#[tactic(auto, unfolding(crate::specs::RefusalText::layer_digest_text))]
fn write_layer_digest(line: &mut Line, layer: u32, kept: &[u8; 32], computed: &[u8; 32])
    requires { line.old ≡ [] }
    ensures { line.new ≡ layer_digest_text layer kept.now computed.now }
{
    put_text(line, "layer ");
    put_count(line, u64::from(layer));
    put_text(line, " ");
    put_digest(line, kept, computed);
}

#[tactic(auto, unfolding(crate::specs::RefusalText::shape_text))]
fn write_shape(line: &mut Line, place: u32, kept: u32, expected: u32)
    requires { line.old ≡ [] }
    ensures { line.new ≡ shape_text place kept expected }
{
    put_text(line, "shape ");
    put_count(line, u64::from(place));
    put_text(line, " is ");
    put_count(line, u64::from(kept));
    put_text(line, " not ");
    put_count(line, u64::from(expected));
}

#[tactic(auto, unfolding(crate::specs::RefusalText::state_text))]
fn write_state(line: &mut Line, layer: u32, state: u32)
    requires { line.old ≡ [] }
    ensures value { line.new ≡ state_text layer state }
    ensures short { length line.new ≤ 60 }
{
    put_counts(
        line,
        "layer ",
        u64::from(layer),
        " state ",
        u64::from(state),
    );
}

#[tactic(auto, unfolding(crate::specs::RefusalText::byte_text))]
fn write_byte(line: &mut Line, layer: u32, state: u32, byte: u8)
    requires { line.old ≡ [] }
    ensures { line.new ≡ byte_text layer state byte }
{
    write_state(line, layer, state);
    put_text(line, " byte ");
    put_count(line, u64::from(byte));
}

#[tactic(auto, unfolding(crate::specs::RefusalText::upper_text, crate::specs::RefusalText::lower_text))]
fn write_bound(line: &mut Line, fault: &BoundFault)
    requires { length line.old ≤ 60 }
    ensures { line.new ≡ line.old ++ bound_text fault.now }
{
    match fault {
        BoundFault::AdviceNotAllowed => put_text(line, " advice not allowed"),
        BoundFault::UpperTooLow { stands, needed } => {
            put_values(line, " upper ", *stands, " under ", *needed)
        }
        BoundFault::LowerTooHigh { stands, allowed } => {
            put_values(line, " lower ", *stands, " over ", *allowed)
        }
    }
}

// Appends two values, each behind a text.
fn put_values(line: &mut Line, head: &str, stands: i64, between: &str, against: i128)
    requires { length line.old + length head.now + length between.now ≤ 900 }
    ensures { line.new ≡ line.old ++ head.now ++ millionths_text stands ++ between.now ++ millionths_text against }
{
    put_text(line, head);
    put_millionths(line, stands);
    put_text(line, between);
    put_wide_millionths(line, against);
}
