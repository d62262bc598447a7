//! The bytes of a header and of entries.
ghost use Rattle.std.specs.Prelude.{◌≡◌, ◌≤◌, ◌*◌, ◌++◌, length, take, IfOk, OnOk};
ghost use Rattle.std.specs.Int.{w64, cast_unsigned};
ghost use Rattle.byteorder.specs.Endian.{little_bytes};
ghost use Rattle.acas_table_text.specs.Text.{entry_text, header, layer_of, layer_text};

use acas_table_text::{Format, TableShape};
use acas_units::{Entry, Pair};
use byteorder::{ByteOrder, LittleEndian};
use std::alloc::{AllocError, Global};

/// The header of a table, from the digest of its model's text.
#[tactic(auto, unfolding(acas_table_text::specs::Text::header))]
pub fn header_bytes(
    alloc: Global,
    format: Format,
    shape: &TableShape,
    model: &[u8; 32],
) -> Result<Vec<u8>, AllocError>
    ensures { IfOk result (λ v. v.items ≡ header format model.now shape.now) }
{
    let mut head = Vec::new(alloc);
    head.extend_from_slice(b"ACXT")?;
    push_number(&mut head, format.version())?;
    head.extend_from_slice(model)?;
    push_number(&mut head, shape.altitudes)?;
    push_number(&mut head, shape.own_rates)?;
    push_number(&mut head, shape.intruder_rates)?;
    push_number(&mut head, shape.advisories)?;
    push_number(&mut head, shape.horizon)?;
    Ok(head)
}

fn push_number(out: &mut Vec<u8>, number: u32) -> Result<(), AllocError>
    ensures { OnOk result (out.new.items ≡ out.old.items ++ little_bytes 4 number) }
{
    let mut bytes = [0u8; 4];
    LittleEndian::write_u32(&mut bytes, number);
    out.extend_from_slice(&bytes)
}

/// Puts the entries of so many states at the front of `out`, one after another.
pub fn encode_entries(out: &mut [u8], pairs: &[Pair], advice: &[u8])
    requires long { length advice.now ≡ length pairs.now }
    requires bound { length pairs.now ≤ 3855 }
    requires room { 17 * length pairs.now ≤ length out.old }
    ensures { take (17 * length pairs.now) out.new ≡ layer_text (layer_of pairs.now advice.now) }
{
    for i in 0..pairs.len() {
        let entry = Entry {
            pair: pairs[i],
            advice: advice[i],
        };
        out[17 * i..17 * i + 17].copy_from_slice(&entry_bytes(&entry));
    }
}

#[tactic(auto, unfolding(acas_table_text::specs::Text::entry_text))]
fn entry_bytes(entry: &Entry) -> [u8; 17]
    ensures { result ≡ entry_text entry.now }
{
    let upper = value_bytes(entry.pair.upper);
    let lower = value_bytes(entry.pair.lower);
    [
        upper[0],
        upper[1],
        upper[2],
        upper[3],
        upper[4],
        upper[5],
        upper[6],
        upper[7],
        lower[0],
        lower[1],
        lower[2],
        lower[3],
        lower[4],
        lower[5],
        lower[6],
        lower[7],
        entry.advice,
    ]
}

fn value_bytes(value: i64) -> [u8; 8]
    ensures { result ≡ little_bytes 8 (cast_unsigned w64 value) }
{
    let mut bytes = [0u8; 8];
    LittleEndian::write_i64(&mut bytes, value);
    bytes
}
