//! The entries and numbers that bytes are.
ghost use Rattle.std.specs.Prelude.{◌≡◌, length};
ghost use Rattle.acas_outside.specs.Bytes.{IsBytes};
ghost use Rattle.byteorder.specs.Endian.{little_number};
ghost use Rattle.acas_table_text.specs.Text.{entry_of};

use acas_units::{Entry, Pair};
use byteorder::{ByteOrder, LittleEndian};

/// The entry that 17 bytes are.
#[tactic(auto, unfolding(acas_table_text::specs::Text::entry_of))]
pub fn decode_entry(field: &[u8]) -> Entry
    requires { length field.now ≡ 17 }
    ensures value { result ≡ entry_of field.now }
    ensures bytes { IsBytes field.now }
{
    Entry {
        pair: Pair {
            upper: LittleEndian::read_i64(&field[..8]),
            lower: LittleEndian::read_i64(&field[8..16]),
        },
        advice: field[16],
    }
}

/// The number that four bytes are.
pub fn decode_number(field: &[u8]) -> u32
    requires { length field.now ≡ 4 }
    ensures value { result ≡ little_number 4 field.now }
    ensures bytes { IsBytes field.now }
{
    LittleEndian::read_u32(field)
}
