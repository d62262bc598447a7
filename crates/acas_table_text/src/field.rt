//! The fields of a table that are to have certain bytes.
ghost use Rattle.std.specs.Prelude.{◌≡◌, length};
ghost use Rattle.acas_table_text.specs.Faults.{unless};

use crate::fault::TableFault;
use crate::format::Format;
use byteorder::{ByteOrder, LittleEndian};

/// A field of a table, and what it is to be.
#[derive(Clone, Copy)]
pub enum Field {
    /// The four letters at the front.
    Magic,
    /// The version, which is 1 or 2.
    Version,
    /// The digest of the model's text.
    Model([u8; 32]),
    /// One of the five numbers of the shape. The places are counted from 0.
    Number { place: u32, expected: u32 },
    /// The digest at the end of a file of version 1.
    Digest([u8; 32]),
    /// The digest of a layer in a file of version 2.
    LayerDigest { layer: u32, computed: [u8; 32] },
}

impl Field {
    ghost use Rattle.std.specs.Prelude.{◌≡◌, length};
    ghost use Rattle.acas_outside.specs.Bytes.{IsBytes};
    ghost use Rattle.acas_table_text.specs.Faults.{fault_in, width_of};

    /// How many bytes the field has.
    pub fn width(&self) -> usize
        ensures { result ≡ width_of self.now }
    {
        match self {
            Field::Magic => 4,
            Field::Version => 4,
            Field::Model(_) => 32,
            Field::Number { .. } => 4,
            Field::Digest(_) => 32,
            Field::LayerDigest { .. } => 32,
        }
    }

    /// The fault of the field, where these are its bytes.
    pub fn fault(&self, found: &[u8]) -> Option<TableFault>
        requires { length found.now ≡ width_of self.now }
        ensures fault { result ≡ fault_in self.now found.now }
        ensures bytes { IsBytes found.now }
    {
        match self {
            Field::Magic => fault_unless(found == b"ACXT".as_slice(), TableFault::Magic),
            Field::Version => {
                let found = LittleEndian::read_u32(found);
                fault_unless(
                    Format::of_version(found).is_some(),
                    TableFault::Version { found },
                )
            }
            Field::Model(digest) => fault_unless(
                found == digest.as_slice(),
                TableFault::OtherModel {
                    kept: digest_of(found),
                    found: *digest,
                },
            ),
            Field::Number { place, expected } => {
                let kept = LittleEndian::read_u32(found);
                let (place, expected) = (*place, *expected);
                fault_unless(
                    kept == expected,
                    TableFault::Shape {
                        place,
                        kept,
                        expected,
                    },
                )
            }
            Field::Digest(computed) => fault_unless(
                found == computed.as_slice(),
                TableFault::Digest {
                    kept: digest_of(found),
                    computed: *computed,
                },
            ),
            Field::LayerDigest { layer, computed } => fault_unless(
                found == computed.as_slice(),
                TableFault::LayerDigest {
                    layer: *layer,
                    kept: digest_of(found),
                    computed: *computed,
                },
            ),
        }
    }
}

fn fault_unless(good: bool, fault: TableFault) -> Option<TableFault>
    ensures { result ≡ unless good fault }
{
    if good { None } else { Some(fault) }
}

// The digest that these bytes are.
fn digest_of(bytes: &[u8]) -> [u8; 32]
    requires { length bytes.now ≡ 32 }
    ensures { result ≡ bytes.now }
{
    let mut digest = [0u8; 32];
    digest.copy_from_slice(bytes);
    digest
}
