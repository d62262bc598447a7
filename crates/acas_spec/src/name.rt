//! The name of an advisory.
ghost use Rattle.std.specs.Prelude.{◌≡◌, ◌≤◌, length};

use acas_units::GREATEST_NAME_BYTES;
use std::marker::Model;

/// A name of at most [`GREATEST_NAME_BYTES`] bytes, which contracts see as the list of its bytes. It has its bytes in itself.
#[derive(Drop)]
pub struct Name {
    bytes: [u8; GREATEST_NAME_BYTES],
    length: usize,
}

impl Name {
    /// The name of these bytes.
    pub fn new(bytes: &[u8]) -> Name
        requires { length bytes.now ≤ GREATEST_NAME_BYTES }
        ensures { result ≡ bytes.now }
    {
        let mut name = [0; GREATEST_NAME_BYTES];
        let length = bytes.len();
        name[..length].copy_from_slice(bytes);
        Name {
            bytes: name,
            length,
        }
    }

    /// Its bytes.
    pub fn bytes(&self) -> &[u8]
        ensures { result.now ≡ self.now }
    {
        &self.bytes[..self.length]
    }
}

impl Model for Name {
    ghost use Rattle.std.specs.Prelude.{List, ℕ, ◌≤◌, take};
    ghost use Rattle.acas_units.specs.declared.limits.TheConstants.{GREATEST_NAME_BYTES};

    ghost Value = { List ℕ };

    ghost view = { λ name. take name.length name.bytes };

    ghost invariant = { λ name. name.length ≤ GREATEST_NAME_BYTES };
}
