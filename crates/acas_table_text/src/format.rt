//! The two formats of a table's file.

use crate::shape::TableShape;

/// How the digests stand in a table's file.
#[derive(Clone, Copy)]
pub enum Format {
    /// Version 1: one digest, behind all entries.
    Whole,
    /// Version 2: a digest behind the entries of each layer.
    Layered,
}

impl Format {
    ghost use Rattle.std.specs.Prelude.{◌≡◌};
    ghost use Rattle.acas_table_text.specs.Shape.{IsShape};
    ghost use Rattle.acas_table_text.specs.Format.{format_of_version, group_size, last_group, length_of, version_of};

    /// The format of a version, where that is 1 or 2.
    pub fn of_version(version: u32) -> Option<Format>
        ensures { result ≡ format_of_version version }
    {
        match version {
            1 => Some(Format::Whole),
            2 => Some(Format::Layered),
            _ => None,
        }
    }

    /// The version that a file of this format names.
    pub fn version(self) -> u32
        ensures { result ≡ version_of self }
    {
        match self {
            Format::Whole => 1,
            Format::Layered => 2,
        }
    }

    /// How many entries stand before each digest: all of a table, or those of a layer.
    pub fn group_size(self, shape: &TableShape) -> u32
        requires { IsShape shape.now }
        ensures { result ≡ group_size self shape.now }
    {
        match self {
            Format::Whole => shape.entries(),
            Format::Layered => shape.states,
        }
    }

    /// The number of the last group, counted from 0: a file has one digest more.
    pub fn last_group(self, shape: &TableShape) -> u32
        ensures { result ≡ last_group self shape.now }
    {
        match self {
            Format::Whole => 0,
            Format::Layered => shape.horizon,
        }
    }

    /// How many bytes a file has.
    pub fn length(self, shape: &TableShape) -> u64
        requires { IsShape shape.now }
        ensures { result ≡ length_of self shape.now }
    {
        60 + (17 * u64::from(shape.entries()) + 32 * (u64::from(self.last_group(shape)) + 1))
    }
}
