//! Why bytes are no table of a model.

/// Why a table is refused. Its fields are looked at in the order of their bytes, and the end of the file last.
#[derive(Clone, Copy, PartialEq, Eq)]
pub enum TableFault {
    /// The first four bytes are not those of a table.
    Magic,
    /// The version is neither 1 nor 2.
    Version {
        found: u32,
    },
    /// The kept digest of the model's text is not that of this model, which is `found`.
    OtherModel {
        kept: [u8; 32],
        found: [u8; 32],
    },
    /// One of the five numbers of the header is not the model's. The places are counted from 0.
    Shape {
        place: u32,
        kept: u32,
        expected: u32,
    },
    /// The file ends inside a field, and has `found` bytes, or it does not end behind the last digest, and then `found`
    /// is one more than `expected`: the length of the model's tables of the version that was read, and of version 2
    /// where the file ends before its version does.
    Length {
        expected: u64,
        found: u64,
    },
    /// The advice of a state is not 255 in layer 0, or is no advisory above it.
    Advice {
        layer: u32,
        state: u32,
        byte: u8,
    },
    /// In version 1, the digest at the end is not that of the bytes before it.
    Digest {
        kept: [u8; 32],
        computed: [u8; 32],
    },
    /// In version 2, the digest of a layer is not that of what stands before it: the header or the digest of the layer
    /// before, and the layer's entries.
    LayerDigest {
        layer: u32,
        kept: [u8; 32],
        computed: [u8; 32],
    },
    /// A read failed.
    Failed,
    /// The name is not held.
    Absent,
    /// Memory was refused.
    Memory,
}
