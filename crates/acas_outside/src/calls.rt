//! How many calls a folder in memory has had.

/// The numbers of calls so far, each up to the end of 64 bits.
#[derive(Copy, Clone)]
pub struct Calls {
    pub reads: u64,
    pub creates: u64,
    pub appends: u64,
}
