//! A sink in memory that tells what was written, whose listed writes fail. It stands beside the program, for laws and tests.
#![tactic(auto)]

mod memory_sink;

pub use memory_sink::MemorySink;
