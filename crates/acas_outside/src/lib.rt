//! The outside of the program: folders that are read and written, sinks that are written, whole files over them, and text that is
//! printed piece by piece: lines that are built in themselves, a buffer that gathers pieces to blocks, so that a line costs no call on its
//! sink, a pen that has both, and, in `proofs/`, what a loop over pieces keeps and what a failure in it leaves.
//!
//! A folder in memory tells what it holds. The files and streams of the system tell nothing.
#![tactic(auto)]

mod calls;
mod digits;
mod emitting;
mod folder;
mod line;
mod listed_calls;
mod memory_folder;
mod pen;
mod print_buffer;
mod print_fault;
mod real;
mod sink;
mod stored;
mod storing;
mod whole;

pub use calls::Calls;
pub use digits::last_six;
pub use emitting::{emit, emit_parts};
pub use folder::{Folder, ReadMiss};
pub use line::{LINE_BYTES, Line};
pub use listed_calls::ListedCalls;
pub use memory_folder::MemoryFolder;
pub use pen::Pen;
pub use print_buffer::{BLOCK_BYTES, PrintBuffer};
pub use print_fault::PrintFault;
pub use real::{RealFolder, RealSink};
pub use sink::{Failed, Sink};
pub use storing::{store_file, write_piece};
pub use whole::{ReadFault, read_whole};
