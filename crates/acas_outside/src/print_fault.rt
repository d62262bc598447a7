//! Why a text is not printed whole.
use thiserror::Error;

/// Why a text was not printed whole.
#[derive(Clone, Copy, Debug, PartialEq, Eq, Error)]
pub enum PrintFault {
    /// The sink failed.
    #[error("the sink failed")]
    Sink = 1,
    /// There was no memory for what is printed, the line and the buffer.
    #[error("out of memory")]
    Memory = 2,
}
