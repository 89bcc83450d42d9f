//! Why bytes are no text of a graph (PACE 2021, exact track): the first line that fails, with the first of its causes
//! in a fixed order, so each bad text has one answer.

ghost use Rattle.std.specs.Prelude.{◌≡◌};
ghost use Rattle.clu_pace.specs.declared.error.PaceError.TheVariants.{Memory};

use std::alloc::AllocError;
use thiserror::Error;

/// Why bytes gave no graph: the first line that fails, numbered from 1 with the skipped ones, and why.
#[derive(Clone, Copy, Debug, PartialEq, Eq, Error)]
pub enum PaceError {
    /// No line is kept, or the first one doesn't begin with the field `p`.
    #[error("NoHeader")]
    NoHeader,
    /// The first kept line isn't the four fields `p`, `cep` and two numbers of 32 bits.
    #[error("BadHeader line {line}")]
    BadHeader { line: u64 },
    /// A later line isn't two numbers of 32 bits.
    #[error("BadLine line {line}")]
    BadLine { line: u64 },
    /// A number is 0 or above n.
    #[error("VertexOut line {line}")]
    VertexOut { line: u64 },
    /// The two numbers are equal.
    #[error("Loop line {line}")]
    Loop { line: u64 },
    /// The pair stood before, in either order.
    #[error("Repeated line {line}")]
    Repeated { line: u64 },
    /// After the last line the number of edges isn't the header's.
    #[error("EdgeCount {stated} {found}")]
    EdgeCount { stated: u32, found: u64 },
    /// The header's n is above 1,000.
    #[error("TooManyVertices line {line}")]
    TooManyVertices { line: u64 },
    /// Want of memory.
    #[error("memory")]
    Memory,
}

impl From<AllocError> for PaceError {
    ghost from_gives = { λ _ e. e ≡ Memory };

    fn from(_: AllocError) -> Self {
        PaceError::Memory
    }
}
