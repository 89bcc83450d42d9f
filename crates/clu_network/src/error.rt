//! Why bytes are no edge list: the first line that fails, with the first of its causes in a fixed order, so each bad
//! text has one answer.

ghost use Rattle.std.specs.Prelude.{◌≡◌};
ghost use Rattle.clu_network.specs.declared.error.NetError.TheVariants.{Memory};

use std::alloc::AllocError;
use thiserror::Error;

/// Why bytes gave no network: the first line that fails, numbered from 1, and why.
#[derive(Clone, Copy, Debug, PartialEq, Eq, Error)]
pub enum NetError {
    /// More than three fields.
    #[error("TooManyFields line {line}")]
    TooManyFields { line: u64 },
    /// The third field is no decimal number, or has too many digits.
    #[error("BadWeight line {line}")]
    BadWeight { line: u64 },
    /// The 1,001st name appears.
    #[error("TooManyVertices line {line}")]
    TooManyVertices { line: u64 },
    /// Line 1,000,001 is there, skipped lines counted.
    #[error("TooManyLines")]
    TooManyLines,
    /// The line isn't UTF-8, and isn't skipped.
    #[error("NotText line {line}")]
    NotText { line: u64 },
    /// Want of memory.
    #[error("memory")]
    Memory,
}

impl From<AllocError> for NetError {
    ghost from_gives = { λ _ e. e ≡ Memory };

    fn from(_: AllocError) -> Self {
        NetError::Memory
    }
}
