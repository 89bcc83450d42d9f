//! Why a network has no problem of an objective: a weight below 0, no weight at all, or a total past the limit that
//! keeps all sums within 128 bits. The first of these is named.

ghost use Rattle.std.specs.Prelude.{◌≡◌};
ghost use Rattle.clu_objective.specs.declared.error.ObjError.TheVariants.{Memory};

use std::alloc::AllocError;
use thiserror::Error;

/// Why a network gave no problem.
#[derive(Clone, Copy, Debug, PartialEq, Eq, Error)]
pub enum ObjError {
    /// Modularity meets a line of weight below 0; this is the number of the first one, from 1.
    #[error("NegativeWeight line {line}")]
    NegativeWeight { line: u64 },
    /// Modularity meets no weight: there is no line, or all weigh 0.
    #[error("NoWeight")]
    NoWeight,
    /// The weight of all lines in units, for agreement without their signs, passes its limit.
    #[error("TotalWeight {sum}")]
    TotalWeight { sum: u128 },
    /// Want of memory.
    #[error("memory")]
    Memory,
}

impl From<AllocError> for ObjError {
    ghost from_gives = { λ _ e. e ≡ Memory };

    fn from(_: AllocError) -> Self {
        ObjError::Memory
    }
}
