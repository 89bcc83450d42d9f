//! Why a text is no rules file. Each refusal names the first line that fails, and at one line the
//! first that holds in the order of the variants.

ghost use Rattle.std.specs.Prelude.{◌≡◌};
ghost use Rattle.clu_rules.specs.declared.error.RuleError.TheVariants.{Memory};

use std::alloc::AllocError;
use thiserror::Error;

/// Why bytes gave no rules: the first line that fails, by its number from 1, and why.
#[derive(Clone, Copy, Debug, PartialEq, Eq, Error)]
pub enum RuleError {
    /// The first field is no word of a rule, or the number of fields is not that of the word.
    #[error("BadRule line {line}")]
    BadRule { line: u64 },
    /// A name that no vertex has.
    #[error("UnknownVertex line {line}")]
    UnknownVertex { line: u64 },
    /// An earlier line gave the vertex a value under this key.
    #[error("AttributeTwice line {line}")]
    AttributeTwice { line: u64 },
    /// Want of memory.
    #[error("memory")]
    Memory,
}

impl From<AllocError> for RuleError {
    ghost from_gives = { λ _ e. e ≡ Memory };

    fn from(_: AllocError) -> Self {
        RuleError::Memory
    }
}
