//! From pairs to the groups that they tie, or the least pair that nothing can obey. The closure is
//! that of must-link and cannot-link constraints (Wagstaff, Cardie, Rogers and Schrödl, 2001).

ghost use Rattle.std.specs.Prelude.{◌≡◌};
ghost use Rattle.clu_rules.specs.Closing.{ClosesTo, close_error};

use crate::Rules;
use clu_partition::{Start, TieError, Vertex};
use std::alloc::Global;

/// The groups of vertices that chains of required pairs tie, and the pairs of groups that are kept
/// apart, in time linear in the pairs and in n * n. Where no partition obeys all pairs the error has
/// the least pair that is forbidden and tied.
pub fn close(alloc: Global, rules: &Rules) -> Result<Start, CloseError>
    ensures { ClosesTo rules.now result }
{
    match Start::tied(alloc, rules.n(), rules.required(), rules.forbidden()) {
        Ok(start) => Ok(start),
        Err(error) => Err(error_of(&error)),
    }
}

/// Two vertices, u at most v, that are forbidden to share a block and that a chain of required pairs
/// ties. A vertex is tied to itself, so they may be one.
#[derive(Clone, Copy, Debug, PartialEq, Eq)]
pub struct Contradiction {
    /// The smaller vertex.
    pub u: Vertex,
    /// The other one.
    pub v: Vertex,
}

/// Why rules have no start.
#[derive(Clone, Copy, Debug, PartialEq, Eq)]
pub enum CloseError {
    /// No partition obeys them: the least pair that shows it.
    Contradiction(Contradiction),
    /// Want of memory.
    Memory,
}

fn error_of(error: &TieError) -> CloseError
    ensures { result ≡ close_error error.now }
{
    match error {
        TieError::Contradiction { u, v } => {
            CloseError::Contradiction(Contradiction { u: *u, v: *v })
        }
        TieError::Memory => CloseError::Memory,
    }
}
