//! Why a certificate isn't valid: one case for each condition, in the order in which `check` tries them,
//! with the place where the condition fails.

ghost use Rattle.std.specs.Prelude.{◌≡◌};
ghost use Rattle.clu_check.specs.declared.reject.Reject.TheVariants.{Memory};

use clu_partition::Vertex;
use std::alloc::AllocError;

/// Why a certificate isn't valid: the first of these conditions that fails. Items are counted from
/// 1, first the root steps and then the items of all proofs in order; a count stands still at the
/// last value of a `u64`.
#[derive(Clone, Copy, Debug, PartialEq, Eq)]
pub enum Reject {
    /// The objective or the number of labels isn't the problem's.
    Shape,
    /// The labels aren't numbered from 0 by first appearance.
    Blocks,
    /// The least pair, smaller vertex first, that the rules tie and the labels divide, or that the
    /// rules keep apart and the labels join.
    Rule {
        /// The smaller vertex.
        u: Vertex,
        /// The larger vertex.
        v: Vertex,
    },
    /// The stated value isn't the printed objective of the labels.
    Value {
        /// The printed objective of the labels.
        found: i128,
    },
    /// A reduction that doesn't hold, or a branch on a pair that isn't free.
    Step {
        /// Its number.
        item: u64,
    },
    /// A part is empty or doesn't rise, has a vertex of no graph or of an earlier part, divides a group,
    /// or has a free pair of positive weight to a group outside it.
    Parts {
        /// The number of the first such part, from 1, or one more than the number of parts where a
        /// vertex is in none.
        part: u64,
    },
    /// A leaf that has no bound.
    Leaf {
        /// Its number.
        item: u64,
    },
    /// The items of a part end before its tree is whole, or go on after it.
    Unfinished {
        /// The number of the part, from 1.
        part: u64,
    },
    /// The stated bound is better than what the items prove.
    Bound {
        /// The printed number that the items prove.
        found: i128,
    },
    /// Want of memory.
    Memory,
}

impl From<AllocError> for Reject {
    ghost from_gives = { λ _ e. e ≡ Memory };

    fn from(_: AllocError) -> Self {
        Reject::Memory
    }
}
