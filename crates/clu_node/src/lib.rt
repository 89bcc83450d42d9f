//! What bounds the partitions of one node of the branch tree, and on which pair it would be split.
//!
//! The crates above use this: `bound_node` answers a leaf with its bound in the state, says whether
//! that is at most the best value known, and names a free pair, unless there is none. The
//! definitions stand in `specs/Node.antt`.
#![tactic(auto)]

mod bound;
mod pair;

pub use bound::{How, NodeBound, bound_node};
