//! Decisions on pairs: two groups share a block, or stay in different ones (merging and forbidding, Böcker, Briesemeister,
//! Bui and Truss 2009). Each is named by any two vertices of its groups.

use clu_partition::Vertex;

/// A decision about the groups of two members, which are different groups and not apart.
#[derive(Clone, Copy, Debug, PartialEq, Eq)]
pub enum Decision {
    /// The two groups become one: the vertices share a block.
    Together(Vertex, Vertex),
    /// The two groups stay apart: the vertices are in different blocks.
    Apart(Vertex, Vertex),
}
