//! What each naming of vertices is asked, a row at a time, in the tables of graphs and of networks.

use clu_partition::{Names, Vertex};

/// Whether there are so many vertices.
pub(crate) fn has_count<N: Names>(names: &N, count: u32) -> bool {
    names.count() == count
}

/// Whether the vertex has exactly this name.
pub(crate) fn is_named<N: Names>(names: &N, v: u32, name: &[u8]) -> bool {
    v < names.count() && names.name(Vertex(v)).as_bytes() == name
}

/// Whether the bytes name this vertex, or none.
pub(crate) fn finds<N: Names>(names: &N, name: &[u8], v: Option<u32>) -> bool {
    match names.find(name) {
        Some(found) => v == Some(found.0),
        None => v.is_none(),
    }
}
