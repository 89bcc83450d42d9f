//! Graphs for cluster editing, and the reader of their files.
//!
//! The crates above use this: `read_pace` answers the graph of a text exactly where the bytes are
//! one, and a `Graph` is its number of vertices and its list of edges. The definitions stand in
//! `specs/Graph.antt` and `specs/Pace.antt`.
#![tactic(auto)]

mod error;
mod graph;
mod numbers;
mod reader;

pub use error::PaceError;
pub use graph::Graph;
pub use reader::read_pace;
