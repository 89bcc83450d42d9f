//! The branch tree of one part of the vertices.
//!
//! The crates above use this: the items that `preorder` answers make a proof whose upper is the one
//! that `upper` answers, whatever was split. A tree is the list of its nodes in preorder, of which the
//! leaves alone keep rows; the definitions stand in `specs/Nodes.antt`.
#![tactic(auto)]

mod grow;
mod node;
mod path;
mod queue;
mod tree;

pub use node::{Branch, Fresh, Standing};
pub use tree::Tree;
