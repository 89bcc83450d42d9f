//! Two-set inequalities, the bound of a leaf that they give, and packings of triangles.
//!
//! The crates above use this: no partition of a state's class has a value above `leaf_bound`, and
//! `pack` answers a maximal packing of triangles and its bound. The definitions stand in `specs/Rows.antt`,
//! `specs/Faults.antt` and `specs/Packing.antt`.
#![tactic(auto)]

mod bound;
mod faults;
mod filling;
mod near;
mod packed;
mod packing;
mod prices;
mod row;
mod rows;

pub use bound::leaf_bound;
pub use clu_partition::Residual;
pub use packed::{PackedLeaf, Scratch, pack};
pub use row::{Leaf, LeafFault, Row};
pub use rows::Rows;
