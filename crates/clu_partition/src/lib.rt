//! Vertices, their names, the weights of their pairs, the rules they obey, and partitions of them
//! into blocks.
//!
//! The crates above use this: a `Partition` is the list of its labels, numbered from 0 by first
//! appearance, a `PairTable` has the weight of each pair, a `Start` the closed rules, and `Names`
//! ties each vertex to the bytes of its name. The definitions stand in `specs/`: `Partition.antt`
//! for partitions, `Values.antt` for what they are worth, `Pairs.antt`, `Closed.antt` and
//! `Names.antt`.
#![tactic(auto)]

mod grid;
mod names;
mod pair_set;
mod partition;
mod residual;
mod seq;
mod start;
mod sums;
mod table;
mod ties;
mod vertex;

pub use grid::Place;
pub use names::{Name, Names};
pub use pair_set::PairSet;
pub use partition::Partition;
pub use residual::Residual;
pub use seq::Seq;
pub use start::Start;
pub use sums::pair_sum;
pub use table::PairTable;
pub use ties::TieError;
pub use vertex::{Vertex, all_vertices, is_member};
