//! Problems of clustering: the pair weights of a graph or a network, and the objective of a partition.
//!
//! The crates above use this: for every partition the objective, counted straight from the graph or
//! from the lines of the network, is `base + factor * V`, where V is the sum of the pair weights
//! inside blocks. The definitions stand in `specs/Problem.antt`, `specs/Edits.antt`,
//! `specs/Agreement.antt`, `specs/Modularity.antt` and `specs/Lines.antt`.
#![tactic(auto)]

mod agreement;
mod edits;
mod error;
mod modularity;
mod networks;
mod objective;
mod problem;

pub use edits::pairs_of_graph;
pub use error::ObjError;
pub use networks::pairs_of_network;
pub use objective::Objective;
pub use problem::Problem;
