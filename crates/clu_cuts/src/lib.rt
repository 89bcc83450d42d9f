//! Separation: which triangles and claws over the groups of a state a point violates.
//!
//! The crates above use this: `violated_triangles` and `violated_claws` answer the first 50, and
//! where they answer none the point obeys them all, so that it is a relaxed point of the state. The
//! definitions stand in `specs/Point.antt` (points, the inequality, what it says that a bound is
//! tight), `specs/Stars.antt` (the order) and `specs/Cuts.antt` (kinds, which cuts are alike).
#![tactic(auto)]

mod claws;
mod point;
mod separate;
mod shares;
mod star;
mod triangles;

pub use point::{Cut, Point};
pub use separate::{violated_claws, violated_triangles};
