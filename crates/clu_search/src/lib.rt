//! The solver: branch and bound over the decisions on pairs of groups.
//!
//! The crates above use this: `solve` answers a permitted partition and a valid certificate with its
//! labels, whose bound is exactly what its items prove; it is optimal, or all allowed branchings were
//! made, and these are fewer than there are permitted partitions. The definitions stand in
//! `specs/Outcome.antt` and `specs/Count.antt`.
#![tactic(auto)]

mod certify;
mod incumbent;
mod outcome;
mod search;
mod solver;
mod states;

pub use outcome::{End, Limits, Outcome};
pub use solver::solve;
