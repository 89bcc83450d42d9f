//! States: decisions on the vertices of a problem, and the groups that they make.
//!
//! The crates above use this: a `Situation` is its pair table, its rules, its members and its
//! decisions, and answers for the groups of these. `Rebuilt` is one that keeps tables of the
//! groups. The definitions stand in `specs/State.antt` and `specs/Chains.antt`.
#![tactic(auto)]

mod build;
mod copy;
mod decision;
mod rebuilt;
mod situation;

pub use decision::Decision;
pub use rebuilt::Rebuilt;
pub use situation::Situation;
