//! Reductions: decisions that keep a best partition of a state, and the division into parts.
//!
//! The crates above use this: `holds` says whether a `Step` keeps a best partition, `find` answers
//! one that does, `reduce_all` takes steps until the state is irreducible and ensures `keeps`, and
//! `parts` divides a state into parts that settle (`AreParts`). The definitions stand in
//! `specs/Conditions.antt`, `specs/Reduction.antt`, `specs/Steps.antt` and `specs/Parts.antt`.
#![tactic(auto)]

mod condition;
mod division;
mod row;
mod search;
mod step;
mod sweep;

pub use condition::holds;
pub use division::parts;
pub use search::find;
pub use step::{Kind, Step};
pub use sweep::reduce_all;
