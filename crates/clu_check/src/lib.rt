//! The checker: whether a certificate is valid for a problem and its rules.
//!
//! The crates above use this: `check` accepts exactly the valid certificates, and where it accepts, no
//! permitted partition is better than the bound. What it does is look-ups in the states that the
//! items name; it stands on no crate that searches. The definition of a valid certificate stands in
//! `clu_cert/specs/Valid.antt`, that of each rejection in `specs/Rejected.antt`.
#![tactic(auto)]

mod bounds;
mod checker;
mod labels;
mod parts;
mod reject;
mod shares;
mod tree;

pub use checker::{Accepted, check};
pub use reject::Reject;
