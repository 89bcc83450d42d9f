//! Rules files: which vertices have to share a block of a partition, and which must not.
//!
//! The crates above use this: `read_rules` answers the pairs that the lines of a text require and
//! forbid, or its first line that is refused, and `close` the groups that the pairs make, or the
//! least pair that is forbidden and tied. The definitions stand in `specs/Lines.antt` for the lines,
//! `specs/Rules.antt` for the pairs that they give, `specs/Reading.antt` for whole texts, and
//! `specs/Ties.antt` of `clu_partition` for the groups.
#![tactic(auto)]

mod attributes;
mod closing;
mod error;
mod form;
mod pairs;
mod reader;
mod rule;
mod rule_set;
mod rules;
mod values;

pub use closing::{CloseError, Contradiction, close};
pub use error::RuleError;
pub use rules::{Rules, read_rules};
