//! The lines of a text in bytes, the fields of a line, and decimal numbers.
//!
//! The readers above use this: `lines` gives the numbered lines, `fields` the fields of one,
//! `read_u32`, `read_u64` and `read_u128` the value of a field of digits, and `read_decimal` that of
//! a field with a sign and a point. The definitions stand in `specs/Lines.antt`,
//! `specs/Numbers.antt` and `specs/Decimals.antt`.
#![tactic(auto)]

mod cut;
mod decimal;
mod digit_runs;
mod numbers;
mod wide;

pub use cut::{FieldIter, Line, LineIter, fields, lines};
pub use decimal::{BadNumber, Decimal, read_decimal};
pub use numbers::{push_number, read_u32};
pub use wide::{push_u128, read_u64, read_u128};
