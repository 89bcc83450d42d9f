//! Certificates: a partition, a bound, and the evidence for both that a second person can check.
//!
//! The crates above use this: `write_cert` gives the one text of a certificate, `read_cert` the
//! certificate of a text or the first line that can't stand where it stands. The definitions stand
//! in `specs/`: `Text.antt` and `Fits.antt` are the grammar and its ranges, `Faults.antt` tells the
//! first bad line, `Valid.antt` says which certificates are valid for a problem, and `Upper.antt`
//! what their items prove.
#![tactic(auto)]

mod certificate;
mod cut;
mod fault;
mod lines;
mod lists;
mod numbers;
mod read;
mod reader;
mod write;

pub use certificate::{Certificate, Item, Proof};
pub use read::{BadText, CertError, read_cert};
pub use write::write_cert;
