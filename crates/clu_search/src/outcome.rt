//! What the public call takes and hands out: how far a search may go, how it ended, and the evidence,
//! which says what was proved also where the search was stopped early.

use clu_cert::Certificate;
use clu_partition::Partition;

/// How far a search may go.
#[derive(Clone, Copy, Debug, PartialEq, Eq)]
pub struct Limits {
    /// The number of branchings that may be made.
    pub branchings: u64,
}

/// How a search ended.
#[derive(Clone, Copy, Debug, PartialEq, Eq)]
pub enum End {
    /// The value is the bound: no permitted partition is better.
    Optimal,
    /// Value and bound differ, and all allowed branchings were made.
    Branchings,
}

/// What a search found.
#[derive(Drop)]
pub struct Outcome {
    /// The best partition that was found.
    pub partition: Partition,
    /// The partition and the evidence for its bound.
    pub certificate: Certificate,
    /// How many branchings were made: the branch items of the certificate.
    pub branchings: u64,
    /// How the search ended.
    pub end: End,
}
