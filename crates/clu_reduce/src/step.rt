//! Reductions: the rule and the two groups that it decides. Data reduction for weighted cluster
//! editing, in the manner of Böcker, Briesemeister, Bui and Truss (2009).
ghost use Rattle.std.specs.Prelude.{◌≡◌};
ghost use Rattle.clu_reduce.specs.Reduction.{decision_of};

use clu_partition::Vertex;
use clu_state::Decision;

/// Why a reduction keeps a best partition.
#[derive(Clone, Copy, Debug, PartialEq, Eq)]
pub enum Kind {
    /// The two groups have the same apart partners and the same weights to all others.
    Twin,
    /// The weight between the groups is at least all that both could gain elsewhere.
    Pair,
    /// The weight between the groups is at least the absolute weight of all else at the first.
    Heavy,
    /// The groups lose more by sharing a block than the first could gain from all others.
    Light,
}

/// A reduction of two groups, each named by one of its vertices.
#[derive(Clone, Copy, Debug, PartialEq, Eq)]
pub struct Step {
    /// The rule that allows it.
    pub kind: Kind,
    /// A vertex of the first group.
    pub u: Vertex,
    /// A vertex of the second group.
    pub v: Vertex,
}

impl Step {
    /// What the step decides: a light pair is kept apart, any other is put together.
    pub fn decision(&self) -> Decision
        ensures { result ≡ decision_of self.now }
    {
        match self.kind {
            Kind::Twin | Kind::Pair | Kind::Heavy => Decision::Together(self.u, self.v),
            Kind::Light => Decision::Apart(self.u, self.v),
        }
    }
}
