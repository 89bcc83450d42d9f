//! Problems of clustering, seen as clique partitioning after Groetschel and Wakabayashi (1989): pair
//! weights, and how the objective of a partition comes from those inside its blocks.

ghost use Rattle.std.specs.Prelude.{◌≡◌, ◌≤◌, ◌↔◌, ◌^◌, IsTrue, unsigned_abs};
ghost use Rattle.clu_objective.specs.Problem.{printed, IsBetterOrEqual};

use crate::Objective;
use clu_partition::PairTable;
use std::marker::Model;

/// A problem of clustering: find the partition whose pairs inside blocks weigh most.
///
/// The objective of a partition is `base + factor * V`, where V is the sum of the pair weights
/// inside its blocks.
#[derive(Debug, Drop)]
pub struct Problem {
    /// What the partitions are judged by.
    pub objective: Objective,
    /// The pair weights, of which the absolute values are 2^88 at most in all.
    pub pairs: PairTable,
    /// The objective of a partition into blocks that weigh nothing inside, at most 2^89 in size.
    pub base: i128,
    /// How much the objective changes by a unit of V: -1 for edits, 1 or 2 for the others.
    pub factor: i8,
    /// The number by which printed numbers are multiplied.
    pub scale: u128,
}

impl Model for Problem {
    ghost use Rattle.clu_objective.specs.Problem.{Posed, IsPosed};

    ghost Value = { Posed };

    ghost view = { λ p. record { objective = p.objective; pairs = p.pairs; base = p.base; factor = p.factor; scale = p.scale } };

    ghost invariant = { λ p. IsPosed (record { objective = p.objective; pairs = p.pairs; base = p.base; factor = p.factor; scale = p.scale }) };
}

impl Problem {
    /// The objective of a partition whose pairs inside blocks weigh `v` together.
    pub fn printed(&self, v: i128) -> i128
        requires { unsigned_abs v ≤ 2 ^ 88 }
        ensures { result ≡ printed self.now v }
    {
        self.base + self.factor as i128 * v
    }

    /// Whether the printed number `a` is at least as good as `b`.
    pub fn better_or_equal(&self, a: i128, b: i128) -> bool
        ensures { IsTrue result ↔ IsBetterOrEqual self.now.objective a b }
    {
        match self.objective {
            Objective::Edits => a <= b,
            Objective::Agreement | Objective::Modularity => b <= a,
        }
    }
}
