//! Closed rules: groups that required pairs tie, and pairs of groups that are kept apart. What chains imply is made once, so
//! that each later question of a pair is one look at its groups.
ghost use Rattle.std.specs.Prelude.{◌≡◌, ◌<◌, ◌≤◌, ◌≢◌, ◌↔◌, ℕ, All, IfOk, IsTrue, length, slice_index};
ghost use Rattle.clu_partition.specs.Closed.{joins, IsPermitted};

use crate::pair_set::rising_pairs;
use crate::ties::{TieError, alone, first_tied, lead_all, tie_all};
use crate::{Partition, Vertex};
use std::alloc::{AllocError, Global};
use std::marker::Model;

/// Closed rules: the groups of vertices that required pairs tie together, and the pairs of groups
/// that are forbidden to share a block.
#[derive(Debug, Drop)]
pub struct Start {
    group: Vec<Vertex>,
    forbidden: Vec<(Vertex, Vertex)>,
}

impl Model for Start {
    ghost use Rattle.std.specs.Prelude.{◌≤◌, length};
    ghost use Rattle.clu_partition.specs.Closed.{Closed, IsClosed};

    ghost Value = { Closed };

    ghost view = { λ s. record { group = s.group.items; forbidden = s.forbidden.items } };

    ghost invariant = { λ s. IsClosed (record { group = s.group.items; forbidden = s.forbidden.items }) × (length s.group.items ≤ 1000) };
}

impl Start {
    ghost use Rattle.clu_partition.specs.Closed.{IsClosed, BindsNothing};
    ghost use Rattle.clu_partition.specs.Ties.{AreBelow, Closes};

    /// The rules that require and forbid nothing, for n vertices, at most 1,000.
    pub fn none(alloc: Global, n: u32) -> Result<Start, AllocError>
        requires { n ≤ 1000 }
        ensures { IfOk result (λ s. BindsNothing n s) }
    {
        let group = alone(alloc, n)?;
        Ok(Start {
            group,
            forbidden: Vec::new(alloc),
        })
    }

    /// The rules that required and forbidden pairs of n vertices make, in time linear in the pairs and in n * n. Where no
    /// partition obeys all pairs, the error names the least forbidden pair that a chain of required pairs ties.
    pub fn tied(
        alloc: Global,
        n: u32,
        required: &[(Vertex, Vertex)],
        forbidden: &[(Vertex, Vertex)],
    ) -> Result<Start, TieError>
        requires small { n ≤ 1000 }
        requires required { AreBelow n required.now }
        requires forbidden { AreBelow n forbidden.now }
        ensures { Closes n required.now forbidden.now result }
    {
        let Ok(group) = tie_all(alloc, n, required) else {
            return Err(TieError::Memory);
        };
        let Ok(listed) = rising_pairs(alloc, n, forbidden) else {
            return Err(TieError::Memory);
        };
        if let Some(pair) = first_tied(&group, &listed) {
            return Err(TieError::Contradiction {
                u: pair.0,
                v: pair.1,
            });
        }
        let Ok(led) = lead_all(alloc, &group, &listed) else {
            return Err(TieError::Memory);
        };
        let Ok(forbidden) = rising_pairs(alloc, n, &led) else {
            return Err(TieError::Memory);
        };
        Ok(Start { group, forbidden })
    }

    /// The number of vertices.
    #[tactic(auto, using(crate::proofs::ClosedLaws::own_permitted))]
    pub fn n(&self) -> u32
        ensures value { result ≡ length self.now.group }
        ensures closed { IsClosed self.now }
        ensures small { result ≤ 1000 }
        ensures possible { IsPermitted self.now (slice_index self.now.group) }
    {
        self.group.len() as u32
    }

    /// The least vertex of the group of v.
    pub fn group(&self, v: Vertex) -> Vertex
        requires { v < length self.now.group }
        ensures { result ≡ slice_index self.now.group v }
    {
        self.group[v.0 as usize]
    }

    /// The forbidden pairs of groups, each by its least vertices, rising.
    pub fn forbidden(&self) -> &[(Vertex, Vertex)]
        ensures { result.now ≡ self.now.forbidden }
    {
        &self.forbidden
    }

    /// Whether the groups of u and v are forbidden to share a block.
    pub fn apart(&self, u: Vertex, v: Vertex) -> bool
        requires first { u < length self.now.group }
        requires second { v < length self.now.group }
        ensures { result ≡ joins (slice_index self.now.group) self.now.forbidden u v }
    {
        let (a, b) = (self.group(u), self.group(v));
        let pair = (a.0.min(b.0), a.0.max(b.0));
        let found = self
            .forbidden
            .binary_search_by(|p| (p.0.0, p.1.0).cmp(&pair));
        found.is_ok()
    }

    /// Whether a partition of the vertices keeps each group in one block and each forbidden pair of
    /// groups in two.
    pub fn permits(&self, p: &Partition) -> bool
        requires { length p.now ≡ length self.now.group }
        ensures { IsTrue result ↔ IsPermitted self.now (slice_index p.now) }
    {
        let labels = p.labels();
        self.keeps_groups(labels) && self.keeps_apart(labels)
    }

    fn keeps_groups(&self, labels: &[u32]) -> bool
        requires { length labels.now ≡ length self.now.group }
        ensures { IsTrue result ↔ ((v : ℕ) → v < length self.now.group
            → slice_index labels.now (slice_index self.now.group v) ≡ slice_index labels.now v) }
    {
        for v in 0..self.n() {
            let least = self.group(Vertex(v));
            if labels[v as usize] != labels[least.0 as usize] {
                return false;
            }
        }
        true
    }

    fn keeps_apart(&self, labels: &[u32]) -> bool
        requires { length labels.now ≡ length self.now.group }
        ensures { IsTrue result ↔ All (λ pair. slice_index labels.now pair.0 ≢ slice_index labels.now pair.1) self.now.forbidden }
    {
        for pair in &self.forbidden {
            if labels[pair.0.0 as usize] == labels[pair.1.0 as usize] {
                return false;
            }
        }
        true
    }
}
