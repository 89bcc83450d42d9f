//! The weights of pairs of vertices (clique partitioning, Grötschel and Wakabayashi 1989): a square of which the half above
//! the diagonal is used, so that both orders of a pair are one cell, and unused cells are 0, so that the weights determine it.
ghost use Rattle.std.specs.Prelude.{◌≡◌, ◌≢◌, ◌<◌, ◌≤◌, ◌^◌, IfOk, unsigned_abs, ℕ, pos};
ghost use Rattle.clu_partition.specs.Pairs.{weight_of, with_weight, total_of};

use crate::grid::Grid;
use crate::sums::pair_sum;
use crate::{Place, Vertex};
use std::alloc::{AllocError, Global};
use std::marker::Model;

/// The weights of the pairs of n vertices or places, each a signed number of at most 2^88 in size. The two
/// orders of a pair have one weight.
#[derive(Debug, Drop)]
pub struct PairTable {
    grid: Grid<i128>,
}

impl Model for PairTable {
    ghost use Rattle.clu_partition.specs.Pairs.{Pairs, IsTable};

    ghost Value = { Pairs };

    ghost view = { λ t. t.grid };

    ghost invariant = { λ t. IsTable t.grid };
}

impl PairTable {
    ghost use Rattle.clu_partition.specs.Pairs.{IsTable};

    /// The table of n vertices, at most 1,000, whose pairs all have the weight 0.
    pub fn new(alloc: Global, n: u32) -> Result<PairTable, AllocError>
        requires { n ≤ 1000 }
        ensures size { IfOk result (λ t. t.n ≡ n) }
        ensures zero { IfOk result (λ t. (u v : ℕ) → weight_of t u v ≡ pos 0) }
    {
        let size = n as usize;
        let cells = vec![in alloc; 0; size * size]?;
        Ok(PairTable {
            grid: Grid::from_cells(n, cells),
        })
    }

    /// The number of vertices.
    pub fn n(&self) -> u32
        ensures value { result ≡ self.now.n }
        ensures table { IsTable self.now }
        ensures small { result ≤ 1000 }
    {
        self.grid.n()
    }

    /// The weight of the pair of u and v; 0 where they are one vertex.
    pub fn get(&self, u: Vertex, v: Vertex) -> i128
        requires first { u < self.now.n }
        requires second { v < self.now.n }
        ensures value { result ≡ weight_of self.now u v }
        ensures small { unsigned_abs result ≤ 2 ^ 88 }
    {
        self.at(u.place(), v.place())
    }

    /// The weight of the pair at p and q; 0 where they are one place.
    pub fn at(&self, p: Place, q: Place) -> i128
        requires first { p < self.now.n }
        requires second { q < self.now.n }
        ensures value { result ≡ weight_of self.now p q }
        ensures small { unsigned_abs result ≤ 2 ^ 88 }
    {
        if p == q {
            return 0;
        }
        self.grid.get(p, q)
    }

    /// Gives the pair of u and v the weight w.
    pub fn set(&mut self, u: Vertex, v: Vertex, w: i128)
        requires first { u < self.old.n }
        requires second { v < self.old.n }
        requires differ { u ≢ v }
        requires small { unsigned_abs w ≤ 2 ^ 88 }
        ensures changed { self.new ≡ with_weight self.old u v w }
        ensures table { IsTable self.old }
        ensures kept { IsTable self.new }
    {
        self.set_at(u.place(), v.place(), w);
    }

    /// Gives the pair at p and q the weight w.
    pub fn set_at(&mut self, p: Place, q: Place, w: i128)
        requires first { p < self.old.n }
        requires second { q < self.old.n }
        requires differ { p ≢ q }
        requires small { unsigned_abs w ≤ 2 ^ 88 }
        ensures changed { self.new ≡ with_weight self.old p q w }
        ensures table { IsTable self.old }
        ensures kept { IsTable self.new }
    {
        self.grid.set(p, q, w);
    }

    /// Takes the weights of another table of as many vertices.
    pub fn copy_from(&mut self, other: &PairTable)
        requires size { self.old.n ≡ other.now.n }
        ensures { self.new ≡ other.now }
    {
        self.grid.copy_from(&other.grid);
    }

    /// The total of the absolute weights of all pairs.
    pub fn total_abs(&self) -> u128
        ensures { pos result ≡ total_of self.now }
    {
        let total = pair_sum(self.n(), |u, v| self.get(Vertex(u), Vertex(v)).abs());
        total.unsigned_abs()
    }
}
