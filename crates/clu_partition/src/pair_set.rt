//! A set of pairs of vertices as a square of marks: putting and looking are constant, and listing the pairs in rising order
//! takes the square of the number of vertices, however often a pair was put.
ghost use Rattle.std.specs.Prelude.{◌≡◌, ◌≢◌, ◌<◌, ◌≤◌, ◌||◌, ◌++◌, [], ◌∷◌, ℕ, false, if◌then◌else◌, IfOk, OnOk};
ghost use Rattle.clu_partition.specs.Grids.{IsGrid};
ghost use Rattle.clu_partition.specs.PairSets.{has as in_set, with_pair, IsListed};
ghost use Rattle.clu_partition.specs.Ties.{AreBelow, IsRisingOf};

use crate::grid::Grid;
use crate::{Place, Vertex};
use std::alloc::{AllocError, Global};
use std::marker::Model;

/// A set of pairs of n vertices or places, each in either order. The two of a pair may be equal.
#[derive(Debug, Drop)]
pub struct PairSet {
    grid: Grid<bool>,
}

impl Model for PairSet {
    ghost use Rattle.clu_partition.specs.Grids.{IsGrid};
    ghost use Rattle.clu_partition.specs.PairSets.{Chosen};

    ghost Value = { Chosen };

    ghost view = { λ s. s.grid };

    ghost invariant = { λ s. IsGrid s.grid };
}

impl PairSet {
    /// No pairs, of n vertices.
    pub fn new(alloc: Global, n: u32) -> Result<PairSet, AllocError>
        requires { n ≤ 1000 }
        ensures size { IfOk result (λ s. s.n ≡ n) }
        ensures none { IfOk result (λ s. (u v : ℕ) → in_set s u v ≡ false) }
    {
        let size = n as usize;
        let cells = vec![in alloc; false; size * size]?;
        Ok(PairSet {
            grid: Grid::from_cells(n, cells),
        })
    }

    /// The number of vertices.
    pub fn n(&self) -> u32
        ensures value { result ≡ self.now.n }
        ensures grid { IsGrid self.now }
        ensures small { result ≤ 1000 }
    {
        self.grid.n()
    }

    /// Whether the pair of u and v is in the set.
    pub fn has(&self, u: Vertex, v: Vertex) -> bool
        requires first { u < self.now.n }
        requires second { v < self.now.n }
        ensures { result ≡ in_set self.now u v }
    {
        self.has_at(u.place(), v.place())
    }

    /// Whether the pair at p and q is in the set.
    pub fn has_at(&self, p: Place, q: Place) -> bool
        requires first { p < self.now.n }
        requires second { q < self.now.n }
        ensures { result ≡ in_set self.now p q }
    {
        self.grid.get(p, q)
    }

    /// Puts the pair of u and v into the set.
    pub fn put(&mut self, u: Vertex, v: Vertex)
        requires first { u < self.old.n }
        requires second { v < self.old.n }
        ensures put { self.new ≡ with_pair self.old u v }
        ensures grid { IsGrid self.old }
    {
        self.put_at(u.place(), v.place());
    }

    /// Puts the pair at p and q into the set.
    pub fn put_at(&mut self, p: Place, q: Place)
        requires first { p < self.old.n }
        requires second { q < self.old.n }
        ensures put { self.new ≡ with_pair self.old p q }
        ensures grid { IsGrid self.old }
    {
        self.grid.set(p, q, true);
    }

    /// Takes the pairs of another set of as many vertices.
    pub fn copy_from(&mut self, other: &PairSet)
        requires size { self.old.n ≡ other.now.n }
        ensures { self.new ≡ other.now }
    {
        self.grid.copy_from(&other.grid);
    }

    /// Gives `low` the pairs of `high` beside its own.
    pub fn merge(&mut self, low: Place, high: Place)
        requires low { low < self.old.n }
        requires high { high < self.old.n }
        requires differ { low ≢ high }
        ensures size { self.new.n ≡ self.old.n }
        ensures joined { (j : ℕ) → j < self.old.n → j ≢ low
            → in_set self.new low j ≡ (in_set self.old low j || in_set self.old high j) }
        ensures others { (i j : ℕ) → i < self.old.n → j < self.old.n → i ≢ low → j ≢ low
            → in_set self.new i j ≡ in_set self.old i j }
    {
        for j in 0..self.n() as usize {
            self.copy(low, high, Place(j));
        }
    }

    /// Puts the pair of `low` and x into the set where that of `high` and x is in it.
    fn copy(&mut self, low: Place, high: Place, x: Place)
        requires low { low < self.old.n }
        requires high { high < self.old.n }
        requires x { x < self.old.n }
        ensures { self.new ≡ (if in_set self.old high x then with_pair self.old low x
            else self.old) }
    {
        if self.has_at(high, x) {
            self.put_at(low, x);
        }
    }

    /// Puts u and v behind the list where they are in the set.
    fn list_pair(
        &self,
        u: Vertex,
        v: Vertex,
        list: &mut Vec<(Vertex, Vertex)>,
    ) -> Result<(), AllocError>
        requires first { u < self.now.n }
        requires second { v < self.now.n }
        ensures { OnOk result (list.new.items ≡ (if in_set self.now u v then list.old.items ++ (u, v) ∷ []
            else list.old.items)) }
    {
        if self.has(u, v) {
            list.push((u, v))?;
        }
        Ok(())
    }

    /// The pairs of the set, each with its smaller vertex first, rising.
    pub fn pairs(&self, alloc: Global) -> Result<Vec<(Vertex, Vertex)>, AllocError>
        ensures { IfOk result (λ list. IsListed self.now list.items self.now.n self.now.n) }
    {
        let mut list = Vec::new(alloc);
        for u in 0..self.n() {
            for v in u..self.n() {
                self.list_pair(Vertex(u), Vertex(v), &mut list)?;
            }
        }
        Ok(list)
    }
}

/// The pairs of a list, each once and with its smaller vertex first, rising.
pub(crate) fn rising_pairs(
    alloc: Global,
    n: u32,
    pairs: &[(Vertex, Vertex)],
) -> Result<Vec<(Vertex, Vertex)>, AllocError>
    requires small { n ≤ 1000 }
    requires below { AreBelow n pairs.now }
    ensures { IfOk result (λ list. IsRisingOf n pairs.now list.items) }
{
    let mut set = PairSet::new(alloc, n)?;
    for pair in pairs {
        set.put(pair.0, pair.1);
    }
    set.pairs(alloc)
}
