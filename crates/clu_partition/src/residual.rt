//! Working space for bounds and separation: a signed number of any size for each pair, which is not limited as a weight is,
//! so that what a proof spends may pass a weight.
ghost use Rattle.std.specs.Prelude.{◌≡◌, ◌<◌, ◌≤◌, IfOk, ℕ, pos};
ghost use Rattle.clu_partition.specs.Grids.{IsGrid};
ghost use Rattle.clu_partition.specs.Pairs.{weight_of, with_weight};

use crate::Place;
use crate::grid::Grid;
use std::alloc::{AllocError, Global};
use std::marker::Model;

/// Working space: a signed number for each pair of n vertices or places, at most 1,000.
#[derive(Drop)]
pub struct Residual {
    grid: Grid<i128>,
}

impl Model for Residual {
    ghost use Rattle.clu_partition.specs.Grids.{IsGrid};
    ghost use Rattle.clu_partition.specs.Pairs.{Pairs};

    ghost Value = { Pairs };

    ghost view = { λ r. r.grid };

    ghost invariant = { λ r. IsGrid r.grid };
}

impl Residual {
    /// For how many vertices there is room.
    pub fn n(&self) -> usize
        ensures value { result ≡ self.now.n }
        ensures small { result ≤ 1000 }
        ensures grid { IsGrid self.now }
    {
        self.grid.n() as usize
    }

    /// Room for n vertices.
    pub fn new(alloc: Global, n: u32) -> Result<Residual, AllocError>
        requires { n ≤ 1000 }
        ensures size { IfOk result (λ r. r.n ≡ n) }
        ensures zero { IfOk result (λ r. (u v : ℕ) → weight_of r u v ≡ pos 0) }
    {
        let size = n as usize;
        let cells = vec![in alloc; 0; size * size]?;
        Ok(Residual {
            grid: Grid::from_cells(n, cells),
        })
    }

    /// The number of a pair, in either order; 0 where the two are one.
    pub fn get(&self, p: Place, q: Place) -> i128
        requires first { p < self.now.n }
        requires second { q < self.now.n }
        ensures { result ≡ weight_of self.now p q }
    {
        if p == q {
            return 0;
        }
        self.grid.get(p, q)
    }

    /// Gives a pair its number.
    pub fn set(&mut self, p: Place, q: Place, number: i128)
        requires first { p < self.old.n }
        requires second { q < self.old.n }
        ensures changed { self.new ≡ with_weight self.old p q number }
        ensures grid { IsGrid self.old }
    {
        self.grid.set(p, q, number);
    }
}
