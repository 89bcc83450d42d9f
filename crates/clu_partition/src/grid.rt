//! One square of cells under every table of pairs: the two orders of a pair share the cell on or above the diagonal, so that
//! looking and writing cost one multiplication. Contracts see the number of places and the list of cells.
ghost use Rattle.std.specs.Prelude.{◌≡◌, ◌<◌, ◌≤◌, ◌*◌, ℕ, length};
ghost use Rattle.clu_partition.specs.Grids.{cell_of, value_at, with_value, IsGrid};

use std::marker::Model;

/// A place from 0 among so many that a table has room for: a vertex, or where a vertex stands in a list.
#[derive(Clone, Copy, Debug, PartialEq, Eq, PartialOrd, Ord)]
pub struct Place(pub usize);

impl Model for Place {
    ghost use Rattle.std.specs.Prelude.{ℕ};

    ghost Value = { ℕ };

    ghost view = { λ p. p.0 };

    ghost inverse = { λ n. record { 0 = n } };
}

/// A cell for each pair of n places, at most 1,000, in either order; the places of a pair may be one.
#[derive(Debug, Drop)]
pub(crate) struct Grid<T: Copy> {
    n: u32,
    cells: Vec<T>,
}

impl<T: Copy> Model for Grid<T> {
    ghost use Rattle.clu_partition.specs.Grids.{Grid as GridOf, IsGrid};

    ghost Value = { GridOf T };

    ghost view = { λ g. record { n = g.n; cells = g.cells.items } };

    ghost invariant = { λ g. IsGrid (record { n = g.n; cells = g.cells.items }) };
}

impl<T: Copy> Grid<T> {
    ghost use Rattle.clu_partition.specs.Grids.{Grid as GridOf};

    /// The grid of n places with these cells, row by row.
    pub(crate) fn from_cells(n: u32, cells: Vec<T>) -> Grid<T>
        requires small { n ≤ 1000 }
        requires square { length cells.items ≡ n * n }
        ensures size { result.n ≡ n }
        ensures cells { result.cells ≡ cells.items }
    {
        Grid { n, cells }
    }

    /// The number of places.
    pub(crate) fn n(&self) -> u32
        ensures value { result ≡ self.now.n }
        ensures grid { IsGrid self.now }
        ensures small { result ≤ 1000 }
    {
        self.n
    }

    /// Where the cell of p and q, in either order, stands.
    fn cell(&self, p: Place, q: Place) -> usize
        requires first { p < self.now.n }
        requires second { q < self.now.n }
        ensures value { result ≡ cell_of self.now.n p q }
        ensures within { result < length self.now.cells }
    {
        let low = p.0.min(q.0);
        let high = p.0.max(q.0);
        low * self.n as usize + high
    }

    /// What stands in the cell of p and q.
    pub(crate) fn get(&self, p: Place, q: Place) -> T
        requires first { p < self.now.n }
        requires second { q < self.now.n }
        ensures { (other : T) → result ≡ value_at self.now other p q }
    {
        self.cells[self.cell(p, q)]
    }

    /// Writes a value into the cell of p and q.
    pub(crate) fn set(&mut self, p: Place, q: Place, value: T)
        requires first { p < self.old.n }
        requires second { q < self.old.n }
        ensures changed { self.new ≡ with_value self.old p q value }
        ensures grid { IsGrid self.old }
    {
        let cell = self.cell(p, q);
        self.cells[cell] = value;
    }

    /// Writes the cells of another grid of as many places over its own.
    pub(crate) fn copy_from(&mut self, other: &Grid<T>)
        requires size { self.old.n ≡ other.now.n }
        ensures { self.new ≡ other.now }
    {
        self.cells.copy_from_slice(other.cells.as_slice());
    }
}
