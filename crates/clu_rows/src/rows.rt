//! The rows of a leaf in flat storage: one list of the vertices of all rows and, of each row, where its two sets end in it.
//! A leaf is two heap blocks whatever the number of its rows, and a triangle takes 44 bytes; contracts see the list of rows.

ghost use Rattle.std.specs.Prelude.{◌≡◌, ◌<◌, ◌≤◌, ◌+◌, ◌++◌, ◌∷◌, [], IfOk, OnOk, OnErr, length, slice_index_or, slice_range, vec_len, vec_capacity};
ghost use Rattle.clu_rows.specs.Rows.{TwoSet};
ghost use Rattle.clu_rows.specs.Flat.{rows_from, AreRowEnds, start_at};

use crate::row::Row;
use clu_partition::Vertex;
use std::alloc::{AllocError, Global};
use std::marker::Model;

/// Two-set inequalities and their multipliers, in their order.
#[derive(Debug, Drop)]
pub struct Rows {
    vertices: Vec<Vertex>,
    ends: Vec<RowEnd>,
}

/// Where a row's two sets end among the vertices of all rows, and its multiplier.
#[derive(Clone, Copy, Debug)]
struct RowEnd {
    middle: usize,
    end: usize,
    y: u128,
}

impl Model for Rows {
    ghost use Rattle.std.specs.Prelude.{List, length};
    ghost use Rattle.clu_rows.specs.Rows.{TwoSet};
    ghost use Rattle.clu_rows.specs.Flat.{rows_from, AreRowEnds};

    ghost Value = { List TwoSet };

    ghost view = { λ r. rows_from r.vertices.items 0 r.ends.items };

    ghost invariant = { λ r. AreRowEnds 0 (length r.vertices.items) r.ends.items };
}

impl Rows {
    /// No rows.
    pub fn new(alloc: Global) -> Rows
        ensures { result ≡ [] }
    {
        Rows {
            vertices: Vec::new(alloc),
            ends: Vec::new(alloc),
        }
    }

    /// The number of rows.
    pub fn len(&self) -> usize
        ensures { result ≡ length self.now }
    {
        self.ends.len()
    }

    /// The row at the place, from 0.
    pub fn row(&self, i: usize) -> Row<'_>
        requires { i < length self.now }
        ensures { (default : TwoSet) → result ≡ slice_index_or self.now i default }
    {
        row_at(&self.vertices, &self.ends, i)
    }

    /// Puts a row of two sets and a multiplier behind the others. After an error the rows are as they were.
    pub fn push(&mut self, s: &[Vertex], t: &[Vertex], y: u128) -> Result<(), AllocError>
        ensures ok { OnOk result (self.new ≡ self.old ++ record { s = s.now; t = t.now; y = y } ∷ []) }
        ensures err { OnErr result (self.new ≡ self.old) }
    {
        // room first: nothing fails behind it, so an error changes nothing
        self.vertices.reserve(s.len() + t.len())?;
        self.ends.reserve(1)?;
        append(&mut self.vertices, s);
        let middle = self.vertices.len();
        append(&mut self.vertices, t);
        let end = self.vertices.len();
        self.ends.push_reserved(RowEnd { middle, end, y });
        Ok(())
    }

    /// The same rows once more, in room that just holds them.
    pub fn copy(&self, alloc: Global) -> Result<Rows, AllocError>
        ensures { IfOk result (λ rows. rows ≡ self.now) }
    {
        let vertices = Vec::from_slice(alloc, &self.vertices)?;
        let ends = Vec::from_slice(alloc, &self.ends)?;
        Ok(Rows { vertices, ends })
    }

    /// Takes all rows out and keeps the room.
    pub fn clear(&mut self)
        ensures { self.new ≡ [] }
    {
        self.vertices.clear();
        self.ends.clear();
    }
}

/// Puts vertices behind the others where there is room for them.
fn append(vertices: &mut Vec<Vertex>, more: &[Vertex])
    requires { vec_len vertices.old + length more.now ≤ vec_capacity vertices.old }
    ensures items { vertices.new.items ≡ vertices.old.items ++ more.now }
    ensures room { vec_capacity vertices.old ≤ vec_capacity vertices.new }
{
    let _ = vertices.extend_from_slice(more);
}

/// Where the row at the place begins: where the one before it ends.
fn start_of(ends: &[RowEnd], i: usize) -> usize
    requires { i < length ends.now }
    ensures { result ≡ start_at 0 ends.now i }
{
    if i == 0 { 0 } else { ends[i - 1].end }
}

/// The row at the place.
fn row_at<'a>(vertices: &'a [Vertex], ends: &[RowEnd], i: usize) -> Row<'a>
    requires ends { AreRowEnds 0 (length vertices.now) ends.now }
    requires i { i < length ends.now }
    ensures { (default : TwoSet) → result ≡ slice_index_or (rows_from vertices.now 0 ends.now) i default }
{
    let start = start_of(ends, i);
    let RowEnd { middle, end, y } = ends[i];
    Row {
        s: part(vertices, start, middle),
        t: part(vertices, middle, end),
        y,
    }
}

/// The vertices from one place up to another.
fn part<'a>(vertices: &'a [Vertex], from: usize, upto: usize) -> &'a [Vertex]
    requires from { from ≤ upto }
    requires upto { upto ≤ length vertices.now }
    ensures { result.now ≡ slice_range vertices.now from upto }
{
    &vertices[from..upto]
}
