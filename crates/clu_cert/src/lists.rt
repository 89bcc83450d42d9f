//! The lines that hold lists of numbers, and those of the items. A list takes room as it is read, so a long
//! count costs nothing before its lines are there.

ghost use Rattle.std.specs.Prelude.{◌≡◌, ◌+◌, ℕ, List, [], ◌∷◌, ◌++◌, map, codes, IfOk, OnOk, IsErrOf, IsNone, IfSome};
ghost use Rattle.std.specs.List.{AllByRecursion};
ghost use Rattle.clu_cert.specs.Cut.{spaced_fields};
ghost use Rattle.clu_cert.specs.Reads.{ReadsOr, ReadsSpelling};
ghost use Rattle.clu_cert.specs.Text.{from_one, numbers_line, row_line};
ghost use Rattle.clu_cert.specs.ItemLines.{item_line, ItemLineFits};
ghost use Rattle.clu_cert.specs.Fits.{IndexFits, PartFits, RowFits};

use crate::cut::{Fields, fields_of};
use crate::fault::Fault;
use crate::lines::{is_word, read_kind, read_place, three_fields};
use crate::numbers::{read_long, read_number};
use clu_partition::{Seq, Vertex};
use clu_reduce::Step;
use clu_rows::Rows;
use std::alloc::{AllocError, Global};
use std::marker::Model;

/// A line of an item, but for the rows of a leaf.
#[derive(Clone, Copy)]
pub enum ItemLine {
    /// The pair that is branched on.
    Branch(Vertex, Vertex),
    /// A reduction.
    Reduce(Step),
    /// The denominator of a leaf and the number of its rows.
    Leaf(u64, u64),
}

/// What a line `row` says.
#[derive(Drop)]
pub struct RowLine {
    /// The set before the slash.
    pub s: Seq<Vertex>,
    /// The set behind it.
    pub t: Seq<Vertex>,
    /// The multiplier.
    pub y: u128,
}

impl Model for RowLine {
    ghost use Rattle.clu_rows.specs.Rows.{TwoSet};

    ghost Value = { TwoSet };

    ghost view = { λ r. record { s = r.s; t = r.t; y = r.y } };
}

impl RowLine {
    /// Puts the row behind the others.
    pub fn push_to(&self, rows: &mut Rows) -> Result<(), AllocError>
        ensures { OnOk result (rows.new ≡ rows.old ++ self.now ∷ []) }
    {
        rows.push(self.s.as_slice(), self.t.as_slice(), self.y)
    }
}

/// The labels that the fields are.
fn labels_left(alloc: Global, rest: &mut Fields) -> Result<Seq<u32>, Fault>
    ensures { ReadsOr (map from_one) (AllByRecursion IndexFits) rest.old result }
{
    let mut labels = Seq::new(alloc);
    while let Some(field) = rest.next() {
        let Some(n) = read_place(field) else {
            return Err(Fault::Bad);
        };
        labels.push(n)?;
    }
    Ok(labels)
}

/// The vertices that the fields are.
fn vertices_left(alloc: Global, rest: &mut Fields) -> Result<Seq<Vertex>, Fault>
    ensures { ReadsOr (map from_one) (AllByRecursion IndexFits) rest.old result }
{
    let mut vertices = Seq::new(alloc);
    while let Some(field) = rest.next() {
        let Some(n) = read_place(field) else {
            return Err(Fault::Bad);
        };
        vertices.push(Vertex(n))?;
    }
    Ok(vertices)
}

/// The vertices before the slash, which is taken too.
fn before_slash(alloc: Global, rest: &mut Fields) -> Result<Seq<Vertex>, Fault>
    ensures ok { IfOk result
        (λ s. AllByRecursion IndexFits s × (rest.old ≡ map from_one s ++ (codes "/" ∷ rest.new))) }
    ensures only { IfOk result
        (λ s. (ns : List ℕ) (t : List (List ℕ)) → AllByRecursion IndexFits ns
        → rest.old ≡ map from_one ns ++ (codes "/" ∷ t) → (ns ≡ s) × (t ≡ rest.new)) }
    ensures bad { IsErrOf result Fault.Bad → (ns : List ℕ) (t : List (List ℕ)) → AllByRecursion IndexFits ns
        → rest.old ≡ map from_one ns ++ (codes "/" ∷ t) → ⊥ }
{
    let mut vertices = Seq::new(alloc);
    while let Some(field) = rest.next() {
        if is_word(field, b"/") {
            return Ok(vertices);
        }
        let Some(n) = read_place(field) else {
            return Err(Fault::Bad);
        };
        vertices.push(Vertex(n))?;
    }
    Err(Fault::Bad)
}

/// The fields behind the word that begins the line.
fn behind<'a>(line: &'a [u8], word: &[u8]) -> Option<Fields<'a>>
    ensures none { IsNone result → (t : List (List ℕ)) → spaced_fields line.now ≡ word.now ∷ t → ⊥ }
    ensures some { IfSome result (λ rest. spaced_fields line.now ≡ word.now ∷ rest) }
{
    let mut rest = fields_of(line);
    let first = rest.next()?;
    if !is_word(first, word) {
        return None;
    }
    Some(rest)
}

/// The line `blocks`.
pub fn read_labels(alloc: Global, line: &[u8]) -> Result<Seq<u32>, Fault>
    ensures { ReadsOr (numbers_line (codes "blocks")) (AllByRecursion IndexFits) (spaced_fields line.now) result }
{
    let Some(mut rest) = behind(line, b"blocks") else {
        return Err(Fault::Bad);
    };
    let labels = labels_left(alloc, &mut rest)?;
    Ok(labels)
}

/// The line `part`.
pub fn read_part(alloc: Global, line: &[u8]) -> Result<Seq<Vertex>, Fault>
    ensures { ReadsOr (numbers_line (codes "part")) PartFits (spaced_fields line.now) result }
{
    let Some(mut rest) = behind(line, b"part") else {
        return Err(Fault::Bad);
    };
    let part = vertices_left(alloc, &mut rest)?;
    if part.len() == 0 {
        return Err(Fault::Bad);
    }
    Ok(part)
}

/// The line `row`.
pub fn read_row(alloc: Global, line: &[u8]) -> Result<RowLine, Fault>
    ensures { ReadsOr row_line RowFits (spaced_fields line.now) result }
{
    let Some(mut rest) = behind(line, b"row") else {
        return Err(Fault::Bad);
    };
    let Some(field) = rest.next() else {
        return Err(Fault::Bad);
    };
    let Some(y) = read_number(field) else {
        return Err(Fault::Bad);
    };
    let s = before_slash(alloc, &mut rest)?;
    let t = vertices_left(alloc, &mut rest)?;
    if s.len() == 0 || t.len() == 0 {
        return Err(Fault::Bad);
    }
    Ok(RowLine { s, t, y })
}

/// The first line of an item.
pub fn read_item(line: &[u8]) -> Option<ItemLine>
    ensures { ReadsSpelling item_line ItemLineFits (spaced_fields line.now) result }
{
    let (word, one, two) = three_fields(line)?;
    if is_word(word, b"leaf") {
        let den = read_long(one)?;
        let rows = read_long(two)?;
        return Some(ItemLine::Leaf(den, rows));
    }
    let u = read_place(one)?;
    let v = read_place(two)?;
    if is_word(word, b"branch") {
        return Some(ItemLine::Branch(Vertex(u), Vertex(v)));
    }
    let kind = read_kind(word)?;
    Some(ItemLine::Reduce(Step {
        kind,
        u: Vertex(u),
        v: Vertex(v),
    }))
}
