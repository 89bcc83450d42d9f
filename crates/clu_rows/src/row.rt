//! A two-set inequality with its multiplier, the leaf of a bound that such rows make, and why a leaf proves none.
//! Two-set inequalities: Grötschel and Wakabayashi (1990); `limit` proves that each partition meets them.

ghost use Rattle.std.specs.Prelude.{◌≡◌, ℕ, IfOk, length, min};
ghost use Rattle.clu_rows.specs.Rows.{TwoSetHolds};

use crate::rows::Rows;
use clu_partition::Vertex;
use std::alloc::{AllocError, Global};
use std::marker::Model;

/// What proves a bound: multipliers of two-set inequalities, over one denominator.
#[derive(Debug, Drop)]
pub struct Leaf {
    /// The multipliers' denominator, from 1 to 2^32 in a leaf without a fault.
    pub den: u64,
    /// The rows, in the order in which they are checked.
    pub rows: Rows,
}

impl Leaf {
    /// A leaf equal to this one.
    pub fn copy(&self, alloc: Global) -> Result<Leaf, AllocError>
        ensures den { IfOk result (λ leaf. leaf.den ≡ self.now.den) }
        ensures rows { IfOk result (λ leaf. leaf.rows ≡ self.now.rows) }
    {
        let rows = self.rows.copy(alloc)?;
        Ok(Leaf {
            den: self.den,
            rows,
        })
    }
}

/// Why a leaf proves no bound of a state.
#[derive(Clone, Copy, Debug, PartialEq, Eq)]
pub enum LeafFault {
    /// The denominator isn't from 1 to 2^32.
    Den,
    /// A row of the leaf.
    Row {
        /// The first row with which the rows have a fault, counted from 1: a set is empty, a vertex
        /// is no member, two name one group, the multiplier is 0, or the sum of the multipliers
        /// times the squares of the rows' numbers of vertices passes 2^120.
        row: u64,
    },
}

/// A two-set inequality and its multiplier, as it stands among a leaf's rows: each vertex names its
/// group, and the groups across `s` and `t` count once, those inside `s` or `t` once less.
#[derive(Debug, Drop)]
pub struct Row<'a> {
    /// The first set.
    pub s: &'a [Vertex],
    /// The second set.
    pub t: &'a [Vertex],
    /// The multiplier, a numerator over the leaf's denominator.
    pub y: u128,
}

impl<'a> Model for Row<'a> {
    ghost use Rattle.clu_rows.specs.Rows.{TwoSet};

    ghost Value = { TwoSet };

    ghost view = { λ r. record { s = r.s.now; t = r.t.now; y = r.y } };
}

impl<'a> Row<'a> {
    /// The right side of the inequality: the number of vertices of the smaller set.
    pub fn limit(&self) -> u128
        ensures value { result ≡ min (length self.now.s) (length self.now.t) }
        ensures holds { (label : ℕ → ℕ) → TwoSetHolds label self.now.s self.now.t }
    {
        self.s.len().min(self.t.len()) as u128
    }
}
