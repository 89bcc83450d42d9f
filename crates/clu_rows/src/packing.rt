//! The walk over the triples of groups that packs bad triangles: it takes the triples in rising order, and from each what is
//! possible. What the rows leave of each pair only nears 0, so that a triple that is settled stays so, and the walk leaves out
//! triples of which one pair at most is left with more than 0.
ghost use Rattle.std.specs.Prelude.{◌≡◌, ◌≢◌, ◌⊎◌, ◌↔◌, ◌<◌, ◌≤◌, OnOk, IsTrue, ℕ, ℤ, pos, neg_ℤ, ◌≤ℤ◌, ◌<ℤ◌, List, length, slice_index, true};
ghost use Rattle.clu_partition.specs.Pairs.{weight_of};
ghost use Rattle.clu_state.specs.State.{are_apart};
ghost use Rattle.clu_rows.specs.Rows.{TwoSet};
ghost use Rattle.clu_rows.specs.Table.{IsLeftTable, HasLeftTable, SameRoom, KeepsPacking, Changed, AllStuck, Allied, AreAllNear};

use crate::near::NearLists;
use crate::rows::Rows;
use clu_partition::{Place, Residual, Vertex};
use clu_state::Situation;
use std::alloc::AllocError;

/// The triangles so far, and what they leave of the pairs of groups, by their places.
#[derive(Drop)]
pub(crate) struct Packing {
    pub(crate) left: Residual,
    pub(crate) rows: Rows,
}

impl Packing {
    /// Visits each triple in which a triangle may be possible.
    pub(crate) fn visit_all<S: Situation>(
        &mut self,
        state: &S,
        groups: &[Vertex],
        near: &NearLists,
    ) -> Result<(), AllocError>
        requires near { AreAllNear self.old.left (length groups.now) near.now }
        requires packed { HasLeftTable (S.state state.now) groups.now self.old }
        ensures room { SameRoom self.old self.new }
        ensures packed { OnOk result (HasLeftTable (S.state state.now) groups.now self.new) }
        ensures settled { OnOk result ((x y z : ℕ) → x < y → y < z → z < length groups.now
            → AllStuck (S.state state.now) groups.now self.new.left x y z) }
    {
        for i in 0..groups.len() {
            self.visit_first(state, groups, near, i)?;
        }
        Ok(())
    }

    /// Visits the triples that begin with i.
    fn visit_first<S: Situation>(
        &mut self,
        state: &S,
        groups: &[Vertex],
        near: &NearLists,
        i: usize,
    ) -> Result<(), AllocError>
        requires i { i < length groups.now }
        requires near { AreAllNear self.old.left (length groups.now) near.now }
        requires packed { HasLeftTable (S.state state.now) groups.now self.old }
        ensures room { SameRoom self.old self.new }
        ensures step { OnOk result (KeepsPacking (S.state state.now) groups.now self.old self.new) }
        ensures settled { OnOk result ((y z : ℕ) → i < y → y < z → z < length groups.now
            → AllStuck (S.state state.now) groups.now self.new.left i y z) }
    {
        for j in i + 1..groups.len() {
            self.visit_pair(state, groups, near, i, j)?;
        }
        Ok(())
    }

    /// Visits those triples that begin with i and j in which a triangle may be possible. The others
    /// have one pair at most that is left with more than 0, and no later step changes that.
    fn visit_pair<S: Situation>(
        &mut self,
        state: &S,
        groups: &[Vertex],
        near: &NearLists,
        i: usize,
        j: usize,
    ) -> Result<(), AllocError>
        requires ij { i < j }
        requires j { j < length groups.now }
        requires near { AreAllNear self.old.left (length groups.now) near.now }
        requires packed { HasLeftTable (S.state state.now) groups.now self.old }
        ensures room { SameRoom self.old self.new }
        ensures step { OnOk result (KeepsPacking (S.state state.now) groups.now self.old self.new) }
        ensures settled { OnOk result ((z : ℕ) → j < z → z < length groups.now
            → AllStuck (S.state state.now) groups.now self.new.left i j z) }
    {
        if self.left.get(Place(i), Place(j)) > 0 {
            self.visit_each_third(state, groups, i, j)?;
        } else {
            self.visit_near_thirds(state, groups, near, i, j)?;
        }
        Ok(())
    }

    /// Visits the triples that begin with i and j, whose pair is not left with more than 0. A triangle
    /// needs two pairs that are, so the third group is near j.
    fn visit_near_thirds<S: Situation>(
        &mut self,
        state: &S,
        groups: &[Vertex],
        near: &NearLists,
        i: usize,
        j: usize,
    ) -> Result<(), AllocError>
        requires ij { i < j }
        requires j { j < length groups.now }
        requires idle { weight_of self.old.left i j ≤ℤ pos 0 }
        requires near { AreAllNear self.old.left (length groups.now) near.now }
        requires packed { HasLeftTable (S.state state.now) groups.now self.old }
        ensures room { SameRoom self.old self.new }
        ensures step { OnOk result (KeepsPacking (S.state state.now) groups.now self.old self.new) }
        ensures settled { OnOk result ((z : ℕ) → j < z → z < length groups.now
            → AllStuck (S.state state.now) groups.now self.new.left i j z) }
    {
        let thirds = near.of(j);
        for k in thirds {
            self.visit_near_third(state, groups, i, j, *k)?;
        }
        Ok(())
    }

    /// Visits three groups, of which i and j are not left with more than 0, if i and k are.
    fn visit_near_third<S: Situation>(
        &mut self,
        state: &S,
        groups: &[Vertex],
        i: usize,
        j: usize,
        k: usize,
    ) -> Result<(), AllocError>
        requires ij { i < j }
        requires jk { j < k }
        requires k { k < length groups.now }
        requires idle { weight_of self.old.left i j ≤ℤ pos 0 }
        requires packed { HasLeftTable (S.state state.now) groups.now self.old }
        ensures room { SameRoom self.old self.new }
        ensures step { OnOk result (KeepsPacking (S.state state.now) groups.now self.old self.new) }
        ensures settled { OnOk result (AllStuck (S.state state.now) groups.now self.new.left i j k) }
    {
        if self.left.get(Place(i), Place(k)) <= 0 {
            return Ok(());
        }
        self.visit(state, groups, i, j, k)
    }

    /// Visits the triples that begin with i and j, whose pair is left with more than 0.
    fn visit_each_third<S: Situation>(
        &mut self,
        state: &S,
        groups: &[Vertex],
        i: usize,
        j: usize,
    ) -> Result<(), AllocError>
        requires ij { i < j }
        requires j { j < length groups.now }
        requires allied { Allied (S.state state.now) groups.now self.old.left i j }
        requires packed { HasLeftTable (S.state state.now) groups.now self.old }
        ensures room { SameRoom self.old self.new }
        ensures step { OnOk result (KeepsPacking (S.state state.now) groups.now self.old self.new) }
        ensures settled { OnOk result ((z : ℕ) → j < z → z < length groups.now
            → AllStuck (S.state state.now) groups.now self.new.left i j z) }
    {
        for k in j + 1..groups.len() {
            self.visit_third(state, groups, i, j, k)?;
        }
        Ok(())
    }

    /// Visits three groups of which i and j have been left with more than 0, if just one of the other
    /// two pairs is now: with both or none of them no triangle is possible.
    fn visit_third<S: Situation>(
        &mut self,
        state: &S,
        groups: &[Vertex],
        i: usize,
        j: usize,
        k: usize,
    ) -> Result<(), AllocError>
        requires ij { i < j }
        requires jk { j < k }
        requires k { k < length groups.now }
        requires allied { Allied (S.state state.now) groups.now self.old.left i j }
        requires packed { HasLeftTable (S.state state.now) groups.now self.old }
        ensures room { SameRoom self.old self.new }
        ensures step { OnOk result (KeepsPacking (S.state state.now) groups.now self.old self.new) }
        ensures settled { OnOk result (AllStuck (S.state state.now) groups.now self.new.left i j k) }
    {
        let first = self.left.get(Place(i), Place(k));
        let second = self.left.get(Place(j), Place(k));
        if are_alike(first, second) {
            return Ok(());
        }
        self.visit(state, groups, i, j, k)
    }

    /// Applies the triangle of three groups that is possible: its centre is opposite the pair that is
    /// not left with more than 0.
    #[tactic(auto, using(crate::proofs::Steps::settled_second, crate::proofs::Steps::settled_third))]
    fn visit<S: Situation>(
        &mut self,
        state: &S,
        groups: &[Vertex],
        i: usize,
        j: usize,
        k: usize,
    ) -> Result<(), AllocError>
        requires ij { i < j }
        requires jk { j < k }
        requires k { k < length groups.now }
        requires packed { HasLeftTable (S.state state.now) groups.now self.old }
        ensures room { SameRoom self.old self.new }
        ensures step { OnOk result (KeepsPacking (S.state state.now) groups.now self.old self.new) }
        ensures settled { OnOk result (AllStuck (S.state state.now) groups.now self.new.left i j k) }
    {
        if self.left.get(Place(j), Place(k)) <= 0 {
            return self.try_triangle(state, groups, i, j, k);
        }
        if self.left.get(Place(i), Place(k)) <= 0 {
            return self.try_triangle(state, groups, j, i, k);
        }
        if self.left.get(Place(i), Place(j)) <= 0 {
            return self.try_triangle(state, groups, k, i, j);
        }
        Ok(())
    }

    /// Applies the triangle with the centre a where that is possible.
    fn try_triangle<S: Situation>(
        &mut self,
        state: &S,
        groups: &[Vertex],
        a: usize,
        b: usize,
        c: usize,
    ) -> Result<(), AllocError>
        requires a { a < length groups.now }
        requires b { b < length groups.now }
        requires c { c < length groups.now }
        requires ab { a ≢ b }
        requires ac { a ≢ c }
        requires bc { b ≢ c }
        requires third { weight_of self.old.left b c ≤ℤ pos 0 }
        requires packed { HasLeftTable (S.state state.now) groups.now self.old }
        ensures room { SameRoom self.old self.new }
        ensures step { OnOk result (KeepsPacking (S.state state.now) groups.now self.old self.new) }
        ensures settled { OnOk result (AllStuck (S.state state.now) groups.now self.new.left a b c) }
    {
        let first = self.left.get(Place(a), Place(b));
        let second = self.left.get(Place(a), Place(c));
        if first <= 0 || second <= 0 {
            return Ok(());
        }
        if !opposes(state, groups, &self.left, b, c) {
            return Ok(());
        }
        let third = self.left.get(Place(b), Place(c));
        let y = multiplier(first, second, third);
        self.rows
            .push(&[groups[a]], &[groups[b], groups[c]], y as u128)?;
        let rise = rise_of(third, y);
        lower(&mut self.left, Place(a), Place(b), Place(c), y, rise);
        Ok(())
    }
}

/// Whether the pair of b and c is apart or left with less than nothing.
fn opposes<S: Situation>(state: &S, groups: &[Vertex], left: &Residual, b: usize, c: usize) -> bool
    requires b { b < length groups.now }
    requires c { c < length groups.now }
    requires bc { b ≢ c }
    requires some { (rows : List TwoSet) × IsLeftTable (S.state state.now) groups.now left.now rows }
    ensures { IsTrue result ↔ ((are_apart (S.state state.now) (slice_index groups.now b)
        (slice_index groups.now c) ≡ true) ⊎ (weight_of left.now b c <ℤ pos 0)) }
{
    left.get(Place(b), Place(c)) < 0 || state.is_apart(groups[b], groups[c])
}

/// The multiplier of a triangle at whose pairs this is left.
fn multiplier(first: i128, second: i128, third: i128) -> i128
    requires first { pos 0 <ℤ first }
    requires second { pos 0 <ℤ second }
    ensures positive { pos 0 <ℤ result }
    ensures first { result ≤ℤ first }
    ensures second { result ≤ℤ second }
    ensures third { third <ℤ pos 0 → third ≤ℤ neg_ℤ result }
    ensures reached { (result ≡ first) ⊎ ((result ≡ second) ⊎ ((third <ℤ pos 0)
        × (result ≡ neg_ℤ third))) }
{
    let most = first.min(second);
    if third < 0 && third > -most {
        -third
    } else {
        most
    }
}

/// How much the third pair rises.
fn rise_of(third: i128, y: i128) -> i128
    ensures below { third <ℤ pos 0 → result ≡ y }
    ensures other { pos 0 ≤ℤ third → result ≡ pos 0 }
{
    if third < 0 { y } else { 0 }
}

/// Takes y from the two pairs of a, and gives rise to the third.
fn lower(left: &mut Residual, a: Place, b: Place, c: Place, y: i128, rise: i128)
    requires a { a < left.old.n }
    requires b { b < left.old.n }
    requires c { c < left.old.n }
    requires ab { a ≢ b }
    requires ac { a ≢ c }
    requires bc { b ≢ c }
    requires positive { pos 0 ≤ℤ y }
    requires first { y ≤ℤ weight_of left.old a b }
    requires second { y ≤ℤ weight_of left.old a c }
    requires third { (rise ≡ pos 0) ⊎ ((pos 0 ≤ℤ rise) × (weight_of left.old b c ≤ℤ neg_ℤ rise)) }
    ensures { Changed left.old left.new a b c y rise }
{
    let first = left.get(a, b) - y;
    let second = left.get(a, c) - y;
    let third = left.get(b, c) + rise;
    left.set(a, b, first);
    left.set(a, c, second);
    left.set(b, c, third);
}

/// Whether both numbers are above 0 or none is.
fn are_alike(v: i128, w: i128) -> bool
    ensures { IsTrue result ↔ ((pos 0 <ℤ v) ↔ (pos 0 <ℤ w)) }
{
    (v > 0) == (w > 0)
}
