//! The shares of a point as a table by the places of the groups, so that a search reads each in one step. Sound since
//! the list of groups rises: a group is found in it by halving, and no two places have one group.

ghost use Rattle.std.specs.Prelude.{◌≡◌, ◌<◌, ◌≤◌, ◌≤ℤ◌, ◌^◌, ℕ, pos, length, slice_index, Contains, IfOk};
ghost use Rattle.clu_state.specs.State.{IsState, group_leaders};
ghost use Rattle.clu_cuts.specs.Point.{IsPoint, share};
ghost use Rattle.clu_cuts.specs.Shares.{AreShares, IsTableOf};

use crate::point::Point;
use clu_partition::{Place, Residual, Vertex};
use clu_state::Situation;
use std::alloc::{AllocError, Global};

/// The shares that a point gives each two groups of a state, by the groups' places.
#[derive(Drop)]
pub(crate) struct Shares<'a> {
    /// The groups by their least vertices, rising.
    pub(crate) groups: &'a [Vertex],
    /// The point.
    pub(crate) point: &'a Point,
    table: Residual,
}

impl<'a> Shares<'a> {
    /// The shares of a state's groups.
    pub(crate) fn new<S: Situation>(
        alloc: Global,
        state: &S,
        groups: &'a [Vertex],
        point: &'a Point,
    ) -> Result<Shares<'a>, AllocError>
        requires valid { IsState (S.state state.now) }
        requires leaders { groups.now ≡ group_leaders (S.state state.now) }
        requires point { IsPoint (S.state state.now) point.now }
        requires common { point.now.den ≤ℤ pos (2 ^ 100) }
        ensures shares { IfOk result (λ shares. AreShares shares) }
        ensures groups { IfOk result (λ shares. shares.groups.now ≡ groups.now) }
        ensures point { IfOk result (λ shares. shares.point.now ≡ point.now) }
    {
        let table = table_of(alloc, state, groups, point)?;
        Ok(Shares {
            groups,
            point,
            table,
        })
    }

    /// The share of the groups at two places.
    pub(crate) fn at(&self, i: usize, j: usize) -> i128
        requires i { i < length self.now.groups.now }
        requires j { j < length self.now.groups.now }
        requires shares { AreShares self.now }
        ensures value { result ≡ share self.now.point.now (slice_index self.now.groups.now i) (slice_index self.now.groups.now j) }
        ensures least { pos 0 ≤ℤ result }
        ensures most { result ≤ℤ self.now.point.now.den }
    {
        // for the prover: the groups are those of the table
        let _groups = self.groups;
        self.table.get(Place(i), Place(j))
    }
}

/// The table of shares by the places of the groups.
fn table_of<S: Situation>(
    alloc: Global,
    _state: &S,
    groups: &[Vertex],
    point: &Point,
) -> Result<Residual, AllocError>
    requires valid { IsState (S.state _state.now) }
    requires leaders { groups.now ≡ group_leaders (S.state _state.now) }
    requires point { IsPoint (S.state _state.now) point.now }
    requires common { point.now.den ≤ℤ pos (2 ^ 100) }
    ensures { IfOk result (λ table. IsTableOf groups.now point.now table) }
{
    let mut table = Residual::new(alloc, groups.len() as u32)?;
    let pairs = point.pairs.as_slice();
    let x = point.x.as_slice();
    for k in (0..pairs.len()).rev() {
        let i = place_in(groups, pairs[k].0);
        let j = place_in(groups, pairs[k].1);
        table.set(i, j, x[k]);
    }
    Ok(table)
}

/// The place of a group's least vertex in their list, which rises.
fn place_in(groups: &[Vertex], v: Vertex) -> Place
    requires rising { (i j : ℕ) → i < j → j < length groups.now
        → slice_index groups.now i < slice_index groups.now j }
    requires listed { Contains groups.now v }
    ensures within { result < length groups.now }
    ensures at { slice_index groups.now result ≡ v }
{
    match groups.binary_search_by_key(&v.0, |m| m.0) {
        Ok(i) => Place(i),
        Err(_) => unreachable!(),
    }
}
