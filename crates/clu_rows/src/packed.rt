//! A maximal packing of bad triangles and the dual bound that it gives. A bad triangle (a conflict triple) is two pairs that are left
//! with more than 0 and a third that is left with less, or is apart: no partition takes all three. The bound is sound since the
//! multipliers are a feasible dual of the triangle inequalities (Grötschel and Wakabayashi, 1989).
ghost use Rattle.std.specs.Prelude.{◌^◌, unsigned_abs, ◌≡◌, ◌<◌, ◌≤◌, IfOk, ℕ, pos, ◌≤ℤ◌, length};
ghost use Rattle.clu_partition.specs.Pairs.{weight_of};
ghost use Rattle.clu_partition.specs.Sums.{positive};
ghost use Rattle.clu_partition.specs.Values.{value_on};
ghost use Rattle.clu_state.specs.State.{State, InClass};
ghost use Rattle.clu_rows.specs.Rows.{leaf_bound_of};
ghost use Rattle.clu_rows.specs.Packing.{IsPacking, IsMaximal, excess_of};
ghost use Rattle.clu_rows.specs.Faults.{AreRows};
ghost use Rattle.clu_rows.specs.Table.{HasLeftTable};

use crate::bound::row_limit;
use crate::filling::fill;
use crate::near::NearLists;
use crate::packing::Packing;
use crate::row::Leaf;
use crate::rows::Rows;
use clu_partition::{Place, Residual, Vertex, pair_sum};
use clu_state::Situation;
use std::alloc::{AllocError, Global};
use std::marker::Model;

/// A leaf of denominator 1 whose rows are triangles, and its bound.
#[derive(Debug, Drop)]
pub struct PackedLeaf {
    /// The leaf.
    pub leaf: Leaf,
    /// The bound of the leaf: no partition of the state's class has a greater value.
    pub bound: i128,
}

/// A maximal packing of triangles of the state's groups: a leaf of denominator 1, whose rows are
/// triangles, each with a multiplier that what the earlier ones left allows, and no further
/// triangle could be applied. It takes the triples of groups in rising order, and from each what
/// is possible. What `scratch` holds doesn't matter. The only error is want of memory.
pub fn pack<S: Situation>(
    alloc: Global,
    state: &S,
    scratch: &mut Scratch,
) -> Result<PackedLeaf, AllocError>
    requires { (S.state state.now).pairs.n ≤ scratch.old.n }
    ensures den { IfOk result (λ packed. packed.leaf.den ≡ 1) }
    ensures packing { IfOk result (λ packed. IsPacking (S.state state.now) packed.leaf.rows) }
    ensures rows { IfOk result (λ packed. AreRows (S.state state.now) packed.leaf.rows) }
    ensures maximal { IfOk result (λ packed. IsMaximal (S.state state.now) packed.leaf.rows) }
    ensures bound { IfOk result (λ packed. packed.bound
        ≡ leaf_bound_of (S.state state.now) 1 packed.leaf.rows) }
    ensures small { IfOk result (λ packed. unsigned_abs packed.bound ≤ 2 ^ 88) }
    ensures sound { IfOk result (λ packed. (label : ℕ → ℕ) → InClass (S.state state.now) label
        → value_on (weight_of (S.state state.now).pairs) label (S.state state.now).members
        ≤ℤ packed.bound) }
    ensures room { scratch.new ≡ scratch.old }
{
    let leaders = state.leaders(alloc)?;
    let groups = leaders.as_slice();
    fill(state, groups, &mut scratch.packing.left);
    scratch.packing.rows.clear();
    scratch.near.list(&scratch.packing.left, groups.len())?;
    scratch.packing.visit_all(state, groups, &scratch.near)?;
    let bound = scratch.packing.bound(state, groups);
    let rows = scratch.packing.rows.copy(alloc)?;
    let leaf = Leaf { den: 1, rows };
    Ok(PackedLeaf { leaf, bound })
}

/// Working space of the packing, kept from node to node: what it holds doesn't matter, and contracts
/// see only for how many vertices there is room.
#[derive(Drop)]
pub struct Scratch {
    packing: Packing,
    near: NearLists,
}

impl Model for Scratch {
    ghost use Rattle.clu_rows.specs.Packing.{Room};

    ghost Value = { Room };

    ghost view = { λ scratch. record { n = scratch.packing.left.n } };
}

impl Scratch {
    /// Room for n vertices.
    pub fn new(alloc: Global, n: u32) -> Result<Scratch, AllocError>
        requires { n ≤ 1000 }
        ensures { IfOk result (λ scratch. scratch.n ≡ n) }
    {
        let left = Residual::new(alloc, n)?;
        let rows = Rows::new(alloc);
        Ok(Scratch {
            packing: Packing { left, rows },
            near: NearLists::new(alloc),
        })
    }
}

impl Packing {
    /// The bound of the packing, from its own table.
    fn bound<S: Situation>(&self, state: &S, groups: &[Vertex]) -> i128
        requires { HasLeftTable (S.state state.now) groups.now self.now }
        ensures { result ≡ leaf_bound_of (S.state state.now) 1 self.now.rows }
    {
        let covered = row_limit(&self.rows) as i128;
        let uncovered = self.excess(groups);
        state.fixed_value() + (covered + uncovered)
    }

    /// What is left above 0 of all pairs of groups.
    fn excess(&self, groups: &[Vertex]) -> i128
        requires { (s : State) × HasLeftTable s groups.now self.now }
        ensures { (s : State) → HasLeftTable s groups.now self.now → result ≡ excess_of s self.now.rows }
    {
        pair_sum(groups.len() as u32, |i, j| above_zero(&self.left, i, j))
    }
}

/// What is left above 0 of a pair of places.
fn above_zero(left: &Residual, i: u32, j: u32) -> i128
    requires i { i < left.now.n }
    requires j { j < left.now.n }
    ensures { result ≡ pos (positive (weight_of left.now i j)) }
{
    let left = left.get(Place(i as usize), Place(j as usize));
    if left > 0 { left } else { 0 }
}
