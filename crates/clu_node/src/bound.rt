//! What bounds a node and on which pair it would be split: a maximal packing of bad triangles, whose dual bound closes the node where
//! it is at most the best value known, and the heaviest free pair.
ghost use Rattle.std.specs.Prelude.{◌≡◌, ◌↔◌, ◌≤◌, ◌^◌, ℕ, ◌≤ℤ◌, IfOk, IfSome, unsigned_abs};
ghost use Rattle.clu_partition.specs.Pairs.{weight_of};
ghost use Rattle.clu_partition.specs.Values.{value_on};
ghost use Rattle.clu_state.specs.State.{InClass, fixed_value};
ghost use Rattle.clu_rows.specs.Packing.{IsPacking, IsMaximal};
ghost use Rattle.clu_node.specs.Node.{IsBounded, IsHeaviest};

use crate::pair::heaviest;
use clu_partition::Vertex;
use clu_rows::{Leaf, PackedLeaf, Scratch, pack};
use clu_state::Situation;
use std::alloc::{AllocError, Global};

/// How a node's bound stands to the best value that was known when it was found.
#[derive(Clone, Copy, Debug, PartialEq, Eq)]
pub enum How {
    /// The bound is at most that value: the node has no better partition.
    Closed,
    /// The bound is above it.
    Unclosed,
}

/// What bounds the partitions of a node's state.
#[derive(Debug, Drop)]
pub struct NodeBound {
    /// A leaf of the state.
    pub leaf: Leaf,
    /// The bound of the leaf: no partition of the state's class has a greater value.
    pub bound: i128,
    /// Whether the node is closed.
    pub how: How,
    /// A free pair to split on, by the least vertices of its groups, unless there is none.
    pub pair: Option<(Vertex, Vertex)>,
}

/// Packs triangles, and names the free pair of greatest absolute weight between its groups, ties by
/// the least pair. `scratch` has room for the problem's vertices, and what it holds doesn't matter.
/// The only error is want of memory.
pub fn bound_node<S: Situation>(
    alloc: Global,
    state: &S,
    best: i128,
    scratch: &mut Scratch,
) -> Result<NodeBound, AllocError>
    requires { (S.state state.now).pairs.n ≤ scratch.old.n }
    ensures bounded { IfOk result (λ node. IsBounded (S.state state.now) node) }
    ensures packing { IfOk result (λ node. (node.leaf.den ≡ 1)
        × IsPacking (S.state state.now) node.leaf.rows) }
    ensures maximal { IfOk result (λ node. IsMaximal (S.state state.now) node.leaf.rows) }
    ensures small { IfOk result (λ node. unsigned_abs node.bound ≤ 2 ^ 88) }
    ensures sound { IfOk result (λ node. (label : ℕ → ℕ) → InClass (S.state state.now) label
        → value_on (weight_of (S.state state.now).pairs) label (S.state state.now).members
        ≤ℤ node.bound) }
    ensures closed { IfOk result (λ node. (node.how ≡ How.Closed) ↔ (node.bound ≤ℤ best)) }
    ensures heaviest { IfOk result (λ node. IfSome node.pair (IsHeaviest (S.state state.now))) }
    ensures settled { IfOk result (λ node. node.pair ≡ None
        → node.bound ≡ fixed_value (S.state state.now)) }
    ensures room { scratch.new ≡ scratch.old }
{
    let PackedLeaf { leaf, bound } = pack(alloc, state, scratch)?;
    let pair = heaviest(alloc, state)?;
    let how = how_of(bound, best);
    Ok(NodeBound {
        leaf,
        bound,
        how,
        pair,
    })
}

/// How a bound stands to the best value known.
fn how_of(bound: i128, best: i128) -> How
    ensures { (result ≡ How.Closed) ↔ (bound ≤ℤ best) }
{
    if bound <= best {
        How::Closed
    } else {
        How::Unclosed
    }
}
