//! A node of the branch tree. A leaf keeps the rows that prove its bound; once it is split nobody reads
//! them again, so a branch keeps its pair and its bound alone. Branching on a pair of vertices, together
//! or apart, as in Grötschel and Wakabayashi, 1989.

ghost use Rattle.std.specs.Prelude.{◌≡◌};
ghost use Rattle.clu_tree.specs.Items.{RowsCounted};
ghost use Rattle.clu_tree.specs.Nodes.{is_split, node_item, split_on, standing_bound, standing_how};

use clu_cert::Item;
use clu_node::{How, NodeBound};
use clu_partition::{Seq, Vertex};
use clu_reduce::Step;
use clu_state::Decision;

/// What stands at a new node: its reductions, and what bounds it after them.
#[derive(Debug, Drop)]
pub struct Fresh {
    /// Reductions that hold one after the other in the node's state.
    pub steps: Seq<Step>,
    /// What bounds the state after them.
    pub bound: NodeBound,
}

/// A node that was split on a pair.
#[derive(Clone, Copy, Debug)]
pub struct Branch {
    /// The pair, by the least vertices of its groups: together first, then apart.
    pub pair: (Vertex, Vertex),
    /// The bound that the node had as a leaf.
    pub bound: i128,
    /// How that bound stood to the best value that was known when it was found.
    pub how: How,
}

/// What stands at a node after its reductions.
#[derive(Debug, Drop)]
pub enum Standing {
    /// A leaf of the tree, with what bounds it.
    Unsplit(NodeBound),
    /// A branch, without its leaf.
    Split(Branch),
}

impl Standing {
    /// Whether the node was split.
    pub(crate) fn is_split(&self) -> bool
        ensures { result ≡ is_split self.now }
    {
        matches!(self, Standing::Split(_))
    }

    /// The bound that the node has, or had as a leaf.
    fn bound(&self) -> i128
        ensures { result ≡ standing_bound self.now }
    {
        match self {
            Standing::Unsplit(node) => node.bound,
            Standing::Split(branch) => branch.bound,
        }
    }

    /// How that bound stood to the best value.
    fn how(&self) -> How
        ensures { result ≡ standing_how self.now }
    {
        match self {
            Standing::Unsplit(node) => node.how,
            Standing::Split(branch) => branch.how,
        }
    }

    /// The node once it is split on a pair.
    pub(crate) fn split_on(&self, u: Vertex, v: Vertex) -> Standing
        ensures { result ≡ split_on (u, v) self.now }
    {
        Standing::Split(Branch {
            pair: (u, v),
            bound: self.bound(),
            how: self.how(),
        })
    }

    /// The item of a proof: the branch, or the leaf itself, which has fewer rows than 2^64.
    pub(crate) fn into_item(self) -> Item
        ensures value { result ≡ node_item self }
        ensures counted { RowsCounted result }
    {
        match self {
            Standing::Unsplit(node) => {
                // the type of a length bounds the number of rows, which the proof's text writes
                let _rows = node.leaf.rows.len();
                Item::Leaf(node.leaf)
            }
            Standing::Split(branch) => Item::Branch(branch.pair.0, branch.pair.1),
        }
    }
}

/// How a node came to be.
#[derive(Clone, Copy)]
pub(crate) struct Origin {
    /// The key of the node that was split.
    pub(crate) parent: usize,
    /// What the split decides for this side of it.
    pub(crate) decision: Decision,
}

/// A node of the tree, linked to the one that comes next in preorder.
#[derive(Drop)]
pub(crate) struct Node {
    pub(crate) steps: Seq<Step>,
    pub(crate) standing: Standing,
    /// The key of the next node; any number where there is none.
    pub(crate) next: usize,
    /// Where it comes from, unless it is the root.
    pub(crate) origin: Option<Origin>,
}
