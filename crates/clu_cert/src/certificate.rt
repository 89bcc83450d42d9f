//! What a certificate holds: a partition, its value, and the proof of a bound on every permitted one, by root
//! steps and then part by part as a tree in preorder. Its lists are `Seq`s, so contracts see it as a value.

use clu_objective::Objective;
use clu_partition::{Seq, Vertex};
use clu_reduce::Step;
use clu_rows::Leaf;

/// One item of a proof that no partition of a part is better than a bound.
#[derive(Drop)]
pub enum Item {
    /// Two subtrees follow: first with the pair together, then with it apart.
    Branch(Vertex, Vertex),
    /// A reduction, whose decision the items of the same subtree after it see.
    Reduce(Step),
    /// The end of a subtree: its leaf bounds every partition there.
    Leaf(Leaf),
}

/// A part of the vertices and the items that bound its partitions.
#[derive(Drop)]
pub struct Proof {
    /// The vertices of the part.
    pub part: Seq<Vertex>,
    /// A tree in preorder.
    pub items: Seq<Item>,
}

/// A partition and the evidence that none is better than its bound.
#[derive(Drop)]
pub struct Certificate {
    /// What the partition is judged by.
    pub objective: Objective,
    /// The label of each vertex.
    pub labels: Seq<u32>,
    /// The printed objective of the labels.
    pub value: i128,
    /// The printed number that no partition is better than.
    pub bound: i128,
    /// Reductions of all vertices.
    pub root_steps: Seq<Step>,
    /// A proof for each part.
    pub proofs: Seq<Proof>,
}
