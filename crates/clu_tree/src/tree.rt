//! The branch tree of one part of the vertices, grown best first (branch and bound: Land and Doig, 1960).
//! Its nodes stand in an arena in preorder, so that a proof is one walk along the links; a queue has the
//! leaves by their bounds. Rows are kept at leaves alone, and are moved into the proof at the end.

ghost use Rattle.std.specs.Prelude.{◌≡◌, ◌⊎◌, ◌+◌, ◌≤◌, ◌≤ℤ◌, ◌<ℤ◌, ℕ, [], ◌∷◌, ◌++◌, List, map, length, IfOk, OnOk, OnErr, IfSome, IfNone};
ghost use Rattle.std.specs.List.{AllByRecursion};
ghost use Rattle.slab.specs.Slab.{slab_len};
ghost use Rattle.clu_state.specs.State.{IsState, IsFree, decided};
ghost use Rattle.clu_state.specs.declared.decision.Decision.TheVariants.{Together, Apart};
ghost use Rattle.clu_node.specs.Node.{IsBounded};
ghost use Rattle.clu_node.specs.declared.bound.NodeBound.{NodeBound as Bound};
ghost use Rattle.clu_cert.specs.Upper.{HasUpper};
ghost use Rattle.clu_cert.specs.Fits.{ItemFits};
ghost use Rattle.clu_cert.specs.Valid.{stepped};
ghost use Rattle.clu_cert.specs.declared.certificate.Item.TheVariants.{Reduce};
ghost use Rattle.clu_tree.specs.Items.{branch_items, RowsCounted};
ghost use Rattle.clu_tree.specs.Nodes.{Shown, HasKey, IsLeaf, LeafAt, IsOpenLeaf, MayStand, state_at, node_item, items_of, new_leaf, split_nodes};
ghost use Rattle.clu_tree.specs.Links.{KeysDiffer, nodes_from};

use crate::grow::{bound_of, grow};
use crate::node::{Fresh, Node, Standing};
use crate::path::{push_back, push_steps_back};
use crate::queue::Queue;
use clu_cert::Item;
use clu_node::NodeBound;
use clu_partition::{PairTable, Seq, Start, Vertex};
use clu_state::Decision;
use slab::Slab;
use std::alloc::{AllocError, Global};
use std::marker::Model;

/// The branch tree of one part of the vertices.
///
/// Its nodes stand in an arena, each linked to the one that comes next in preorder.
#[derive(Drop)]
pub struct Tree<'p> {
    pairs: &'p PairTable,
    start: &'p Start,
    /// The bound of each split node is above this.
    floor: i128,
    members: Seq<Vertex>,
    given: Seq<Decision>,
    nodes: Slab<Node>,
    /// The key of the root.
    first: usize,
    queue: Queue,
}

impl<'p> Model for Tree<'p> {
    ghost use Rattle.slab.specs.Slab.{slab_len};
    ghost use Rattle.clu_tree.specs.Nodes.{Tree as Shape};
    ghost use Rattle.clu_tree.specs.Links.{nodes_from, IsWholeTree};

    ghost Value = { Shape };

    ghost view = { λ t. record {
      root = record { pairs = t.pairs.now; start = t.start.now; members = t.members; decisions = t.given };
      floor = t.floor;
      nodes = nodes_from (slab_len t.nodes) t.nodes t.first;
    } };

    ghost invariant = { λ t. IsWholeTree t.nodes t.first
        (record { pairs = t.pairs.now; start = t.start.now; members = t.members; decisions = t.given })
        t.floor t.queue.entries };
}

impl<'p> Tree<'p> {
    /// A tree of the root alone; the members and the decisions that lead to it are copied.
    pub fn new(
        alloc: Global,
        pairs: &'p PairTable,
        start: &'p Start,
        floor: i128,
        members: &[Vertex],
        given: &[Decision],
        root: Fresh,
    ) -> Result<Tree<'p>, AllocError>
        requires state { IsState (record { pairs = pairs.now; start = start.now; members = members.now; decisions = given.now }) }
        requires fit { MayStand (record { pairs = pairs.now; start = start.now; members = members.now; decisions = given.now }) root }
        ensures { IfOk result (λ t. (key : ℕ) × (t ≡ record {
          root = record { pairs = pairs.now; start = start.now; members = members.now; decisions = given.now };
          floor = floor;
          nodes = new_leaf key root ∷ [];
        })) }
    {
        let members = Seq::from_slice(alloc, members)?;
        let given = Seq::from_slice(alloc, given)?;
        let mut queue = Queue::new(alloc);
        queue.reserve(1)?;
        let mut nodes = Slab::new(alloc);
        nodes.reserve(1)?;
        let bound = bound_of(&root);
        let first = nodes.insert_reserved(Node {
            steps: root.steps,
            standing: Standing::Unsplit(root.bound),
            next: 0,
            origin: None,
        });
        queue.push(bound, first);
        Ok(Tree {
            pairs,
            start,
            floor,
            members,
            given,
            nodes,
            first,
            queue,
        })
    }

    /// The key of the root.
    pub fn root(&self) -> usize
        ensures key { HasKey result self.now.nodes }
        ensures state { (n : Shown) (ns : List Shown) → self.now.nodes ≡ n ∷ ns
            → state_at self.now result ≡ stepped self.now.root n.steps }
    {
        self.first
    }

    /// The number of split nodes.
    pub fn branchings(&self) -> u64
        ensures { result ≡ branch_items (items_of self.now.nodes) }
    {
        self.nodes.len() as u64 / 2
    }

    /// Splits the leaf with the key on a pair, drops its rows, and answers the keys of the new leaves,
    /// the one with the pair together first. After an error the tree is as it was.
    pub fn split(
        &mut self,
        key: usize,
        u: Vertex,
        v: Vertex,
        together: Fresh,
        apart: Fresh,
    ) -> Result<(usize, usize), AllocError>
        requires open { IsOpenLeaf self.old key }
        requires free { IsFree (state_at self.old key) u v }
        requires together { MayStand (decided (state_at self.old key) (Together u v)) together }
        requires apart { MayStand (decided (state_at self.old key) (Apart u v)) apart }
        ensures ok { IfOk result (λ keys. self.new ≡ record self.old {
          nodes = split_nodes key (u, v) (new_leaf keys.0 together) (new_leaf keys.1 apart) self.old.nodes;
        }) }
        ensures bounds { IfOk result (λ keys. (other : ℕ) (node : Bound) → LeafAt other node self.new.nodes
            → LeafAt other node self.old.nodes
            ⊎ (((other ≡ keys.0) × (node ≡ together.bound)) ⊎ ((other ≡ keys.1) × (node ≡ apart.bound)))) }
        ensures branched { OnOk result (branch_items (items_of self.new.nodes) ≡ branch_items (items_of self.old.nodes) + 1) }
        ensures err { OnErr result (self.new ≡ self.old) }
    {
        grow(&mut self.nodes, &mut self.queue, key, u, v, together, apart)
    }

    /// The bound and the key of the leaf with the greatest bound, the one of least key of several.
    fn greatest(&self) -> (i128, usize)
        ensures leaf { (node : Bound) × LeafAt result.1 node self.now.nodes × (node.bound ≡ result.0) }
        ensures others { (other : ℕ) (node : Bound) → LeafAt other node self.now.nodes
            → (node.bound ≤ℤ result.0) × (node.bound ≡ result.0 → result.1 ≤ other) }
        ensures upper { HasUpper self.now.root (items_of self.now.nodes) result.0 }
    {
        self.queue.top().unwrap()
    }

    /// The leaf with the greatest bound, the one of least key of several, if the bound is above this.
    pub fn best_leaf(&self, best: i128) -> Option<usize>
        ensures none { IfNone result ((key : ℕ) (node : Bound) → LeafAt key node self.now.nodes → node.bound ≤ℤ best) }
        ensures some { IfSome result (λ key. (node : Bound) × LeafAt key node self.now.nodes × (best <ℤ node.bound)
            × ((other : ℕ) (b : Bound) → LeafAt other b self.now.nodes
            → (b.bound ≤ℤ node.bound) × (b.bound ≡ node.bound → key ≤ other))) }
        ensures key { IfSome result (λ key. HasKey key self.now.nodes) }
    {
        let top = self.greatest();
        if top.0 > best { Some(top.1) } else { None }
    }

    /// The greatest bound of a leaf.
    pub fn upper(&self) -> i128
        ensures upper { HasUpper self.now.root (items_of self.now.nodes) result }
        ensures leaf { (key : ℕ) × (node : Bound) × LeafAt key node self.now.nodes × (node.bound ≡ result) }
    {
        self.greatest().0
    }

    /// What bounds the leaf with the key.
    pub fn bound_at(&self, key: usize) -> &NodeBound
        requires { IsLeaf key self.now.nodes }
        ensures value { LeafAt key result.now self.now.nodes }
        ensures only { (other : Bound) → LeafAt key other self.now.nodes → other ≡ result.now }
        ensures bounded { IsBounded (state_at self.now key) result.now }
    {
        match &self.nodes[key].standing {
            Standing::Unsplit(bound) => bound,
            Standing::Split(_) => unreachable!(),
        }
    }

    /// The decisions of the node's state: the ones that lead to the root, and then those on the way
    /// down from it.
    pub fn path(&self, alloc: Global, key: usize) -> Result<Vec<Decision>, AllocError>
        requires { HasKey key self.now.nodes }
        ensures decisions { IfOk result (λ path. path.items ≡ (state_at self.now key).decisions) }
        ensures state { IfOk result (λ path. state_at self.now key ≡ record self.now.root { decisions = path.items }) }
        ensures valid { IfOk result (λ _. IsState (state_at self.now key)) }
    {
        let mut path = Vec::new(alloc);
        let mut at = key;
        loop {
            let node = &self.nodes[at];
            push_steps_back(node.steps.as_slice(), &mut path)?;
            let Some(origin) = node.origin else { break };
            path.push(origin.decision)?;
            at = origin.parent;
        }
        push_back(self.given.as_slice(), &mut path)?;
        path.reverse();
        Ok(path)
    }

    /// The items of a proof: the nodes in preorder. Each leaf is moved into its item.
    pub fn preorder(self, alloc: Global) -> Result<Seq<Item>, AllocError>
        ensures value { IfOk result (λ items. items ≡ items_of self.entry.nodes) }
        ensures fits { IfOk result (λ items. AllByRecursion ItemFits items) }
    {
        items_from(alloc, self.nodes, self.first)
    }
}

/// The items of all nodes along the links. Each node is taken out of the arena, and no key is in it
/// once the last one is out, whatever that one names as the next.
fn items_from(alloc: Global, mut nodes: Slab<Node>, first: usize) -> Result<Seq<Item>, AllocError>
    requires all { length (nodes_from (slab_len nodes) nodes first) ≡ slab_len nodes }
    requires differ { KeysDiffer (nodes_from (slab_len nodes) nodes first) }
    ensures value { IfOk result (λ items. items ≡ items_of (nodes_from (slab_len nodes) nodes first)) }
    ensures counted { IfOk result (λ items. AllByRecursion RowsCounted items) }
{
    let mut items = Seq::new(alloc);
    let mut at = first;
    while let Some(node) = nodes.try_remove(at) {
        at = node.next;
        push_node(node, &mut items)?;
    }
    Ok(items)
}

/// Adds the node's reductions, and its branch or its leaf.
fn push_node(node: Node, items: &mut Seq<Item>) -> Result<(), AllocError>
    ensures value { OnOk result (items.new ≡ (items.old ++ map Reduce node.steps) ++ node_item node.standing ∷ []) }
    ensures counted { OnOk result (RowsCounted (node_item node.standing)) }
{
    for step in node.steps.as_slice() {
        items.push(Item::Reduce(*step))?;
    }
    items.push(node.standing.into_item())
}
