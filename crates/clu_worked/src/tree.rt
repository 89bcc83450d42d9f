//! Branch trees of paths of three and four vertices, worked by hand: their items, their greatest bound
//! and their best leaf.

ghost use Rattle.std.specs.Prelude.{◌≡◌, ◌^◌, ◌≤ℤ◌, pos, length, IfOk, OnOk};
ghost use Rattle.clu_partition.specs.Pairs.{total_of};
ghost use Rattle.clu_state.specs.State.{AreMembers, IsFree, decided as state_after};
ghost use Rattle.clu_tree.specs.Nodes.{HasKey, MayStand, IsOpenLeaf, state_at};
ghost use Rattle.clu_worked.specs.Roots.{GrowsFrom};

use crate::fixtures::{Decisions, PATH, Weights, decide, decision_of, listed, weighed};
use clu_cert::Item;
use clu_node::{How, bound_node};
use clu_partition::{PairTable, Seq, Start, Vertex, all_vertices};
use clu_rows::Scratch;
use clu_state::{Decision, Rebuilt, Situation};
use clu_tree::{Fresh, Tree};
use std::alloc::{AllocError, Global};
use std::process::Abort;
use std::test::Fail;

/// A path, the decisions before the root, how often the best leaf is split, and what the tree tells
/// then.
struct Case {
    name: &'static str,
    n: u32,
    weights: Weights,
    given: Decisions,
    splits: u64,
    /// The greatest bound.
    upper: i128,
    /// The pair of each branch item, and nothing for each leaf item.
    items: &'static [Option<(u32, u32)>],
    /// The decisions that lead to the best leaf.
    way: Decisions,
}

/// The path of four vertices: an edge weighs 1, and each other pair -1.
const LONGER_PATH: Weights = &[
    (1, &[(0, 1), (1, 2), (2, 3)]),
    (-1, &[(0, 2), (0, 3), (1, 3)]),
];

// Three vertices: the triangle at 1 takes both edges and allows one of them, so the bound is 1. With 0
// and 1 together the edge inside is worth 1 and what leads to 2 adds up to 0; with them apart 1-2 is
// left. Both leaves have 1, and the one with the pair together is taken. Four vertices: 2-3 is
// worth 1 more, and with 0 and 1 together nothing of it is lost, but with them apart the triangle at 2
// allows one of its edges. So the leaf with them together is split, on 0 and 3, with -2 between their
// groups: together the block of 0, 1 and 3 has -1, and 1 leads to 2; apart the bound stays 2.
const CASES: [Case; 4] = [
    Case {
        name: "the root alone",
        n: 3,
        weights: PATH,
        given: &[],
        splits: 0,
        upper: 1,
        items: &[None],
        way: &[],
    },
    Case {
        name: "one split",
        n: 3,
        weights: PATH,
        given: &[],
        splits: 1,
        upper: 1,
        items: &[Some((0, 1)), None, None],
        way: &[(0, 1, true)],
    },
    Case {
        name: "two splits",
        n: 4,
        weights: LONGER_PATH,
        given: &[],
        splits: 2,
        upper: 2,
        items: &[Some((0, 1)), Some((0, 3)), None, None, None],
        way: &[(0, 1, true), (0, 3, false)],
    },
    Case {
        name: "one split after a decision",
        n: 4,
        weights: LONGER_PATH,
        given: &[(0, 1, true)],
        splits: 1,
        upper: 2,
        items: &[Some((0, 3)), None, None],
        way: &[(0, 1, true), (0, 3, false)],
    },
];

/// The state after the decisions of a path.
fn rebuilt<'p>(
    rt: &impl Abort,
    alloc: Global,
    pairs: &'p PairTable,
    start: &'p Start,
    members: &[Vertex],
    path: &[Decision],
) -> Result<Rebuilt<'p>, AllocError>
    requires one_size { pairs.now.n ≡ length start.now.group }
    requires total { total_of pairs.now ≤ℤ pos (2 ^ 88) }
    requires members { AreMembers start.now members.now }
    ensures { IfOk result (λ s. s ≡ record { pairs = pairs.now; start = start.now; members = members.now; decisions = path.now }) }
{
    let mut state = Rebuilt::new(alloc, pairs, start, members)?;
    for d in path {
        decide(rt, &mut state, *d)?;
    }
    Ok(state)
}

/// What stands at a node of this state: no reductions, and what bounds it, where 0 is known.
fn fresh<S: Situation>(alloc: Global, state: &S) -> Result<Fresh, AllocError>
    ensures { IfOk result (λ fresh. MayStand (S.state state.now) fresh) }
{
    let _members = state.members();
    let mut scratch = Scratch::new(alloc, 1000)?;
    let bound = bound_node(alloc, state, 0, &mut scratch)?;
    Ok(Fresh {
        steps: Seq::new(alloc),
        bound,
    })
}

/// The tree whose root is the state after these decisions.
fn rooted<'p>(
    rt: &impl Abort,
    alloc: Global,
    pairs: &'p PairTable,
    start: &'p Start,
    members: &[Vertex],
    given: &[Decision],
) -> Result<Tree<'p>, AllocError>
    requires one_size { pairs.now.n ≡ length start.now.group }
    requires total { total_of pairs.now ≤ℤ pos (2 ^ 88) }
    requires members { AreMembers start.now members.now }
    ensures { IfOk result (λ t. GrowsFrom pairs.now start.now members.now t) }
{
    let state = rebuilt(rt, alloc, pairs, start, members, given)?;
    let root = fresh(alloc, &state)?;
    let _members = state.members();
    Tree::new(alloc, pairs, start, 0, members, given, root)
}

/// What stands at the node to which a decision leads from the one with the key.
fn child(
    rt: &impl Abort,
    alloc: Global,
    pairs: &PairTable,
    start: &Start,
    members: &[Vertex],
    tree: &Tree,
    key: usize,
    last: Decision,
) -> Result<Fresh, AllocError>
    requires root { GrowsFrom pairs.now start.now members.now tree.now }
    requires key { HasKey key tree.now.nodes }
    ensures { IfOk result (λ fresh. MayStand (state_after (state_at tree.now key) last) fresh) }
{
    let path = tree.path(alloc, key)?;
    let mut state = rebuilt(rt, alloc, pairs, start, members, &path)?;
    decide(rt, &mut state, last)?;
    fresh(alloc, &state)
}

/// The open leaf with the greatest bound, and its pair.
fn open_leaf(rt: &impl Abort, tree: &Tree) -> (usize, (Vertex, Vertex))
    requires { tree.now.floor ≡ pos 0 }
    ensures key { HasKey result.0 tree.now.nodes }
    ensures open { IsOpenLeaf tree.now result.0 }
    ensures free { IsFree (state_at tree.now result.0) result.1.0 result.1.1 }
{
    let Some(key) = tree.best_leaf(0) else {
        panic!(rt; "no leaf is open")
    };
    let bound = tree.bound_at(key);
    let How::Unclosed = bound.how else {
        panic!(rt; "the leaf is closed")
    };
    let Some(pair) = bound.pair else {
        panic!(rt; "no pair is free")
    };
    (key, pair)
}

/// Splits the open leaf with the greatest bound on its pair.
fn split_best(
    rt: &impl Abort,
    alloc: Global,
    pairs: &PairTable,
    start: &Start,
    members: &[Vertex],
    tree: &mut Tree,
) -> Result<(), AllocError>
    requires { GrowsFrom pairs.now start.now members.now tree.old }
    ensures { OnOk result (GrowsFrom pairs.now start.now members.now tree.new) }
{
    let (key, (u, v)) = open_leaf(rt, tree);
    let one = Decision::Together(u, v);
    let together = child(rt, alloc, pairs, start, members, tree, key, one)?;
    let other = Decision::Apart(u, v);
    let apart = child(rt, alloc, pairs, start, members, tree, key, other)?;
    tree.split(key, u, v, together, apart)?;
    Ok(())
}

/// The tree of all vertices after the splits of a case.
fn grown<'p>(
    rt: &impl Abort,
    alloc: Global,
    pairs: &'p PairTable,
    start: &'p Start,
    case: &Case,
) -> Result<Tree<'p>, AllocError> {
    let n = start.n();
    assert!(rt; pairs.n() == n && pairs.total_abs() <= 1_000_000);
    let vertices = all_vertices(alloc, n)?;
    let members = vertices.as_slice();
    let given = listed(alloc, case.given)?;
    let mut tree = rooted(rt, alloc, pairs, start, members, &given)?;
    for _ in 0..case.splits {
        split_best(rt, alloc, pairs, start, members, &mut tree)?;
    }
    Ok(tree)
}

/// Whether the items are branches on these pairs, and leaves where there is none.
fn are_items(items: &[Item], wanted: &[Option<(u32, u32)>]) -> bool {
    let mut well = items.len() == wanted.len();
    for (item, pair) in items.iter().zip(wanted) {
        let is_item = match item {
            Item::Branch(u, v) => *pair == Some((u.0, v.0)),
            Item::Leaf(_) => pair.is_none(),
            Item::Reduce(_) => false,
        };
        well = well && is_item;
    }
    well
}

/// Whether these decisions lead to a node.
fn is_way(alloc: Global, tree: &Tree, key: usize, way: Decisions) -> Result<bool, AllocError>
    requires { HasKey key tree.now.nodes }
{
    let path = tree.path(alloc, key)?;
    let mut well = path.len() == way.len();
    for (d, (u, v, together)) in path.iter().zip(way) {
        well = well && *d == decision_of(*u, *v, *together);
    }
    Ok(well)
}

/// Whether the best leaf above 0 is the one of the case.
fn has_best(alloc: Global, tree: &Tree, case: &Case) -> Result<bool, AllocError> {
    let Some(key) = tree.best_leaf(0) else {
        return Ok(false);
    };
    Ok(tree.bound_at(key).bound == case.upper && is_way(alloc, tree, key, case.way)?)
}

/// Whether the tree tells what the case says, and gives out the items of the case.
fn is_told(alloc: Global, tree: Tree, case: &Case) -> Result<bool, AllocError> {
    let rooted = is_way(alloc, &tree, tree.root(), case.given)?;
    let best = has_best(alloc, &tree, case)?;
    let counted = tree.branchings() == case.splits && tree.upper() == case.upper;
    let items = tree.preorder(alloc)?;
    Ok(rooted && best && counted && are_items(items.as_slice(), case.items))
}

/// Whether the tree of a case, grown as it says, tells what it says.
fn is_met(rt: &impl Abort, alloc: Global, case: &Case) -> Result<bool, AllocError> {
    let pairs = weighed(rt, alloc, case.n, case.weights)?;
    let start = Start::none(alloc, pairs.n())?;
    let tree = grown(rt, alloc, &pairs, &start, case)?;
    is_told(alloc, tree, case)
}

#[test]
fn the_best_leaf_is_split_where_it_stands(rt: HostRuntime) -> Result<(), Fail> {
    for case in &CASES {
        assert!(rt; is_met(&rt, rt.alloc(), case)?, "{}", case.name);
    }
    Ok(())
}
