//! What bounds a node on a path of three vertices, and on which pair it is split, worked by hand.

use crate::fixtures::{Case, Decisions, PATH, Weights, is_met};
use clu_node::{How, NodeBound, bound_node};
use clu_partition::Vertex;
use clu_rows::Scratch;
use clu_state::{Rebuilt, Situation};
use std::alloc::{AllocError, Global};
use std::test::Fail;

/// Decisions on the path 0-1-2 and the best value known, and what comes of them.
struct Bounded {
    name: &'static str,
    weights: Weights,
    decisions: Decisions,
    best: i128,
    bound: i128,
    how: How,
    pair: Option<(Vertex, Vertex)>,
    rows: usize,
}

const CASES: [Bounded; 4] = [
    // The triangle of the path takes both edges and allows one of them. The pair to split on is the
    // first of equal ones, and the pair of the ends where that weighs more in size.
    Bounded {
        name: "a bound above the best value",
        weights: PATH,
        decisions: &[],
        best: 0,
        bound: 1,
        how: How::Unclosed,
        pair: Some((Vertex(0), Vertex(1))),
        rows: 1,
    },
    Bounded {
        name: "a bound that is the best value",
        weights: PATH,
        decisions: &[],
        best: 1,
        bound: 1,
        how: How::Closed,
        pair: Some((Vertex(0), Vertex(1))),
        rows: 1,
    },
    Bounded {
        name: "ends that weigh most",
        weights: &[(1, &[(0, 1), (1, 2)]), (-3, &[(0, 2)])],
        decisions: &[],
        best: 1,
        bound: 1,
        how: How::Closed,
        pair: Some((Vertex(0), Vertex(2))),
        rows: 1,
    },
    // 0 and 1 share a block and 2 is apart: what is left is the weight 1 inside the block, and no pair
    // for a triangle.
    Bounded {
        name: "no free pair",
        weights: PATH,
        decisions: &[(0, 1, true), (0, 2, false)],
        best: 0,
        bound: 1,
        how: How::Unclosed,
        pair: None,
        rows: 0,
    },
];

fn is_node(node: &NodeBound, case: &Bounded) -> bool {
    node.bound == case.bound
        && node.how == case.how
        && node.pair == case.pair
        && node.leaf.rows.len() == case.rows
}

/// Whether the state is bounded as the case says.
fn is_bounded<S: Situation>(alloc: Global, state: &S, case: &Bounded) -> Result<bool, AllocError> {
    let _members = state.members();
    let mut scratch = Scratch::new(alloc, 1000)?;
    let node = bound_node(alloc, state, case.best, &mut scratch)?;
    Ok(is_node(&node, case))
}

impl Case for Bounded {
    fn n(&self) -> u32 {
        3
    }

    fn weights(&self) -> Weights {
        self.weights
    }

    fn decisions(&self) -> Decisions {
        self.decisions
    }

    fn holds(&self, alloc: Global, state: &mut Rebuilt) -> Result<bool, AllocError> {
        is_bounded(alloc, state, self)
    }
}

#[test]
fn each_node_has_its_bound_and_its_pair(rt: HostRuntime) -> Result<(), Fail> {
    for case in &CASES {
        assert!(rt; is_met(&rt, rt.alloc(), case)?, "{}", case.name);
    }
    Ok(())
}
