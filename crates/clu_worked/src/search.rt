//! What the solver finds for graphs of three vertices and for none, with rules and without, worked by hand.

use crate::fixtures::{FREE, PATH, Rules, Weights, closed, editing, weighed};
use clu_objective::Problem;
use clu_partition::Start;
use clu_search::{End, Limits, Outcome, solve};
use std::alloc::{AllocError, Global};
use std::process::Abort;
use std::test::Fail;

/// A graph and rules, how many branchings are allowed, and what the search finds.
struct Case {
    name: &'static str,
    weights: Weights,
    edges: u8,
    rules: Rules,
    allowed: u64,
    labels: &'static [u32],
    value: i128,
    bound: i128,
    branchings: u64,
    end: End,
}

const TRIANGLE: Weights = &[(1, &[(0, 1), (1, 2), (0, 2)])];

/// The ends of the path are tied.
const ENDS: Rules = Rules {
    required: &[(2, 0)],
    forbidden: &[],
};

// The path's root has a triangle that takes both edges and allows one of them, so one edit is needed,
// and each vertex alone costs two. With the first two together one is enough. The triangle needs none,
// but each vertex alone costs three: the first two together leave one pair to be decided.
//
// With the path's ends tied the middle is with them, at the price of the pair of the ends, or alone, which costs both
// edges as well. With its first edge forbidden the first of two free pairs that weigh 1 in size is that of the ends,
// and apart it leaves the other edge.
const CASES: [Case; 12] = [
    Case {
        name: "a path",
        weights: PATH,
        edges: 2,
        rules: FREE,
        allowed: u64::MAX,
        labels: &[0, 0, 1],
        value: 1,
        bound: 1,
        branchings: 1,
        end: End::Optimal,
    },
    Case {
        name: "a path without branchings",
        weights: PATH,
        edges: 2,
        rules: FREE,
        allowed: 0,
        labels: &[0, 1, 2],
        value: 2,
        bound: 1,
        branchings: 0,
        end: End::Branchings,
    },
    Case {
        name: "a triangle",
        weights: TRIANGLE,
        edges: 3,
        rules: FREE,
        allowed: u64::MAX,
        labels: &[0, 0, 0],
        value: 0,
        bound: 0,
        branchings: 2,
        end: End::Optimal,
    },
    Case {
        name: "a triangle with one branching",
        weights: TRIANGLE,
        edges: 3,
        rules: FREE,
        allowed: 1,
        labels: &[0, 0, 1],
        value: 2,
        bound: 0,
        branchings: 1,
        end: End::Branchings,
    },
    Case {
        name: "no vertices",
        weights: &[],
        edges: 0,
        rules: FREE,
        allowed: 1,
        labels: &[],
        value: 0,
        bound: 0,
        branchings: 0,
        end: End::Optimal,
    },
    Case {
        name: "a path with its ends tied",
        weights: PATH,
        edges: 2,
        rules: ENDS,
        allowed: u64::MAX,
        labels: &[0, 0, 0],
        value: 1,
        bound: 1,
        branchings: 1,
        end: End::Optimal,
    },
    Case {
        name: "a path with its ends tied, without branchings",
        weights: PATH,
        edges: 2,
        rules: ENDS,
        allowed: 0,
        labels: &[0, 1, 0],
        value: 3,
        bound: 1,
        branchings: 0,
        end: End::Branchings,
    },
    Case {
        name: "a path with an edge tied",
        weights: PATH,
        edges: 2,
        rules: Rules {
            required: &[(0, 1)],
            forbidden: &[],
        },
        allowed: u64::MAX,
        labels: &[0, 0, 1],
        value: 1,
        bound: 1,
        branchings: 0,
        end: End::Optimal,
    },
    Case {
        name: "a path with an edge forbidden",
        weights: PATH,
        edges: 2,
        rules: Rules {
            required: &[],
            forbidden: &[(1, 0)],
        },
        allowed: u64::MAX,
        labels: &[0, 1, 1],
        value: 1,
        bound: 1,
        branchings: 2,
        end: End::Optimal,
    },
    Case {
        name: "a path with both edges forbidden",
        weights: PATH,
        edges: 2,
        rules: Rules {
            required: &[],
            forbidden: &[(0, 1), (1, 2)],
        },
        allowed: u64::MAX,
        labels: &[0, 1, 2],
        value: 2,
        bound: 2,
        branchings: 0,
        end: End::Optimal,
    },
    Case {
        name: "a path with its ends tied and an edge forbidden",
        weights: PATH,
        edges: 2,
        rules: Rules {
            required: &[(0, 2)],
            forbidden: &[(0, 1)],
        },
        allowed: u64::MAX,
        labels: &[0, 1, 0],
        value: 3,
        bound: 3,
        branchings: 0,
        end: End::Optimal,
    },
    Case {
        name: "a triangle that chains tie",
        weights: TRIANGLE,
        edges: 3,
        rules: Rules {
            required: &[(0, 1), (1, 2)],
            forbidden: &[],
        },
        allowed: u64::MAX,
        labels: &[0, 0, 0],
        value: 0,
        bound: 0,
        branchings: 0,
        end: End::Optimal,
    },
];

/// Whether the search found what the case says. Only no vertices have no proof.
fn is_found(outcome: &Outcome, case: &Case) -> bool {
    outcome.partition.labels() == case.labels
        && outcome.certificate.value == case.value
        && outcome.certificate.bound == case.bound
        && (outcome.certificate.proofs.len() == 0) == case.labels.is_empty()
        && outcome.branchings == case.branchings
        && outcome.end == case.end
}

/// Whether a search under these rules finds what the case says.
fn is_solved(
    rt: &impl Abort,
    alloc: Global,
    problem: &Problem,
    start: &Start,
    case: &Case,
) -> Result<bool, AllocError> {
    assert!(rt; start.n() == problem.pairs.n());
    let limits = Limits {
        branchings: case.allowed,
    };
    let outcome = solve(alloc, problem, start, &limits)?;
    Ok(is_found(&outcome, case))
}

#[test]
fn a_search_goes_as_far_as_it_is_allowed(rt: HostRuntime) -> Result<(), Fail> {
    let alloc = rt.alloc();
    for case in &CASES {
        assert!(rt; case.labels.len() <= 1000);
        let start = closed(&rt, alloc, case.labels.len() as u32, &case.rules)?;
        let pairs = weighed(&rt, alloc, start.n(), case.weights)?;
        let problem = editing(&rt, pairs, case.edges);
        assert!(rt;
            is_solved(&rt, alloc, &problem, &start, case)?,
            "{}",
            case.name
        );
    }
    Ok(())
}
