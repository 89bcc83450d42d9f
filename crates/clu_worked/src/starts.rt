//! First partitions worked by hand: what is joined by weight, and what polishing moves and joins.

use crate::fixtures::{CYCLE, Case, Decisions, PATH, Weights, is_met, weighed};
use clu_partition::{PairTable, Partition, Start, Vertex};
use clu_starts::{greedy, polish};
use clu_state::{Rebuilt, Situation};
use std::alloc::{AllocError, Global};
use std::process::Abort;
use std::test::Fail;

/// Weights, a partition, and what polishing makes of it.
struct Improved {
    name: &'static str,
    weights: Weights,
    before: &'static [u32],
    after: &'static [u32],
}

const FREE: [Improved; 4] = [
    // the first vertex goes to the second, and the third gains nothing there
    Improved {
        name: "a path",
        weights: PATH,
        before: &[0, 1, 2],
        after: &[0, 0, 1],
    },
    // no vertex gains by going alone to the other couple, but the couples do by joining
    Improved {
        name: "two couples",
        weights: &[
            (10, &[(0, 1), (2, 3)]),
            (1, &[(0, 2), (0, 3), (1, 2), (1, 3)]),
        ],
        before: &[0, 0, 1, 1],
        after: &[0, 0, 0, 0],
    },
    Improved {
        name: "two that repel each other part",
        weights: &[(-1, &[(0, 1)])],
        before: &[0, 0],
        after: &[0, 1],
    },
    Improved {
        name: "the greedy partition of a five-cycle",
        weights: CYCLE,
        before: &[0, 0, 1, 1, 2],
        after: &[0, 0, 1, 1, 2],
    },
];

// 0 and 1 are tied and 2 and 3 are kept apart: the couple goes to 2, where it gains most, and 3
// can't follow, though 2 and 3 weigh most
const TIED: Improved = Improved {
    name: "rules bind what moves",
    weights: &[
        (-1, &[(0, 1)]),
        (2, &[(0, 2), (1, 2)]),
        (1, &[(0, 3), (1, 3)]),
        (5, &[(2, 3)]),
    ],
    before: &[0, 0, 1, 2],
    after: &[0, 0, 0, 1],
};

/// Decisions on the five-cycle, and its greedy partition after them.
struct Joined {
    name: &'static str,
    decisions: Decisions,
    labels: &'static [u32],
}

const JOINED: [Joined; 2] = [
    Joined {
        name: "a five-cycle",
        decisions: &[],
        labels: &[0, 0, 1, 1, 2],
    },
    Joined {
        name: "a five-cycle with two edges apart",
        decisions: &[(0, 1, false), (2, 3, false)],
        labels: &[0, 1, 1, 2, 0],
    },
];

/// What polishing makes of a partition.
fn polished(
    rt: &impl Abort,
    alloc: Global,
    pairs: &PairTable,
    start: &Start,
    p: Partition,
) -> Result<Partition, AllocError> {
    let n = start.n();
    assert!(rt; pairs.n() == n && p.labels().len() == n as usize);
    assert!(rt; start.permits(&p));
    polish(alloc, pairs, start, p)
}

/// Whether polishing makes this of that.
fn polishes(
    rt: &impl Abort,
    alloc: Global,
    start: &Start,
    case: &Improved,
) -> Result<bool, AllocError> {
    let pairs = weighed(rt, alloc, start.n(), case.weights)?;
    assert!(rt; case.before.len() <= 1000);
    let p = Partition::from_labels(alloc, case.before)?;
    let q = polished(rt, alloc, &pairs, start, p)?;
    Ok(q.labels() == case.after)
}

#[test]
fn a_partition_is_polished_by_moves_and_joins(rt: HostRuntime) -> Result<(), Fail> {
    let alloc = rt.alloc();
    for case in &FREE {
        assert!(rt; case.before.len() <= 1000);
        let start = Start::none(alloc, case.before.len() as u32)?;
        assert!(rt; polishes(&rt, alloc, &start, case)?, "{}", case.name);
    }
    Ok(())
}

#[test]
fn rules_bind_what_moves(rt: HostRuntime) -> Result<(), Fail> {
    let alloc = rt.alloc();
    let v = Vertex;
    let start = Start::tied(alloc, 4, &[(v(0), v(1))], &[(v(2), v(3))]);
    let Ok(start) = start else {
        return Err(Fail::from("no start"));
    };
    assert!(rt; polishes(&rt, alloc, &start, &TIED)?, "{}", TIED.name);
    Ok(())
}

/// Whether the greedy partition of a state has these labels.
fn joins<S: Situation>(alloc: Global, state: &mut S, labels: &[u32]) -> Result<bool, AllocError> {
    let p = greedy(alloc, state)?;
    Ok(p.labels() == labels)
}

impl Case for Joined {
    fn n(&self) -> u32 {
        5
    }

    fn weights(&self) -> Weights {
        CYCLE
    }

    fn decisions(&self) -> Decisions {
        self.decisions
    }

    fn holds(&self, alloc: Global, state: &mut Rebuilt) -> Result<bool, AllocError> {
        joins(alloc, state, self.labels)
    }
}

#[test]
fn groups_are_joined_by_weight_and_then_by_first_vertices(rt: HostRuntime) -> Result<(), Fail> {
    for case in &JOINED {
        assert!(rt; is_met(&rt, rt.alloc(), case)?, "{}", case.name);
    }
    Ok(())
}
