//! Reductions worked by hand: which steps hold in small states, which of them are taken, and into
//! which parts the states divide after them.

use crate::fixtures::{
    CYCLE, Case, Decisions, LEAVES_APART, PATH, STAR, TRIANGLES, Weights, are, is_met,
};
use clu_partition::{Seq, Vertex};
use clu_reduce::{Kind, Step, find, holds, parts, reduce_all};
use clu_state::{Rebuilt, Situation};
use std::alloc::{AllocError, Global};
use std::test::Fail;

/// Weighed pairs and decisions, `true` where two vertices are together, and what is to come of them.
struct Reduced {
    name: &'static str,
    n: u32,
    weights: Weights,
    decisions: Decisions,
    /// Steps, and whether each holds before the others.
    held: &'static [(Kind, u32, u32, bool)],
    /// The steps that are taken.
    steps: &'static [(Kind, u32, u32)],
    /// The parts after them.
    parts: &'static [&'static [u32]],
}

const CASES: [Reduced; 8] = [
    // 0 could gain 2 at each leaf, and two leaves lose as much by sharing a block.
    Reduced {
        name: "a star",
        n: 4,
        weights: STAR,
        decisions: &[],
        held: &[
            (Kind::Light, 1, 2, true),
            (Kind::Light, 3, 1, true),
            (Kind::Light, 0, 1, false),
            (Kind::Pair, 0, 1, false),
            (Kind::Light, 1, 4, false),
        ],
        steps: &[
            (Kind::Light, 1, 2),
            (Kind::Light, 1, 3),
            (Kind::Light, 2, 3),
        ],
        parts: &[&[0, 1, 2, 3]],
    },
    Reduced {
        name: "a star with its leaves apart",
        n: 4,
        weights: STAR,
        decisions: LEAVES_APART,
        held: &[(Kind::Light, 1, 2, false)],
        steps: &[],
        parts: &[&[0, 1, 2, 3]],
    },
    // Each vertex could gain 2 at two others, and no pair weighs more than 2 or less than -2.
    Reduced {
        name: "a cycle of five",
        n: 5,
        weights: CYCLE,
        decisions: &[],
        held: &[
            (Kind::Pair, 0, 1, false),
            (Kind::Heavy, 0, 1, false),
            (Kind::Light, 0, 2, false),
        ],
        steps: &[],
        parts: &[&[0, 1, 2, 3, 4]],
    },
    // The triangles weigh 5 - 12 - 16 - 12 together.
    Reduced {
        name: "two triangles",
        n: 6,
        weights: TRIANGLES,
        decisions: &[],
        held: &[(Kind::Twin, 1, 0, true), (Kind::Twin, 0, 2, false)],
        steps: &[
            (Kind::Twin, 0, 1),
            (Kind::Twin, 4, 5),
            (Kind::Pair, 0, 2),
            (Kind::Pair, 3, 4),
        ],
        parts: &[&[0, 1, 2], &[3, 4, 5]],
    },
    // 0 and 1 are apart, and each of 0, 1 and 2 from 3 and 4. With 5 alone 3 and 4 have 8 and 10 at
    // stake. Once they are one group, they have 18 there, and 5 has 4 + 4 + 6 elsewhere.
    Reduced {
        name: "two triangles by rules",
        n: 6,
        weights: TRIANGLES,
        decisions: &[
            (0, 1, false),
            (0, 3, false),
            (0, 4, false),
            (1, 3, false),
            (1, 4, false),
            (2, 3, false),
            (2, 4, false),
        ],
        held: &[
            (Kind::Twin, 0, 1, false),
            (Kind::Heavy, 3, 4, true),
            (Kind::Heavy, 5, 3, false),
        ],
        steps: &[(Kind::Pair, 0, 2), (Kind::Heavy, 3, 4), (Kind::Heavy, 5, 3)],
        parts: &[&[0, 2], &[1], &[3, 4, 5]],
    },
    // Once 0 and 1 are one group, it weighs -1 + 1 with 2.
    Reduced {
        name: "a path",
        n: 3,
        weights: PATH,
        decisions: &[],
        held: &[
            (Kind::Pair, 0, 1, true),
            (Kind::Pair, 2, 1, true),
            (Kind::Twin, 0, 1, false),
        ],
        steps: &[(Kind::Pair, 0, 1), (Kind::Pair, 0, 2)],
        parts: &[&[0, 1, 2]],
    },
    // 2 is apart from 0 alone, so 1 may move to 0 and not 0 to 1. At 1 the 4 of 2 is at stake.
    Reduced {
        name: "an apart partner",
        n: 3,
        weights: &[(3, &[(0, 1)]), (4, &[(1, 2)])],
        decisions: &[(0, 2, false)],
        held: &[
            (Kind::Heavy, 0, 1, false),
            (Kind::Heavy, 1, 0, false),
            (Kind::Heavy, 2, 1, false),
            (Kind::Pair, 1, 2, true),
            (Kind::Pair, 0, 2, false),
        ],
        steps: &[(Kind::Pair, 1, 2)],
        parts: &[&[0], &[1, 2]],
    },
    // It holds, and no third group is drawn to both.
    Reduced {
        name: "a light pair of no use",
        n: 2,
        weights: &[(-1, &[(0, 1)])],
        decisions: &[],
        held: &[(Kind::Light, 0, 1, true), (Kind::Light, 0, 0, false)],
        steps: &[],
        parts: &[&[0], &[1]],
    },
];

fn step(step: &(Kind, u32, u32)) -> Step {
    let (kind, u, v) = *step;
    Step {
        kind,
        u: Vertex(u),
        v: Vertex(v),
    }
}

/// Whether each step holds where it must, and only there.
fn holds_as_wanted<S: Situation>(state: &S, held: &[(Kind, u32, u32, bool)]) -> bool {
    let mut well = true;
    for (kind, u, v, wanted) in held {
        well = well && holds(state, &step(&(*kind, *u, *v))) == *wanted;
    }
    well
}

/// Whether the first step that is found is the first of these.
fn finds<S: Situation>(state: &S, steps: &[(Kind, u32, u32)]) -> bool {
    match (find(state), steps.first()) {
        (Some(found), Some(wanted)) => found == step(wanted),
        (None, None) => true,
        _ => false,
    }
}

fn are_steps(steps: &[Step], wanted: &[(Kind, u32, u32)]) -> bool {
    let mut well = steps.len() == wanted.len();
    for (found, wanted) in steps.iter().zip(wanted) {
        well = well && *found == step(wanted);
    }
    well
}

fn are_parts(parts: &[Seq<Vertex>], wanted: &[&[u32]]) -> bool {
    let mut well = parts.len() == wanted.len();
    for (part, wanted) in parts.iter().zip(wanted) {
        well = well && are(part.as_slice(), *wanted);
    }
    well
}

/// Whether the steps that are taken are these.
fn takes<S: Situation>(
    alloc: Global,
    state: &mut S,
    wanted: &[(Kind, u32, u32)],
) -> Result<bool, AllocError> {
    let steps = reduce_all(alloc, state)?;
    let well = are_steps(steps.as_slice(), wanted);
    Ok(well)
}

/// Whether the parts are these.
fn divides<S: Situation>(alloc: Global, state: &S, wanted: &[&[u32]]) -> Result<bool, AllocError> {
    let parts = parts(alloc, state)?;
    Ok(are_parts(parts.as_slice(), wanted))
}

/// Whether the state, its steps and its parts are what the case says.
fn is_reduced<S: Situation>(
    alloc: Global,
    state: &mut S,
    case: &Reduced,
) -> Result<bool, AllocError> {
    let before = holds_as_wanted(state, case.held) && finds(state, case.steps);
    let taken = takes(alloc, state, case.steps)?;
    let divided = divides(alloc, state, case.parts)?;
    Ok(before && taken && finds(state, &[]) && divided)
}

impl Case for Reduced {
    fn n(&self) -> u32 {
        self.n
    }

    fn weights(&self) -> Weights {
        self.weights
    }

    fn decisions(&self) -> Decisions {
        self.decisions
    }

    fn holds(&self, alloc: Global, state: &mut Rebuilt) -> Result<bool, AllocError> {
        is_reduced(alloc, state, self)
    }
}

#[test]
fn each_case_has_its_steps_and_its_parts(rt: HostRuntime) -> Result<(), Fail> {
    for case in &CASES {
        assert!(rt; is_met(&rt, rt.alloc(), case)?, "{}", case.name);
    }
    Ok(())
}
