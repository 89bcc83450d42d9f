//! Weights between groups of a five-cycle, and which of them are apart, worked by hand, with rules and
//! without.

use crate::fixtures::{CYCLE, Case, Decisions, FREE, Rules, Weights, closed, is_met, is_met_under};
use clu_partition::Vertex;
use clu_state::{Decision, Rebuilt, Situation};
use std::alloc::{AllocError, Global};
use std::test::Fail;

/// Rules and decisions on the five-cycle, and what comes of them.
struct Decided {
    name: &'static str,
    rules: Rules,
    decisions: Decisions,
    /// The weight between two groups.
    weights: &'static [(u32, u32, i128)],
    /// Whether two groups are apart.
    apart: &'static [(u32, u32, bool)],
    /// The weight inside the groups.
    fixed: i128,
}

// An edge weighs 2 and another pair -2. So the group of 0 and 1 has 2 - 2 to 2 and to 4 and -2 - 2 to 3,
// that of 0, 1 and 2 has 2 + 2 - 2 inside, 2 - 2 - 2 to 3 and to 4, and that of 3 and 4 has 2 - 2 to 2.
const CASES: [Decided; 11] = [
    Decided {
        name: "no decision",
        rules: FREE,
        decisions: &[],
        weights: &[(0, 1, 2)],
        apart: &[],
        fixed: 0,
    },
    Decided {
        name: "a decision merges the weights of two groups",
        rules: FREE,
        decisions: &[(0, 1, true)],
        weights: &[(0, 3, -4), (1, 3, -4), (0, 2, 0)],
        apart: &[],
        fixed: 2,
    },
    Decided {
        name: "two that are apart",
        rules: FREE,
        decisions: &[(0, 3, false)],
        weights: &[],
        apart: &[(1, 3, false)],
        fixed: 0,
    },
    Decided {
        name: "a group is apart from what a part of it was",
        rules: FREE,
        decisions: &[(0, 3, false), (0, 1, true)],
        weights: &[],
        apart: &[(1, 3, true), (1, 2, false)],
        fixed: 2,
    },
    Decided {
        name: "a group that a rule ties",
        rules: Rules {
            required: &[(1, 0)],
            forbidden: &[],
        },
        decisions: &[],
        weights: &[(0, 2, 0), (1, 2, 0), (3, 0, -4), (1, 4, 0), (2, 3, 2)],
        apart: &[(0, 2, false), (1, 3, false)],
        fixed: 2,
    },
    Decided {
        name: "a pair that a rule forbids",
        rules: Rules {
            required: &[],
            forbidden: &[(3, 0)],
        },
        decisions: &[],
        weights: &[(0, 3, -2), (0, 1, 2)],
        apart: &[(0, 3, true), (3, 0, true), (1, 3, false), (0, 4, false)],
        fixed: 0,
    },
    Decided {
        name: "a group is apart from what a rule keeps from a part of it",
        rules: Rules {
            required: &[(0, 1)],
            forbidden: &[(0, 3)],
        },
        decisions: &[],
        weights: &[(1, 3, -4)],
        apart: &[(0, 3, true), (1, 3, true), (1, 2, false), (3, 4, false)],
        fixed: 2,
    },
    Decided {
        name: "a group that a chain ties, and one that is kept from its last vertex",
        rules: Rules {
            required: &[(1, 2), (0, 1)],
            forbidden: &[(4, 2)],
        },
        decisions: &[],
        weights: &[(2, 3, -2), (0, 4, -2), (3, 4, 2)],
        apart: &[(0, 4, true), (1, 4, true), (0, 3, false), (3, 4, false)],
        fixed: 2,
    },
    Decided {
        name: "what joins a tied group is kept from what that is kept from",
        rules: Rules {
            required: &[(0, 1)],
            forbidden: &[(0, 3)],
        },
        decisions: &[(1, 2, true)],
        weights: &[(2, 3, -2), (2, 4, -2)],
        apart: &[(2, 3, true), (1, 3, true), (2, 4, false)],
        fixed: 2,
    },
    Decided {
        name: "what joins a vertex that is kept from a group is kept from it",
        rules: Rules {
            required: &[(0, 1)],
            forbidden: &[(1, 3)],
        },
        decisions: &[(3, 4, true)],
        weights: &[(1, 4, -4), (0, 2, 0), (2, 4, 0)],
        apart: &[(0, 4, true), (1, 4, true), (0, 2, false), (2, 3, false)],
        fixed: 4,
    },
    Decided {
        name: "a decision on a vertex of a tied group is one on all of it",
        rules: Rules {
            required: &[(0, 1)],
            forbidden: &[],
        },
        decisions: &[(1, 4, false)],
        weights: &[(0, 4, 0)],
        apart: &[(0, 4, true), (0, 2, false)],
        fixed: 2,
    },
];

/// The weight between the groups of two members and whether they are apart, if they are two groups.
fn between<S: Situation>(state: &S, u: u32, v: u32) -> Option<(i128, bool)> {
    let (u, v) = (Vertex(u), Vertex(v));
    if !state.has_member(u) || !state.has_member(v) {
        return None;
    }
    if state.group_of(u) == state.group_of(v) {
        return None;
    }
    Some((state.weight(u, v), state.is_apart(u, v)))
}

/// Whether the state is as the case says.
fn is_as_wanted<S: Situation>(state: &S, case: &Decided) -> bool {
    let mut well = state.fixed_value() == case.fixed;
    for (u, v, weight) in case.weights {
        well = well && between(state, *u, *v).is_some_and(|found| found.0 == *weight);
    }
    for (u, v, apart) in case.apart {
        well = well && between(state, *u, *v).is_some_and(|found| found.1 == *apart);
    }
    well
}

impl Case for Decided {
    fn n(&self) -> u32 {
        5
    }

    fn weights(&self) -> Weights {
        CYCLE
    }

    fn decisions(&self) -> Decisions {
        self.decisions
    }

    fn holds(&self, alloc: Global, state: &mut Rebuilt) -> Result<bool, AllocError> {
        let copy = state.duplicate(alloc)?;
        Ok(is_as_wanted(state, self) && is_as_wanted(&copy, self))
    }
}

#[test]
fn each_state_and_its_copy_have_their_weights(rt: HostRuntime) -> Result<(), Fail> {
    for case in &CASES {
        let start = closed(&rt, rt.alloc(), 5, &case.rules)?;
        assert!(rt;
            is_met_under(&rt, rt.alloc(), &start, case)?,
            "{}",
            case.name
        );
    }
    Ok(())
}

/// Makes one group of the first free pair, where there is one.
fn join_first<S: Situation>(alloc: Global, state: &mut S) -> Result<bool, AllocError> {
    let pairs = state.free_pairs(alloc)?;
    if pairs.is_empty() {
        return Ok(false);
    }
    let first = pairs[0];
    state.decide(Decision::Together(first.0, first.1))?;
    Ok(true)
}

fn are_first(vertices: &[Vertex]) -> bool {
    match vertices {
        [v] => *v == Vertex(0),
        _ => false,
    }
}

/// Whether four first free pairs make one group, after which there is none.
fn joins_all<S: Situation>(alloc: Global, state: &mut S) -> Result<bool, AllocError> {
    let mut well = true;
    for _ in 0..4 {
        well = join_first(alloc, state)? && well;
    }
    let more = join_first(alloc, state)?;
    let leaders = state.leaders(alloc)?;
    Ok(
        well && !more
            && are_first(leaders.as_slice())
            && state.decisions().len() == 4
            && state.fixed_value() == 0,
    )
}

/// The five-cycle without decisions, of which first free pairs are joined.
struct Joined;

impl Case for Joined {
    fn n(&self) -> u32 {
        5
    }

    fn weights(&self) -> Weights {
        CYCLE
    }

    fn decisions(&self) -> Decisions {
        &[]
    }

    fn holds(&self, alloc: Global, state: &mut Rebuilt) -> Result<bool, AllocError> {
        joins_all(alloc, state)
    }
}

#[test]
fn the_first_free_pairs_join_a_state_into_one_group(rt: HostRuntime) -> Result<(), Fail> {
    assert!(rt; is_met(&rt, rt.alloc(), &Joined)?);
    Ok(())
}
