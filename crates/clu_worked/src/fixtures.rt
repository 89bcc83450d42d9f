//! What the tests of all modules are made of: weights, decisions and states, each built in one
//! place, since it is the building of states that costs, and not the cases.

ghost use Rattle.std.specs.Prelude.{◌≡◌, ◌<◌, ◌↔◌, IsTrue, OnOk};
ghost use Rattle.clu_partition.specs.Ties.{AreBelow};
ghost use Rattle.clu_state.specs.State.{decided as state_after};

use clu_objective::{Objective, Problem};
use clu_partition::{PairTable, Start, TieError, Vertex, all_vertices};
use clu_state::{Decision, Rebuilt, Situation};
use std::alloc::{AllocError, Global};
use std::process::Abort;

/// Weights, each with the pairs that have it; another pair weighs 0.
pub type Weights = &'static [(i8, &'static [(u32, u32)])];

/// Decisions on two vertices, `true` where they are together.
pub type Decisions = &'static [(u32, u32, bool)];

/// Pairs of vertices that have to share a group, and pairs that must not.
pub struct Rules {
    pub required: &'static [(u32, u32)],
    pub forbidden: &'static [(u32, u32)],
}

/// Rules that ask for nothing.
pub const FREE: Rules = Rules {
    required: &[],
    forbidden: &[],
};

/// The path 0-1-2: an edge weighs 1, and the pair of its ends -1.
pub const PATH: Weights = &[(1, &[(0, 1), (1, 2)]), (-1, &[(0, 2)])];

/// 2 on each edge of a cycle of five vertices, -2 on each other pair.
pub const CYCLE: Weights = &[
    (2, &[(0, 1), (1, 2), (2, 3), (3, 4), (0, 4)]),
    (-2, &[(0, 2), (0, 3), (1, 3), (1, 4), (2, 4)]),
];

/// A centre 0 with an edge of weight 2 to each of 1, 2 and 3, and -2 between these.
pub const STAR: Weights = &[
    (2, &[(0, 1), (0, 2), (0, 3)]),
    (-2, &[(1, 2), (1, 3), (2, 3)]),
];

/// The modularity of two triangles and a bridge between 2 and 3: 14 for an edge, less the product of
/// the two degrees, which are 2 but for the bridge's ends, where they are 3.
pub const TRIANGLES: Weights = &[
    (10, &[(0, 1), (4, 5)]),
    (8, &[(0, 2), (1, 2), (3, 4), (3, 5)]),
    (5, &[(2, 3)]),
    (-6, &[(0, 3), (1, 3), (2, 4), (2, 5)]),
    (-4, &[(0, 4), (0, 5), (1, 4), (1, 5)]),
];

/// The three leaves of a star are apart.
pub const LEAVES_APART: Decisions = &[(1, 2, false), (1, 3, false), (2, 3, false)];

/// The table of n vertices with these weights.
pub fn weighed(
    rt: &impl Abort,
    alloc: Global,
    n: u32,
    weights: Weights,
) -> Result<PairTable, AllocError> {
    assert!(rt; n <= 1000);
    let mut pairs = PairTable::new(alloc, n)?;
    for (w, listed) in weights {
        weigh(rt, &mut pairs, *w, listed);
    }
    Ok(pairs)
}

fn weigh(rt: &impl Abort, pairs: &mut PairTable, w: i8, listed: &[(u32, u32)]) {
    for (u, v) in listed {
        assert!(rt; *u < pairs.n() && *v < pairs.n() && *u != *v);
        pairs.set(Vertex(*u), Vertex(*v), w as i128);
    }
}

/// The problem of cluster editing on a graph with these weights and so many edges.
pub fn editing(rt: &impl Abort, pairs: PairTable, edges: u8) -> Problem {
    let n = pairs.n();
    assert!(rt; pairs.total_abs() <= 1_000_000);
    assert!(rt; pairs.n() == n);
    Problem {
        objective: Objective::Edits,
        pairs,
        base: edges as i128,
        factor: -1,
        scale: 1,
    }
}

fn pairs_of(alloc: Global, numbers: &[(u32, u32)]) -> Result<Vec<(Vertex, Vertex)>, AllocError> {
    let mut pairs = Vec::new(alloc);
    for (u, v) in numbers {
        pairs.push((Vertex(*u), Vertex(*v)))?;
    }
    Ok(pairs)
}

fn is_below(n: u32, pair: (Vertex, Vertex)) -> bool
    ensures { IsTrue result ↔ ((pair.0 < n) × (pair.1 < n)) }
{
    pair.0.0 < n && pair.1.0 < n
}

/// Whether both vertices of each pair are below n.
fn are_below(n: u32, pairs: &[(Vertex, Vertex)]) -> bool
    ensures { IsTrue result ↔ AreBelow n pairs.now }
{
    for pair in pairs {
        if !is_below(n, *pair) {
            return false;
        }
    }
    true
}

/// What these rules make of n vertices.
pub fn closed(rt: &impl Abort, alloc: Global, n: u32, rules: &Rules) -> Result<Start, TieError> {
    let required = pairs_of(alloc, rules.required)?;
    let forbidden = pairs_of(alloc, rules.forbidden)?;
    assert!(rt; n <= 1000 && are_below(n, &required) && are_below(n, &forbidden));
    Start::tied(alloc, n, &required, &forbidden)
}

/// The state of all vertices without decisions.
fn undecided<'p>(
    rt: &impl Abort,
    alloc: Global,
    pairs: &'p PairTable,
    start: &'p Start,
) -> Result<Rebuilt<'p>, AllocError> {
    let n = start.n();
    assert!(rt; pairs.n() == n && pairs.total_abs() <= 1_000_000);
    let members = all_vertices(alloc, n)?;
    Rebuilt::new(alloc, pairs, start, members.as_slice())
}

/// Makes a decision on a free pair.
pub fn decide<S: Situation>(rt: &impl Abort, state: &mut S, d: Decision) -> Result<(), AllocError>
    ensures { OnOk result (S.state state.new ≡ state_after (S.state state.old) d) }
{
    match d {
        Decision::Together(u, v) | Decision::Apart(u, v) => assert!(rt; state.is_free(u, v)),
    }
    state.decide(d)
}

/// The decision that two vertices are together, or that they are apart.
pub fn decision_of(u: u32, v: u32, together: bool) -> Decision {
    if together {
        Decision::Together(Vertex(u), Vertex(v))
    } else {
        Decision::Apart(Vertex(u), Vertex(v))
    }
}

/// The list of these decisions.
pub fn listed(alloc: Global, decisions: Decisions) -> Result<Vec<Decision>, AllocError> {
    let mut list = Vec::new(alloc);
    for (u, v, together) in decisions {
        list.push(decision_of(*u, *v, *together))?;
    }
    Ok(list)
}

/// The state of all vertices after these decisions.
fn decided<'p>(
    rt: &impl Abort,
    alloc: Global,
    pairs: &'p PairTable,
    start: &'p Start,
    decisions: Decisions,
) -> Result<Rebuilt<'p>, AllocError> {
    let mut state = undecided(rt, alloc, pairs, start)?;
    for (u, v, together) in decisions {
        decide(rt, &mut state, decision_of(*u, *v, *together))?;
    }
    Ok(state)
}

/// A case over a state of all vertices.
pub trait Case {
    /// The number of vertices.
    fn n(&self) -> u32;

    /// The weights of the pairs.
    fn weights(&self) -> Weights;

    /// The decisions that lead to the state.
    fn decisions(&self) -> Decisions;

    /// Whether the state gives what the case says.
    fn holds(&self, alloc: Global, state: &mut Rebuilt) -> Result<bool, AllocError>;
}

/// Whether a case holds in its state without rules.
pub fn is_met<C: Case>(rt: &impl Abort, alloc: Global, case: &C) -> Result<bool, AllocError> {
    let n = case.n();
    assert!(rt; n <= 1000);
    let start = Start::none(alloc, n)?;
    is_met_under(rt, alloc, &start, case)
}

/// Whether a case holds in its state under these rules.
pub fn is_met_under<C: Case>(
    rt: &impl Abort,
    alloc: Global,
    start: &Start,
    case: &C,
) -> Result<bool, AllocError> {
    let pairs = weighed(rt, alloc, start.n(), case.weights())?;
    let mut state = decided(rt, alloc, &pairs, start, case.decisions())?;
    case.holds(alloc, &mut state)
}

/// Whether the vertices are those of these numbers, in this order.
pub fn are(vertices: &[Vertex], numbers: &[u32]) -> bool {
    let mut well = vertices.len() == numbers.len();
    for (v, number) in vertices.iter().zip(numbers) {
        well = well && v.0 == *number;
    }
    well
}

/// A text with one place changed, if it has that place.
pub fn changed(
    alloc: Global,
    text: &str,
    old: &str,
    new: &str,
) -> Result<Option<Vec<u8>>, AllocError> {
    let Some((front, back)) = text.split_once(old) else {
        return Ok(None);
    };
    let mut bytes = Vec::new(alloc);
    bytes.extend_from_slice(front.as_bytes())?;
    bytes.extend_from_slice(new.as_bytes())?;
    bytes.extend_from_slice(back.as_bytes())?;
    Ok(Some(bytes))
}
