//! Which triangles and claws points over small states violate, worked by hand.

ghost use Rattle.std.specs.Prelude.{◌<◌, ◌≤ℤ◌, ◌^◌, pos, IfOk};
ghost use Rattle.clu_cuts.specs.Point.{IsPoint};

use crate::fixtures::{Case, Decisions, LEAVES_APART, Weights, are, is_met};
use clu_cuts::{Cut, Point, violated_claws, violated_triangles};
use clu_partition::{Seq, Vertex};
use clu_state::{Rebuilt, Situation};
use std::alloc::{AllocError, Global};
use std::test::Fail;

/// A centre and the others.
type Star = (u32, &'static [u32]);

/// A point on n vertices of which some pairs are apart, and what it violates.
struct Pointed {
    name: &'static str,
    n: u32,
    decisions: Decisions,
    den: u8,
    ones: &'static [(u32, u32)],
    triangles: &'static [Star],
    claws: &'static [Star],
}

const CASES: [Pointed; 4] = [
    // only the claw sums them up
    Pointed {
        name: "one half on each edge of a star of leaves that are apart",
        n: 4,
        decisions: LEAVES_APART,
        den: 2,
        ones: &[(0, 1), (0, 2), (0, 3)],
        triangles: &[],
        claws: &[(0, &[1, 2, 3])],
    },
    Pointed {
        name: "one half on each edge of a five-cycle",
        n: 5,
        decisions: &[],
        den: 2,
        ones: &[(0, 1), (1, 2), (2, 3), (3, 4), (0, 4)],
        triangles: &[],
        claws: &[],
    },
    // at each vertex the two edges pass one whole
    Pointed {
        name: "a whole on each edge of a five-cycle",
        n: 5,
        decisions: &[],
        den: 1,
        ones: &[(0, 1), (1, 2), (2, 3), (3, 4), (0, 4)],
        triangles: &[
            (0, &[1, 4]),
            (1, &[0, 2]),
            (2, &[1, 3]),
            (3, &[2, 4]),
            (4, &[0, 3]),
        ],
        claws: &[],
    },
    Pointed {
        name: "one group",
        n: 3,
        decisions: &[],
        den: 1,
        ones: &[(0, 1), (0, 2), (1, 2)],
        triangles: &[],
        claws: &[],
    },
];

/// The share of a pair: one where it is listed.
fn share_of(pair: (Vertex, Vertex), ones: &[(u32, u32)]) -> i128
    ensures least { pos 0 ≤ℤ result }
    ensures most { result ≤ℤ pos 1 }
{
    for (u, v) in ones {
        if pair == (Vertex(*u), Vertex(*v)) {
            return 1;
        }
    }
    0
}

/// The point with one over the denominator at the pairs that are listed, and 0 at the others.
fn point_of<S: Situation>(
    alloc: Global,
    state: &S,
    den: u8,
    ones: &[(u32, u32)],
) -> Result<Point, AllocError>
    requires { 0 < den }
    ensures point { IfOk result (λ p. IsPoint (S.state state.now) p) }
    ensures common { IfOk result (λ p. p.den ≤ℤ pos (2 ^ 100)) }
{
    let free = state.free_pairs(alloc)?;
    let mut x = Seq::new(alloc);
    for pair in free.as_slice() {
        x.push(share_of(*pair, ones))?;
    }
    let pairs = Seq::from_slice(alloc, free.as_slice())?;
    Ok(Point {
        den: den as i128,
        pairs,
        x,
    })
}

fn are_stars(cuts: &[Cut], stars: &[Star]) -> bool {
    let mut well = cuts.len() == stars.len();
    for (cut, (centre, others)) in cuts.iter().zip(stars) {
        well = well && are(cut.s.as_slice(), &[*centre]) && are(cut.t.as_slice(), *others);
    }
    well
}

/// Whether both searches answer what the case says.
fn finds<S: Situation>(alloc: Global, state: &S, case: &Pointed) -> Result<bool, AllocError> {
    if case.den == 0 {
        return Ok(false);
    }
    let point = point_of(alloc, state, case.den, case.ones)?;
    let triangles = violated_triangles(alloc, state, &point)?;
    let claws = violated_claws(alloc, state, &point)?;
    Ok(are_stars(triangles.as_slice(), case.triangles) && are_stars(claws.as_slice(), case.claws))
}

impl Case for Pointed {
    fn n(&self) -> u32 {
        self.n
    }

    fn weights(&self) -> Weights {
        // no weight tells what is violated
        &[]
    }

    fn decisions(&self) -> Decisions {
        self.decisions
    }

    fn holds(&self, alloc: Global, state: &mut Rebuilt) -> Result<bool, AllocError> {
        finds(alloc, state, self)
    }
}

#[test]
fn a_point_violates_these_triangles_and_claws(rt: HostRuntime) -> Result<(), Fail> {
    for case in &CASES {
        assert!(rt; is_met(&rt, rt.alloc(), case)?, "{}", case.name);
    }
    Ok(())
}
