//! Bounds of leaves and packings of triangles over small states, worked by hand.

use crate::fixtures::{CYCLE, Case, Decisions, LEAVES_APART, STAR, Weights, are, is_met};
use clu_partition::{Seq, Vertex};
use clu_rows::{Leaf, LeafFault, PackedLeaf, Residual, Rows, Scratch, leaf_bound, pack};
use clu_state::{Rebuilt, Situation};
use std::alloc::{AllocError, Global};
use std::test::Fail;

/// A row: its two sets and its multiplier.
type Sets = (&'static [u32], &'static [u32], u128);

/// A leaf of one row over four vertices, and the bound or the fault that it has.
struct Bounded {
    name: &'static str,
    weights: Weights,
    decisions: Decisions,
    den: u64,
    row: Sets,
    wanted: Result<i128, LeafFault>,
}

/// Weights of both signs.
const MIXED: Weights = &[
    (3, &[(0, 1)]),
    (4, &[(0, 2)]),
    (-1, &[(0, 3)]),
    (1, &[(1, 2)]),
    (2, &[(1, 3)]),
    (-6, &[(2, 3)]),
];

const BOUNDED: [Bounded; 9] = [
    // The three leaves are apart, so the free pairs are those of the centre, each 2. The row takes 2
    // of each and allows one of them: 2 * min(1, 3) = 2.
    Bounded {
        name: "one edge of a star of leaves apart",
        weights: STAR,
        decisions: LEAVES_APART,
        den: 1,
        row: (&[0], &[1, 2, 3], 2),
        wanted: Ok(2),
    },
    Bounded {
        name: "no denominator",
        weights: STAR,
        decisions: LEAVES_APART,
        den: 0,
        row: (&[0], &[1, 2, 3], 2),
        wanted: Err(LeafFault::Den),
    },
    Bounded {
        name: "a vertex twice",
        weights: STAR,
        decisions: LEAVES_APART,
        den: 1,
        row: (&[0], &[1, 1], 2),
        wanted: Err(LeafFault::Row { row: 1 }),
    },
    Bounded {
        name: "no member",
        weights: STAR,
        decisions: LEAVES_APART,
        den: 1,
        row: (&[0], &[1, 4], 2),
        wanted: Err(LeafFault::Row { row: 1 }),
    },
    Bounded {
        name: "no multiplier",
        weights: STAR,
        decisions: LEAVES_APART,
        den: 1,
        row: (&[0], &[1, 2, 3], 0),
        wanted: Err(LeafFault::Row { row: 1 }),
    },
    // 1 and 3 are apart. The row takes 1 of the 3 of 0-1 and of the 1 of 1-2, and adds 1 to the 4 of
    // 0-2: 1 * min(1, 2) + (2 + 0 + 5) = 8.
    Bounded {
        name: "an apart pair adds nothing",
        weights: MIXED,
        decisions: &[(1, 3, false)],
        den: 1,
        row: (&[1], &[0, 2], 1),
        wanted: Ok(8),
    },
    // 0 and 1 are one group: 3 inside it, 4 + 1 to 2, -1 + 2 to 3, and -6 between these. Doubled: 10,
    // 2 and -12. The row leaves 9, 1 and -11: 3 + floor((1 * min(1, 2) + 9 + 1) / 2) = 8.
    Bounded {
        name: "a bound of groups is rounded down",
        weights: MIXED,
        decisions: &[(0, 1, true)],
        den: 2,
        row: (&[1], &[2, 3], 1),
        wanted: Ok(8),
    },
    // The row leaves 3 of 0-1, 3 of 0-2, 1 of 1-2, 2 of 1-3 and -5 of 2-3: 1 + 9 = 10.
    Bounded {
        name: "a pair inside a set",
        weights: MIXED,
        decisions: &[],
        den: 1,
        row: (&[0], &[2, 3], 1),
        wanted: Ok(10),
    },
    // The row leaves nothing of 0-2, and 2-3 rises from -6 to 1: 7 + (3 + 1 + 2 + 1) = 14.
    Bounded {
        name: "a pair inside a set is raised",
        weights: MIXED,
        decisions: &[],
        den: 1,
        row: (&[0], &[2, 3], 7),
        wanted: Ok(14),
    },
];

/// The triangles that are packed, by the centre, the others and the multiplier of each, and the
/// bound that they give.
struct Packed {
    name: &'static str,
    n: u32,
    weights: Weights,
    decisions: Decisions,
    triangles: &'static [Sets],
    bound: i128,
}

const PACKED: [Packed; 2] = [
    // In rising order: 0-1-2 with the centre 1 comes first, and 0-3-4 with the centre 4 is left.
    Packed {
        name: "a five-cycle",
        n: 5,
        weights: CYCLE,
        decisions: &[],
        triangles: &[(&[1], &[0, 2], 2), (&[4], &[0, 3], 2)],
        bound: 6,
    },
    Packed {
        name: "a star of leaves apart",
        n: 4,
        weights: STAR,
        decisions: LEAVES_APART,
        triangles: &[(&[0], &[1, 2], 2)],
        bound: 4,
    },
];

fn list(alloc: Global, vertices: &[u32]) -> Result<Seq<Vertex>, AllocError> {
    let mut list = Seq::new(alloc);
    for v in vertices {
        list.push(Vertex(*v))?;
    }
    Ok(list)
}

/// The leaf of one row.
fn one_row(alloc: Global, case: &Bounded) -> Result<Leaf, AllocError> {
    let (s, t, y) = case.row;
    let s = list(alloc, s)?;
    let t = list(alloc, t)?;
    let mut rows = Rows::new(alloc);
    rows.push(s.as_slice(), t.as_slice(), y)?;
    Ok(Leaf {
        den: case.den,
        rows,
    })
}

/// Whether the leaf of a case has the bound or the fault that it should have.
fn is_bounded<S: Situation>(alloc: Global, state: &S, case: &Bounded) -> Result<bool, AllocError> {
    let _members = state.members();
    let mut scratch = Residual::new(alloc, 1000)?;
    let leaf = one_row(alloc, case)?;
    Ok(leaf_bound(state, &leaf, &mut scratch) == case.wanted)
}

impl Case for Bounded {
    fn n(&self) -> u32 {
        4
    }

    fn weights(&self) -> Weights {
        self.weights
    }

    fn decisions(&self) -> Decisions {
        self.decisions
    }

    fn holds(&self, alloc: Global, state: &mut Rebuilt) -> Result<bool, AllocError> {
        is_bounded(alloc, state, self)
    }
}

#[test]
fn each_leaf_has_its_bound_or_its_fault(rt: HostRuntime) -> Result<(), Fail> {
    for case in &BOUNDED {
        assert!(rt; is_met(&rt, rt.alloc(), case)?, "{}", case.name);
    }
    Ok(())
}

/// Whether these are the rows, in this order.
fn has_rows(rows: &Rows, wanted: &[Sets]) -> bool {
    if rows.len() != wanted.len() {
        return false;
    }
    let mut well = true;
    for (i, (s, t, y)) in wanted.iter().enumerate() {
        let row = rows.row(i);
        well = well && are(row.s, *s) && are(row.t, *t) && row.y == *y;
    }
    well
}

/// Whether the leaf has these triangles, in this order, over 1.
fn has_triangles(leaf: &Leaf, triangles: &[Sets]) -> bool {
    leaf.den == 1 && has_rows(&leaf.rows, triangles)
}

/// Whether the packing of a state, a copy of it and its bound are as they should be.
fn is_packed<S: Situation>(alloc: Global, state: &S, case: &Packed) -> Result<bool, AllocError> {
    let _members = state.members();
    let mut prices = Residual::new(alloc, 1000)?;
    let mut scratch = Scratch::new(alloc, 1000)?;
    let PackedLeaf { leaf, bound } = pack(alloc, state, &mut scratch)?;
    let copy = leaf.copy(alloc)?;
    Ok(
        has_triangles(&leaf, case.triangles)
            && has_triangles(&copy, case.triangles)
            && bound == case.bound
            && leaf_bound(state, &leaf, &mut prices) == Ok(case.bound),
    )
}

impl Case for Packed {
    fn n(&self) -> u32 {
        self.n
    }

    fn weights(&self) -> Weights {
        self.weights
    }

    fn decisions(&self) -> Decisions {
        self.decisions
    }

    fn holds(&self, alloc: Global, state: &mut Rebuilt) -> Result<bool, AllocError> {
        is_packed(alloc, state, self)
    }
}

#[test]
fn each_packing_has_its_triangles(rt: HostRuntime) -> Result<(), Fail> {
    for case in &PACKED {
        assert!(rt; is_met(&rt, rt.alloc(), case)?, "{}", case.name);
    }
    Ok(())
}

/// Rows of several lengths.
const STORED: [Sets; 3] = [
    (&[0], &[1, 2], 3),
    (&[4, 1, 0], &[2], 1 << 100),
    (&[3, 2], &[1, 0, 4], 7),
];

/// Puts a row behind the others.
fn store(alloc: Global, rows: &mut Rows, sets: &Sets) -> Result<(), AllocError> {
    let (s, t, y) = sets;
    let s = list(alloc, *s)?;
    let t = list(alloc, *t)?;
    rows.push(s.as_slice(), t.as_slice(), *y)
}

/// Whether rows that are put in come out as they were, of a copy too, also where others were cleared.
fn are_stored(alloc: Global, wanted: &[Sets]) -> Result<bool, AllocError> {
    let mut rows = Rows::new(alloc);
    for sets in wanted {
        store(alloc, &mut rows, sets)?;
    }
    let copy = rows.copy(alloc)?;
    rows.clear();
    let empty = rows.len() == 0;
    for sets in wanted {
        store(alloc, &mut rows, sets)?;
    }
    Ok(empty && has_rows(&copy, wanted) && has_rows(&rows, wanted))
}

#[test]
fn rows_of_any_lengths_come_out_as_they_went_in(rt: HostRuntime) -> Result<(), Fail> {
    assert!(rt; are_stored(rt.alloc(), &STORED)?);
    Ok(())
}
