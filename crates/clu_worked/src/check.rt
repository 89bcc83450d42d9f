//! What the checker says of certificates that are worked by hand, and of copies with one place changed.

ghost use Rattle.std.specs.Prelude.{◌≡◌, length};

use crate::fixtures::{
    CYCLE as CYCLE_WEIGHTS, FREE, Rules, TRIANGLES, Weights, changed, closed, editing, weighed,
};
use clu_cert::{Proof, read_cert};
use clu_check::{Accepted, Reject, check};
use clu_objective::{Objective, Problem};
use clu_partition::{PairTable, Seq, Start, Vertex};
use std::alloc::{AllocError, Global};
use std::process::Abort;
use std::test::Fail;

type Answer = Result<Accepted, Reject>;

/// A text, a place in it, what stands there instead, and what the checker says of the copy.
type Case = (&'static str, &'static str, &'static str, Answer);

/// The five-cycle by one leaf. The edges 1-2 and 3-4 are inside blocks, with 4 together, so the agreement is
/// 14. The rows' right sides are 1 each and their multipliers 2, so they give 4. They cover four edges and
/// leave 3-4 with 2: 6, and 16 with the base.
const CYCLE: &str = "clucert 1
objective agreement
vertices 5
value 14
bound 16
blocks 1 1 2 2 3
steps 0
parts 1
part 1 2 3 4 5
items 1
leaf 1 2
row 2 2 / 1 3
row 2 5 / 1 4
end
";

/// The end of that text, from its parts and from its items.
const PARTS: &str = "parts 1
part 1 2 3 4 5
items 1
leaf 1 2
row 2 2 / 1 3
row 2 5 / 1 4
";

const ITEMS: &str = "items 1
leaf 1 2
row 2 2 / 1 3
row 2 5 / 1 4
";

/// The five-cycle by a branch with three reductions in each of its subtrees.
const TREE: &str = "clucert 1
objective agreement
vertices 5
value 14
bound 14
blocks 1 1 2 2 3
steps 0
parts 1
part 1 2 3 4 5
items 8
branch 1 2
pair 3 4
pair 3 5
leaf 1 0
pair 1 5
pair 2 3
pair 2 4
leaf 1 0
end
";

/// The five-cycle by a leaf without rows, which proves 14 where rules leave no more than 4 inside and free.
const BARE: &str = "clucert 1
objective agreement
vertices 5
value 14
bound 14
blocks 1 1 2 2 3
steps 0
parts 1
part 1 2 3 4 5
items 1
leaf 1 0
end
";

/// The five-cycle by two parts, between which rules have to forbid the edges.
const TWO_PARTS: &str = "clucert 1
objective agreement
vertices 5
value 14
bound 16
blocks 1 1 2 2 3
steps 0
parts 2
part 1 2
items 1
leaf 1 0
part 3 4 5
items 1
leaf 1 0
end
";

/// The star by three root steps and the three claws that they leave: 3/2 is at most 1.
const STAR: &str = "clucert 1
objective edits
vertices 4
value 2
bound 2
blocks 1 1 2 3
steps 3
light 2 3
light 2 4
light 3 4
parts 1
part 1 2 3 4
items 1
leaf 2 3
row 1 1 / 2 3
row 1 1 / 2 4
row 1 1 / 3 4
end
";

/// The star by one row, which covers two of the three edges: it proves 2, and 3 - 2 edits.
const STAR_ROW: &str = "clucert 1
objective edits
vertices 4
value 3
bound 0
blocks 1 2 3 4
steps 0
parts 1
part 1 2 3 4
items 1
leaf 1 1
row 1 1 / 2 3
end
";

/// Two triangles and a bridge by root steps, which leave two parts.
const BRIDGE: &str = "clucert 1
objective modularity
vertices 6
value 70
bound 70
blocks 1 1 1 2 2 2
steps 4
twin 1 2
twin 5 6
pair 1 3
pair 4 5
parts 2
part 1 2 3
items 1
leaf 1 0
part 4 5 6
items 1
leaf 1 0
end
";

const SHAPE: Answer = Err(Reject::Shape);

const BLOCKS: Answer = Err(Reject::Blocks);

const PART_1: Answer = Err(Reject::Parts { part: 1 });

const ITEM_1: Answer = Err(Reject::Step { item: 1 });

const ITEM_2: Answer = Err(Reject::Step { item: 2 });

const ITEM_3: Answer = Err(Reject::Step { item: 3 });

const UNFINISHED: Answer = Err(Reject::Unfinished { part: 1 });

// Without rows a leaf's bound is the weight inside the groups and that of the free pairs above 0: 10 for
// the five edges. 1 and 2 together have 2 inside, and 3-4 and 4-5 are left with 2: 6. Apart they leave
// four edges: 8. With 1 and 2 together 3 and 4 make 4 either way. With 1 and 2 apart, 2 and 3 together
// have 2 inside and leave 4-5 and 1-5: 6; apart as well, three edges: 6, of which 3 and 4 leave 4 either way.
const CYCLE_CASES: [Case; 32] = [
    (
        CYCLE,
        "end",
        "end",
        Ok(Accepted {
            value: 14,
            bound: 16,
        }),
    ),
    (
        CYCLE,
        "bound 16",
        "bound 17",
        Ok(Accepted {
            value: 14,
            bound: 17,
        }),
    ),
    (
        CYCLE,
        "bound 16",
        "bound 15",
        Err(Reject::Bound { found: 16 }),
    ),
    (
        CYCLE,
        "value 14",
        "value 15",
        Err(Reject::Value { found: 14 }),
    ),
    (CYCLE, "blocks 1 1 2 2 3", "blocks 2 2 1 1 3", BLOCKS),
    (CYCLE, "blocks 1 1 2 2 3", "blocks 1 1 3 3 2", BLOCKS),
    (CYCLE, "agreement", "edits", SHAPE),
    (
        CYCLE,
        "vertices 5\nvalue 14\nbound 16\nblocks 1 1 2 2 3",
        "vertices 4\nvalue 14\nbound 16\nblocks 1 1 2 2",
        SHAPE,
    ),
    (CYCLE, "part 1 2 3 4 5", "part 1 2 3 4", PART_1),
    (CYCLE, "part 1 2 3 4 5", "part 1 3 2 4 5", PART_1),
    (CYCLE, "part 1 2 3 4 5", "part 1 2 3 4 5 6", PART_1),
    (CYCLE, PARTS, "parts 0\n", PART_1),
    (
        CYCLE,
        "parts 1\n",
        "parts 2\npart 1 2 3 4 5\nitems 1\nleaf 1 0\n",
        Err(Reject::Parts { part: 2 }),
    ),
    (CYCLE, "steps 0\n", "steps 1\ntwin 1 2\n", ITEM_1),
    (CYCLE, "leaf 1 2", "leaf 0 2", Err(Reject::Leaf { item: 1 })),
    (
        CYCLE,
        ITEMS,
        "items 1\nleaf 1 0\n",
        Err(Reject::Bound { found: 20 }),
    ),
    (
        CYCLE,
        ITEMS,
        "items 3\nbranch 1 2\nleaf 1 0\nleaf 1 0\n",
        Err(Reject::Bound { found: 18 }),
    ),
    (
        CYCLE,
        ITEMS,
        "items 5\nbranch 1 2\nbranch 3 4\nleaf 1 0\nleaf 1 0\nleaf 1 0\n",
        Err(Reject::Bound { found: 18 }),
    ),
    (
        CYCLE,
        ITEMS,
        "items 7\nbranch 1 2\nleaf 1 0\nbranch 2 3\nleaf 1 0\nbranch 3 4\nleaf 1 0\nleaf 1 0\n",
        Ok(Accepted {
            value: 14,
            bound: 16,
        }),
    ),
    (CYCLE, ITEMS, "items 1\nbranch 1 1\n", ITEM_1),
    (
        CYCLE,
        ITEMS,
        "items 3\nbranch 2 6\nleaf 1 0\nleaf 1 0\n",
        ITEM_1,
    ),
    (CYCLE, ITEMS, "items 2\ntwin 1 2\nleaf 1 0\n", ITEM_1),
    (
        CYCLE,
        ITEMS,
        "items 5\nbranch 1 2\nbranch 2 1\nleaf 1 0\nleaf 1 0\nleaf 1 0\n",
        ITEM_2,
    ),
    (
        CYCLE,
        ITEMS,
        "items 5\nbranch 1 2\nleaf 1 0\nbranch 1 2\nleaf 1 0\nleaf 1 0\n",
        ITEM_3,
    ),
    (
        CYCLE,
        ITEMS,
        "items 3\nbranch 1 2\nleaf 1 0\nleaf 0 0\n",
        Err(Reject::Leaf { item: 3 }),
    ),
    (CYCLE, ITEMS, "items 0\n", UNFINISHED),
    (CYCLE, ITEMS, "items 1\nbranch 1 2\n", UNFINISHED),
    (CYCLE, ITEMS, "items 2\nbranch 1 2\nleaf 1 0\n", UNFINISHED),
    (
        CYCLE,
        ITEMS,
        "items 4\nbranch 1 2\nleaf 1 0\nleaf 1 0\nleaf 1 0\n",
        UNFINISHED,
    ),
    (CYCLE, "items 1\n", "items 2\nleaf 1 0\n", UNFINISHED),
    (
        CYCLE,
        PARTS,
        "parts 2\npart 1 2\nitems 1\nleaf 1 0\npart 3 4 5\nitems 1\nleaf 1 0\n",
        PART_1,
    ),
    (
        CYCLE,
        "steps 0\nparts 1\npart 1 2",
        "steps 1\npair 1 2\nparts 1\npart 2 1",
        ITEM_1,
    ),
];

// The step `heavy 4 3` doesn't hold: 4 weighs -4 to the group of 1 and 2, and 2 to 5, which is 6 in all, and
// 2 to 3 is less.
const TREE_CASES: [Case; 10] = [
    (
        TREE,
        "end",
        "end",
        Ok(Accepted {
            value: 14,
            bound: 14,
        }),
    ),
    (TREE, "blocks 1 1 2 2 3", "blocks 2 2 1 1 3", BLOCKS),
    (
        TREE,
        "value 14",
        "value 15",
        Err(Reject::Value { found: 14 }),
    ),
    (TREE, "pair 3 4", "heavy 4 3", ITEM_2),
    (TREE, "branch 1 2", "branch 1 1", ITEM_1),
    (TREE, "part 1 2 3 4 5", "part 1 2 3 4", PART_1),
    (
        TREE,
        "pair 2 4\nleaf 1 0",
        "pair 2 4\nleaf 0 0",
        Err(Reject::Leaf { item: 8 }),
    ),
    (
        TREE,
        "items 8\nbranch 1 2\npair 3 4\npair 3 5\nleaf 1 0\npair 1 5\npair 2 3\npair 2 4\nleaf 1 0\n",
        "items 4\nbranch 1 2\npair 3 4\npair 3 5\nleaf 1 0\n",
        UNFINISHED,
    ),
    (
        TREE,
        "bound 14",
        "bound 13",
        Err(Reject::Bound { found: 14 }),
    ),
    (
        TREE,
        "pair 2 3\npair 2 4",
        "pair 2 4\npair 2 3",
        Err(Reject::Step { item: 6 }),
    ),
];

// Without its last step the star's leaf proves the same, since the free pair 3-4 weighs -2 and its row takes
// -1 from it.
const STAR_CASES: [Case; 9] = [
    (STAR, "end", "end", Ok(Accepted { value: 2, bound: 2 })),
    (STAR, "bound 2", "bound 3", Err(Reject::Bound { found: 2 })),
    (STAR, "light 2 4", "twin 2 4", ITEM_2),
    (STAR, "light 3 4", "light 3 2", ITEM_3),
    (
        STAR,
        "steps 3\nlight 2 3\nlight 2 4\nlight 3 4",
        "steps 2\nlight 2 3\nlight 2 4",
        Ok(Accepted { value: 2, bound: 2 }),
    ),
    (STAR_ROW, "end", "end", Ok(Accepted { value: 3, bound: 0 })),
    (
        STAR_ROW,
        "bound 0",
        "bound 1",
        Ok(Accepted { value: 3, bound: 1 }),
    ),
    (
        STAR_ROW,
        "bound 0",
        "bound 2",
        Err(Reject::Bound { found: 1 }),
    ),
    (TREE, "end", "end", SHAPE),
];

// 1 and 2 weigh 10, and 8 each to 3; 3 and 4 weigh 5, and all else between the triangles less than 0. So
// `pair 1 3` holds once 1 and 2 are one group, with 16 to 5, and `heavy 4 5` holds in place of the last step,
// with 16 to 7.
const BRIDGE_CASES: [Case; 8] = [
    (
        BRIDGE,
        "end",
        "end",
        Ok(Accepted {
            value: 70,
            bound: 70,
        }),
    ),
    (
        BRIDGE,
        "bound 70",
        "bound 69",
        Err(Reject::Bound { found: 70 }),
    ),
    (BRIDGE, "twin 1 2", "twin 1 3", ITEM_1),
    (
        BRIDGE,
        "twin 1 2\ntwin 5 6\npair 1 3",
        "pair 1 3\ntwin 1 2\ntwin 5 6",
        ITEM_1,
    ),
    (BRIDGE, "steps 4\ntwin 1 2\n", "steps 3\n", ITEM_2),
    (
        BRIDGE,
        "pair 4 5",
        "heavy 4 5",
        Ok(Accepted {
            value: 70,
            bound: 70,
        }),
    ),
    (BRIDGE, "part 1 2 3", "part 1 2", PART_1),
    (
        BRIDGE,
        "part 1 2 3\nitems 1\n",
        "part 1 2 3\nitems 2\ntwin 1 3\n",
        Err(Reject::Step { item: 5 }),
    ),
];

const FIRST_FORBIDDEN: Rules = Rules {
    required: &[],
    forbidden: &[(0, 1)],
};

const FIRST_TIED: Rules = Rules {
    required: &[(0, 1)],
    forbidden: &[],
};

const SECOND_TIED: Rules = Rules {
    required: &[(2, 1)],
    forbidden: &[],
};

const TWO_TIED: Rules = Rules {
    required: &[(0, 1), (2, 3)],
    forbidden: &[],
};

/// A chain ties vertices 1 and 5.
const CHAINED: Rules = Rules {
    required: &[(4, 1), (0, 1)],
    forbidden: &[],
};

const THREE_FORBIDDEN: Rules = Rules {
    required: &[],
    forbidden: &[(0, 1), (2, 3), (3, 4)],
};

/// The edges between vertices 1 and 2 and the others.
const CUT: Rules = Rules {
    required: &[],
    forbidden: &[(1, 2), (0, 4)],
};

const FIRST_BROKEN: Answer = Err(Reject::Rule {
    u: Vertex(0),
    v: Vertex(1),
});

const SECOND_BROKEN: Answer = Err(Reject::Rule {
    u: Vertex(1),
    v: Vertex(2),
});

const LAST_BROKEN: Answer = Err(Reject::Rule {
    u: Vertex(0),
    v: Vertex(4),
});

const OPTIMAL: Answer = Ok(Accepted {
    value: 14,
    bound: 14,
});

const TWO_ABOVE: Answer = Ok(Accepted {
    value: 14,
    bound: 16,
});

/// The blocks of most of the five-cycle's certificates, and others of value 14 that divide vertices 1 and 2.
const BLOCKS_OF: &str = "blocks 1 1 2 2 3";

const OTHER_BLOCKS: &str = "blocks 1 2 2 3 1";

// Without rules a leaf without rows proves 20, and an edge leaves each of the two parts. With the first edge tied
// there are 2 inside and 4 free, with the edge of vertices 3 and 4 as well 4 inside and nothing above 0 free. With
// one edge forbidden four are free, with three two. The parts of vertices 1 and 2 and of 3, 4 and 5 have three edges.
const RULED: [(Rules, Case); 17] = [
    (FREE, (TREE, BLOCKS_OF, OTHER_BLOCKS, OPTIMAL)),
    (FIRST_FORBIDDEN, (TREE, BLOCKS_OF, OTHER_BLOCKS, ITEM_1)),
    (FIRST_FORBIDDEN, (TREE, "end", "end", FIRST_BROKEN)),
    (SECOND_TIED, (TREE, "end", "end", SECOND_BROKEN)),
    (CHAINED, (TREE, "end", "end", LAST_BROKEN)),
    (FIRST_TIED, (TREE, "end", "end", ITEM_1)),
    (FREE, (BARE, "end", "end", Err(Reject::Bound { found: 20 }))),
    (
        FIRST_FORBIDDEN,
        (
            BARE,
            BLOCKS_OF,
            OTHER_BLOCKS,
            Err(Reject::Bound { found: 18 }),
        ),
    ),
    (
        FIRST_TIED,
        (BARE, "end", "end", Err(Reject::Bound { found: 16 })),
    ),
    (FIRST_TIED, (BARE, "bound 14", "bound 16", TWO_ABOVE)),
    (TWO_TIED, (BARE, "end", "end", OPTIMAL)),
    (THREE_FORBIDDEN, (BARE, BLOCKS_OF, OTHER_BLOCKS, OPTIMAL)),
    (FREE, (TWO_PARTS, "end", "end", PART_1)),
    (SECOND_TIED, (TWO_PARTS, BLOCKS_OF, OTHER_BLOCKS, PART_1)),
    (CUT, (TWO_PARTS, "end", "end", TWO_ABOVE)),
    (
        CUT,
        (
            TWO_PARTS,
            "bound 16",
            "bound 15",
            Err(Reject::Bound { found: 16 }),
        ),
    ),
    (CUT, (TWO_PARTS, "part 1 2\n", "part 1\n", PART_1)),
];

/// 1 on each edge of a star of four vertices, -1 on each other pair.
const STAR_WEIGHTS: Weights = &[
    (1, &[(0, 1), (0, 2), (0, 3)]),
    (-1, &[(1, 2), (1, 3), (2, 3)]),
];

fn five_cycle(rt: &impl Abort, pairs: PairTable) -> Problem {
    let n = pairs.n();
    assert!(rt; pairs.total_abs() <= 1_000_000);
    assert!(rt; pairs.n() == n);
    Problem {
        objective: Objective::Agreement,
        pairs,
        base: 10,
        factor: 1,
        scale: 1,
    }
}

// The squares of the degrees are 34 in all.
fn bridge(rt: &impl Abort, pairs: PairTable) -> Problem {
    let n = pairs.n();
    assert!(rt; pairs.total_abs() <= 1_000_000);
    assert!(rt; pairs.n() == n);
    Problem {
        objective: Objective::Modularity,
        pairs,
        base: -34,
        factor: 2,
        scale: 196,
    }
}

/// Whether the checker says of a case what it should.
fn is_judged(
    alloc: Global,
    problem: &Problem,
    start: &Start,
    case: &Case,
) -> Result<bool, AllocError>
    requires { length start.now.group ≡ problem.now.pairs.n }
{
    let (text, old, new, answer) = case;
    let Some(text) = changed(alloc, *text, *old, *new)? else {
        return Ok(false);
    };
    let Ok(c) = read_cert(alloc, text.as_slice()) else {
        return Ok(false);
    };
    Ok(check(alloc, problem, start, &c) == *answer)
}

/// Asks that the checker says of each case what it should.
fn ask(
    rt: &impl Abort,
    alloc: Global,
    problem: &Problem,
    start: &Start,
    cases: &[Case],
) -> Result<(), AllocError> {
    assert!(rt; start.n() == problem.pairs.n());
    for case in cases {
        assert!(rt;
            is_judged(alloc, problem, start, case)?,
            "{} in place of {}",
            case.2,
            case.1
        );
    }
    Ok(())
}

/// Asks it over the five-cycle without rules.
fn ask_of_cycle(rt: &impl Abort, alloc: Global, cases: &[Case]) -> Result<(), AllocError> {
    let pairs = weighed(rt, alloc, 5, CYCLE_WEIGHTS)?;
    let problem = five_cycle(rt, pairs);
    let start = Start::none(alloc, 5)?;
    ask(rt, alloc, &problem, &start, cases)
}

/// Whether the checker says of a case over the five-cycle under these rules what it should.
fn is_judged_under(
    rt: &impl Abort,
    alloc: Global,
    start: &Start,
    case: &Case,
) -> Result<bool, AllocError> {
    let pairs = weighed(rt, alloc, 5, CYCLE_WEIGHTS)?;
    let problem = five_cycle(rt, pairs);
    assert!(rt; start.n() == problem.pairs.n());
    is_judged(alloc, &problem, start, case)
}

/// Asks it over the star.
fn ask_of_star(rt: &impl Abort, alloc: Global, cases: &[Case]) -> Result<(), AllocError> {
    let pairs = weighed(rt, alloc, 4, STAR_WEIGHTS)?;
    let problem = editing(rt, pairs, 3);
    let start = Start::none(alloc, 4)?;
    ask(rt, alloc, &problem, &start, cases)
}

/// Asks it over two triangles and a bridge.
fn ask_of_bridge(rt: &impl Abort, alloc: Global, cases: &[Case]) -> Result<(), AllocError> {
    let pairs = weighed(rt, alloc, 6, TRIANGLES)?;
    let problem = bridge(rt, pairs);
    let start = Start::none(alloc, 6)?;
    ask(rt, alloc, &problem, &start, cases)
}

/// What the checker says of the five-cycle's certificate with a part without vertices in place of its own.
fn judged_without(
    alloc: Global,
    problem: &Problem,
    start: &Start,
) -> Result<Option<Answer>, AllocError>
    requires { length start.now.group ≡ problem.now.pairs.n }
{
    let Some(text) = changed(alloc, CYCLE, PARTS, "parts 0\n")? else {
        return Ok(None);
    };
    let Ok(c) = read_cert(alloc, text.as_slice()) else {
        return Ok(None);
    };
    let mut c = c;
    c.proofs.push(Proof {
        part: Seq::new(alloc),
        items: Seq::new(alloc),
    })?;
    Ok(Some(check(alloc, problem, start, &c)))
}

#[test]
fn the_five_cycle_is_judged(rt: HostRuntime) -> Result<(), Fail> {
    ask_of_cycle(&rt, rt.alloc(), &CYCLE_CASES)?;
    ask_of_cycle(&rt, rt.alloc(), &TREE_CASES)?;
    Ok(())
}

#[test]
fn the_star_is_judged(rt: HostRuntime) -> Result<(), Fail> {
    ask_of_star(&rt, rt.alloc(), &STAR_CASES)?;
    Ok(())
}

#[test]
fn two_triangles_and_a_bridge_are_judged(rt: HostRuntime) -> Result<(), Fail> {
    ask_of_bridge(&rt, rt.alloc(), &BRIDGE_CASES)?;
    Ok(())
}

#[test]
fn the_five_cycle_is_judged_by_rules(rt: HostRuntime) -> Result<(), Fail> {
    for (rules, case) in &RULED {
        let start = closed(&rt, rt.alloc(), 5, rules)?;
        assert!(rt;
            is_judged_under(&rt, rt.alloc(), &start, case)?,
            "{} in place of {}",
            case.2,
            case.1
        );
    }
    Ok(())
}

#[test]
fn a_part_without_vertices_is_refused(rt: HostRuntime) -> Result<(), Fail> {
    let alloc = rt.alloc();
    let pairs = weighed(&rt, alloc, 5, CYCLE_WEIGHTS)?;
    let problem = five_cycle(&rt, pairs);
    let start = Start::none(alloc, 5)?;
    assert!(rt; start.n() == problem.pairs.n());
    assert!(rt; judged_without(alloc, &problem, &start)? == Some(PART_1));
    Ok(())
}
