//! Worked objectives, as tables. Two triangles and a bridge, a signed network with decimals, a signed
//! star, a signed five-cycle, one loop, and loops with a repeated line, which were counted by hand: W
//! is 55 tenths, the degrees 60, 50 and 0.

use clu_network::read_network;
use clu_objective::{ObjError, Objective, Problem, pairs_of_graph, pairs_of_network};
use clu_pace::read_pace;
use clu_partition::Partition;
use std::alloc::Global;
use std::test::Fail;

const TRIANGLES: &str = "a b\na c\nb c\nc d\nd e\nd f\ne f";

const SIGNED: &str = "# sample\r\na\tb\t0.5\r\nb a 1.25\r\nb c -1\r\n";

const STAR: &str = "c x 2\nc y 2\nc z 2\nx y -2\nx z -2\ny z -2\n";

const CYCLE: &str = "a b 2\nb c 2\nc d 2\nd e 2\ne a 2\na c -2\na d -2\nb d -2\nb e -2\nc e -2\n";

const LOOPS: &str = "a a 1.5\na b 2\nb a 1\nc\nb b\n";

/// A text, the objective, a partition, the scale and the printed number.
const PRINTED: [(&str, Objective, &[u32], u128, i128); 11] = [
    (
        TRIANGLES,
        Objective::Modularity,
        &[0, 0, 0, 1, 1, 1],
        196,
        70,
    ),
    (
        TRIANGLES,
        Objective::Modularity,
        &[0, 1, 0, 2, 2, 2],
        196,
        34,
    ),
    (
        TRIANGLES,
        Objective::Modularity,
        &[0, 0, 0, 0, 0, 0],
        196,
        0,
    ),
    (SIGNED, Objective::Agreement, &[0, 0, 1], 100, 275),
    (SIGNED, Objective::Agreement, &[0, 0, 0], 100, 175),
    (STAR, Objective::Agreement, &[0, 0, 1, 2], 1, 8),
    (CYCLE, Objective::Agreement, &[0, 0, 1, 1, 2], 1, 14),
    (LOOPS, Objective::Modularity, &[0, 1, 2], 12100, -600),
    (LOOPS, Objective::Modularity, &[0, 0, 1], 12100, 0),
    ("a a", Objective::Modularity, &[0], 4, 0),
    ("a b 0.12", Objective::Agreement, &[0, 0], 100, 12),
];

const LIMITS: [(&str, Option<ObjError>); 4] = [
    ("a b 8796093022208", None),
    (
        "a b 8796093022209",
        Some(ObjError::TotalWeight { sum: 8796093022209 }),
    ),
    (
        "a b 8796093022209\n\na b -1",
        Some(ObjError::NegativeWeight { line: 3 }),
    ),
    ("a\nb", Some(ObjError::NoWeight)),
];

/// A path of three vertices: two edges, and one pair without an edge.
const PATH: &[u8] = b"p cep 3 2\n1 2\n2 3\n";

const EDITS: [(&[u32], i128); 4] = [
    (&[0, 1, 2], 2),
    (&[0, 0, 1], 1),
    (&[0, 0, 0], 1),
    (&[0, 1, 0], 3),
];

/// Whether a partition of all vertices has this printed number, where weights are small.
fn prints(problem: &Problem, partition: &Partition, number: i128) -> bool {
    if partition.labels().len() != problem.pairs.n() as usize {
        return false;
    }
    let value = partition.value(&problem.pairs);
    value.unsigned_abs() <= 1_000_000 && problem.printed(value) == number
}

#[test]
fn printed_numbers_are_the_objectives(rt: HostRuntime) -> Result<(), Fail> {
    let alloc = rt.alloc();
    for (text, objective, labels, scale, number) in &PRINTED {
        let network = read_network(alloc, text.as_bytes(), None)?;
        let problem = pairs_of_network(alloc, &network, *objective)?;
        let partition = Partition::from_labels(alloc, labels)?;
        assert!(rt;
            problem.scale == *scale && prints(&problem, &partition, *number),
            "of {text}"
        );
    }
    Ok(())
}

fn is_answered(alloc: Global, text: &str, want: Option<ObjError>) -> bool {
    let Ok(network) = read_network(alloc, text.as_bytes(), None) else {
        return false;
    };
    match pairs_of_network(alloc, &network, Objective::Modularity) {
        Ok(_) => want.is_none(),
        Err(error) => want == Some(error),
    }
}

#[test]
fn limits_and_their_order(rt: HostRuntime) {
    for (text, want) in &LIMITS {
        assert!(rt; is_answered(rt.alloc(), text, *want), "of {text}");
    }
}

/// The four partitions below also tell the base and each of the three weights.
fn is_better_with_less(problem: &Problem) -> bool {
    problem.scale == 1
        && problem.better_or_equal(1, 2)
        && problem.better_or_equal(2, 2)
        && !problem.better_or_equal(3, 2)
}

#[test]
fn edits_are_the_edges_less_the_weights_inside(rt: HostRuntime) -> Result<(), Fail> {
    let alloc = rt.alloc();
    let problem = pairs_of_graph(alloc, &read_pace(alloc, PATH)?)?;
    assert!(rt; is_better_with_less(&problem));
    for (labels, edits) in &EDITS {
        let partition = Partition::from_labels(alloc, labels)?;
        assert!(rt; prints(&problem, &partition, *edits));
    }
    Ok(())
}
