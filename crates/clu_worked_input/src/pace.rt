//! Worked texts of graphs, as tables: what graph each is of, or which line is refused and why; how each refusal is
//! shown; that vertices are adjacent in both orders; and what they are named.

use crate::fixtures::{finds, has_count, is_named};
use clu_pace::{Graph, PaceError, read_pace};
use clu_partition::Vertex;
use std::alloc::{AllocError, Global};
use std::test::Fail;

const READ: [(&str, u32, &[(u32, u32)]); 6] = [
    ("p cep 0 0", 0, &[]),
    ("p cep 3 2\n1 2\n2 3\n", 3, &[(0, 1), (1, 2)]),
    // blanks, comments, empty lines, both ends of lines, either order
    (
        "c p cep 9 9\r\np cep 3 2\r\n\r\n3 1\r\n c1 2\r\n2 1\r\n",
        3,
        &[(0, 2), (0, 1)],
    ),
    ("p\tcep 04  1\n\t04\t 002", 4, &[(1, 3)]),
    ("p cep 1000 1\n1000 999\n", 1000, &[(998, 999)]),
    ("p cep 1000 0\nc", 1000, &[]),
];

const REFUSED: [(&str, PaceError); 39] = [
    ("", PaceError::NoHeader),
    ("c p cep 3 0\n\n \t\r\n", PaceError::NoHeader),
    ("1 2\n", PaceError::NoHeader),
    ("p: cep 3 0\np cep 3 0", PaceError::NoHeader),
    ("p", PaceError::BadHeader { line: 1 }),
    ("p cep 3\n", PaceError::BadHeader { line: 1 }),
    ("p cnf 3 0\n", PaceError::BadHeader { line: 1 }),
    ("p cnf x", PaceError::BadHeader { line: 1 }),
    ("p cep 3 0 0\n", PaceError::BadHeader { line: 1 }),
    ("p cep 1001 -1", PaceError::BadHeader { line: 1 }),
    ("p cep 4294967296 0", PaceError::BadHeader { line: 1 }),
    ("c\r\n\r\np cep x 0", PaceError::BadHeader { line: 3 }),
    ("p cep 1001 0\n", PaceError::TooManyVertices { line: 1 }),
    (
        "\nc\n  p cep 4294967295 7\n1 x",
        PaceError::TooManyVertices { line: 3 },
    ),
    ("p cep 3 1\n1 x\n", PaceError::BadLine { line: 2 }),
    ("p cep 3 1\n1", PaceError::BadLine { line: 2 }),
    ("p cep 3 1\nc\n\n1 2 3", PaceError::BadLine { line: 4 }),
    ("p cep 3 1\r\n\r\n0 x\r\n", PaceError::BadLine { line: 3 }),
    (
        "p cep 3 1\n1 2\n4294967296 4",
        PaceError::BadLine { line: 3 },
    ),
    ("p cep 3 0\np cep 3 0", PaceError::BadLine { line: 2 }),
    ("p cep 3 1\n0 1\n", PaceError::VertexOut { line: 2 }),
    ("p cep 3 1\n1 4\n", PaceError::VertexOut { line: 2 }),
    ("p cep 3 1\n4294967295 1", PaceError::VertexOut { line: 2 }),
    ("p cep 3 1\n0 0\n", PaceError::VertexOut { line: 2 }),
    ("p cep 3 1\n 4 4", PaceError::VertexOut { line: 2 }),
    (
        "p cep 3 2\n1 2\n\n c x\n1 0",
        PaceError::VertexOut { line: 5 },
    ),
    ("p cep 0 0\n1 1", PaceError::VertexOut { line: 2 }),
    ("p cep 3 1\n2 2\n", PaceError::Loop { line: 2 }),
    ("\np cep 3 0\n1 2\n\n03 3", PaceError::Loop { line: 5 }),
    ("p cep 3 2\n2 2\n1 x", PaceError::Loop { line: 2 }),
    ("p cep 3 2\n1 2\n2 1\n", PaceError::Repeated { line: 3 }),
    (
        "p cep 3 9\n1 3\n2 3\nc\n1 03",
        PaceError::Repeated { line: 5 },
    ),
    ("p cep 3 2\n1 2\n1 2\n1 x", PaceError::Repeated { line: 3 }),
    (
        "p cep 3 1\n",
        PaceError::EdgeCount {
            stated: 1,
            found: 0,
        },
    ),
    (
        "p cep 3 1\n1 2\n2 3\n",
        PaceError::EdgeCount {
            stated: 1,
            found: 2,
        },
    ),
    (
        "p cep 3 0\n1 2",
        PaceError::EdgeCount {
            stated: 0,
            found: 1,
        },
    ),
    (
        "p cep 3 4294967295\n1 2\n2 3\n3 1",
        PaceError::EdgeCount {
            stated: 4294967295,
            found: 3,
        },
    ),
    ("p cep 3 0\n1 2\n2 2", PaceError::Loop { line: 3 }),
    ("p cep 3 0\n1 2\n2 x", PaceError::BadLine { line: 3 }),
];

const SHOWN: [(PaceError, &str); 9] = [
    (PaceError::NoHeader, "NoHeader"),
    (PaceError::BadHeader { line: 3 }, "BadHeader line 3"),
    (PaceError::BadLine { line: 4 }, "BadLine line 4"),
    (PaceError::VertexOut { line: 2 }, "VertexOut line 2"),
    (PaceError::Loop { line: 10 }, "Loop line 10"),
    (PaceError::Repeated { line: 5 }, "Repeated line 5"),
    (
        PaceError::EdgeCount {
            stated: 2,
            found: 1,
        },
        "EdgeCount 2 1",
    ),
    (
        PaceError::TooManyVertices { line: 1 },
        "TooManyVertices line 1",
    ),
    (PaceError::Memory, "memory"),
];

fn is_graph(graph: &Graph, n: u32, edges: &[(u32, u32)]) -> bool {
    let pairs = graph.edges().iter().map(|edge| (edge.0.0, edge.1.0));
    graph.n() == n && pairs.eq(edges.iter().copied())
}

fn is_read(alloc: Global, text: &str, n: u32, edges: &[(u32, u32)]) -> bool {
    match read_pace(alloc, text.as_bytes()) {
        Ok(graph) => is_graph(&graph, n, edges),
        Err(_) => false,
    }
}

#[test]
fn graphs_are_read(rt: HostRuntime) {
    for (text, n, edges) in &READ {
        assert!(rt; is_read(rt.alloc(), text, *n, edges), "{text}");
    }
}

fn is_refused(alloc: Global, text: &str, want: PaceError) -> bool {
    match read_pace(alloc, text.as_bytes()) {
        Ok(_) => false,
        Err(error) => error == want,
    }
}

#[test]
fn the_first_bad_line_is_named(rt: HostRuntime) {
    for (text, want) in &REFUSED {
        assert!(rt; is_refused(rt.alloc(), text, *want), "{text}");
    }
}

fn is_shown(alloc: Global, error: PaceError, want: &str) -> Result<bool, AllocError> {
    let text = format!(in alloc; "{error}")?;
    Ok(text.as_str() == want)
}

#[test]
fn refusals_are_shown(rt: HostRuntime) -> Result<(), Fail> {
    for (error, want) in &SHOWN {
        assert!(rt; is_shown(rt.alloc(), *error, want)?, "{want}");
    }
    Ok(())
}

fn are_joined(graph: &Graph, u: u32, v: u32) -> bool {
    let n = graph.n();
    u < n && v < n && graph.has(Vertex(u), Vertex(v))
}

#[test]
fn vertices_are_adjacent_in_both_orders(rt: HostRuntime) -> Result<(), Fail> {
    let graph = read_pace(rt.alloc(), b"p cep 3 1\n3 1\n")?;
    assert!(rt; are_joined(&graph, 0, 2));
    assert!(rt; are_joined(&graph, 2, 0));
    assert!(rt; !are_joined(&graph, 1, 2));
    assert!(rt; !are_joined(&graph, 1, 1));
    Ok(())
}

/// Names of the vertices of a graph of 1,000, each as it is written.
const NAMED: [(&[u8], u32); 4] = [(b"1", 0), (b"10", 9), (b"123", 122), (b"1000", 999)];

/// Bytes, and which vertex of that graph they name.
const FOUND: [(&[u8], Option<u32>); 10] = [
    (b"1", Some(0)),
    (b"10", Some(9)),
    (b"123", Some(122)),
    (b"1000", Some(999)),
    (b"0010", Some(9)),
    (b"", None),
    (b"0", None),
    (b"1001", None),
    (b"x", None),
    (b"+1", None),
];

#[test]
fn a_vertex_is_named_by_its_number(rt: HostRuntime) -> Result<(), Fail> {
    let graph = read_pace(rt.alloc(), b"p cep 1000 0\n")?;
    assert!(rt; has_count(&graph, 1000));
    for (name, v) in &NAMED {
        assert!(rt; is_named(&graph, *v, name), "of {v}");
    }
    assert!(rt; !is_named(&graph, 0, b"01"));
    for (row, (name, v)) in FOUND.iter().enumerate() {
        assert!(rt; finds(&graph, name, *v), "in row {row}");
    }
    Ok(())
}
