//! Cluster editing as pair weights of a clique partitioning problem, after Groetschel and Wakabayashi
//! (1989): an edge weighs 1, another pair -1. One look at the graph's table for each pair.

ghost use Rattle.std.specs.Prelude.{◌≡◌, ◌<◌, ◌≤◌, ◌^◌, ℕ, IfOk, length};
ghost use Rattle.clu_partition.specs.Pairs.{weight_of, IsTable};
ghost use Rattle.clu_objective.specs.Edits.{edge_weight, PosesEdits, PrintsEdits};

use crate::{Objective, Problem};
use clu_pace::Graph;
use clu_partition::{PairTable, Vertex};
use std::alloc::{AllocError, Global};

/// The problem of cluster editing on a graph: an edge weighs 1 and another pair -1, so that the
/// edits of a partition are the number of edges less the weights inside its blocks.
pub fn pairs_of_graph(alloc: Global, graph: &Graph) -> Result<Problem, AllocError>
    ensures poses { IfOk result (λ problem. PosesEdits graph.now problem) }
    ensures edits { IfOk result (λ problem. PrintsEdits graph.now problem) }
{
    let pairs = weigh_pairs(alloc, graph)?;
    let edges = graph.edges();
    Ok(Problem {
        objective: Objective::Edits,
        pairs,
        base: count(edges) as i128,
        factor: -1,
        scale: 1,
    })
}

/// The number of edges.
fn count(edges: &[(Vertex, Vertex)]) -> usize
    ensures count { result ≡ length edges.now }
    ensures small { result < 2 ^ 63 }
{
    edges.len()
}

/// The table of a graph's edges.
fn weigh_pairs(alloc: Global, graph: &Graph) -> Result<PairTable, AllocError>
    ensures table { IfOk result (λ pairs. IsTable pairs) }
    ensures size { IfOk result (λ pairs. pairs.n ≡ graph.now.n) }
    ensures weights { IfOk result (λ pairs. (x z : ℕ) → x < z → z < graph.now.n
        → weight_of pairs x z ≡ edge_weight graph.now x z) }
{
    let mut pairs = PairTable::new(alloc, graph.n())?;
    for u in 0..pairs.n() {
        weigh_row(graph, &mut pairs, u);
    }
    Ok(pairs)
}

/// Sets the weights of the pairs of `u` with later vertices.
fn weigh_row(graph: &Graph, pairs: &mut PairTable, u: u32)
    requires size { pairs.old.n ≡ graph.now.n }
    requires within { u < graph.now.n }
    ensures table { IsTable pairs.new }
    ensures size { pairs.new.n ≡ pairs.old.n }
    ensures row { (z : ℕ) → u < z → z < graph.now.n
        → weight_of pairs.new u z ≡ edge_weight graph.now u z }
    ensures others { (x z : ℕ) → x < u → x < z → z < graph.now.n
        → weight_of pairs.new x z ≡ weight_of pairs.old x z }
{
    let n = pairs.n();
    for v in u + 1..n {
        let weight = if graph.has(Vertex(u), Vertex(v)) {
            1
        } else {
            -1
        };
        pairs.set(Vertex(u), Vertex(v), weight);
    }
}
