//! A graph as its list of edges, with the set of its adjacent pairs beside it that finds one at once: only a new edge
//! is added, and it is put into both.

ghost use Rattle.std.specs.Prelude.{◌≡◌, ◌≤◌, ◌<◌, ◌++◌, [], ◌∷◌, ℕ, true, false, length, IfOk, OnOk, OnErr};
ghost use Rattle.clu_pace.specs.Graph.{are_adjacent, AreWithin, NoneTwice};
ghost use Rattle.clu_pace.specs.Numbers.{graph_names};

use clu_partition::{PairSet, Vertex};
use std::alloc::{AllocError, Global};
use std::marker::Model;

/// A graph of at most 1,000 vertices: its edges in the order of the file, each with its smaller
/// vertex first, and the set of its adjacent pairs.
#[derive(Debug, Drop)]
pub struct Graph {
    edges: Vec<(Vertex, Vertex)>,
    adjacent: PairSet,
}

impl Model for Graph {
    ghost use Rattle.clu_pace.specs.Graph.{PaceGraph};
    ghost use Rattle.clu_pace.specs.Adjacency.{IsAdjacency};

    ghost Value = { PaceGraph };

    ghost view = { λ g. record { n = g.adjacent.n; edges = g.edges.items } };

    ghost invariant = { λ g. IsAdjacency g.edges.items g.adjacent };
}

impl Graph {
    /// A graph of n vertices without edges.
    #[tactic(auto, using(crate::proofs::Adjacency::no_edges))]
    pub(crate) fn without_edges(alloc: Global, n: u32) -> Result<Graph, AllocError>
        requires { n ≤ 1000 }
        ensures n { IfOk result (λ g. g.n ≡ n) }
        ensures edges { IfOk result (λ g. g.edges ≡ []) }
    {
        let adjacent = PairSet::new(alloc, n)?;
        Ok(Graph {
            edges: Vec::new(alloc),
            adjacent,
        })
    }

    /// Adds an edge, the smaller vertex first. After an error the graph is as it was.
    pub(crate) fn add(&mut self, u: Vertex, v: Vertex) -> Result<(), AllocError>
        requires order { u < v }
        requires within { v < self.old.n }
        requires absent { are_adjacent self.old.edges u v ≡ false }
        ensures n { self.new.n ≡ self.old.n }
        ensures ok { OnOk result (self.new.edges ≡ self.old.edges ++ (u, v) ∷ []) }
        ensures err { OnErr result (self.new.edges ≡ self.old.edges) }
    {
        self.edges.push((u, v))?;
        self.adjacent.put(u, v);
        Ok(())
    }

    /// The number of vertices.
    #[tactic(auto, using(crate::specs::NumberLaws::names_count))]
    pub fn n(&self) -> u32
        ensures n { result ≡ self.now.n }
        ensures names { result ≡ length (graph_names self.now) }
        ensures small { result ≤ 1000 }
    {
        self.adjacent.n()
    }

    /// The edges in the order of the file, each with its smaller vertex first.
    pub fn edges(&self) -> &[(Vertex, Vertex)]
        ensures edges { result.now ≡ self.now.edges }
        ensures within { AreWithin self.now.n self.now.edges }
        ensures once { NoneTwice self.now.edges }
    {
        &self.edges
    }

    /// Whether two vertices are adjacent.
    pub fn has(&self, u: Vertex, v: Vertex) -> bool
        requires u_in { u < self.now.n }
        requires v_in { v < self.now.n }
        ensures { result ≡ are_adjacent self.now.edges u v }
    {
        self.adjacent.has(u, v)
    }
}
