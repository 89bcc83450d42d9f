//! The reader of graphs: one pass over the lines, in which the graph's own table finds an edge that stood
//! before, so the time is that of the bytes and nothing but the graph takes memory. The format is that
//! of the PACE 2021 challenge, exact track.

ghost use Rattle.std.specs.Prelude.{◌≡◌, ◌≢◌, ◌<◌, ◌≤◌, ◌∷◌, ◌↔◌, [], ℕ, List, IfOk, IfErr, IsTrue, MatchOption};
ghost use Rattle.clu_text.specs.Lines.{fields_of};
ghost use Rattle.clu_pace.specs.Graph.{PaceGraph};
ghost use Rattle.clu_pace.specs.Pace.{is_kept_in_graph as kept, kept_of, unnumbered, AreAllEdges, AreNumbers, IsVertex, IsHeader, IsEdgeLine, IsAccepted};
ghost use Rattle.clu_pace.specs.Refusals.{BeginsHeader, FailsHeader, FailsLine, FailsEdges, IsNewEdge, IsPaceFault};
ghost use Rattle.clu_pace.specs.declared.error.PaceError.{PaceError};
ghost use Rattle.clu_pace.specs.declared.error.PaceError.TheVariants.{Memory};

use crate::{Graph, PaceError};
use clu_partition::Vertex;
use clu_text::{Line, LineIter, fields, lines, read_u32};
use std::alloc::Global;

/// The largest number of vertices.
const MAX_VERTICES: u32 = 1_000;

/// The graph of a text of the PACE 2021 exact track: a header `p cep n m`, then one line `u v`
/// for each of the m edges. Lines without fields and lines that begin with `c` are skipped.
/// An error other than want of memory names the first line that is refused, numbered from 1 with the
/// skipped ones, and of its causes the first in this order: of the header, `NoHeader`, `BadHeader`,
/// `TooManyVertices`; of another line, `BadLine`, `VertexOut`, `Loop`, `Repeated`. `EdgeCount` comes
/// where no line is refused.
pub fn read_pace(alloc: Global, bytes: &[u8]) -> Result<Graph, PaceError>
    ensures graph { IfOk result (λ graph. IsAccepted bytes.now graph) }
    ensures only { IfOk result (λ graph. (other : PaceGraph) → IsAccepted bytes.now other
        → other ≡ graph) }
    ensures refused { IfErr result (λ e. e ≢ Memory → IsPaceFault bytes.now e) }
    ensures none { IfErr result (λ e. e ≢ Memory → (graph : PaceGraph)
        → IsAccepted bytes.now graph → ⊥) }
    ensures one { IfErr result (λ e. e ≢ Memory → (other : PaceError)
        → IsPaceFault bytes.now other → other ≡ e) }
{
    let mut rest = lines(bytes);
    let Some(header) = next_kept(&mut rest) else {
        return Err(PaceError::NoHeader);
    };
    let (n, m) = read_header(header.number, header.bytes)?;
    let graph = read_edges(alloc, n, m, &mut rest)?;
    Ok(graph)
}

fn is_kept(line: &[u8]) -> bool
    ensures { result ≡ kept (fields_of line.now) }
{
    match fields(line).next() {
        None => false,
        Some(first) => match first {
            [] => true,
            [byte, ..] => *byte != b'c',
        },
    }
}

fn is_word(field: &[u8], word: &[u8]) -> bool
    ensures { IsTrue result ↔ (field.now ≡ word.now) }
{
    field == word
}

/// Goes on to the next line that is kept.
fn next_kept<'a>(lines: &mut LineIter<'a>) -> Option<Line<'a>>
    ensures { MatchOption result (kept_of lines.old ≡ [])
        (λ line. kept_of lines.old ≡ (line.number, fields_of line.bytes.now) ∷ kept_of lines.new) }
{
    while let Some(line) = lines.next() {
        if is_kept(line.bytes) {
            return Some(line);
        }
    }
    None
}

/// Whether the first field is `p`.
fn begins_header(line: &[u8]) -> bool
    ensures { IsTrue result ↔ BeginsHeader (fields_of line.now) }
{
    match fields(line).next() {
        None => false,
        Some(first) => is_word(first, b"p"),
    }
}

/// The numbers of vertices and edges of a header `p cep n m`.
fn header_numbers(line: &[u8]) -> Option<(u32, u32)>
    requires { BeginsHeader (fields_of line.now) }
    ensures { MatchOption result ((n m : ℕ) → IsHeader (fields_of line.now) n m → ⊥)
        (λ h. IsHeader (fields_of line.now) h.0 h.1) }
{
    let mut rest = fields(line);
    rest.next()?;
    let cep = rest.next()?;
    let n = rest.next()?;
    let m = rest.next()?;
    if rest.next().is_some() || !is_word(cep, b"cep") {
        return None;
    }
    let n = read_u32(n)?;
    let m = read_u32(m)?;
    Some((n, m))
}

/// The same, of at most 1,000 vertices.
fn read_header(number: u64, line: &[u8]) -> Result<(u32, u32), PaceError>
    ensures header { IfOk result (λ h. IsHeader (fields_of line.now) h.0 h.1) }
    ensures small { IfOk result (λ h. h.0 ≤ 1000) }
    ensures refused { IfErr result (λ e. FailsHeader (number, fields_of line.now) e) }
{
    if !begins_header(line) {
        return Err(PaceError::NoHeader);
    }
    let Some((n, m)) = header_numbers(line) else {
        return Err(PaceError::BadHeader { line: number });
    };
    if n > MAX_VERTICES {
        return Err(PaceError::TooManyVertices { line: number });
    }
    Ok((n, m))
}

/// The two numbers of a line.
fn read_numbers(line: &[u8]) -> Option<(u32, u32)>
    ensures { MatchOption result ((u v : ℕ) → AreNumbers (fields_of line.now) u v → ⊥)
        (λ p. AreNumbers (fields_of line.now) p.0 p.1) }
{
    let mut rest = fields(line);
    let one = rest.next()?;
    let two = rest.next()?;
    if rest.next().is_some() {
        return None;
    }
    let u = read_u32(one)?;
    let v = read_u32(two)?;
    Some((u, v))
}

/// Whether two numbers are from 1 to n.
fn are_vertices(n: u32, u: u32, v: u32) -> bool
    ensures { IsTrue result ↔ (IsVertex n u × IsVertex n v) }
{
    0 < u && u <= n && 0 < v && v <= n
}

/// The edge of a line, the smaller vertex first.
fn read_edge(graph: &Graph, number: u64, line: &[u8]) -> Result<(Vertex, Vertex), PaceError>
    ensures edge { IfOk result (λ e. IsEdgeLine graph.now.n (fields_of line.now) e) }
    ensures within { IfOk result (λ e. (e.0 < e.1) × (e.1 < graph.now.n)) }
    ensures refused { IfErr result
        (λ e. FailsLine graph.now.n graph.now.edges (number, fields_of line.now) e) }
{
    let Some((u, v)) = read_numbers(line) else {
        return Err(PaceError::BadLine { line: number });
    };
    if !are_vertices(graph.n(), u, v) {
        return Err(PaceError::VertexOut { line: number });
    }
    if u == v {
        return Err(PaceError::Loop { line: number });
    }
    Ok((Vertex(u.min(v) - 1), Vertex(u.max(v) - 1)))
}

/// The same, where the graph doesn't have it yet.
fn new_edge(graph: &Graph, number: u64, line: &[u8]) -> Result<(Vertex, Vertex), PaceError>
    ensures edge { IfOk result (λ e. IsNewEdge graph.now.n graph.now.edges (fields_of line.now) e) }
    ensures within { IfOk result (λ e. (e.0 < e.1) × (e.1 < graph.now.n)) }
    ensures refused { IfErr result
        (λ e. FailsLine graph.now.n graph.now.edges (number, fields_of line.now) e) }
{
    let edge = read_edge(graph, number, line)?;
    if graph.has(edge.0, edge.1) {
        return Err(PaceError::Repeated { line: number });
    }
    Ok(edge)
}

/// The graph whose m edges are the lines that are kept of these.
fn read_edges(alloc: Global, n: u32, m: u32, lines: &mut LineIter<'_>) -> Result<Graph, PaceError>
    requires { n ≤ 1000 }
    ensures n { IfOk result (λ graph. graph.n ≡ n) }
    ensures edges { IfOk result (λ graph. AreAllEdges n m (unnumbered (kept_of lines.old)) graph.edges) }
    ensures refused { IfErr result (λ e. e ≢ Memory → FailsEdges n m [] (kept_of lines.old) e) }
{
    let mut graph = Graph::without_edges(alloc, n)?;
    while let Some(line) = next_kept(lines) {
        let edge = new_edge(&graph, line.number, line.bytes)?;
        graph.add(edge.0, edge.1)?;
    }
    let found = graph.edges().len();
    if found != m as usize {
        return Err(PaceError::EdgeCount {
            stated: m,
            found: found as u64,
        });
    }
    Ok(graph)
}
