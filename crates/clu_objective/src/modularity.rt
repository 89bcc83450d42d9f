//! Modularity (Newman and Girvan 2004) as pair weights of clique partitioning (Brandes and others 2008), times the
//! square of twice the total weight, so that each number is whole. Two passes over the lines and one over the pairs;
//! the limit on the total keeps each product within 128 bits.

ghost use Rattle.std.specs.Prelude.{◌≡◌, ◌≢◌, ◌<◌, ◌≤◌, ◌^◌, ◌*◌, ◌+ℤ◌, ◌-ℤ◌, ◌*ℤ◌, ◌≤ℤ◌, ℕ, None, List, All, IfOk, length, pos, unsigned_abs, slice_index_or, ◌==◌};
ghost use Rattle.clu_partition.specs.Pairs.{weight_of, IsTable};
ghost use Rattle.clu_partition.specs.Partition.{below};
ghost use Rattle.clu_partition.specs.Sums.{total, only_if};
ghost use Rattle.clu_network.specs.Network.{Net};
ghost use Rattle.clu_objective.specs.Lines.{all_sizes, all_weight, line_weight, degree, loop_weight, first_negative as negative_of};
ghost use Rattle.clu_objective.specs.Modularity.{AnswersModularity, HasTotals, PosesModularity, modular_base, modular_weight};

use crate::agreement::{line_weights, sizes};
use crate::{ObjError, Objective, Problem};
use clu_network::{NetLine, Network};
use clu_partition::{PairTable, Seq, Vertex};
use std::alloc::{AllocError, Global};

/// The largest weight of all lines.
const MAX_WEIGHT: u128 = 1 << 43;

/// The problem of modularity on a network, or the first of what bars it.
pub(crate) fn pairs_of_modularity(alloc: Global, network: &Network) -> Result<Problem, ObjError>
    ensures { AnswersModularity network.now result }
{
    if let Some(line) = first_negative(network.lines()) {
        return Err(ObjError::NegativeWeight { line });
    }
    let sum = sizes(network.lines());
    if sum == 0 {
        return Err(ObjError::NoWeight);
    }
    if sum > MAX_WEIGHT {
        return Err(ObjError::TotalWeight { sum });
    }
    Ok(pose(alloc, network, sum)?)
}

/// The problem of modularity on a network whose lines weigh `sum` in all and none below 0.
fn pose(alloc: Global, network: &Network, sum: u128) -> Result<Problem, AllocError>
    requires within { All (λ l. (l.u < network.now.n) × (l.v < network.now.n)) network.now.lines }
    requires none { negative_of network.now.lines ≡ None }
    requires sum { pos sum ≡ all_weight network.now.lines }
    requires few { sum ≤ 2 ^ 43 }
    ensures { IfOk result (λ problem. PosesModularity network.now problem) }
{
    let all = sum as i128;
    let degrees = degrees(alloc, network)?;
    let pairs = weights(alloc, network, &degrees, all)?;
    let base = base(network, &degrees, all);
    Ok(Problem {
        objective: Objective::Modularity,
        pairs,
        base,
        factor: 2,
        scale: 4 * sum * sum,
    })
}

/// The weights of all pairs.
fn weights(
    alloc: Global,
    network: &Network,
    degrees: &[i128],
    all: i128,
) -> Result<PairTable, AllocError>
    requires { HasTotals network.now all degrees.now }
    ensures table { IfOk result (λ pairs. IsTable pairs) }
    ensures size { IfOk result (λ pairs. pairs.n ≡ network.now.n) }
    ensures weights { IfOk result (λ pairs. (x z : ℕ) → x < z → z < network.now.n
        → weight_of pairs x z ≡ modular_weight network.now.lines x z) }
{
    let mut pairs = line_weights(alloc, network)?;
    weigh_pairs(&mut pairs, degrees, all);
    Ok(pairs)
}

/// Weighs all pairs, from the weights of their lines.
fn weigh_pairs(pairs: &mut PairTable, degrees: &[i128], all: i128)
    requires size { length degrees.now ≡ pairs.old.n }
    requires all_in { (pos 0 ≤ℤ all) × (all ≤ℤ pos (2 ^ 43)) }
    requires degrees_in { (v : ℕ) → v < pairs.old.n → (pos 0 ≤ℤ slice_index_or degrees.now v (pos 0))
        × (slice_index_or degrees.now v (pos 0) ≤ℤ pos (2 ^ 44)) }
    requires weights_in { (x z : ℕ) → x < z → z < pairs.old.n
        → (pos 0 ≤ℤ weight_of pairs.old x z) × (weight_of pairs.old x z ≤ℤ pos (2 ^ 43)) }
    ensures table { IsTable pairs.new }
    ensures size { pairs.new.n ≡ pairs.old.n }
    ensures weights { (x z : ℕ) → x < z → z < pairs.old.n → weight_of pairs.new x z
        ≡ pos 2 *ℤ all *ℤ weight_of pairs.old x z
        -ℤ slice_index_or degrees.now x (pos 0) *ℤ slice_index_or degrees.now z (pos 0) }
{
    for u in 0..pairs.n() {
        weigh_row(pairs, degrees, all, u);
    }
}

/// Weighs the pairs of `u` with later vertices, from the weights of their lines.
fn weigh_row(pairs: &mut PairTable, degrees: &[i128], all: i128, u: u32)
    requires size { length degrees.now ≡ pairs.old.n }
    requires within { u < pairs.old.n }
    requires all_in { (pos 0 ≤ℤ all) × (all ≤ℤ pos (2 ^ 43)) }
    requires degrees_in { (v : ℕ) → v < pairs.old.n → (pos 0 ≤ℤ slice_index_or degrees.now v (pos 0))
        × (slice_index_or degrees.now v (pos 0) ≤ℤ pos (2 ^ 44)) }
    requires weights_in { (z : ℕ) → u < z → z < pairs.old.n
        → (pos 0 ≤ℤ weight_of pairs.old u z) × (weight_of pairs.old u z ≤ℤ pos (2 ^ 43)) }
    ensures table { IsTable pairs.new }
    ensures size { pairs.new.n ≡ pairs.old.n }
    ensures row { (z : ℕ) → u < z → z < pairs.old.n → weight_of pairs.new u z
        ≡ pos 2 *ℤ all *ℤ weight_of pairs.old u z
        -ℤ slice_index_or degrees.now u (pos 0) *ℤ slice_index_or degrees.now z (pos 0) }
    ensures others { (x z : ℕ) → x ≢ u → x < z → z < pairs.old.n
        → weight_of pairs.new x z ≡ weight_of pairs.old x z }
{
    let n = pairs.n();
    for v in u + 1..n {
        let between = pairs.get(Vertex(u), Vertex(v));
        let weight = modular(all, between, degrees[u as usize], degrees[v as usize]);
        pairs.set(Vertex(u), Vertex(v), weight);
    }
}

/// The weight of two vertices of these degrees between which lines of this weight stand, where all
/// lines weigh `all`.
fn modular(all: i128, weight: i128, first: i128, second: i128) -> i128
    requires all_in { (pos 0 ≤ℤ all) × (all ≤ℤ pos (2 ^ 43)) }
    requires weight_in { (pos 0 ≤ℤ weight) × (weight ≤ℤ pos (2 ^ 43)) }
    requires first_in { (pos 0 ≤ℤ first) × (first ≤ℤ pos (2 ^ 44)) }
    requires second_in { (pos 0 ≤ℤ second) × (second ≤ℤ pos (2 ^ 44)) }
    ensures value { result ≡ pos 2 *ℤ all *ℤ weight -ℤ first *ℤ second }
    ensures small { unsigned_abs result ≤ 2 ^ 88 }
{
    2 * all * weight - first * second
}

/// The degree of each vertex, in which a loop counts twice.
fn degrees(alloc: Global, network: &Network) -> Result<Vec<i128>, AllocError>
    requires { all_sizes network.now.lines ≤ 2 ^ 43 }
    ensures size { IfOk result (λ degrees. length degrees.items ≡ network.now.n) }
    ensures each { IfOk result (λ degrees. (u : ℕ) → u < network.now.n
        → slice_index_or degrees.items u (pos 0) ≡ degree network.now.lines u) }
{
    let mut degrees = vec![in alloc; 0; network.n() as usize]?;
    for line in network.lines() {
        add_ends(&mut degrees, line);
    }
    Ok(degrees)
}

/// Adds the weight of a line to the degrees of its vertices, on a loop twice.
fn add_ends(degrees: &mut Vec<i128>, line: &NetLine)
    requires u_in { line.now.u < length degrees.old.items }
    requires v_in { line.now.v < length degrees.old.items }
    requires room { (u : ℕ) → u < length degrees.old.items
        → unsigned_abs (slice_index_or degrees.old.items u (pos 0)) ≤ 2 ^ 80 }
    requires small { unsigned_abs line.now.weight ≤ 2 ^ 80 }
    ensures size { length degrees.new.items ≡ length degrees.old.items }
    ensures each { (u : ℕ) → u < length degrees.old.items → slice_index_or degrees.new.items u (pos 0)
        ≡ slice_index_or degrees.old.items u (pos 0)
        +ℤ (only_if (line.now.u == u) line.now.weight +ℤ only_if (line.now.v == u) line.now.weight) }
{
    add_at(degrees, line.u, line.weight);
    add_at(degrees, line.v, line.weight);
}

/// Adds a weight to the degree of a vertex.
fn add_at(degrees: &mut Vec<i128>, v: Vertex, weight: i128)
    requires within { v < length degrees.old.items }
    requires room { unsigned_abs (slice_index_or degrees.old.items v (pos 0) +ℤ weight) ≤ 2 ^ 90 }
    ensures size { length degrees.new.items ≡ length degrees.old.items }
    ensures each { (u : ℕ) → u < length degrees.old.items → slice_index_or degrees.new.items u (pos 0)
        ≡ slice_index_or degrees.old.items u (pos 0) +ℤ only_if (v == u) weight }
{
    degrees[v.0 as usize] += weight;
}

/// The scaled modularity of the partition into single vertices.
fn base(network: &Network, degrees: &[i128], all: i128) -> i128
    requires totals { HasTotals network.now all degrees.now }
    requires few { length degrees.now ≤ 1000 }
    ensures { result ≡ modular_base network.now }
{
    base_of(all, loops(network.lines()), squares(degrees))
}

/// The same from the weight of all lines, that of the loops and the sum of the squares.
fn base_of(all: i128, loops: i128, squares: i128) -> i128
    requires all_in { (pos 0 ≤ℤ all) × (all ≤ℤ pos (2 ^ 43)) }
    requires loops_in { (pos 0 ≤ℤ loops) × (loops ≤ℤ pos (2 ^ 43)) }
    requires squares_in { unsigned_abs squares ≤ 2 ^ 100 }
    ensures { result ≡ pos 4 *ℤ all *ℤ loops -ℤ squares }
{
    4 * all * loops - squares
}

/// The weight of all loops.
fn loops(lines: &[NetLine]) -> i128
    requires { all_sizes lines.now ≤ 2 ^ 43 }
    ensures { result ≡ total (λ l. only_if (l.u == l.v) l.weight) lines.now }
{
    let mut sum = 0;
    for line in lines {
        sum += loop_of(line);
    }
    sum
}

/// The weight of a line that is a loop.
fn loop_of(line: &NetLine) -> i128
    ensures { result ≡ only_if (line.now.u == line.now.v) line.now.weight }
{
    if line.u == line.v { line.weight } else { 0 }
}

/// The sum of the squares of the degrees.
fn squares(degrees: &[i128]) -> i128
    requires few { length degrees.now ≤ 1000 }
    requires small { (v : ℕ) → v < length degrees.now
        → unsigned_abs (slice_index_or degrees.now v (pos 0)) ≤ 2 ^ 44 }
    ensures value { result ≡ total (λ u. slice_index_or degrees.now u (pos 0)
        *ℤ slice_index_or degrees.now u (pos 0)) (below (length degrees.now)) }
    ensures small { unsigned_abs result ≤ 2 ^ 100 }
{
    let mut sum = 0;
    for u in 0..degrees.len() {
        sum += square(degrees[u]);
    }
    sum
}

/// A number times itself.
fn square(number: i128) -> i128
    requires { unsigned_abs number ≤ 2 ^ 44 }
    ensures value { result ≡ number *ℤ number }
    ensures small { unsigned_abs result ≤ 2 ^ 88 }
{
    number * number
}

/// The number of the first line of weight below 0.
fn first_negative(lines: &[NetLine]) -> Option<u64>
    ensures { result ≡ negative_of lines.now }
{
    for line in lines {
        if line.weight < 0 {
            return Some(line.line);
        }
    }
    None
}
