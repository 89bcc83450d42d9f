//! Agreement of a partition with signed lines, the objective of correlation clustering (Bansal, Blum
//! and Chawla 2004), as pair weights of a clique partitioning problem (Groetschel and Wakabayashi
//! 1989). One pass over the lines makes the table; a pair counts with the sum of its lines.

ghost use Rattle.std.specs.Prelude.{◌≡◌, ◌≢◌, ◌<◌, ◌≤◌, ◌^◌, ◌+ℤ◌, ◌≤ℤ◌, ℕ, All, IfOk, length, pos, unsigned_abs};
ghost use Rattle.clu_partition.specs.Pairs.{are_pair, weight_of, total_of, IsTable};
ghost use Rattle.clu_partition.specs.Sums.{only_if, pair_total};
ghost use Rattle.clu_partition.specs.Partition.{below};
ghost use Rattle.clu_objective.specs.Agreement.{AnswersAgreement, negative};
ghost use Rattle.clu_objective.specs.Lines.{all_sizes, line_weight};

use crate::{ObjError, Objective, Problem};
use clu_network::{NetLine, Network};
use clu_partition::{PairTable, Vertex, pair_sum};
use std::alloc::{AllocError, Global};

/// The largest weight of all lines without their signs.
const MAX_WEIGHT: u128 = 1 << 88;

/// The problem of agreement on a network: two vertices weigh what the lines between them do.
pub(crate) fn pairs_of_agreement(alloc: Global, network: &Network) -> Result<Problem, ObjError>
    ensures { AnswersAgreement network.now result }
{
    let sum = sizes(network.lines());
    if sum > MAX_WEIGHT {
        return Err(ObjError::TotalWeight { sum });
    }
    let pairs = line_weights(alloc, network)?;
    let base = foes(&pairs);
    Ok(Problem {
        objective: Objective::Agreement,
        pairs,
        base,
        factor: 1,
        scale: power_of_ten(network.places()),
    })
}

/// The sum of the weights of all lines without their signs.
pub(crate) fn sizes(lines: &[NetLine]) -> u128
    requires few { length lines.now ≤ 1000000 }
    requires small { All (λ l. unsigned_abs l.weight ≤ 10 ^ 27) lines.now }
    ensures { result ≡ all_sizes lines.now }
{
    let mut sum = 0;
    for line in lines {
        sum += line.weight.unsigned_abs();
    }
    sum
}

/// The weights of the lines between each two vertices.
pub(crate) fn line_weights(alloc: Global, network: &Network) -> Result<PairTable, AllocError>
    requires { all_sizes network.now.lines ≤ 2 ^ 88 }
    ensures table { IfOk result (λ pairs. IsTable pairs) }
    ensures size { IfOk result (λ pairs. pairs.n ≡ network.now.n) }
    ensures weights { IfOk result (λ pairs. (x z : ℕ) → x < z → z < network.now.n
        → weight_of pairs x z ≡ line_weight network.now.lines x z) }
{
    let mut pairs = PairTable::new(alloc, network.n())?;
    for line in network.lines() {
        add_line(&mut pairs, line);
    }
    prove!(pairs.n() == network.n());
    Ok(pairs)
}

/// Adds the weight of a line to its pair; a loop has none.
fn add_line(pairs: &mut PairTable, line: &NetLine)
    requires u_in { line.now.u < pairs.old.n }
    requires v_in { line.now.v < pairs.old.n }
    requires room { line.now.u ≢ line.now.v
        → unsigned_abs (weight_of pairs.old line.now.u line.now.v +ℤ line.now.weight) ≤ 2 ^ 88 }
    ensures size { pairs.new.n ≡ pairs.old.n }
    ensures weights { (x z : ℕ) → x < z → z < pairs.old.n → weight_of pairs.new x z
        ≡ weight_of pairs.old x z +ℤ only_if (are_pair line.now.u line.now.v x z) line.now.weight }
{
    if line.u != line.v {
        let weight = pairs.get(line.u, line.v) + line.weight;
        pairs.set(line.u, line.v, weight);
    }
}

/// What all weights below 0 come to, without their signs.
fn foes(pairs: &PairTable) -> i128
    requires { total_of pairs.now ≤ℤ pos (2 ^ 88) }
    ensures { result ≡ pair_total (λ u v. pos (negative (weight_of pairs.now u v))) (below pairs.now.n) }
{
    pair_sum(pairs.n(), |u, v| foe(pairs, Vertex(u), Vertex(v)))
}

/// How much two vertices weigh below 0, without the sign.
fn foe(pairs: &PairTable, u: Vertex, v: Vertex) -> i128
    requires u_in { u < pairs.now.n }
    requires v_in { v < pairs.now.n }
    ensures { result ≡ pos (negative (weight_of pairs.now u v)) }
{
    let weight = pairs.get(u, v);
    if weight < 0 { -weight } else { 0 }
}

/// Ten to the number of decimal places.
fn power_of_ten(places: u8) -> u128
    requires { places ≤ 9 }
    ensures { result ≡ 10 ^ places }
{
    10u128.pow(places as u32)
}
