//! The conditions on the labels of a certificate: their number, their numbering, the rules and the
//! stated value. Each pair is looked at once, in rising order, so the first that fails is the least.

ghost use Rattle.std.specs.Prelude.{◌≡◌, ◌<◌, ◌≤◌, ◌↔◌, ℕ, IsTrue, IfErr, IfNone, IfOk, IfSome, OnOk, length, slice_index};
ghost use Rattle.std.specs.Bool.{OnTrue};
ghost use Rattle.clu_partition.specs.Closed.{IsClosed};
ghost use Rattle.clu_partition.specs.Partition.{IsNumberedFrom};
ghost use Rattle.clu_objective.specs.Problem.{IsPosed};
ghost use Rattle.clu_cert.specs.Valid.{HasShape, ObeysAt, ObeyRules, printed_value};
ghost use Rattle.clu_check.specs.Rejected.{AreBlocks, HaveValue, IsLeastPair, IsRejected};
ghost use Rattle.clu_check.specs.Labels.{ObeyWith, IsLeastWith};

use crate::Reject;
use clu_cert::Certificate;
use clu_objective::Problem;
use clu_partition::{Partition, Start, Vertex};
use std::alloc::{AllocError, Global};

/// Refuses labels that aren't those of a partition of the problem's vertices.
pub(crate) fn check_blocks(problem: &Problem, start: &Start, c: &Certificate) -> Result<(), Reject>
    ensures ok { OnOk result (AreBlocks problem.now c.now) }
    ensures few { OnOk result (problem.now.pairs.n ≤ 1000) }
    ensures posed { OnOk result (IsPosed problem.now) }
    ensures rejected { IfErr result (λ reject. IsRejected problem.now start.now c.now reject) }
{
    if !has_shape(problem, c) {
        return Err(Reject::Shape);
    }
    if !are_numbered(c.labels.as_slice()) {
        return Err(Reject::Blocks);
    }
    Ok(())
}

/// Whether the objective and the number of labels are the problem's.
fn has_shape(problem: &Problem, c: &Certificate) -> bool
    ensures shape { IsTrue result ↔ HasShape problem.now c.now }
    ensures few { OnTrue result (problem.now.pairs.n ≤ 1000) }
    ensures posed { IsPosed problem.now }
{
    c.objective == problem.objective && c.labels.len() == problem.pairs.n() as usize
}

/// Whether the labels are numbered from 0 by first appearance.
#[tactic(auto, using(crate::proofs::Numbered::none, crate::proofs::Numbered::one_more, crate::proofs::Numbered::all, crate::proofs::Numbered::none_past))]
fn are_numbered(labels: &[u32]) -> bool
    requires { length labels.now ≤ 1000 }
    ensures { IsTrue result ↔ IsNumberedFrom 0 labels.now }
{
    let mut next = 0;
    for label in labels {
        if *label > next {
            return false;
        }
        next = next.max(*label + 1);
    }
    true
}

/// Refuses labels that don't obey the rules, or don't have the stated value.
pub(crate) fn check_value(
    alloc: Global,
    problem: &Problem,
    start: &Start,
    c: &Certificate,
) -> Result<(), Reject>
    requires one_size { length start.now.group ≡ problem.now.pairs.n }
    requires blocks { AreBlocks problem.now c.now }
    requires few { problem.now.pairs.n ≤ 1000 }
    ensures ok { OnOk result (HaveValue problem.now start.now c.now) }
    ensures closed { OnOk result (IsClosed start.now) }
    ensures rejected { IfErr result (λ reject. IsRejected problem.now start.now c.now reject) }
{
    let labels = c.labels.as_slice();
    if let Some(pair) = least_broken(start, labels) {
        return Err(Reject::Rule {
            u: pair.0,
            v: pair.1,
        });
    }
    let found = value_of(alloc, problem, labels)?;
    if found != c.value {
        return Err(Reject::Value { found });
    }
    Ok(())
}

/// The least pair that doesn't obey the rules.
#[tactic(auto, using(crate::proofs::Obeyed::row_more, crate::proofs::Obeyed::least_pair))]
fn least_broken(start: &Start, labels: &[u32]) -> Option<(Vertex, Vertex)>
    requires { length start.now.group ≡ length labels.now }
    ensures obey { IfNone result (ObeyRules (length labels.now) start.now labels.now) }
    ensures closed { IsClosed start.now }
    ensures least { IfSome result (λ p.
        IsLeastPair (length labels.now) start.now labels.now p.0 p.1) }
{
    for u in 0..start.n() {
        if let Some(v) = least_broken_with(start, labels, Vertex(u)) {
            return Some((Vertex(u), v));
        }
    }
    None
}

/// The least vertex after `u` that makes a pair with it that doesn't obey the rules.
#[tactic(auto, using(crate::proofs::Obeyed::one_more))]
fn least_broken_with(start: &Start, labels: &[u32], u: Vertex) -> Option<Vertex>
    requires one_size { length start.now.group ≡ length labels.now }
    requires within { u < length labels.now }
    ensures obey { IfNone result (ObeyWith start.now labels.now u (length labels.now)) }
    ensures least { IfSome result (λ v. IsLeastWith start.now labels.now u v) }
{
    let n = start.n();
    for v in u.0 + 1..n {
        if !obeys(start, labels, u, Vertex(v)) {
            return Some(Vertex(v));
        }
    }
    None
}

/// Whether a pair obeys the rules.
fn obeys(start: &Start, labels: &[u32], u: Vertex, v: Vertex) -> bool
    requires one_size { length start.now.group ≡ length labels.now }
    requires first { u < length labels.now }
    requires second { v < length labels.now }
    ensures { IsTrue result ↔ ObeysAt start.now labels.now u v }
{
    if labels[u.0 as usize] == labels[v.0 as usize] {
        !start.apart(u, v)
    } else {
        start.group(u) != start.group(v)
    }
}

/// The printed objective of the labels.
fn value_of(alloc: Global, problem: &Problem, labels: &[u32]) -> Result<i128, AllocError>
    requires one_each { length labels.now ≡ problem.now.pairs.n }
    requires few { problem.now.pairs.n ≤ 1000 }
    ensures { IfOk result (λ found. found ≡ printed_value problem.now labels.now) }
{
    let partition = Partition::from_labels(alloc, labels)?;
    Ok(problem.printed(partition.value(&problem.pairs)))
}
