//! What the moves of one set are worth: for each block the weight between the set and what is in it, and whether a
//! forbidden pair bars it. Sound since a move gains the difference of two of these sums; fast since one pass over the
//! pairs at the set fills all.

ghost use Rattle.std.specs.Prelude.{◌≡◌, ◌<◌, ◌≤◌, ◌+◌, ◌*◌, ◌^◌, ◌↔◌, ◌<ℤ◌, ℕ, pos, false, IfOk, IsTrue, length, replicate, slice_index, slice_index_or};
ghost use Rattle.clu_partition.specs.Pairs.{weight_of};
ghost use Rattle.clu_partition.specs.Partition.{below, block_count_of};
ghost use Rattle.clu_partition.specs.Closed.{IsClosed, IsPermitted};
ghost use Rattle.clu_starts.specs.Settled.{IsInside};
ghost use Rattle.clu_starts.specs.Row.{beyond, weights_from, row_weight, IsRoomy, HasGrown, LabelsFit, IsBestCell, IsGreatestCell, IsFirstBetter, IsLabelRow, KeepsGroups, Bars};

use clu_partition::{PairTable, Partition, Start, Vertex};
use std::alloc::{AllocError, Global};

/// What the moves of one set are worth: the set of the vertices whose key is `key`.
#[derive(Drop)]
pub(crate) struct Row {
    /// For each label the weight to the vertices outside the set that have it.
    pub(crate) sums: Vec<i128>,
    /// The labels that an apart pair bars.
    pub(crate) barred: Vec<bool>,
}

impl Row {
    /// The row of a set. The last of its labels is one that no vertex has.
    pub(crate) fn new(
        alloc: Global,
        pairs: &PairTable,
        start: &Start,
        p: &Partition,
        keys: &[u32],
        key: u32,
        own: u32,
    ) -> Result<Row, AllocError>
        requires one_size { pairs.now.n ≡ length start.now.group }
        requires closed { IsClosed start.now }
        requires labels { length p.now ≡ pairs.now.n }
        requires keys { length keys.now ≡ pairs.now.n }
        requires whole { KeepsGroups start.now (slice_index keys.now) }
        requires permitted { IsPermitted start.now (slice_index p.now) }
        requires inside { IsInside pairs.now.n (slice_index keys.now) key (slice_index p.now) own }
        ensures small { IfOk result (λ _. block_count_of p.now < 2 ^ 32) }
        ensures row { IfOk result (λ row. IsLabelRow pairs.now start.now (slice_index keys.now) key (slice_index p.now)
            (block_count_of p.now + 1) row.sums.items row.barred.items) }
    {
        let size = p.block_count() as usize + 1;
        let mut sums = zeros(alloc, size)?;
        let mut barred = none_barred(alloc, size)?;
        let labels = p.labels();
        add_row(pairs, labels, keys, key, &mut sums);
        bar_row(start, labels, keys, key, &mut barred);
        Ok(Row { sums, barred })
    }
}

/// A sum of 0 for each label.
fn zeros(alloc: Global, size: usize) -> Result<Vec<i128>, AllocError>
    ensures { IfOk result (λ sums. sums.items ≡ replicate size (pos 0)) }
{
    vec![in alloc; 0; size]
}

/// No label barred.
fn none_barred(alloc: Global, size: usize) -> Result<Vec<bool>, AllocError>
    ensures { IfOk result (λ barred. barred.items ≡ replicate size false) }
{
    vec![in alloc; false; size]
}

/// Adds to each sum the weight between the set and the vertices outside it with that label.
pub(crate) fn add_row(
    pairs: &PairTable,
    labels: &[u32],
    keys: &[u32],
    key: u32,
    sums: &mut Vec<i128>,
)
    requires labels { length labels.now ≡ pairs.now.n }
    requires keys { length keys.now ≡ pairs.now.n }
    requires within { LabelsFit (length sums.old.items) labels.now }
    requires room { IsRoomy 0 sums.old.items }
    ensures grown { HasGrown (λ c. row_weight (weight_of pairs.now) (slice_index keys.now) key (slice_index labels.now) c (below pairs.now.n)) sums.old.items sums.new.items }
{
    for u in 0..pairs.n() {
        add_vertex(pairs, labels, keys, key, u, sums);
    }
}

/// Bars each label to which the set can't go.
pub(crate) fn bar_row(start: &Start, labels: &[u32], keys: &[u32], key: u32, barred: &mut Vec<bool>)
    requires labels { length labels.now ≡ length start.now.group }
    requires keys { length keys.now ≡ length start.now.group }
    requires whole { KeepsGroups start.now (slice_index keys.now) }
    requires permitted { IsPermitted start.now (slice_index labels.now) }
    requires within { LabelsFit (length barred.old.items) labels.now }
    ensures { Bars start.now (slice_index keys.now) key (slice_index labels.now) (λ x z. (x < length start.now.group) × (z < length start.now.group)) barred.old.items barred.new.items }
{
    for u in 0..start.n() {
        bar_vertex(start, labels, keys, key, u, barred);
    }
}

/// Adds the weights of u with all vertices outside the set, where u is in it.
fn add_vertex(
    pairs: &PairTable,
    labels: &[u32],
    keys: &[u32],
    key: u32,
    u: u32,
    sums: &mut Vec<i128>,
)
    requires labels { length labels.now ≡ pairs.now.n }
    requires keys { length keys.now ≡ pairs.now.n }
    requires small { pairs.now.n ≤ 1000 }
    requires first { u < pairs.now.n }
    requires within { LabelsFit (length sums.old.items) labels.now }
    requires room { IsRoomy (1000 * u) sums.old.items }
    ensures room { IsRoomy (1000 * (u + 1)) sums.new.items }
    ensures grown { HasGrown (λ c. weights_from (weight_of pairs.now) (slice_index keys.now) key (slice_index labels.now) c (below pairs.now.n) u) sums.old.items sums.new.items }
{
    if keys[u as usize] != key {
        return;
    }
    for v in 0..pairs.n() {
        add_pair(pairs, labels, keys, key, u, v, sums);
    }
}

/// Bars the labels of the vertices outside the set that are apart from u, where u is in it.
fn bar_vertex(start: &Start, labels: &[u32], keys: &[u32], key: u32, u: u32, barred: &mut Vec<bool>)
    requires closed { IsClosed start.now }
    requires labels { length labels.now ≡ length start.now.group }
    requires keys { length keys.now ≡ length start.now.group }
    requires whole { KeepsGroups start.now (slice_index keys.now) }
    requires first { u < length start.now.group }
    requires permitted { IsPermitted start.now (slice_index labels.now) }
    requires within { LabelsFit (length barred.old.items) labels.now }
    ensures { Bars start.now (slice_index keys.now) key (slice_index labels.now) (λ x z. (x ≡ u) × (z < length start.now.group)) barred.old.items barred.new.items }
{
    if keys[u as usize] != key {
        return;
    }
    for v in 0..start.n() {
        bar_pair(start, labels, keys, key, u, v, barred);
    }
}

/// Adds the weight of u and v to the sum of the label of v, where v is outside the set.
fn add_pair(
    pairs: &PairTable,
    labels: &[u32],
    keys: &[u32],
    key: u32,
    u: u32,
    v: u32,
    sums: &mut Vec<i128>,
)
    requires labels { length labels.now ≡ pairs.now.n }
    requires keys { length keys.now ≡ pairs.now.n }
    requires small { pairs.now.n ≤ 1000 }
    requires first { u < pairs.now.n }
    requires second { v < pairs.now.n }
    requires within { LabelsFit (length sums.old.items) labels.now }
    requires room { IsRoomy (1000 * u + v) sums.old.items }
    ensures room { IsRoomy (1000 * u + (v + 1)) sums.new.items }
    ensures grown { HasGrown (λ c. beyond (weight_of pairs.now) (slice_index keys.now) key (slice_index labels.now) c u v) sums.old.items sums.new.items }
{
    if keys[v as usize] == key {
        return;
    }
    let c = labels[v as usize] as usize;
    let weight = pairs.get(Vertex(u), Vertex(v));
    let sum = sums[c] + weight;
    sums[c] = sum;
}

/// Bars the label of v, where v is outside the set and apart from u.
fn bar_pair(
    start: &Start,
    labels: &[u32],
    keys: &[u32],
    key: u32,
    u: u32,
    v: u32,
    barred: &mut Vec<bool>,
)
    requires closed { IsClosed start.now }
    requires labels { length labels.now ≡ length start.now.group }
    requires keys { length keys.now ≡ length start.now.group }
    requires whole { KeepsGroups start.now (slice_index keys.now) }
    requires first { u < length start.now.group }
    requires second { v < length start.now.group }
    requires inside { slice_index keys.now u ≡ key }
    requires permitted { IsPermitted start.now (slice_index labels.now) }
    requires within { LabelsFit (length barred.old.items) labels.now }
    ensures { Bars start.now (slice_index keys.now) key (slice_index labels.now) (λ x z. (x ≡ u) × (z ≡ v)) barred.old.items barred.new.items }
{
    if keys[v as usize] == key {
        return;
    }
    if start.apart(Vertex(u), Vertex(v)) {
        let c = labels[v as usize] as usize;
        barred[c] = true;
    }
}

/// The best label that isn't barred, or `own` where none is better than that; at a tie the least.
pub(crate) fn best_label(sums: &[i128], barred: &[bool], own: usize) -> usize
    requires size { length barred.now ≡ length sums.now }
    requires own { own < length sums.now }
    ensures chosen { IsBestCell sums.now barred.now own result }
    ensures greatest { slice_index_or barred.now own false ≡ false → IsGreatestCell sums.now barred.now result }
{
    let mut best = own;
    for c in 0..sums.len() {
        if !barred[c] && sums[best] < sums[c] {
            best = c;
        }
    }
    best
}

/// The first label that isn't barred and better than `own`, or `own` where there is none.
pub(crate) fn first_label(sums: &[i128], barred: &[bool], own: usize) -> usize
    requires size { length barred.now ≡ length sums.now }
    requires own { own < length sums.now }
    ensures chosen { IsBestCell sums.now barred.now own result }
    ensures first { IsFirstBetter sums.now barred.now own result }
{
    for c in 0..sums.len() {
        if is_better(sums, barred, own, c) {
            return c;
        }
    }
    own
}

/// Whether a label isn't barred and better than `own`.
fn is_better(sums: &[i128], barred: &[bool], own: usize, c: usize) -> bool
    requires size { length barred.now ≡ length sums.now }
    requires own { own < length sums.now }
    requires within { c < length sums.now }
    ensures { IsTrue result ↔ ((slice_index_or barred.now c false ≡ false) × (slice_index_or sums.now own (pos 0) <ℤ slice_index_or sums.now c (pos 0))) }
{
    !barred[c] && sums[own] < sums[c]
}
