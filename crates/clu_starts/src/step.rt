//! One step of polishing: a set of vertices goes to another block. A join is the move of a whole block, so both are one
//! law: the set goes where its row has the greatest sum, or the first that is better than that of its own block.

ghost use Rattle.std.specs.Prelude.{◌≡◌, ◌≢◌, ◌<◌, ◌≤◌, ◌≤ℤ◌, ◌+ℤ◌, pos, ℕ, false, IfOk, MatchOption, length, slice_index};
ghost use Rattle.clu_partition.specs.Closed.{IsClosed, IsPermitted};
ghost use Rattle.clu_partition.specs.Partition.{SameBlocks, block_count_of};
ghost use Rattle.clu_starts.specs.Row.{KeepsGroups};
ghost use Rattle.clu_starts.specs.Settled.{moved, SameBlocksBelow, IsAtRest, IsBetter, IsImprovement, IsInside};

use crate::row::{Row, best_label, first_label};
use clu_partition::{PairTable, Partition, Start};
use std::alloc::{AllocError, Global};

/// A better partition in which the set has gone to the best other block, or one of its own; none
/// where it rests.
pub(crate) fn move_set(
    alloc: Global,
    pairs: &PairTable,
    start: &Start,
    p: &Partition,
    keys: &[u32],
    key: u32,
    own: u32,
) -> Result<Option<Partition>, AllocError>
    requires one_size { pairs.now.n ≡ length start.now.group }
    requires few { pairs.now.n ≤ 1000 }
    requires closed { IsClosed start.now }
    requires labels { length p.now ≡ pairs.now.n }
    requires keys { length keys.now ≡ pairs.now.n }
    requires whole { KeepsGroups start.now (slice_index keys.now) }
    requires permitted { IsPermitted start.now (slice_index p.now) }
    requires inside { IsInside pairs.now.n (slice_index keys.now) key (slice_index p.now) own }
    requires own { own < block_count_of p.now }
    ensures { IfOk result (λ found. MatchOption found (IsAtRest pairs.now start.now (slice_index keys.now) key (slice_index p.now))
        (λ q. IsImprovement pairs.now start.now (slice_index p.now) q)) }
{
    let row = Row::new(alloc, pairs, start, p, keys, key, own)?;
    let target = best_label(&row.sums, &row.barred, own as usize) as u32;
    if target == own {
        return Ok(None);
    }
    let q = after_move(alloc, p, keys, key, target)?;
    Ok(Some(q))
}

/// A better partition in which the block has joined the first with which that is better; none where
/// it rests.
pub(crate) fn join_block(
    alloc: Global,
    pairs: &PairTable,
    start: &Start,
    p: &Partition,
    block: u32,
) -> Result<Option<Partition>, AllocError>
    requires one_size { pairs.now.n ≡ length start.now.group }
    requires few { pairs.now.n ≤ 1000 }
    requires closed { IsClosed start.now }
    requires labels { length p.now ≡ pairs.now.n }
    requires permitted { IsPermitted start.now (slice_index p.now) }
    requires block { block < block_count_of p.now }
    ensures { IfOk result (λ found. MatchOption found (IsAtRest pairs.now start.now (slice_index p.now) block (slice_index p.now))
        (λ q. IsImprovement pairs.now start.now (slice_index p.now) q)) }
{
    let labels = p.labels();
    let row = Row::new(alloc, pairs, start, p, labels, block, block)?;
    let target = first_label(&row.sums, &row.barred, block as usize) as u32;
    if target == block {
        return Ok(None);
    }
    let q = after_move(alloc, p, labels, block, target)?;
    Ok(Some(q))
}

/// The partition in which the set has gone to the target.
fn after_move(
    alloc: Global,
    p: &Partition,
    keys: &[u32],
    key: u32,
    target: u32,
) -> Result<Partition, AllocError>
    requires size { length keys.now ≡ length p.now }
    requires few { length p.now ≤ 1000 }
    ensures size { IfOk result (λ q. length q ≡ length p.now) }
    ensures alike { IfOk result (λ q. SameBlocksBelow (length p.now) (moved (slice_index keys.now) key target (slice_index p.now)) (slice_index q)) }
{
    let labels = p.labels();
    let mut list: Vec<u32> = Vec::with_capacity(alloc, labels.len())?;
    for v in 0..labels.len() {
        list.push(label_after(labels, keys, key, target, v))?;
    }
    Partition::from_labels(alloc, &list)
}

/// The label of v once the set has gone to the target.
fn label_after(labels: &[u32], keys: &[u32], key: u32, target: u32, v: usize) -> u32
    requires label { v < length labels.now }
    requires key { v < length keys.now }
    ensures { result ≡ moved (slice_index keys.now) key target (slice_index labels.now) v }
{
    if keys[v] == key { target } else { labels[v] }
}
