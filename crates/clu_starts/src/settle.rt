//! Polishing a partition by moves of groups, and by joins of blocks where no move helps, until neither does (local
//! search as Kernighan and Lin 1970, Blondel and others 2008). It ends since each step is worth more and no partition
//! passes the total weight.

ghost use Rattle.std.specs.Prelude.{◌≡◌, ◌≢◌, ◌<◌, ◌≤◌, ◌≤ℤ◌, ℕ, true, false, IfOk, MatchOption, length, slice_index};
ghost use Rattle.clu_partition.specs.Closed.{IsClosed, IsPermitted};
ghost use Rattle.clu_partition.specs.Partition.{block_count_of};
ghost use Rattle.clu_starts.specs.Row.{KeepsGroups};
ghost use Rattle.clu_starts.specs.Settled.{whole_value, IsSettled, IsAtRest, IsImprovement, IsStarted, MovesRest, JoinsRest, IsWalked};

use crate::step::{join_block, move_set};
use clu_partition::{PairTable, Partition, Start, Vertex};
use std::alloc::{AllocError, Global};

/// A partition that is permitted, settled and worth no less: no group of the rules gains by going to
/// another block or into one of its own, and no two blocks gain by joining. The groups are walked by
/// rising least vertex, each goes to where it gains most, and where a whole walk moves nothing the
/// first two blocks that gain are joined. Fails for want of memory alone.
pub fn polish(
    alloc: Global,
    pairs: &PairTable,
    start: &Start,
    p: Partition,
) -> Result<Partition, AllocError>
    requires one_size { pairs.now.n ≡ length start.now.group }
    requires one_each { length p ≡ pairs.now.n }
    requires permitted { IsPermitted start.now (slice_index p) }
    ensures size { IfOk result (λ q. length q ≡ pairs.now.n) }
    ensures settled { IfOk result (λ q. IsSettled pairs.now start.now (slice_index q)) }
    ensures no_less { IfOk result (λ q. whole_value pairs.now (slice_index p) ≤ℤ whole_value pairs.now (slice_index q)) }
{
    // For the prover: the rules are closed.
    let _n = start.n();
    let keys = group_keys(alloc, start)?;
    let mut now = p;
    loop {
        let walked = round(alloc, pairs, start, &keys, now)?;
        now = walked.p;
        if !walked.moved {
            return Ok(now);
        }
    }
}

/// A walk, and where it moves nothing a join.
fn round(
    alloc: Global,
    pairs: &PairTable,
    start: &Start,
    keys: &[u32],
    p: Partition,
) -> Result<Walked, AllocError>
    requires started { IsStarted pairs.now start.now p }
    requires keys { keys.now ≡ start.now.group }
    ensures { IfOk result (λ w. IsWalked pairs.now start.now (IsSettled pairs.now start.now) p w.p w.moved) }
{
    let walked = walk(alloc, pairs, start, keys, p)?;
    if walked.moved {
        return Ok(walked);
    }
    match join(alloc, pairs, start, &walked.p)? {
        Some(q) => Ok(Walked { p: q, moved: true }),
        None => Ok(walked),
    }
}

/// Moves each group in turn to where that gains most.
fn walk(
    alloc: Global,
    pairs: &PairTable,
    start: &Start,
    keys: &[u32],
    p: Partition,
) -> Result<Walked, AllocError>
    requires started { IsStarted pairs.now start.now p }
    requires keys { keys.now ≡ start.now.group }
    ensures { IfOk result (λ w. IsWalked pairs.now start.now (MovesRest pairs.now start.now pairs.now.n) p w.p w.moved) }
{
    let mut now = p;
    let mut moved = false;
    for v in 0..pairs.n() {
        if let Some(q) = move_group(alloc, pairs, start, &now, keys, v)? {
            now = q;
            moved = true;
        }
    }
    Ok(Walked { p: now, moved })
}

/// A better partition in which the group of v has moved; none where v isn't the least of its group,
/// or the group rests.
fn move_group(
    alloc: Global,
    pairs: &PairTable,
    start: &Start,
    p: &Partition,
    keys: &[u32],
    v: u32,
) -> Result<Option<Partition>, AllocError>
    requires started { IsStarted pairs.now start.now p.now }
    requires keys { keys.now ≡ start.now.group }
    requires vertex { v < pairs.now.n }
    ensures { IfOk result (λ found. MatchOption found
        (slice_index start.now.group v ≡ v → IsAtRest pairs.now start.now (slice_index start.now.group) v (slice_index p.now))
        (λ q. IsImprovement pairs.now start.now (slice_index p.now) q)) }
{
    if keys[v as usize] != v {
        return Ok(None);
    }
    let own = p.labels()[v as usize];
    move_set(alloc, pairs, start, p, keys, v, own)
}

/// A better partition in which the first two blocks whose joining gains are one; none where no two
/// gain.
fn join(
    alloc: Global,
    pairs: &PairTable,
    start: &Start,
    p: &Partition,
) -> Result<Option<Partition>, AllocError>
    requires started { IsStarted pairs.now start.now p.now }
    ensures { IfOk result (λ found. MatchOption found
        (JoinsRest pairs.now start.now (block_count_of p.now) (slice_index p.now))
        (λ q. IsImprovement pairs.now start.now (slice_index p.now) q)) }
{
    for block in 0..p.block_count() {
        if let Some(q) = join_block(alloc, pairs, start, p, block)? {
            return Ok(Some(q));
        }
    }
    Ok(None)
}

/// A partition, and whether it is another than the one before.
#[derive(Drop)]
struct Walked {
    p: Partition,
    moved: bool,
}

/// The least vertex of each vertex's group.
fn group_keys(alloc: Global, start: &Start) -> Result<Vec<u32>, AllocError>
    ensures groups { IfOk result (λ keys. keys.items ≡ start.now.group) }
{
    let n = start.n();
    let mut keys = Vec::with_capacity(alloc, n as usize)?;
    for v in 0..n {
        keys.push(start.group(Vertex(v)).0)?;
    }
    Ok(keys)
}
