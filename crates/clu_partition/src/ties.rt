//! Required pairs tie vertices into groups, each named by its least vertex. Sound since a group's name is always tied to
//! each of its vertices; linear in the pairs and quadratic in the vertices, since a group loses its name at most once
//! (disjoint sets by relabelling, the quick-find form).
ghost use Rattle.std.specs.Prelude.{◌≡◌, ◌≢◌, ◌<◌, ◌≤◌, ◌==◌, ℕ, All, if◌then◌else◌, slice_index, slice_set, length, map, IfOk, MatchOption, EachIndex};
ghost use Rattle.clu_partition.specs.Partition.{below};
ghost use Rattle.clu_partition.specs.Ties.{AreBelow};
ghost use Rattle.clu_partition.specs.declared.ties.TieError.TheVariants.{Memory};
ghost use Rattle.clu_partition.specs.Groups.{merged as merged_group};
ghost use Rattle.clu_partition.specs.Tying.{AreTied, led, IsFirstTied};

use crate::Vertex;
use std::alloc::{AllocError, Global};

/// Why lists of pairs have no start.
#[derive(Clone, Copy, Debug, PartialEq, Eq)]
pub enum TieError {
    /// The least forbidden pair that a chain of required pairs ties.
    Contradiction { u: Vertex, v: Vertex },
    /// Want of memory.
    Memory,
}

impl From<AllocError> for TieError {
    ghost from_gives = { λ _ e. e ≡ Memory };

    fn from(_: AllocError) -> Self {
        TieError::Memory
    }
}

/// The least vertex of each vertex's group, where chains of the pairs tie the groups.
pub(crate) fn tie_all(
    alloc: Global,
    n: u32,
    required: &[(Vertex, Vertex)],
) -> Result<Vec<Vertex>, AllocError>
    requires { AreBelow n required.now }
    ensures { IfOk result (λ group. AreTied n required.now (length required.now) group.items) }
{
    let mut group = alone(alloc, n)?;
    for pair in required {
        tie(n, &mut group, pair.0, pair.1);
    }
    Ok(group)
}

/// The first of the pairs whose vertices are in one group.
pub(crate) fn first_tied(group: &[Vertex], pairs: &[(Vertex, Vertex)]) -> Option<(Vertex, Vertex)>
    requires { AreBelow (length group.now) pairs.now }
    ensures { MatchOption result (All (λ p. slice_index group.now p.0 ≢ slice_index group.now p.1) pairs.now)
        (λ p. IsFirstTied group.now pairs.now p) }
{
    for pair in pairs {
        if group[pair.0.0 as usize] == group[pair.1.0 as usize] {
            return Some(*pair);
        }
    }
    None
}

/// Each pair by the least vertices of its groups.
pub(crate) fn lead_all(
    alloc: Global,
    group: &[Vertex],
    pairs: &[(Vertex, Vertex)],
) -> Result<Vec<(Vertex, Vertex)>, AllocError>
    requires { AreBelow (length group.now) pairs.now }
    ensures { IfOk result (λ list. list.items ≡ map (led group.now) pairs.now) }
{
    let mut list = Vec::with_capacity(alloc, pairs.len())?;
    for pair in pairs {
        let first = group[pair.0.0 as usize];
        let second = group[pair.1.0 as usize];
        list.push((first, second))?;
    }
    Ok(list)
}

/// Each of n vertices as the least of its own group.
#[tactic(auto, using(crate::proofs::Ranges::below_more, crate::proofs::Ranges::below_size, crate::proofs::Ranges::below_at))]
pub(crate) fn alone(alloc: Global, n: u32) -> Result<Vec<Vertex>, AllocError>
    ensures list { IfOk result (λ group. group.items ≡ below n) }
    ensures size { IfOk result (λ group. length group.items ≡ n) }
    ensures own { IfOk result (λ group. (v : ℕ) → v < n → slice_index group.items v ≡ v) }
{
    let mut group = Vec::with_capacity(alloc, n as usize)?;
    for v in 0..n {
        group.push(Vertex(v))?;
    }
    Ok(group)
}

/// Takes v over to `low` where its group is `high`.
fn take_over(group: &mut Vec<Vertex>, v: Vertex, low: Vertex, high: Vertex)
    requires { v < length group.old.items }
    ensures { group.new.items ≡ (if slice_index group.old.items v == high
        then slice_set group.old.items v low else group.old.items) }
{
    let i = v.0 as usize;
    if group[i] == high {
        group[i] = low;
    }
}

/// Takes the group of `high` over to `low`.
fn relabel(n: u32, group: &mut Vec<Vertex>, low: Vertex, high: Vertex)
    requires { length group.old.items ≡ n }
    ensures size { length group.new.items ≡ n }
    ensures over { (x : ℕ) → x < n → slice_index group.new.items x
        ≡ (if slice_index group.old.items x == high then low else slice_index group.old.items x) }
{
    for v in 0..n {
        take_over(group, Vertex(v), low, high);
    }
}

/// Makes one group of those of u and v.
fn tie(n: u32, group: &mut Vec<Vertex>, u: Vertex, v: Vertex)
    requires size { length group.old.items ≡ n }
    requires first { u < n }
    requires second { v < n }
    ensures size { length group.new.items ≡ n }
    ensures merged { (x : ℕ) → x < n → slice_index group.new.items x
        ≡ merged_group (slice_index group.old.items) u v x }
{
    let a = group[u.0 as usize];
    let b = group[v.0 as usize];
    if a.0 < b.0 {
        relabel(n, group, a, b);
    } else if b.0 < a.0 {
        relabel(n, group, b, a);
    }
}
