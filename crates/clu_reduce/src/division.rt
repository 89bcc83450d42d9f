//! The parts that free pairs of positive weight connect, the components of cluster editing: no best
//! partition needs a block across two of them, as splitting it there loses no weight. Labels are
//! merged pair by pair, each pair of groups once, so no loop runs to a fixed point.
ghost use Rattle.std.specs.Prelude.{◌≡◌, ◌≢◌, ◌<◌, ◌==◌, ◌↔◌, ℕ, All, Contains, IfOk, OnOk, IsTrue, [], ◌∷◌, ◌++◌, EachIndex, length, slice_index, filter, if◌then◌else◌};
ghost use Rattle.clu_partition.specs.Groups.{group_members};
ghost use Rattle.clu_state.specs.State.{State, IsState, IsFree, leader, group_leaders, merged};
ghost use Rattle.clu_reduce.specs.Components.{Attract, AreLabels, AreStable, StayTogether};
ghost use Rattle.clu_reduce.specs.Parts.{AreParts};

use clu_partition::{Seq, Vertex};
use clu_state::Situation;
use std::alloc::{AllocError, Global};

/// A division of the members into parts. No free pair of positive weight leaves a part, such pairs
/// connect each part, and the parts stand in the order of their least vertices.
pub fn parts<S: Situation>(alloc: Global, state: &S) -> Result<Seq<Seq<Vertex>>, AllocError>
    ensures { IfOk result (λ parts. AreParts (S.state state.now) parts) }
{
    let labels = labels_of(alloc, state)?;
    let mut parts = Seq::new(alloc);
    for v in state.members() {
        push_part(alloc, &mut parts, state.members(), &labels, *v)?;
    }
    Ok(parts)
}

/// Appends the part of v where v is its least vertex.
fn push_part(
    alloc: Global,
    parts: &mut Seq<Seq<Vertex>>,
    members: &[Vertex],
    labels: &[Vertex],
    v: Vertex,
) -> Result<(), AllocError>
    requires labels { All (λ u. u < length labels.now) members.now }
    requires member { v < length labels.now }
    ensures { OnOk result (parts.new ≡ (if slice_index labels.now v == v
        then parts.old ++ group_members (slice_index labels.now) members.now v ∷ [] else parts.old)) }
{
    if labels[v.0 as usize] != v {
        return Ok(());
    }
    let part = part_of(alloc, members, labels, v)?;
    parts.push(part)?;
    Ok(())
}

/// The members with this label.
fn part_of(
    alloc: Global,
    members: &[Vertex],
    labels: &[Vertex],
    label: Vertex,
) -> Result<Seq<Vertex>, AllocError>
    requires { All (λ v. v < length labels.now) members.now }
    ensures { IfOk result (λ part. part ≡ filter (λ v. slice_index labels.now v == label) members.now) }
{
    let mut part = Seq::new(alloc);
    for v in members {
        if labels[v.0 as usize] == label {
            part.push(*v)?;
        }
    }
    Ok(part)
}

/// The least vertex of each member's part.
fn labels_of<S: Situation>(alloc: Global, state: &S) -> Result<Vec<Vertex>, AllocError>
    ensures size { IfOk result (λ labels. All (λ v. v < length labels.items) (S.state state.now).members) }
    ensures labels { IfOk result (λ labels. AreLabels (S.state state.now) (slice_index labels.items)) }
    ensures stable { IfOk result (λ labels. AreStable (S.state state.now) (slice_index labels.items)) }
{
    let groups = state.leaders(alloc)?;
    let mut labels = first_labels(alloc, state)?;
    for i in 0..groups.len() {
        tie_all(state, &mut labels, groups.as_slice(), i);
    }
    Ok(labels)
}

/// The least vertex of each member's group.
fn first_labels<S: Situation>(alloc: Global, state: &S) -> Result<Vec<Vertex>, AllocError>
    ensures size { IfOk result (λ labels. All (λ v. v < length labels.items) (S.state state.now).members) }
    ensures labels { IfOk result (λ labels. AreLabels (S.state state.now) (slice_index labels.items)) }
{
    let members = state.members();
    let Some(last) = members.last() else {
        return Ok(Vec::new(alloc));
    };
    let mut labels = vec![in alloc; Vertex(0); last.0 as usize + 1]?;
    for v in members {
        labels[v.0 as usize] = state.group_of(*v);
    }
    Ok(labels)
}

/// Gives the group at i and each later one that it is near to one label.
fn tie_all<S: Situation>(state: &S, labels: &mut Vec<Vertex>, groups: &[Vertex], i: usize)
    requires size { All (λ v. v < length labels.old.items) (S.state state.now).members }
    requires labels { AreLabels (S.state state.now) (slice_index labels.old.items) }
    requires groups { All (Contains (S.state state.now).members) groups.now }
    requires at { i < length groups.now }
    ensures size { length labels.new.items ≡ length labels.old.items }
    ensures labels { AreLabels (S.state state.now) (slice_index labels.new.items) }
    ensures kept { StayTogether (S.state state.now) (slice_index labels.old.items) (slice_index labels.new.items) }
    ensures tied { (q : ℕ) → i < q → q < length groups.now
        → Attract (S.state state.now) (slice_index groups.now i) (slice_index groups.now q)
        → slice_index labels.new.items (slice_index groups.now i) ≡ slice_index labels.new.items (slice_index groups.now q) }
{
    for j in i + 1..groups.len() {
        tie(state, labels, groups[i], groups[j]);
    }
}

/// Gives two groups one label where they are near.
fn tie<S: Situation>(state: &S, labels: &mut Vec<Vertex>, a: Vertex, b: Vertex)
    requires size { All (λ v. v < length labels.old.items) (S.state state.now).members }
    requires labels { AreLabels (S.state state.now) (slice_index labels.old.items) }
    requires first { Contains (S.state state.now).members a }
    requires second { Contains (S.state state.now).members b }
    ensures size { length labels.new.items ≡ length labels.old.items }
    ensures labels { AreLabels (S.state state.now) (slice_index labels.new.items) }
    ensures kept { StayTogether (S.state state.now) (slice_index labels.old.items) (slice_index labels.new.items) }
    ensures tied { Attract (S.state state.now) a b
        → slice_index labels.new.items a ≡ slice_index labels.new.items b }
{
    if is_near(state, a, b) {
        join(labels, a, b);
    }
}

/// Whether the two are of free groups with a weight above 0.
fn is_near<S: Situation>(state: &S, a: Vertex, b: Vertex) -> bool
    ensures { IsTrue result ↔ Attract (S.state state.now) a b }
{
    if !state.is_free(a, b) {
        return false;
    }
    state.weight(a, b) > 0
}

/// Gives those with either of the two labels the smaller one.
fn join(labels: &mut Vec<Vertex>, a: Vertex, b: Vertex)
    requires first { a < length labels.old.items }
    requires second { b < length labels.old.items }
    ensures size { length labels.new.items ≡ length labels.old.items }
    ensures merged { EachIndex labels.old.items (λ x. slice_index labels.new.items x ≡ merged (slice_index labels.old.items) a b x) }
{
    let first = labels[a.0 as usize];
    let second = labels[b.0 as usize];
    if first == second {
        return;
    }
    let low = first.min(second);
    let high = first.max(second);
    for i in 0..labels.len() {
        take_over(labels, i, low, high);
    }
}

/// The label `low` in the place of `high`.
fn take_over(labels: &mut Vec<Vertex>, i: usize, low: Vertex, high: Vertex)
    requires { i < length labels.old.items }
    ensures size { length labels.new.items ≡ length labels.old.items }
    ensures here { slice_index labels.new.items i ≡ (if slice_index labels.old.items i == high then low
        else slice_index labels.old.items i) }
    ensures others { (x : ℕ) → x ≢ i → slice_index labels.new.items x ≡ slice_index labels.old.items x }
{
    if labels[i] == high {
        labels[i] = low;
    }
}
