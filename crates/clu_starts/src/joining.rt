//! Joining groups greedily: each time two of greatest positive weight, until none gains (Newman 2004). Fast since each
//! group keeps its best later partner; sound since partners are hints, and a weight is looked at before its groups are
//! joined, and all free pairs before the end.

ghost use Rattle.std.specs.Prelude.{◌≡◌, ◌≢◌, ◌<◌, ◌≤◌, ◌≤ℤ◌, ◌<ℤ◌, ℕ, pos, All, Contains, IfOk, OnOk, MatchOption, OnSome, length, map, slice_index};
ghost use Rattle.clu_state.specs.State.{State, IsFree, IsState, decided, leader};
ghost use Rattle.clu_partition.specs.Partition.{SameBlocks};
ghost use Rattle.clu_state.specs.declared.decision.Decision.TheVariants.{Together};
ghost use Rattle.clu_starts.specs.Joined.{AreHints, Gains, IsFurther, NoneGains};

use clu_partition::{Partition, Vertex};
use clu_state::{Decision, Situation};
use std::alloc::{AllocError, Global};

/// A partition of the members, one label for each: that into the groups once `join_all` has put them
/// together, which it does on the state itself. Fails for want of memory alone; the state may then
/// have some of the decisions.
#[tactic(auto, using(crate::proofs::JoinedLaws::labels_few))]
pub fn greedy<S: Situation>(alloc: Global, state: &mut S) -> Result<Partition, AllocError>
    ensures further { IfOk result (λ _. IsFurther (S.state state.old) (S.state state.new)) }
    ensures joined { IfOk result (λ _. NoneGains (S.state state.new)) }
    ensures blocks { IfOk result (λ p. SameBlocks (map (leader (S.state state.new)) (S.state state.new).members) p) }
{
    join_all(alloc, state)?;
    let labels = state.group_labels(alloc)?;
    Partition::from_labels(alloc, &labels)
}

/// Puts groups together until no free pair of groups has a positive weight, each time two of the
/// greatest weight, at a tie those of the least first vertices. Fails for want of memory alone; the
/// state may then have some of the decisions.
pub fn join_all<S: Situation>(alloc: Global, state: &mut S) -> Result<(), AllocError>
    ensures further { OnOk result (IsFurther (S.state state.old) (S.state state.new)) }
    ensures joined { OnOk result (NoneGains (S.state state.new)) }
{
    let leaders = state.leaders(alloc)?;
    let groups = leaders.as_slice();
    let mut partner = partners(alloc, state, groups)?;
    loop {
        let found = next_pair(alloc, state, groups, &partner)?;
        let Some(pair) = found else {
            return Ok(());
        };
        advance(state, groups, &mut partner, pair.0, pair.1)?;
    }
}

/// Puts the groups of u and v together.
fn advance<S: Situation>(
    state: &mut S,
    groups: &[Vertex],
    partner: &mut Vec<u32>,
    u: Vertex,
    v: Vertex,
) -> Result<(), AllocError>
    requires gains { Gains (S.state state.old) u v }
    requires hints { AreHints (S.state state.old) groups.now partner.old.items }
    ensures state { OnOk result (S.state state.new ≡ decided (S.state state.old) (Together u v)) }
    ensures hints { OnOk result (AreHints (S.state state.new) groups.now partner.new.items) }
{
    state.decide(Decision::Together(u, v))?;
    refresh(state, groups, partner, u, v);
    Ok(())
}

/// Two groups of greatest positive weight; none where no free pair has one.
fn next_pair<S: Situation>(
    alloc: Global,
    state: &S,
    groups: &[Vertex],
    partner: &[u32],
) -> Result<Option<(Vertex, Vertex)>, AllocError>
    requires hints { AreHints (S.state state.now) groups.now partner.now }
    ensures { IfOk result (λ found. MatchOption found (NoneGains (S.state state.now)) (λ p. Gains (S.state state.now) p.0 p.1)) }
{
    match best_pair(state, groups, partner) {
        Some(pair) => Ok(Some(pair)),
        None => any_pair(alloc, state),
    }
}

/// The first vertices of two groups of greatest positive weight, by their best partners. None says
/// nothing: the partners are only a hint.
fn best_pair<S: Situation>(
    state: &S,
    groups: &[Vertex],
    partner: &[u32],
) -> Option<(Vertex, Vertex)>
    requires hints { AreHints (S.state state.now) groups.now partner.now }
    ensures { MatchOption result (Unit {0}) (λ p. Gains (S.state state.now) p.0 p.1) }
{
    let i = best_place(state, groups, partner);
    if i as usize >= groups.len() {
        return None;
    }
    let j = partner[i as usize];
    if gain_at(state, groups, i, j) <= 0 {
        return None;
    }
    Some((groups[i as usize], groups[j as usize]))
}

/// A free pair of positive weight, if there is one.
fn any_pair<S: Situation>(alloc: Global, state: &S) -> Result<Option<(Vertex, Vertex)>, AllocError>
    ensures { IfOk result (λ found. MatchOption found (NoneGains (S.state state.now)) (λ p. Gains (S.state state.now) p.0 p.1)) }
{
    let pairs = state.free_pairs(alloc)?;
    for pair in pairs.as_slice() {
        if state.weight(pair.0, pair.1) > 0 {
            return Ok(Some(*pair));
        }
    }
    Ok(None)
}

/// The place of the group with the greatest positive weight to its partner, at a tie the first.
fn best_place<S: Situation>(state: &S, groups: &[Vertex], partner: &[u32]) -> u32
    requires members { All (Contains (S.state state.now).members) groups.now }
    requires few { length groups.now ≤ 1000 }
    requires size { length partner.now ≡ length groups.now }
    requires within { All (λ j. j < length groups.now) partner.now }
    ensures { result ≤ length groups.now }
{
    let mut best = groups.len() as u32;
    let mut top = 0;
    for i in 0..groups.len() as u32 {
        let w = gain_at(state, groups, i, partner[i as usize]);
        if w > top {
            top = w;
            best = i;
        }
    }
    best
}

/// The partners once the group of v has gone into that of u.
fn refresh<S: Situation>(state: &S, groups: &[Vertex], partner: &mut Vec<u32>, u: Vertex, v: Vertex)
    requires hints { AreHints (S.state state.now) groups.now partner.old.items }
    ensures hints { AreHints (S.state state.now) groups.now partner.new.items }
{
    let low = place_of(groups, u);
    for i in 0..groups.len() as u32 {
        let old = partner[i as usize];
        let new = next_partner(state, groups, i, old, low, v);
        partner[i as usize] = new;
    }
}

/// The partner of the group at place i once the group of v has gone into that of u, which stands
/// at the place low.
fn next_partner<S: Situation>(
    state: &S,
    groups: &[Vertex],
    i: u32,
    old: u32,
    low: u32,
    v: Vertex,
) -> u32
    requires members { All (Contains (S.state state.now).members) groups.now }
    requires few { length groups.now ≤ 1000 }
    requires place { i < length groups.now }
    requires old { old < length groups.now }
    requires low { low < length groups.now }
    ensures { result < length groups.now }
{
    if !leads(state, groups, i) {
        return i;
    }
    if i == low || old == low || groups[old as usize] == v {
        return best_partner(state, groups, i);
    }
    if i > low {
        return old;
    }
    let now = gain_at(state, groups, i, old);
    let new = gain_at(state, groups, i, low);
    if new > now || new == now && new > 0 && low < old {
        low
    } else {
        old
    }
}

/// The place of a vertex; 0 where it isn't there.
fn place_of(groups: &[Vertex], u: Vertex) -> u32
    requires few { length groups.now ≤ 1000 }
    ensures { 0 < length groups.now → result < length groups.now }
{
    for i in 0..groups.len() as u32 {
        if groups[i as usize] == u {
            return i;
        }
    }
    0
}

/// The best partner of each group.
fn partners<S: Situation>(
    alloc: Global,
    state: &S,
    groups: &[Vertex],
) -> Result<Vec<u32>, AllocError>
    requires members { All (Contains (S.state state.now).members) groups.now }
    requires few { length groups.now ≤ 1000 }
    ensures size { IfOk result (λ found. length found.items ≡ length groups.now) }
    ensures within { IfOk result (λ found. All (λ j. j < length groups.now) found.items) }
{
    let mut found = Vec::with_capacity(alloc, groups.len())?;
    for i in 0..groups.len() as u32 {
        found.push(best_partner(state, groups, i))?;
    }
    Ok(found)
}

/// The place of the later group with which that at place i has the greatest positive weight, at a
/// tie the first; i where there is none.
fn best_partner<S: Situation>(state: &S, groups: &[Vertex], i: u32) -> u32
    requires members { All (Contains (S.state state.now).members) groups.now }
    requires place { i < length groups.now }
    requires few { length groups.now ≤ 1000 }
    ensures { result < length groups.now }
{
    let mut best = i;
    let mut top = 0;
    for j in i + 1..groups.len() as u32 {
        if leads(state, groups, j) {
            let w = gain_at(state, groups, i, j);
            if w > top {
                top = w;
                best = j;
            }
        }
    }
    best
}

/// The weight between the groups that the vertices at two places are of.
fn gain_at<S: Situation>(state: &S, groups: &[Vertex], i: u32, j: u32) -> i128
    requires members { All (Contains (S.state state.now).members) groups.now }
    requires first { i < length groups.now }
    requires second { j < length groups.now }
    ensures { pos 0 <ℤ result → Gains (S.state state.now) (slice_index groups.now i) (slice_index groups.now j) }
{
    gain(state, groups[i as usize], groups[j as usize])
}

/// The weight between the groups of two members; 0 where they are one group or apart.
fn gain<S: Situation>(state: &S, u: Vertex, v: Vertex) -> i128
    requires first { Contains (S.state state.now).members u }
    requires second { Contains (S.state state.now).members v }
    ensures { pos 0 <ℤ result → Gains (S.state state.now) u v }
{
    if state.group_of(u) == state.group_of(v) {
        return 0;
    }
    if state.is_apart(u, v) {
        return 0;
    }
    state.weight(u, v)
}

/// Whether the vertex at place i is still the least of its group.
fn leads<S: Situation>(state: &S, groups: &[Vertex], i: u32) -> bool
    requires members { All (Contains (S.state state.now).members) groups.now }
    requires place { i < length groups.now }
{
    let u = groups[i as usize];
    state.group_of(u) == u
}
