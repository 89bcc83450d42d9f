//! The tables of a state without decisions: the weight of each two vertices goes to the places of their groups. Linear
//! in the vertices, the forbidden pairs and the pairs of members, and no cell can pass 2^88, since the weights of all
//! pairs together don't.

ghost use Rattle.std.specs.Prelude.{◌≡◌, ◌≢◌, ◌↔◌, ◌<◌, ◌≤◌, ◌^◌, ℕ, pos, ◌≤ℤ◌, All, Contains, IsTrue, IfOk, length, slice_index};
ghost use Rattle.clu_partition.specs.Closed.{joins};
ghost use Rattle.clu_partition.specs.Pairs.{are_pair, weight_of};
ghost use Rattle.clu_partition.specs.Sums.{total, pair_total};
ghost use Rattle.clu_state.specs.Building.{home as home_of, HasHome, HasRoom, ArePlaces, GrownBy, MarkedBy, weight_between, weight_within, size_between};

use crate::Rebuilt;
use crate::copy::copied;
use clu_partition::{PairSet, PairTable, Place, Start, Vertex};
use std::alloc::{AllocError, Global};

impl<'p> Rebuilt<'p> {
    ghost use Rattle.clu_partition.specs.Pairs.{total_of};
    ghost use Rattle.clu_state.specs.State.{AreMembers, undecided};

    /// The state of these members without decisions. It has the weights of `pairs`, whose absolute
    /// values add up to at most 2^88, and the groups and the forbidden pairs of `start`. It is built
    /// in time linear in the vertices, the forbidden pairs and the pairs of members.
    pub fn new(
        alloc: Global,
        pairs: &'p PairTable,
        start: &'p Start,
        members: &[Vertex],
    ) -> Result<Rebuilt<'p>, AllocError>
        requires one_size { pairs.now.n ≡ length start.now.group }
        requires total { total_of pairs.now ≤ℤ pos (2 ^ 88) }
        requires members { AreMembers start.now members.now }
        ensures { IfOk result (λ r. r ≡ undecided pairs.now start.now members.now) }
    {
        let group = groups(alloc, start)?;
        let place = places(alloc, start.n(), members)?;
        let count = members.len() as u32;
        let mut weights = PairTable::new(alloc, count)?;
        let fixed = add_all(pairs, &group, &place, &mut weights, members);
        let mut apart = PairSet::new(alloc, count)?;
        mark_pairs(start.forbidden(), members, &place, &mut apart);
        Ok(Rebuilt {
            pairs,
            start,
            members: copied(alloc, members)?,
            decisions: Vec::new(alloc),
            group,
            place,
            weights,
            apart,
            fixed,
        })
    }
}

/// The least vertex of each vertex's group.
fn groups(alloc: Global, start: &Start) -> Result<Vec<Vertex>, AllocError>
    ensures { IfOk result (λ list. list.items ≡ start.now.group) }
{
    let n = start.n();
    let mut list = Vec::with_capacity(alloc, n as usize)?;
    for v in 0..n {
        list.push(start.group(Vertex(v)))?;
    }
    Ok(list)
}

/// The place of each member, by its number; 0 for each other one of n vertices.
fn places(alloc: Global, n: u32, members: &[Vertex]) -> Result<Vec<Place>, AllocError>
    requires rising { (i j : ℕ) → i < j → j < length members.now
        → slice_index members.now i < slice_index members.now j }
    requires below { All (λ v. v < n) members.now }
    requires few { length members.now ≤ 1000 }
    ensures size { IfOk result (λ list. length list.items ≡ n) }
    ensures places { IfOk result (λ list. ArePlaces members.now list.items) }
{
    let mut list = vec![in alloc; Place(0); n as usize]?;
    for (i, v) in members.iter().enumerate() {
        list[v.0 as usize] = Place(i);
    }
    Ok(list)
}

/// The place of a member.
pub(crate) fn place_of(place: &[Place], v: Vertex) -> Place
    requires { v < length place.now }
    ensures { result ≡ slice_index place.now v }
{
    place[v.0 as usize]
}

/// The place of the least vertex of the group of v.
pub(crate) fn home(group: &[Vertex], place: &[Place], v: Vertex) -> Place
    requires group { v < length group.now }
    requires place { slice_index group.now v < length place.now }
    ensures { result ≡ home_of group.now place.now v }
{
    place_of(place, group[v.0 as usize])
}

/// Adds the weight of u and v to that of the places of their groups. Where these are one, it is the
/// answer, which is 0 elsewhere.
fn add_pair(
    pairs: &PairTable,
    group: &[Vertex],
    place: &[Place],
    weights: &mut PairTable,
    u: Vertex,
    v: Vertex,
) -> i128
    requires first { HasHome pairs.now.n weights.old.n group.now place.now u }
    requires second { HasHome pairs.now.n weights.old.n group.now place.now v }
    requires room { HasRoom weights.old (size_between pairs.now u v) }
    ensures size { weights.new.n ≡ weights.old.n }
    ensures sums { GrownBy (λ x z.
        weight_between (weight_of pairs.now) (home_of group.now place.now) x z u v) weights.old weights.new }
    ensures inside { result ≡ weight_within (weight_of pairs.now) (home_of group.now place.now) u v }
{
    let weight = pairs.get(u, v);
    let p = home(group, place, u);
    let q = home(group, place, v);
    if p == q {
        return weight;
    }
    let sum = weights.at(p, q) + weight;
    weights.set_at(p, q, sum);
    0
}

/// Adds the weights of u with each of the others, and answers with the sum of those inside groups.
fn add_with(
    pairs: &PairTable,
    group: &[Vertex],
    place: &[Place],
    weights: &mut PairTable,
    u: Vertex,
    others: &[Vertex],
) -> i128
    requires first { HasHome pairs.now.n weights.old.n group.now place.now u }
    requires others { All (HasHome pairs.now.n weights.old.n group.now place.now) others.now }
    requires room { HasRoom weights.old (total (size_between pairs.now u) others.now) }
    requires small { total (size_between pairs.now u) others.now ≤ℤ pos (2 ^ 88) }
    ensures size { weights.new.n ≡ weights.old.n }
    ensures sums { GrownBy (λ x z.
        total (weight_between (weight_of pairs.now)
        (home_of group.now place.now) x z u) others.now) weights.old weights.new }
    ensures inside { result ≡ total (weight_within (weight_of pairs.now)
        (home_of group.now place.now) u) others.now }
{
    let mut sum = 0;
    for v in others {
        sum += add_pair(pairs, group, place, weights, u, *v);
    }
    sum
}

/// Adds the weights of the members to those of the places of their groups, and answers with the sum
/// of those inside groups.
fn add_all(
    pairs: &PairTable,
    group: &[Vertex],
    place: &[Place],
    weights: &mut PairTable,
    members: &[Vertex],
) -> i128
    requires members { All (HasHome pairs.now.n weights.old.n group.now place.now) members.now }
    requires room { HasRoom weights.old (pair_total (size_between pairs.now) members.now) }
    requires small { pair_total (size_between pairs.now) members.now ≤ℤ pos (2 ^ 88) }
    ensures size { weights.new.n ≡ weights.old.n }
    ensures sums { GrownBy (λ x z.
        pair_total (weight_between (weight_of pairs.now)
        (home_of group.now place.now) x z) members.now) weights.old weights.new }
    ensures inside { result ≡ pair_total (weight_within (weight_of pairs.now)
        (home_of group.now place.now)) members.now }
{
    let mut sum = 0;
    for (i, u) in members.iter().enumerate() {
        sum += add_with(pairs, group, place, weights, *u, &members[i + 1..]);
    }
    sum
}

/// Whether v is the member that stands at its place.
pub(crate) fn is_member(members: &[Vertex], place: &[Place], v: Vertex) -> bool
    requires place { v < length place.now }
    requires places { ArePlaces members.now place.now }
    ensures { IsTrue result ↔ Contains members.now v }
{
    let i = place_of(place, v).0;
    i < members.len() && members[i] == v
}

/// Marks the places of u and v, where both are members.
fn mark_pair(members: &[Vertex], place: &[Place], marks: &mut PairSet, u: Vertex, v: Vertex)
    requires first { u < length place.now }
    requires second { v < length place.now }
    requires places { ArePlaces members.now place.now }
    requires size { marks.old.n ≡ length members.now }
    ensures size { marks.new.n ≡ marks.old.n }
    ensures marked { MarkedBy (are_pair u v) members.now marks.old marks.new }
{
    if !is_member(members, place, u) || !is_member(members, place, v) {
        return;
    }
    marks.put_at(place_of(place, u), place_of(place, v));
}

/// Marks the places of the two members of each of the pairs that have two.
fn mark_pairs(pairs: &[(Vertex, Vertex)], members: &[Vertex], place: &[Place], marks: &mut PairSet)
    requires pairs { All (λ p. (p.0 < length place.now) × (p.1 < length place.now)) pairs.now }
    requires places { ArePlaces members.now place.now }
    requires size { marks.old.n ≡ length members.now }
    ensures size { marks.new.n ≡ marks.old.n }
    ensures marked { MarkedBy (joins (λ v. v) pairs.now) members.now marks.old marks.new }
{
    for pair in pairs {
        let (u, v) = *pair;
        mark_pair(members, place, marks, u, v);
    }
}
