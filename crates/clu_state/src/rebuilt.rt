//! A state that keeps tables of its groups, each at the place of its least vertex. A decision merges two rows or marks
//! one pair, so it is linear in the members, and each question is one look-up (merging of vertices as in Böcker,
//! Briesemeister, Bui and Truss 2009).

ghost use Rattle.std.specs.Prelude.{All, min, max, ◌≡◌, ◌≢◌, ◌↔◌, ◌<◌, ◌≤◌, ◌^◌, ℕ, ℤ, ◌+ℤ◌, Contains, IsTrue, length, if◌then◌else◌, ◌==◌, slice_index, slice_set, unsigned_abs, EachIndex};
ghost use Rattle.clu_partition.specs.Pairs.{Pairs, weight_of, with_weight, IsTable};
ghost use Rattle.clu_state.specs.Rebuilt.{IsGroupPlace, TablesAgree};
ghost use Rattle.clu_state.specs.State.{State, CanDecide, decided};

use crate::build::{home, is_member, place_of};
use crate::{Decision, Situation};
use clu_partition::{PairSet, PairTable, Place, Start, Vertex};
use std::alloc::AllocError;
use std::marker::Model;

/// A situation that keeps tables of its groups. It answers for a group or a pair of groups in
/// constant time, and makes a decision in time linear in the members.
#[derive(Drop)]
pub struct Rebuilt<'p> {
    pub(crate) pairs: &'p PairTable,
    pub(crate) start: &'p Start,
    pub(crate) members: Vec<Vertex>,
    pub(crate) decisions: Vec<Decision>,
    /// The least vertex of each vertex's group.
    pub(crate) group: Vec<Vertex>,
    /// Where each member stands among the members.
    pub(crate) place: Vec<Place>,
    /// The weights between groups, at the places of their least vertices.
    pub(crate) weights: PairTable,
    /// Which groups are apart, at the same places.
    pub(crate) apart: PairSet,
    /// The weight inside the groups.
    pub(crate) fixed: i128,
}

impl<'p> Model for Rebuilt<'p> {
    ghost use Rattle.clu_state.specs.State.{State};
    ghost use Rattle.clu_state.specs.Rebuilt.{TablesAgree};

    ghost Value = { State };

    ghost view = { λ r. record { pairs = r.pairs.now; start = r.start.now; members = r.members.items; decisions = r.decisions.items } };

    ghost invariant = { λ r. TablesAgree (record { pairs = r.pairs.now; start = r.start.now; members = r.members.items; decisions = r.decisions.items }) r.group.items r.place.items r.weights r.apart r.fixed };
}

impl<'p> Situation for Rebuilt<'p> {
    ghost state = { λ s. s };

    fn members(&self) -> &[Vertex] {
        &self.members
    }

    fn has_member(&self, v: Vertex) -> bool {
        if v.0 as usize >= self.place.len() {
            return false;
        }
        is_member(&self.members, &self.place, v)
    }

    fn decisions(&self) -> &[Decision] {
        &self.decisions
    }

    fn group_of(&self, v: Vertex) -> Vertex {
        self.group[v.0 as usize]
    }

    fn weight(&self, u: Vertex, v: Vertex) -> i128 {
        let p = self.place_of_group(u);
        let q = self.place_of_group(v);
        self.weights.at(p, q)
    }

    fn is_apart(&self, u: Vertex, v: Vertex) -> bool {
        let p = self.place_of_group(u);
        let q = self.place_of_group(v);
        self.apart.has_at(p, q)
    }

    fn fixed_value(&self) -> i128 {
        self.fixed
    }

    fn decide(&mut self, d: Decision) -> Result<(), AllocError> {
        match &d {
            Decision::Together(u, v) => {
                let (u, v) = (*u, *v);
                self.decisions.push(Decision::Together(u, v))?;
                let gained = join(
                    &self.members,
                    &self.place,
                    &mut self.group,
                    &mut self.weights,
                    &mut self.apart,
                    u,
                    v,
                );
                self.fixed += gained;
                Ok(())
            }
            Decision::Apart(u, v) => {
                let (u, v) = (*u, *v);
                self.decisions.push(Decision::Apart(u, v))?;
                separate(&self.place, &self.group, &mut self.apart, u, v);
                Ok(())
            }
        }
    }
}

impl<'p> Rebuilt<'p> {
    /// The place of the least vertex of a member's group.
    fn place_of_group(&self, v: Vertex) -> Place
        requires { Contains self.now.members v }
        ensures { IsGroupPlace self.now v result }
    {
        home(&self.group, &self.place, v)
    }
}

/// The smaller one of the least vertices of two groups.
fn lower_leader(group: &[Vertex], u: Vertex, v: Vertex) -> Vertex
    requires first { u < length group.now }
    requires second { v < length group.now }
    ensures { result ≡ min (slice_index group.now u) (slice_index group.now v) }
{
    let (a, b) = (group[u.0 as usize], group[v.0 as usize]);
    a.min(b)
}

/// The larger one of the least vertices of two groups.
fn higher_leader(group: &[Vertex], u: Vertex, v: Vertex) -> Vertex
    requires first { u < length group.now }
    requires second { v < length group.now }
    ensures { result ≡ max (slice_index group.now u) (slice_index group.now v) }
{
    let (a, b) = (group[u.0 as usize], group[v.0 as usize]);
    a.max(b)
}

/// Makes one group of those of `u` and `v`, and answers the weight that was between the two.
fn join(
    members: &[Vertex],
    place: &[Place],
    group: &mut [Vertex],
    weights: &mut PairTable,
    apart: &mut PairSet,
    u: Vertex,
    v: Vertex,
) -> i128
    requires some { (s : State) × (fixed : ℤ) × (s.members ≡ members.now)
        × TablesAgree s group.old place.now weights.old apart.old fixed
        × CanDecide s (Decision.Together u v) }
    ensures { (s : State) (fixed : ℤ) → s.members ≡ members.now
        → TablesAgree s group.old place.now weights.old apart.old fixed → CanDecide s (Decision.Together u v)
        → TablesAgree (decided s (Decision.Together u v)) group.new place.now weights.new apart.new (fixed
        +ℤ result) }
{
    let low = lower_leader(group, u, v);
    let high = higher_leader(group, u, v);
    let p = place_of(place, low);
    let q = place_of(place, high);
    let gained = weights.at(p, q);
    merge_weights(members, group, weights, p, q);
    apart.merge(p, q);
    relabel(members, group, low, high);
    gained
}

/// Marks the groups of `u` and `v` as apart.
fn separate(place: &[Place], group: &[Vertex], apart: &mut PairSet, u: Vertex, v: Vertex)
    requires some { (s : State) × (weights : Pairs) × (fixed : ℤ)
        × TablesAgree s group.now place.now weights apart.old fixed × CanDecide s (Decision.Apart u v) }
    ensures { (s : State) (weights : Pairs) (fixed : ℤ)
        → TablesAgree s group.now place.now weights apart.old fixed → CanDecide s (Decision.Apart u v)
        → TablesAgree (decided s (Decision.Apart u v)) group.now place.now weights apart.new fixed }
{
    let p = home(group, place, u);
    let q = home(group, place, v);
    apart.put_at(p, q);
}

/// The members of the group `high` go over to `low`.
fn relabel(members: &[Vertex], group: &mut [Vertex], low: Vertex, high: Vertex)
    requires below { All (λ v. v < length group.old) members.now }
    requires whole { (v : ℕ) → v < length group.old → slice_index group.old v ≡ high
        → Contains members.now v }
    ensures { EachIndex group.new (λ k. slice_index group.new k
        ≡ (if slice_index group.old k == high then low else slice_index group.old k)) }
{
    for v in members {
        take_over(group, *v, low, high);
    }
}

/// Takes v over to `low` where its group is `high`.
fn take_over(group: &mut [Vertex], v: Vertex, low: Vertex, high: Vertex)
    requires { v < length group.old }
    ensures { group.new ≡ (if slice_index group.old v == high then slice_set group.old v low
        else group.old) }
{
    let i = v.0 as usize;
    if group[i] == high {
        group[i] = low;
    }
}

/// Adds the weight of `high` and x to that of `low` and x.
fn add_weight(weights: &mut PairTable, low: Place, high: Place, x: Place)
    requires low { low < weights.old.n }
    requires high { high < weights.old.n }
    requires x { x < weights.old.n }
    requires differ { low ≢ x }
    requires small { unsigned_abs (weight_of weights.old low x +ℤ weight_of weights.old high x)
        ≤ 2 ^ 88 }
    ensures changed { weights.new ≡ with_weight weights.old low x (weight_of weights.old low x
        +ℤ weight_of weights.old high x) }
    ensures table { IsTable weights.old }
{
    let first = weights.at(low, x);
    let second = weights.at(high, x);
    weights.set_at(low, x, first + second);
}

/// Whether v leads its group and its place is neither of the two.
fn leads_apart(group: &[Vertex], v: Vertex, place: Place, low: Place, high: Place) -> bool
    requires { v < length group.now }
    ensures { IsTrue result ↔ ((slice_index group.now v ≡ v) × ((place ≢ low) × (place ≢ high))) }
{
    group[v.0 as usize] == v && place != low && place != high
}

/// Adds the weights of the place `high` to those of the place `low`, for each member that leads its
/// group.
fn merge_weights(
    members: &[Vertex],
    group: &[Vertex],
    weights: &mut PairTable,
    low: Place,
    high: Place,
)
    requires sizes { weights.old.n ≡ length members.now }
    requires few { length members.now ≤ 1000 }
    requires members { All (λ v. v < length group.now) members.now }
    requires low { low < length members.now }
    requires high { high < length members.now }
    requires differ { low ≢ high }
    requires small { (j : ℕ) → j < length members.now → j ≢ low → j ≢ high
        → slice_index group.now (slice_index members.now j) ≡ slice_index members.now j
        → unsigned_abs (weight_of weights.old low j +ℤ weight_of weights.old high j) ≤ 2 ^ 88 }
    ensures size { weights.new.n ≡ weights.old.n }
    ensures sums { (j : ℕ) → j < length members.now → j ≢ low → j ≢ high
        → slice_index group.now (slice_index members.now j) ≡ slice_index members.now j
        → weight_of weights.new low j ≡ weight_of weights.old low j +ℤ weight_of weights.old high j }
    ensures others { (i j : ℕ) → i < length members.now → j < length members.now → i ≢ low → j ≢ low
        → weight_of weights.new i j ≡ weight_of weights.old i j }
{
    for (j, v) in members.iter().enumerate() {
        let x = Place(j);
        if leads_apart(group, *v, x, low, high) {
            add_weight(weights, low, high, x);
        }
    }
}
