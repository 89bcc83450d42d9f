//! What the solver and the checker ask of a state, as a trait, so that neither knows how one keeps its groups. Leaders
//! and free pairs are written here once, over the other answers, and so are proved for every state.

ghost use Rattle.std.specs.Prelude.{◌≡◌, ◌≢◌, ◌↔◌, ◌++◌, All, ℕ, ℤ, Contains, IfOk, IsTrue, OnOk, OnErr, map};
ghost use Rattle.clu_state.specs.Chains.{IsLeastChained};
ghost use Rattle.clu_state.specs.State.{State, AreLater, IsFree, IsState, leader, group_weight, are_apart, fixed_value, free_pairs, free_with, group_leaders, CanDecide, decided};

use crate::Decision;
use clu_partition::{Seq, Vertex};
use std::alloc::{AllocError, Global};

/// What the solver and the checker ask of a state: a pair table, closed rules, members, each group
/// of the rules whole or not at all, and a list of decisions on free pairs of groups.
pub trait Situation {
    /// The table, the rules, the members and the decisions.
    ghost state: { Self → State };

    /// The members, rising.
    fn members(&self) -> &[Vertex]
        ensures value { result.now ≡ (state self.now).members }
        ensures valid { IsState (state self.now) };

    /// Whether v is a member.
    fn has_member(&self, v: Vertex) -> bool
        ensures { IsTrue result ↔ Contains (state self.now).members v };

    /// The decisions in the order in which they were made.
    fn decisions(&self) -> &[Decision]
        ensures { result.now ≡ (state self.now).decisions };

    /// The least vertex of a member's group.
    fn group_of(&self, v: Vertex) -> Vertex
        requires { Contains (state self.now).members v }
        ensures value { result ≡ leader (state self.now) v }
        ensures tied { IsLeastChained (state self.now) v result };

    /// The weight between the groups of two members: the sum over their vertex pairs.
    fn weight(&self, u: Vertex, v: Vertex) -> i128
        requires first { Contains (state self.now).members u }
        requires second { Contains (state self.now).members v }
        requires differ { leader (state self.now) u ≢ leader (state self.now) v }
        ensures { result ≡ group_weight (state self.now) u v };

    /// Whether the rules or a decision keep the groups of two members apart.
    fn is_apart(&self, u: Vertex, v: Vertex) -> bool
        requires first { Contains (state self.now).members u }
        requires second { Contains (state self.now).members v }
        requires differ { leader (state self.now) u ≢ leader (state self.now) v }
        ensures { result ≡ are_apart (state self.now) u v };

    /// The weight inside the groups.
    fn fixed_value(&self) -> i128
        ensures { result ≡ fixed_value (state self.now) };

    /// Makes a decision on a free pair. After an error the state is as it was.
    fn decide(&mut self, d: Decision) -> Result<(), AllocError>
        requires { CanDecide (state self.old) d }
        ensures ok { OnOk result (state self.new ≡ decided (state self.old) d) }
        ensures err { OnErr result (state self.new ≡ state self.old) };

    /// Whether u and v are members of different groups that are not apart.
    final fn is_free(&self, u: Vertex, v: Vertex) -> bool
        ensures { IsTrue result ↔ IsFree (state self.now) u v }
    {
        if !self.has_member(u) || !self.has_member(v) {
            return false;
        }
        if self.group_of(u) == self.group_of(v) {
            return false;
        }
        !self.is_apart(u, v)
    }

    /// The least vertex of each member's group, in the order of the members.
    final fn group_labels(&self, alloc: Global) -> Result<Vec<u32>, AllocError>
        ensures value { IfOk result (λ labels. labels.items
            ≡ map (leader (state self.now)) (state self.now).members) }
        ensures valid { IsState (state self.now) }
    {
        let members = self.members();
        let mut labels = Vec::with_capacity(alloc, members.len())?;
        for v in members {
            labels.push(self.group_of(*v).0)?;
        }
        Ok(labels)
    }

    /// The least vertices of the groups, rising.
    final fn leaders(&self, alloc: Global) -> Result<Seq<Vertex>, AllocError>
        ensures value { IfOk result (λ found. found ≡ group_leaders (state self.now)) }
        ensures valid { IsState (state self.now) }
    {
        let mut found = Seq::new(alloc);
        for v in self.members() {
            if self.group_of(*v) == *v {
                found.push(*v)?;
            }
        }
        Ok(found)
    }

    /// The free pairs of groups by their least vertices, the smaller first, rising.
    final fn free_pairs(&self, alloc: Global) -> Result<Vec<(Vertex, Vertex)>, AllocError>
        ensures value { IfOk result (λ pairs. pairs.items ≡ free_pairs (state self.now)) }
        ensures free { IfOk result (λ pairs. All (λ p. IsFree (state self.now) p.0 p.1) pairs.items) }
    {
        let leaders = self.leaders(alloc)?;
        let groups = leaders.as_slice();
        let mut pairs = Vec::new(alloc);
        for (i, a) in groups.iter().enumerate() {
            push_free(self, &mut pairs, *a, &groups[i + 1..])?;
        }
        Ok(pairs)
    }
}

/// Appends the free pairs of a group with later ones.
fn push_free<S: Situation>(
    state: &S,
    pairs: &mut Vec<(Vertex, Vertex)>,
    a: Vertex,
    later: &[Vertex],
) -> Result<(), AllocError>
    requires { AreLater (S.state state.now) a later.now }
    ensures { OnOk result (pairs.new.items
        ≡ pairs.old.items ++ free_with (S.state state.now) a later.now) }
{
    for b in later {
        if !state.is_apart(a, *b) {
            pairs.push((a, *b))?;
        }
    }
    Ok(())
}
