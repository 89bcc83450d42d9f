//! The pair of groups on which a node would be split: of the free pairs the heaviest one, so that both decisions change the bound
//! most. One walk over the pairs of groups finds it, and no list of them is made.
ghost use Rattle.std.specs.Prelude.{◌≡◌, ◌≢◌, [], ◌∷◌, Contains, IfOk, IfSome, Some};
ghost use Rattle.clu_state.specs.State.{State, AreLater, leader, free_pairs, free_with};
ghost use Rattle.clu_node.specs.Node.{HasPair, IsHeaviest, size_of};
ghost use Rattle.clu_node.specs.Heavier.{IsSized, heavier, heaviest_of};

use clu_partition::Vertex;
use clu_state::Situation;
use std::alloc::{AllocError, Global};

/// Of the state's free pairs the one of greatest absolute weight between its groups, ties by the
/// least pair. The only error is want of memory.
pub(crate) fn heaviest<S: Situation>(
    alloc: Global,
    state: &S,
) -> Result<Option<(Vertex, Vertex)>, AllocError>
    ensures pair { IfOk result (HasPair (S.state state.now)) }
    ensures heaviest { IfOk result (λ pair. IfSome pair (IsHeaviest (S.state state.now))) }
    ensures none { IfOk result (λ pair. pair ≡ None → free_pairs (S.state state.now) ≡ []) }
{
    let leaders = state.leaders(alloc)?;
    let groups = leaders.as_slice();
    let mut candidate = Candidate {
        pair: None,
        size: 0,
    };
    for i in 0..groups.len() {
        candidate.visit_with(state, groups[i], &groups[i + 1..]);
    }
    Ok(candidate.pair)
}

/// The heaviest one of the free pairs visited so far, and how far its weight is from 0.
#[derive(Drop)]
struct Candidate {
    pair: Option<(Vertex, Vertex)>,
    size: u128,
}

impl Candidate {
    /// Visits the pairs of a group with later ones.
    fn visit_with<S: Situation>(&mut self, state: &S, a: Vertex, later: &[Vertex])
        requires later { AreLater (S.state state.now) a later.now }
        requires sized { IsSized (S.state state.now) self.old.pair self.old.size }
        ensures sized { IsSized (S.state state.now) self.new.pair self.new.size }
        ensures pair { self.new.pair ≡ heaviest_of (S.state state.now) self.old.pair
            (free_with (S.state state.now) a later.now) }
    {
        for b in later {
            self.visit(state, a, *b);
        }
    }

    /// Takes the pair of two groups where it is free and heavier.
    fn visit<S: Situation>(&mut self, state: &S, a: Vertex, b: Vertex)
        requires first { Contains (S.state state.now).members a }
        requires second { Contains (S.state state.now).members b }
        requires differ { leader (S.state state.now) a ≢ leader (S.state state.now) b }
        requires sized { IsSized (S.state state.now) self.old.pair self.old.size }
        ensures sized { IsSized (S.state state.now) self.new.pair self.new.size }
        ensures pair { self.new.pair ≡ heaviest_of (S.state state.now) self.old.pair
            (free_with (S.state state.now) a (b ∷ [])) }
    {
        if state.is_apart(a, b) {
            return;
        }
        let size = state.weight(a, b).unsigned_abs();
        self.offer((a, b), size);
    }

    /// Takes the pair where it is the first one or weighs more in size.
    fn offer(&mut self, pair: (Vertex, Vertex), size: u128)
        ensures { (s : State) → size ≡ size_of s pair → IsSized s self.old.pair self.old.size
            → IsSized s self.new.pair self.new.size × (self.new.pair ≡ Some (heavier s self.old.pair pair)) }
    {
        if self.pair.is_none() || size > self.size {
            self.pair = Some(pair);
            self.size = size;
        }
    }
}
