//! Whether a reduction holds: a weight that outweighs all else at stake decides its pair. Heavy edges and non-edges of
//! Böcker, Briesemeister and Klau (2011), weighted critical cliques of Guo (2009). That apart pairs count for nothing
//! is an own exchange: moving u to the block of v breaks no rule where each apart partner of u is one of v.

ghost use Rattle.std.specs.Prelude.{◌≡◌, ◌≢◌, ◌↔◌, ℕ, ◌≤ℤ◌, Contains, All, IsTrue};
ghost use Rattle.clu_partition.specs.Sums.{total};
ghost use Rattle.clu_state.specs.State.{State, IsState, IsFree, leader, are_apart, group_weight, group_leaders};
ghost use Rattle.clu_reduce.specs.Conditions.{gain, stake, others, AreTwins, AreInseparable, IsHeavy, IsLight};
ghost use Rattle.clu_reduce.specs.Reduction.{Allows, StepHolds};
ghost use Rattle.clu_reduce.specs.Tests.{IsThird, cost_of, cost_at, AreTwinsAt, IsApartToo};

use crate::{Kind, Step};
use clu_partition::Vertex;
use clu_state::Situation;

/// Whether the step holds: its vertices name two free groups, and its kind's condition holds of them.
pub fn holds<S: Situation>(state: &S, step: &Step) -> bool
    ensures { IsTrue result ↔ StepHolds (S.state state.now) step.now }
{
    // For the prover: the state is a valid one.
    let _members = state.members();
    if !state.is_free(step.u, step.v) {
        return false;
    }
    allows(
        state,
        step.kind,
        state.group_of(step.u),
        state.group_of(step.v),
    )
}

/// Whether the kind's condition holds of two free groups, named by their least vertices.
fn allows<S: Situation>(state: &S, kind: Kind, a: Vertex, b: Vertex) -> bool
    requires free { IsFree (S.state state.now) a b }
    requires first_least { leader (S.state state.now) a ≡ a }
    requires second_least { leader (S.state state.now) b ≡ b }
    ensures { IsTrue result ↔ Allows kind (group_weight (S.state state.now))
        (are_apart (S.state state.now)) (group_leaders (S.state state.now)) a b }
{
    match kind {
        Kind::Twin => are_twins(state, a, b),
        Kind::Pair => are_pair(state, a, b),
        Kind::Heavy => are_heavy(state, a, b),
        Kind::Light => are_light(state, a, b),
    }
}

/// Whether they are twins.
fn are_twins<S: Situation>(state: &S, a: Vertex, b: Vertex) -> bool
    requires free { IsFree (S.state state.now) a b }
    requires first_least { leader (S.state state.now) a ≡ a }
    requires second_least { leader (S.state state.now) b ≡ b }
    ensures { IsTrue result ↔ AreTwins (group_weight (S.state state.now))
        (are_apart (S.state state.now)) (group_leaders (S.state state.now)) a b }
{
    state.weight(a, b) >= 0 && all_alike(state, a, b)
}

/// Whether they are a pair.
fn are_pair<S: Situation>(state: &S, a: Vertex, b: Vertex) -> bool
    requires free { IsFree (S.state state.now) a b }
    requires first_least { leader (S.state state.now) a ≡ a }
    requires second_least { leader (S.state state.now) b ≡ b }
    ensures { IsTrue result ↔ AreInseparable (group_weight (S.state state.now))
        (are_apart (S.state state.now)) (group_leaders (S.state state.now)) a b }
{
    costs_fit(state, Kind::Pair, a, b, state.weight(a, b))
}

/// Whether they are heavy.
fn are_heavy<S: Situation>(state: &S, a: Vertex, b: Vertex) -> bool
    requires free { IsFree (S.state state.now) a b }
    requires first_least { leader (S.state state.now) a ≡ a }
    requires second_least { leader (S.state state.now) b ≡ b }
    ensures { IsTrue result ↔ IsHeavy (group_weight (S.state state.now))
        (are_apart (S.state state.now)) (group_leaders (S.state state.now)) a b }
{
    costs_fit(state, Kind::Heavy, a, b, state.weight(a, b)) && all_follow(state, a, b)
}

/// Whether they are light.
fn are_light<S: Situation>(state: &S, a: Vertex, b: Vertex) -> bool
    requires free { IsFree (S.state state.now) a b }
    requires first_least { leader (S.state state.now) a ≡ a }
    requires second_least { leader (S.state state.now) b ≡ b }
    ensures { IsTrue result ↔ IsLight (group_weight (S.state state.now))
        (are_apart (S.state state.now)) (group_leaders (S.state state.now)) a b }
{
    // For the prover: the state is a valid one.
    let _members = state.members();
    let weight = state.weight(a, b);
    weight < 0 && costs_fit(state, Kind::Light, a, b, -weight)
}

/// Whether the room isn't less than what the kind sets against the weight of a and b at all third
/// groups.
fn costs_fit<S: Situation>(state: &S, kind: Kind, a: Vertex, b: Vertex, room: i128) -> bool
    requires first { Contains (S.state state.now).members a }
    requires second { Contains (S.state state.now).members b }
    requires first_least { leader (S.state state.now) a ≡ a }
    requires second_least { leader (S.state state.now) b ≡ b }
    ensures { IsTrue result ↔ (total (cost_of kind (group_weight (S.state state.now))
        (are_apart (S.state state.now)) a b) (others (group_leaders (S.state state.now)) a b) ≤ℤ room) }
{
    if room < 0 {
        return false;
    }
    let mut left = room;
    for x in state.members() {
        let cost = cost_if_third(state, kind, a, b, *x);
        if cost > left {
            return false;
        }
        left -= cost;
    }
    true
}

/// The same at any member: 0 where it names no third group, or isn't least in its group.
pub(crate) fn cost_if_third<S: Situation>(
    state: &S,
    kind: Kind,
    a: Vertex,
    b: Vertex,
    x: Vertex,
) -> i128
    requires valid { IsState (S.state state.now) }
    requires first { Contains (S.state state.now).members a }
    requires second { Contains (S.state state.now).members b }
    requires first_least { leader (S.state state.now) a ≡ a }
    requires second_least { leader (S.state state.now) b ≡ b }
    requires third { Contains (S.state state.now).members x }
    ensures { result ≡ cost_at (S.state state.now) kind a b x }
{
    if !is_third(state, a, b, x) {
        return 0;
    }
    cost(state, kind, a, b, x)
}

/// What the kind sets against the weight of a and b at a third group.
fn cost<S: Situation>(state: &S, kind: Kind, a: Vertex, b: Vertex, x: Vertex) -> i128
    requires valid { IsState (S.state state.now) }
    requires first { Contains (S.state state.now).members a }
    requires second { Contains (S.state state.now).members b }
    requires third { Contains (S.state state.now).members x }
    requires first_differs { leader (S.state state.now) a ≢ leader (S.state state.now) x }
    requires second_differs { leader (S.state state.now) b ≢ leader (S.state state.now) x }
    ensures { result ≡ cost_of kind (group_weight (S.state state.now)) (are_apart (S.state state.now)) a b x }
{
    match kind {
        Kind::Twin => 0,
        Kind::Pair => gain(state, a, x) + gain(state, b, x),
        Kind::Heavy => stake(state, a, x),
        Kind::Light => gain(state, a, x),
    }
}

/// What a could gain by sharing a block with x.
fn gain<S: Situation>(state: &S, a: Vertex, x: Vertex) -> i128
    requires first { Contains (S.state state.now).members a }
    requires second { Contains (S.state state.now).members x }
    requires differ { leader (S.state state.now) a ≢ leader (S.state state.now) x }
    ensures { result ≡ gain (group_weight (S.state state.now)) (are_apart (S.state state.now)) a x }
{
    if state.is_apart(a, x) {
        0
    } else {
        state.weight(a, x).max(0)
    }
}

/// What is at stake for a with x.
fn stake<S: Situation>(state: &S, a: Vertex, x: Vertex) -> i128
    requires valid { IsState (S.state state.now) }
    requires first { Contains (S.state state.now).members a }
    requires second { Contains (S.state state.now).members x }
    requires differ { leader (S.state state.now) a ≢ leader (S.state state.now) x }
    ensures { result ≡ stake (group_weight (S.state state.now)) (are_apart (S.state state.now)) a x }
{
    if state.is_apart(a, x) {
        0
    } else {
        state.weight(a, x).abs()
    }
}

/// Whether a and b are alike to all third groups.
fn all_alike<S: Situation>(state: &S, a: Vertex, b: Vertex) -> bool
    requires first { Contains (S.state state.now).members a }
    requires second { Contains (S.state state.now).members b }
    requires first_least { leader (S.state state.now) a ≡ a }
    requires second_least { leader (S.state state.now) b ≡ b }
    ensures { IsTrue result ↔ All (λ x. IsThird (S.state state.now) a b x
        → AreTwinsAt (S.state state.now) a b x) (S.state state.now).members }
{
    for x in state.members() {
        if !alike_if_third(state, a, b, *x) {
            return false;
        }
    }
    true
}

/// The same at any member.
fn alike_if_third<S: Situation>(state: &S, a: Vertex, b: Vertex, x: Vertex) -> bool
    requires first { Contains (S.state state.now).members a }
    requires second { Contains (S.state state.now).members b }
    requires first_least { leader (S.state state.now) a ≡ a }
    requires second_least { leader (S.state state.now) b ≡ b }
    requires third { Contains (S.state state.now).members x }
    ensures { IsTrue result ↔ (IsThird (S.state state.now) a b x → AreTwinsAt (S.state state.now) a b x) }
{
    if !is_third(state, a, b, x) {
        return true;
    }
    are_alike(state, a, b, x)
}

/// Whether a and b are alike to x.
fn are_alike<S: Situation>(state: &S, a: Vertex, b: Vertex, x: Vertex) -> bool
    requires first { Contains (S.state state.now).members a }
    requires second { Contains (S.state state.now).members b }
    requires third { Contains (S.state state.now).members x }
    requires first_differs { leader (S.state state.now) a ≢ leader (S.state state.now) x }
    requires second_differs { leader (S.state state.now) b ≢ leader (S.state state.now) x }
    ensures { IsTrue result ↔ AreTwinsAt (S.state state.now) a b x }
{
    let apart = state.is_apart(a, x);
    if apart != state.is_apart(b, x) {
        return false;
    }
    apart || state.weight(a, x) == state.weight(b, x)
}

/// Whether each apart partner of a is one of b.
fn all_follow<S: Situation>(state: &S, a: Vertex, b: Vertex) -> bool
    requires first { Contains (S.state state.now).members a }
    requires second { Contains (S.state state.now).members b }
    requires first_least { leader (S.state state.now) a ≡ a }
    requires second_least { leader (S.state state.now) b ≡ b }
    ensures { IsTrue result ↔ All (λ x. IsThird (S.state state.now) a b x
        → IsApartToo (S.state state.now) a b x) (S.state state.now).members }
{
    for x in state.members() {
        if !follows_if_third(state, a, b, *x) {
            return false;
        }
    }
    true
}

/// The same at any member.
fn follows_if_third<S: Situation>(state: &S, a: Vertex, b: Vertex, x: Vertex) -> bool
    requires first { Contains (S.state state.now).members a }
    requires second { Contains (S.state state.now).members b }
    requires first_least { leader (S.state state.now) a ≡ a }
    requires second_least { leader (S.state state.now) b ≡ b }
    requires third { Contains (S.state state.now).members x }
    ensures { IsTrue result ↔ (IsThird (S.state state.now) a b x → IsApartToo (S.state state.now) a b x) }
{
    if !is_third(state, a, b, x) {
        return true;
    }
    follows(state, a, b, x)
}

/// Whether x is apart from b if it is apart from a.
fn follows<S: Situation>(state: &S, a: Vertex, b: Vertex, x: Vertex) -> bool
    requires first { Contains (S.state state.now).members a }
    requires second { Contains (S.state state.now).members b }
    requires third { Contains (S.state state.now).members x }
    requires first_differs { leader (S.state state.now) a ≢ leader (S.state state.now) x }
    requires second_differs { leader (S.state state.now) b ≢ leader (S.state state.now) x }
    ensures { IsTrue result ↔ IsApartToo (S.state state.now) a b x }
{
    !state.is_apart(a, x) || state.is_apart(b, x)
}

/// Whether x is the least vertex of a third group.
pub(crate) fn is_third<S: Situation>(state: &S, a: Vertex, b: Vertex, x: Vertex) -> bool
    requires { Contains (S.state state.now).members x }
    ensures { IsTrue result ↔ IsThird (S.state state.now) a b x }
{
    x != a && x != b && state.group_of(x) == x
}
