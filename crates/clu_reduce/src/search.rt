//! The first reduction that is worth taking: by its kind, then by its vertices. Keeping a light pair
//! apart counts only where a third group is drawn to both, since triangles then gain by it.
ghost use Rattle.std.specs.Prelude.{◌≡◌, ◌≢◌, ◌↔◌, ℕ, All, Contains, IsTrue, IfSome, IfNone};
ghost use Rattle.clu_state.specs.State.{IsState, decided, IsFree, leader, are_apart, group_weight, group_leaders};
ghost use Rattle.clu_reduce.specs.Conditions.{IsTorn, IsUseful};
ghost use Rattle.clu_reduce.specs.Reduction.{decision_of, KeepsWorth, Serves, Reduces, IsIrreducible};
ghost use Rattle.clu_reduce.specs.Tests.{IsThird, IsTornBy};
ghost use Rattle.clu_reduce.specs.declared.step.Step.{Step};

use crate::condition::{holds, is_third};
use crate::{Kind, Step};
use clu_partition::Vertex;
use clu_state::Situation;

/// The first step that holds and is useful if light: by its kind, then by its vertices.
pub fn find<S: Situation>(state: &S) -> Option<Step>
    ensures found { IfSome result (Reduces (S.state state.now)) }
    ensures keeps { IfSome result (λ step. KeepsWorth (S.state state.now)
        (decided (S.state state.now) (decision_of step))) }
    ensures none { IfNone result (IsIrreducible (S.state state.now)) }
{
    if let Some(step) = find_kind(state, Kind::Twin) {
        return Some(step);
    }
    if let Some(step) = find_kind(state, Kind::Pair) {
        return Some(step);
    }
    if let Some(step) = find_kind(state, Kind::Heavy) {
        return Some(step);
    }
    find_kind(state, Kind::Light)
}

/// The first such step of this kind.
fn find_kind<S: Situation>(state: &S, kind: Kind) -> Option<Step>
    ensures found { IfSome result (Reduces (S.state state.now)) }
    ensures keeps { IfSome result (λ step. KeepsWorth (S.state state.now)
        (decided (S.state state.now) (decision_of step))) }
    ensures none { IfNone result ((u v : ℕ) → Contains (S.state state.now).members u
        → Contains (S.state state.now).members v
        → Reduces (S.state state.now) (record { kind = kind; u = u; v = v }) → ⊥) }
{
    for u in state.members() {
        if let Some(step) = find_with(state, kind, *u) {
            return Some(step);
        }
    }
    None
}

/// The first such step of this kind on u.
fn find_with<S: Situation>(state: &S, kind: Kind, u: Vertex) -> Option<Step>
    ensures found { IfSome result (Reduces (S.state state.now)) }
    ensures keeps { IfSome result (λ step. KeepsWorth (S.state state.now)
        (decided (S.state state.now) (decision_of step))) }
    ensures none { IfNone result ((v : ℕ) → Contains (S.state state.now).members v
        → Reduces (S.state state.now) (record { kind = kind; u = u; v = v }) → ⊥) }
{
    for v in state.members() {
        let step = Step { kind, u, v: *v };
        if reduces(state, &step) {
            return Some(step);
        }
    }
    None
}

/// Whether the step holds, and is useful if light.
pub(crate) fn reduces<S: Situation>(state: &S, step: &Step) -> bool
    ensures { IsTrue result ↔ Reduces (S.state state.now) step.now }
{
    // For the prover: the state is a valid one.
    let _members = state.members();
    if !holds(state, step) {
        return false;
    }
    serves(
        state,
        step.kind,
        state.group_of(step.u),
        state.group_of(step.v),
    )
}

/// Whether a step of this kind on a and b is worth taking.
fn serves<S: Situation>(state: &S, kind: Kind, a: Vertex, b: Vertex) -> bool
    requires first { Contains (S.state state.now).members a }
    requires second { Contains (S.state state.now).members b }
    requires first_least { leader (S.state state.now) a ≡ a }
    requires second_least { leader (S.state state.now) b ≡ b }
    ensures { IsTrue result ↔ Serves kind (group_weight (S.state state.now))
        (are_apart (S.state state.now)) (group_leaders (S.state state.now)) a b }
{
    match kind {
        Kind::Twin | Kind::Pair | Kind::Heavy => true,
        Kind::Light => is_useful(state, a, b),
    }
}

/// Whether a third group is torn between a and b.
fn is_useful<S: Situation>(state: &S, a: Vertex, b: Vertex) -> bool
    requires first { Contains (S.state state.now).members a }
    requires second { Contains (S.state state.now).members b }
    requires first_least { leader (S.state state.now) a ≡ a }
    requires second_least { leader (S.state state.now) b ≡ b }
    ensures { IsTrue result ↔ IsUseful (group_weight (S.state state.now))
        (are_apart (S.state state.now)) (group_leaders (S.state state.now)) a b }
{
    for x in state.members() {
        if is_torn_third(state, a, b, *x) {
            return true;
        }
    }
    false
}

/// The same at any member, which is to name a third group.
fn is_torn_third<S: Situation>(state: &S, a: Vertex, b: Vertex, x: Vertex) -> bool
    requires first { Contains (S.state state.now).members a }
    requires second { Contains (S.state state.now).members b }
    requires first_least { leader (S.state state.now) a ≡ a }
    requires second_least { leader (S.state state.now) b ≡ b }
    requires third { Contains (S.state state.now).members x }
    ensures { IsTrue result ↔ IsTornBy (S.state state.now) a b x }
{
    if !is_third(state, a, b, x) {
        return false;
    }
    is_torn(state, a, b, x)
}

/// Whether x is free to a and to b and weighs more than 0 to both.
fn is_torn<S: Situation>(state: &S, a: Vertex, b: Vertex, x: Vertex) -> bool
    requires first { Contains (S.state state.now).members a }
    requires second { Contains (S.state state.now).members b }
    requires third { Contains (S.state state.now).members x }
    requires first_differs { leader (S.state state.now) a ≢ leader (S.state state.now) x }
    requires second_differs { leader (S.state state.now) b ≢ leader (S.state state.now) x }
    ensures { IsTrue result ↔ IsTorn (group_weight (S.state state.now)) (are_apart (S.state state.now)) a b x }
{
    if state.is_apart(a, x) || state.is_apart(b, x) {
        return false;
    }
    state.weight(a, x) > 0 && state.weight(b, x) > 0
}
