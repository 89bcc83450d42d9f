//! One sum for each group: what it could gain or has at stake with all others. It bounds what a
//! reduction of this group asks of a weight, so most pairs are passed over with one comparison, and
//! it is made anew only after a step. That it excludes no step that holds is its contract.
ghost use Rattle.std.specs.Prelude.{◌≡◌, ◌≢◌, ◌↔◌, ◌≤◌, ◌^◌, ℕ, false, Contains, IsTrue, unsigned_abs};
ghost use Rattle.clu_state.specs.State.{leader};
ghost use Rattle.clu_reduce.specs.Reduction.{Reduces};
ghost use Rattle.clu_reduce.specs.Rows.{row_kind, IsRowSum, RowAllows};

use crate::condition::cost_if_third;
use crate::{Kind, Step};
use clu_partition::Vertex;
use clu_state::Situation;

/// Whether the row leaves it open that the step is worth taking.
pub(crate) fn may_reduce<S: Situation>(state: &S, step: &Step, row: i128) -> bool
    requires first { Contains (S.state state.now).members step.now.u }
    requires second { Contains (S.state state.now).members step.now.v }
    requires first_least { leader (S.state state.now) step.now.u ≡ step.now.u }
    requires second_least { leader (S.state state.now) step.now.v ≡ step.now.v }
    requires row { IsRowSum (S.state state.now) step.now.kind step.now.u row }
    ensures { Reduces (S.state state.now) step.now → IsTrue result }
{
    // For the prover: the state is a valid one.
    let _members = state.members();
    if step.u == step.v {
        return false;
    }
    let weight = state.weight(step.u, step.v);
    allows(step.kind, row, weight)
}

/// Whether the row allows a step of this kind at a weight.
fn allows(kind: Kind, row: i128, weight: i128) -> bool
    requires { unsigned_abs weight ≤ 2 ^ 88 }
    ensures { IsTrue result ↔ RowAllows kind row weight }
{
    match kind {
        Kind::Twin => true,
        Kind::Pair | Kind::Heavy => row <= weight + weight,
        Kind::Light => weight < 0 && row <= -weight,
    }
}

/// The sum of the row of u, if u is the least vertex of its group.
pub(crate) fn row_sum<S: Situation>(state: &S, kind: Kind, u: Vertex) -> i128
    requires { Contains (S.state state.now).members u }
    ensures { IsRowSum (S.state state.now) kind u result }
{
    if state.group_of(u) != u {
        return 0;
    }
    let kind = row_kind(kind);
    let mut sum = 0;
    for x in state.members() {
        sum += cost_if_third(state, kind, u, u, *x);
    }
    sum
}

/// The row once a step was tried: a new one, if the step was taken.
pub(crate) fn row_after<S: Situation>(
    state: &S,
    kind: Kind,
    u: Vertex,
    row: i128,
    took: bool,
) -> i128
    requires member { Contains (S.state state.now).members u }
    requires row { took ≡ false → IsRowSum (S.state state.now) kind u row }
    ensures { IsRowSum (S.state state.now) kind u result }
{
    if took { row_sum(state, kind, u) } else { row }
}

/// What a kind's row adds up.
fn row_kind(kind: Kind) -> Kind
    ensures { result ≡ row_kind kind }
{
    match kind {
        Kind::Twin => Kind::Twin,
        Kind::Pair | Kind::Light => Kind::Light,
        Kind::Heavy => Kind::Heavy,
    }
}
