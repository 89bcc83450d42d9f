//! The conditions of a valid certificate, tried in their order. Root steps are judged each in the state after
//! those before it, by the same test that the solver's reductions meet; the parts are judged in the state
//! after all of them.

ghost use Rattle.std.specs.Prelude.{◌≡◌, ◌≢◌, ℕ, IfOk, IfErr, IfSome, IfNone, length, slice_index};
ghost use Rattle.clu_partition.specs.Closed.{IsPermitted};
ghost use Rattle.clu_partition.specs.Pairs.{weight_of};
ghost use Rattle.clu_partition.specs.Partition.{below};
ghost use Rattle.clu_partition.specs.Values.{value_on};
ghost use Rattle.clu_objective.specs.Problem.{printed, IsBetterOrEqual};
ghost use Rattle.clu_cert.specs.Valid.{IsValid, whole_state, stepped, StepsHold};
ghost use Rattle.clu_check.specs.Rejected.{HaveValue, HaveRoot, IsFirstBadStep, IsRejected};

use crate::Reject;
use crate::bounds::check_bound;
use crate::labels::{check_blocks, check_value};
use crate::parts::check_parts;
use clu_cert::Certificate;
use clu_objective::Problem;
use clu_partition::{Start, all_vertices};
use clu_reduce::{Step, holds};
use clu_state::{Rebuilt, Situation};
use std::alloc::{AllocError, Global};

/// What an accepted certificate says.
#[derive(Clone, Copy, Debug, PartialEq, Eq)]
pub struct Accepted {
    /// The printed objective of its partition.
    pub value: i128,
    /// The printed number that no permitted partition is better than.
    pub bound: i128,
}

/// Checks a certificate against a problem and its rules: accepts it exactly where it is valid, and
/// else names the first condition that fails.
pub fn check(
    alloc: Global,
    problem: &Problem,
    start: &Start,
    c: &Certificate,
) -> Result<Accepted, Reject>
    requires { length start.now.group ≡ problem.now.pairs.n }
    ensures valid { IfOk result (λ _. IsValid problem.now start.now c.now) }
    ensures value { IfOk result (λ accepted. accepted.value ≡ c.now.value) }
    ensures bound { IfOk result (λ accepted. accepted.bound ≡ c.now.bound) }
    ensures none_better { IfOk result (λ accepted. (label : ℕ → ℕ) → IsPermitted start.now label
        → IsBetterOrEqual problem.now.objective accepted.bound (printed problem.now
        (value_on (weight_of problem.now.pairs) label (below problem.now.pairs.n)))) }
    ensures rejected { IfErr result (λ reject. IsRejected problem.now start.now c.now reject) }
    ensures invalid { IfErr result (λ reject. reject ≢ Reject.Memory
        → IsValid problem.now start.now c.now → ⊥) }
{
    judge(alloc, problem, start, c)
}

/// Tries the conditions in their order.
fn judge(
    alloc: Global,
    problem: &Problem,
    start: &Start,
    c: &Certificate,
) -> Result<Accepted, Reject>
    requires { length start.now.group ≡ problem.now.pairs.n }
    ensures valid { IfOk result (λ _. IsValid problem.now start.now c.now) }
    ensures value { IfOk result (λ accepted. accepted.value ≡ c.now.value) }
    ensures bound { IfOk result (λ accepted. accepted.bound ≡ c.now.bound) }
    ensures none_better { IfOk result (λ accepted. (label : ℕ → ℕ) → IsPermitted start.now label
        → IsBetterOrEqual problem.now.objective accepted.bound (printed problem.now
        (value_on (weight_of problem.now.pairs) label (below problem.now.pairs.n)))) }
    ensures rejected { IfErr result (λ reject. IsRejected problem.now start.now c.now reject) }
{
    check_blocks(problem, start, c)?;
    check_value(alloc, problem, start, c)?;
    let state = check_root(alloc, problem, start, c)?;
    let owner = check_parts(alloc, problem, start, c, &state)?;
    check_bound(alloc, problem, start, c, &owner)?;
    Ok(Accepted {
        value: c.value,
        bound: c.bound,
    })
}

/// The state of all vertices.
fn all_of<'p>(
    alloc: Global,
    problem: &'p Problem,
    start: &'p Start,
) -> Result<Rebuilt<'p>, AllocError>
    requires { length start.now.group ≡ problem.now.pairs.n }
    ensures { IfOk result (λ state. state ≡ whole_state problem.now start.now) }
{
    let n = start.n();
    let vertices = all_vertices(alloc, n)?;
    Rebuilt::new(alloc, &problem.pairs, start, vertices.as_slice())
}

/// Makes the steps' decisions, up to the first step that doesn't hold, of which it answers the number.
fn make_steps<S: Situation>(state: &mut S, steps: &[Step]) -> Result<Option<u64>, AllocError>
    ensures held { IfOk result (λ bad. IfNone bad (StepsHold (S.state state.old) steps.now)) }
    ensures state { IfOk result (λ bad. IfNone bad (S.state state.new ≡ stepped (S.state state.old) steps.now)) }
    ensures bad { IfOk result (λ bad. IfSome bad (IsFirstBadStep (S.state state.old) steps.now)) }
{
    for (i, step) in steps.iter().enumerate() {
        if !holds(state, step) {
            return Ok(Some(i as u64 + 1));
        }
        state.decide(step.decision())?;
    }
    Ok(None)
}

/// Refuses a root step that doesn't hold, and answers the state after them.
fn check_root<'p>(
    alloc: Global,
    problem: &'p Problem,
    start: &'p Start,
    c: &Certificate,
) -> Result<Rebuilt<'p>, Reject>
    requires one_size { length start.now.group ≡ problem.now.pairs.n }
    requires stated { HaveValue problem.now start.now c.now }
    ensures ok { IfOk result (λ _. HaveRoot problem.now start.now c.now) }
    ensures state { IfOk result (λ state. state ≡ stepped (whole_state problem.now start.now) c.now.root_steps) }
    ensures rejected { IfErr result (λ reject. IsRejected problem.now start.now c.now reject) }
{
    let mut state = all_of(alloc, problem, start)?;
    match make_steps(&mut state, c.root_steps.as_slice())? {
        Some(item) => Err(Reject::Step { item }),
        None => Ok(state),
    }
}
