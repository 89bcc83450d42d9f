//! Sweeps over the pairs of groups until no reduction is left. Each pair is looked at in the state
//! that the steps before it made, so a step is never taken on stale weights. They end, as each step
//! leaves fewer pairs of members that are neither of one group nor apart.
ghost use Rattle.std.specs.Prelude.{◌≡◌, ◌<◌, ◌↔◌, IsTrue, ℕ, List, false, Contains, IfOk, IfErr, OnOk};
ghost use Rattle.clu_state.specs.State.{State};
ghost use Rattle.clu_reduce.specs.Reduction.{IsIrreducible, KeepsWorth};
ghost use Rattle.clu_reduce.specs.Steps.{StepsHold, stepped};
ghost use Rattle.clu_reduce.specs.Rows.{IsRowSum};
ghost use Rattle.clu_reduce.specs.Sweep.{IsDue, InKindOrder, IsInTurn, StepsLeadTo, Swept};
ghost use Rattle.clu_reduce.specs.declared.step.Step.{Step};

use crate::row::{may_reduce, row_after, row_sum};
use crate::search::reduces;
use crate::{Kind, Step};
use clu_partition::{Seq, Vertex};
use clu_state::Situation;
use std::alloc::{AllocError, Global};

/// Sweeps until a sweep takes no step.
pub fn reduce_all<S: Situation>(alloc: Global, state: &mut S) -> Result<Seq<Step>, AllocError>
    ensures held { IfOk result (λ steps. StepsHold (S.state state.old) steps) }
    ensures state { IfOk result (λ steps. S.state state.new ≡ stepped (S.state state.old) steps) }
    ensures keeps { IfOk result (λ _. KeepsWorth (S.state state.old) (S.state state.new)) }
    ensures irreducible { IfOk result (λ _. IsIrreducible (S.state state.new)) }
    ensures refused { IfErr result (λ _. (steps : List Step) × StepsLeadTo (S.state state.old) steps (S.state state.new)) }
{
    // For the prover: the state is a valid one.
    let _members = state.members();
    let mut steps = Seq::new(alloc);
    sweep_all(state, &mut steps)?;
    Ok(steps)
}

/// The same, appended to steps that led to the state.
fn sweep_all<S: Situation>(state: &mut S, steps: &mut Seq<Step>) -> Result<(), AllocError>
    ensures leads { OnOk result ((s : State) → StepsLeadTo s steps.old (S.state state.old) → StepsLeadTo s steps.new (S.state state.new)) }
    ensures irreducible { OnOk result (IsIrreducible (S.state state.new)) }
    ensures refused { IfErr result (λ _. (s : State) → StepsLeadTo s steps.old (S.state state.old)
        → (taken : List Step) × StepsLeadTo s taken (S.state state.new)) }
{
    while sweep(state, steps)? {}
    Ok(())
}

/// The same for each kind in turn.
fn sweep<S: Situation>(state: &mut S, steps: &mut Seq<Step>) -> Result<bool, AllocError>
    ensures swept { IfOk result (λ made. Swept (S.state state.old) steps.old (S.state state.new) steps.new made) }
    ensures none { IfOk result (λ made. made ≡ false → IsIrreducible (S.state state.old)) }
    ensures refused { IfErr result (λ _. (s : State) → StepsLeadTo s steps.old (S.state state.old)
        → (taken : List Step) × StepsLeadTo s taken (S.state state.new)) }
{
    // For the prover: the state is a valid one.
    let _members = state.members();
    let twins = sweep_kind(state, steps, Kind::Twin)?;
    let pairs = sweep_kind(state, steps, Kind::Pair)?;
    let heavy = sweep_kind(state, steps, Kind::Heavy)?;
    let light = sweep_kind(state, steps, Kind::Light)?;
    Ok(twins | pairs | heavy | light)
}

/// Takes each step of this kind that is due when its pair is reached.
fn sweep_kind<S: Situation>(
    state: &mut S,
    steps: &mut Seq<Step>,
    kind: Kind,
) -> Result<bool, AllocError>
    ensures swept { IfOk result (λ made. Swept (S.state state.old) steps.old (S.state state.new) steps.new made) }
    ensures members { IfOk result (λ _. (S.state state.new).members ≡ (S.state state.old).members) }
    ensures none { IfOk result (λ made. made ≡ false → (u v : ℕ) → Contains (S.state state.old).members u
        → Contains (S.state state.old).members v
        → IsDue (S.state state.old) (record { kind = kind; u = u; v = v }) → ⊥) }
    ensures refused { IfErr result (λ _. (s : State) → StepsLeadTo s steps.old (S.state state.old)
        → (taken : List Step) × StepsLeadTo s taken (S.state state.new)) }
{
    let mut made = false;
    for i in 0..state.members().len() {
        let u = state.members()[i];
        made |= sweep_row(state, steps, kind, u)?;
    }
    Ok(made)
}

/// Takes each step of this kind on u that is due when its pair is reached.
fn sweep_row<S: Situation>(
    state: &mut S,
    steps: &mut Seq<Step>,
    kind: Kind,
    u: Vertex,
) -> Result<bool, AllocError>
    requires { Contains (S.state state.old).members u }
    ensures swept { IfOk result (λ made. Swept (S.state state.old) steps.old (S.state state.new) steps.new made) }
    ensures members { IfOk result (λ _. (S.state state.new).members ≡ (S.state state.old).members) }
    ensures none { IfOk result (λ made. made ≡ false → (v : ℕ) → Contains (S.state state.old).members v
        → IsDue (S.state state.old) (record { kind = kind; u = u; v = v }) → ⊥) }
    ensures refused { IfErr result (λ _. (s : State) → StepsLeadTo s steps.old (S.state state.old)
        → (taken : List Step) × StepsLeadTo s taken (S.state state.new)) }
{
    let mut made = false;
    let mut row = row_sum(state, kind, u);
    for i in 0..state.members().len() {
        let v = state.members()[i];
        let step = Step { kind, u, v };
        let took = try_step(state, steps, &step, row)?;
        row = row_after(state, kind, u, row, took);
        made |= took;
    }
    Ok(made)
}

/// Takes the step if it is due, and answers whether it was.
fn try_step<S: Situation>(
    state: &mut S,
    steps: &mut Seq<Step>,
    step: &Step,
    row: i128,
) -> Result<bool, AllocError>
    requires first { Contains (S.state state.old).members step.now.u }
    requires second { Contains (S.state state.old).members step.now.v }
    requires row { IsRowSum (S.state state.old) step.now.kind step.now.u row }
    ensures swept { IfOk result (λ made. Swept (S.state state.old) steps.old (S.state state.new) steps.new made) }
    ensures members { IfOk result (λ _. (S.state state.new).members ≡ (S.state state.old).members) }
    ensures none { IfOk result (λ made. made ≡ false → IsDue (S.state state.old) step.now → ⊥) }
    ensures refused { IfErr result (λ _. S.state state.new ≡ S.state state.old) }
{
    // For the prover: the state is a valid one.
    let _members = state.members();
    if !is_due(state, step, row) {
        return Ok(false);
    }
    let decision = step.decision();
    steps.push(*step)?;
    state.decide(decision)?;
    Ok(true)
}

/// Whether the step is worth taking now that its pair is reached.
fn is_due<S: Situation>(state: &S, step: &Step, row: i128) -> bool
    requires first { Contains (S.state state.now).members step.now.u }
    requires second { Contains (S.state state.now).members step.now.v }
    requires row { IsRowSum (S.state state.now) step.now.kind step.now.u row }
    ensures { IsTrue result ↔ IsDue (S.state state.now) step.now }
{
    if !is_in_turn(state, step) {
        return false;
    }
    if !may_reduce(state, step, row) {
        return false;
    }
    reduces(state, step)
}

/// Whether the step's vertices are the least of their groups, in the kind's order.
fn is_in_turn<S: Situation>(state: &S, step: &Step) -> bool
    requires first { Contains (S.state state.now).members step.now.u }
    requires second { Contains (S.state state.now).members step.now.v }
    ensures { IsTrue result ↔ IsInTurn (S.state state.now) step.now }
{
    if state.group_of(step.u) != step.u {
        return false;
    }
    if state.group_of(step.v) != step.v {
        return false;
    }
    is_first(step.kind, step.u, step.v)
}

/// Whether a kind's pairs are looked at with these two in this order.
fn is_first(kind: Kind, u: Vertex, v: Vertex) -> bool
    ensures { IsTrue result ↔ InKindOrder kind u v }
{
    match kind {
        Kind::Twin | Kind::Pair => u < v,
        Kind::Heavy | Kind::Light => true,
    }
}
