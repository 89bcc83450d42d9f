//! What the items of all parts prove: each part is read from its own vertices with the root steps within
//! it, and the sum of what they prove bounds every permitted partition. The working space of the leaves
//! is made once.

ghost use Rattle.std.specs.Prelude.{◌≡◌, ◌≤◌, ◌<◌, ◌^◌, ◌++◌, ◌∷◌, [], ℕ, ℤ, pos, List, IfErr, IfOk, OnOk, length};
ghost use Rattle.clu_state.specs.State.{IsState};
ghost use Rattle.clu_objective.specs.Problem.{IsBetterOrEqual};
ghost use Rattle.clu_cert.specs.Upper.{HasUpper};
ghost use Rattle.clu_cert.specs.Valid.{HaveUppers, parts_of, part_state, is_in, Rises, decisions_within, proved_bound as proved_bound_of};
ghost use Rattle.clu_check.specs.Rejected.{HaveParts, IsRejected, as_count};
ghost use Rattle.clu_check.specs.Parts.{HavePartNumbers};
ghost use Rattle.clu_check.specs.Proved.{HasClosedRules, IsItemFault, rejected_by};
ghost use Rattle.std.specs.Int.{int_min};
ghost use Rattle.clu_partition.specs.Sums.{total};

use crate::Reject;
use crate::shares::steps_by_part;
use crate::tree::{TreeFault, upper_of};
use clu_cert::{Certificate, Proof};
use clu_objective::Problem;
use clu_partition::{Start, Vertex, is_member};
use clu_reduce::Step;
use clu_rows::Residual;
use clu_state::Decision;
use std::alloc::{AllocError, Global};

/// Refuses items that prove no bound, or a bound that is better than what they prove.
pub(crate) fn check_bound(
    alloc: Global,
    problem: &Problem,
    start: &Start,
    c: &Certificate,
    owner: &[usize],
) -> Result<(), Reject>
    requires rules { HasClosedRules problem.now start.now }
    requires parts { HaveParts problem.now start.now c.now }
    requires numbered { HavePartNumbers (parts_of c.now) owner.now }
    requires size { length owner.now ≡ problem.now.pairs.n }
    ensures ok { OnOk result ((uppers : List ℤ)
        × HaveUppers problem.now start.now c.now.root_steps c.now.proofs uppers
        × IsBetterOrEqual problem.now.objective c.now.bound (proved_bound_of problem.now uppers)) }
    ensures rejected { IfErr result (λ reject. IsRejected problem.now start.now c.now reject) }
{
    let found = proved_bound(alloc, problem, start, c, owner)?;
    if !problem.better_or_equal(c.bound, found) {
        return Err(Reject::Bound { found });
    }
    Ok(())
}

/// The printed number that the items of all parts prove.
fn proved_bound(
    alloc: Global,
    problem: &Problem,
    start: &Start,
    c: &Certificate,
    owner: &[usize],
) -> Result<i128, Reject>
    requires rules { HasClosedRules problem.now start.now }
    requires parts { HaveParts problem.now start.now c.now }
    requires numbered { HavePartNumbers (parts_of c.now) owner.now }
    requires size { length owner.now ≡ problem.now.pairs.n }
    ensures ok { IfOk result (λ found. (uppers : List ℤ)
        × HaveUppers problem.now start.now c.now.root_steps c.now.proofs uppers
        × (found ≡ proved_bound_of problem.now uppers)) }
    ensures rejected { IfErr result (λ reject. IsRejected problem.now start.now c.now reject) }
{
    let sum = sum_of_uppers(alloc, problem, start, c, owner)?;
    Ok(problem.printed(sum.min(1 << 88)))
}

/// The sum of the parts' uppers, of which each counts as 2^100 at most: cut at 2^88 it is what the
/// whole sum is, since there are at most 1,000 parts and no upper is below -(2^88).
fn sum_of_uppers(
    alloc: Global,
    problem: &Problem,
    start: &Start,
    c: &Certificate,
    owner: &[usize],
) -> Result<i128, Reject>
    requires rules { HasClosedRules problem.now start.now }
    requires parts { HaveParts problem.now start.now c.now }
    requires numbered { HavePartNumbers (parts_of c.now) owner.now }
    requires size { length owner.now ≡ problem.now.pairs.n }
    ensures ok { IfOk result (λ sum. (uppers : List ℤ)
        × HaveUppers problem.now start.now c.now.root_steps c.now.proofs uppers
        × (int_min sum (pos (2 ^ 88)) ≡ int_min (total (λ upper. upper) uppers) (pos (2 ^ 88)))) }
    ensures rejected { IfErr result (λ reject. IsRejected problem.now start.now c.now reject) }
{
    let mut scratch = Residual::new(alloc, problem.pairs.n())?;
    let proofs = c.proofs.as_slice();
    let shares = steps_by_part(alloc, owner, proofs, c.root_steps.as_slice())?;
    let mut earlier = c.root_steps.len() as u64;
    let mut sum: i128 = 0;
    for (i, proof) in proofs.iter().enumerate() {
        let number = i as u64 + 1;
        let upper = upper_of_part(
            alloc,
            problem,
            start,
            shares[i].as_slice(),
            proof,
            &mut scratch,
            earlier,
            number,
        )?;
        sum += upper.min(1 << 100);
        earlier = earlier.saturating_add(proof.items.len() as u64);
    }
    Ok(sum)
}

/// What the items of the part with this number prove. Of the items of the parts before it there are
/// `earlier`, a count that stands still at its last value.
fn upper_of_part(
    alloc: Global,
    problem: &Problem,
    start: &Start,
    steps: &[Step],
    proof: &Proof,
    scratch: &mut Residual,
    earlier: u64,
    number: u64,
) -> Result<i128, Reject>
    requires valid { IsState (part_state problem.now start.now steps.now proof.now.part) }
    requires room { problem.now.pairs.n ≤ scratch.old.n }
    ensures ok { IfOk result (λ upper.
        HasUpper (part_state problem.now start.now steps.now proof.now.part) proof.now.items upper) }
    ensures fault { (count : ℕ) → earlier ≡ as_count count → IfErr result (λ reject. IsItemFault
        (part_state problem.now start.now steps.now proof.now.part) proof.now.items count number reject) }
    ensures room { scratch.new.n ≡ scratch.old.n }
{
    let part = proof.part.as_slice();
    let items = proof.items.as_slice();
    let decisions = decisions_within(alloc, part, steps)?;
    match upper_of(
        alloc,
        &problem.pairs,
        start,
        part,
        decisions.as_slice(),
        items,
        scratch,
    ) {
        Ok(upper) => Ok(upper),
        Err(fault) => Err(rejected(fault, earlier, number)),
    }
}

/// Whether the part, which rises, has the vertex.
fn has(part: &[Vertex], v: Vertex) -> bool
    requires { Rises part.now }
    ensures { result ≡ is_in part.now v }
{
    is_member(part, v)
}

/// Appends what the step decides, if both its vertices are in the part.
fn push_within(
    decisions: &mut Vec<Decision>,
    part: &[Vertex],
    step: &Step,
) -> Result<(), AllocError>
    requires { Rises part.now }
    ensures { OnOk result (decisions.new.items
        ≡ decisions.old.items ++ decisions_within part.now (step.now ∷ [])) }
{
    if has(part, step.u) && has(part, step.v) {
        decisions.push(step.decision())?;
    }
    Ok(())
}

/// What the steps decide within the part.
fn decisions_within(
    alloc: Global,
    part: &[Vertex],
    steps: &[Step],
) -> Result<Vec<Decision>, AllocError>
    requires { Rises part.now }
    ensures { IfOk result (λ decisions. decisions.items ≡ decisions_within part.now steps.now) }
{
    let mut decisions = Vec::new(alloc);
    for step in steps {
        push_within(&mut decisions, part, step)?;
    }
    Ok(decisions)
}

/// A part's fault as a rejection.
fn rejected(fault: TreeFault, earlier: u64, part: u64) -> Reject
    ensures { result ≡ rejected_by fault earlier part }
{
    match fault {
        TreeFault::Step { number } => Reject::Step {
            item: earlier.saturating_add(number),
        },
        TreeFault::Leaf { number } => Reject::Leaf {
            item: earlier.saturating_add(number),
        },
        TreeFault::Unfinished => Reject::Unfinished { part },
        TreeFault::Memory => Reject::Memory,
    }
}
