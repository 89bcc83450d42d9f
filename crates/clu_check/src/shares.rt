//! The root steps of each part, found in one walk over the steps: a step belongs to the part that has both its
//! vertices, and a step on vertices of two parts to none.

ghost use Rattle.std.specs.Prelude.{◌≡◌, ◌<◌, ◌≤◌, [], All, IfOk, OnOk, length, slice_index, map, replicate};
ghost use Rattle.clu_check.specs.Parts.{HavePartNumbers, AddsStep, steps_within};

use clu_cert::Proof;
use clu_partition::Seq;
use clu_reduce::Step;
use std::alloc::{AllocError, Global};

/// The steps of each part, in their order. `owner` has the number of each vertex's part.
#[tactic(auto, using(crate::proofs::Sharing::shares_none, crate::proofs::Sharing::shares_more))]
pub(crate) fn steps_by_part(
    alloc: Global,
    owner: &[usize],
    proofs: &[Proof],
    steps: &[Step],
) -> Result<Vec<Seq<Step>>, AllocError>
    requires numbered { HavePartNumbers (map (λ proof. proof.part) proofs.now) owner.now }
    requires small { All (λ step. (step.u < length owner.now) × (step.v < length owner.now)) steps.now }
    ensures { IfOk result (λ shares. shares.items
        ≡ map (λ proof. steps_within proof.part steps.now) proofs.now) }
{
    let mut shares = no_steps(alloc, proofs.len())?;
    for step in steps {
        share(&mut shares, owner, step)?;
    }
    Ok(shares)
}

/// So many empty lists.
fn no_steps(alloc: Global, count: usize) -> Result<Vec<Seq<Step>>, AllocError>
    ensures { IfOk result (λ shares. shares.items ≡ replicate count []) }
{
    let mut shares = Vec::with_capacity(alloc, count)?;
    for _ in 0..count {
        shares.push(Seq::new(alloc))?;
    }
    Ok(shares)
}

/// Appends the step to those of the part that has both its vertices, if one has.
fn share(shares: &mut Vec<Seq<Step>>, owner: &[usize], step: &Step) -> Result<(), AllocError>
    requires first { step.now.u < length owner.now }
    requires second { step.now.v < length owner.now }
    requires positive { 0 < slice_index owner.now step.now.u }
    requires within { slice_index owner.now step.now.u ≤ length shares.old.items }
    ensures { OnOk result (AddsStep owner.now step.now shares.old.items shares.new.items) }
{
    let number = owner[step.u.0 as usize];
    if number == owner[step.v.0 as usize] {
        shares[number - 1].push(*step)?;
    }
    Ok(())
}
