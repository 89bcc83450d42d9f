//! The conditions on the parts of a certificate: no group is divided, and no free pair of positive weight leaves a part.
//! So no partition is worth more than its restrictions to the parts together, and each part has a proof of its own. A
//! table has the number of each vertex's part, so a vertex is looked up once for each pair.

ghost use Rattle.std.specs.Prelude.{◌≡◌, ◌≢◌, ◌<◌, ◌≤◌, ◌+◌, ◌⊎◌, ◌↔◌, [], ◌∷◌, ◌++◌, ℕ, List, All, Contains, IsTrue, IfErr, IfNone, IfOk, IfSome, OnOk, length, slice_index, map};
ghost use Rattle.clu_partition.specs.Partition.{below};
ghost use Rattle.clu_cert.specs.Valid.{whole_state, stepped, parts_of, Rises, IsPart, AllParts, Cover};
ghost use Rattle.clu_check.specs.Rejected.{HaveRoot, HaveParts, IsFirstBadPart, MissesVertex, IsRejected};
ghost use Rattle.clu_check.specs.Parts.{AreOwned, HavePartNumbers, TakesNumber, MayBePart, GainNothing, GainNothingWith};

use crate::Reject;
use clu_cert::{Certificate, Proof};
use clu_objective::Problem;
use clu_partition::{Start, Vertex};
use clu_state::{Rebuilt, Situation};
use std::alloc::Global;

/// Refuses parts that aren't parts of the problem's vertices, or leave a vertex out, in the state after
/// the root steps. Answers the number of each vertex's part, from 1.
pub(crate) fn check_parts(
    alloc: Global,
    problem: &Problem,
    start: &Start,
    c: &Certificate,
    state: &Rebuilt,
) -> Result<Vec<usize>, Reject>
    requires one_size { length start.now.group ≡ problem.now.pairs.n }
    requires root { HaveRoot problem.now start.now c.now }
    requires state { state.now ≡ stepped (whole_state problem.now start.now) c.now.root_steps }
    ensures ok { IfOk result (λ _. HaveParts problem.now start.now c.now) }
    ensures numbered { IfOk result (λ owner. HavePartNumbers (parts_of c.now) owner.items) }
    ensures size { IfOk result (λ owner. length owner.items ≡ problem.now.pairs.n) }
    ensures rejected { IfErr result (λ reject. IsRejected problem.now start.now c.now reject) }
{
    let mut owner = vec![in alloc; 0; start.n() as usize]?;
    match first_fault(state, &mut owner, c.proofs.as_slice()) {
        Some(part) => Err(Reject::Parts { part }),
        None => Ok(owner),
    }
}

/// The same where no vertex has a number in `owner` yet.
fn first_fault(state: &Rebuilt, owner: &mut [usize], proofs: &[Proof]) -> Option<u64>
    requires members { state.now.members ≡ below (length owner.old) }
    requires none_yet { AreOwned [] owner.old }
    ensures right { IfNone result
        (AllParts state.now [] (map (λ proof. proof.part) proofs.now)
        × Cover state.now (map (λ proof. proof.part) proofs.now)) }
    ensures numbered { IfNone result (HavePartNumbers (map (λ proof. proof.part) proofs.now) owner.new) }
    ensures size { length owner.new ≡ length owner.old }
    ensures fault { IfSome result (λ number.
        IsFirstBadPart state.now (map (λ proof. proof.part) proofs.now) number
        ⊎ MissesVertex state.now (map (λ proof. proof.part) proofs.now) number) }
{
    if let Some(part) = first_bad_part(state, owner, proofs) {
        return Some(part);
    }
    if is_one_left(owner) {
        return Some(proofs.len() as u64 + 1);
    }
    None
}

/// Whether a vertex has no number.
fn is_one_left(owner: &[usize]) -> bool
    ensures { IsTrue result ↔ Contains owner.now 0 }
{
    owner.contains(&0)
}

/// The number of the first part that is none beside those before it. Each vertex gets the number
/// of its part in `owner`, which has none at first.
fn first_bad_part(state: &Rebuilt, owner: &mut [usize], proofs: &[Proof]) -> Option<u64>
    requires members { state.now.members ≡ below (length owner.old) }
    requires none_yet { AreOwned [] owner.old }
    ensures right { IfNone result (AllParts state.now [] (map (λ proof. proof.part) proofs.now)) }
    ensures owned { IfNone result (AreOwned (map (λ proof. proof.part) proofs.now) owner.new) }
    ensures bad { IfSome result (λ number.
        IsFirstBadPart state.now (map (λ proof. proof.part) proofs.now) number) }
    ensures size { length owner.new ≡ length owner.old }
{
    for (i, proof) in proofs.iter().enumerate() {
        if !take_part(state, owner, i + 1, proof.part.as_slice()) {
            return Some(i as u64 + 1);
        }
    }
    None
}

/// Whether it is a part beside the earlier ones, whose vertices have numbers in `owner`. If so, its
/// vertices get this number.
fn take_part(state: &Rebuilt, owner: &mut [usize], number: usize, part: &[Vertex]) -> bool
    requires members { state.now.members ≡ below (length owner.old) }
    ensures part { (earlier : List (List ℕ)) → AreOwned earlier owner.old
        → number ≡ length earlier + 1 → IsTrue result ↔ IsPart state.now earlier part.now }
    ensures owned { (earlier : List (List ℕ)) → AreOwned earlier owner.old
        → number ≡ length earlier + 1 → IsTrue result
        → AreOwned (earlier ++ part.now ∷ []) owner.new }
    ensures size { length owner.new ≡ length owner.old }
{
    if !may_be_part(owner, part) {
        return false;
    }
    give(owner, part, number);
    is_settled_part(state, owner, number, part)
}

/// Whether the part isn't empty, rises, and has vertices without a number alone.
fn may_be_part(owner: &[usize], part: &[Vertex]) -> bool
    ensures { IsTrue result ↔ MayBePart owner.now part.now }
{
    !part.is_empty() && rises(part) && are_new(owner, part)
}

/// Whether the vertices rise.
fn rises(part: &[Vertex]) -> bool
    ensures { IsTrue result ↔ Rises part.now }
{
    for i in 1..part.len() {
        if part[i] <= part[i - 1] {
            return false;
        }
    }
    true
}

/// Whether each is a vertex without a number.
fn are_new(owner: &[usize], part: &[Vertex]) -> bool
    ensures { IsTrue result
        ↔ All (λ v. (v < length owner.now) × (slice_index owner.now v ≡ 0)) part.now }
{
    for v in part {
        if !is_new(owner, *v) {
            return false;
        }
    }
    true
}

fn is_new(owner: &[usize], v: Vertex) -> bool
    ensures { IsTrue result ↔ ((v < length owner.now) × (slice_index owner.now v ≡ 0)) }
{
    let i = v.0 as usize;
    i < owner.len() && owner[i] == 0
}

/// Gives each vertex of the part this number.
#[tactic(auto, using(crate::proofs::Giving::given_none, crate::proofs::Giving::given_more))]
fn give(owner: &mut [usize], part: &[Vertex], number: usize)
    requires { All (λ v. v < length owner.old) part.now }
    ensures { TakesNumber part.now number owner.old owner.new }
{
    for v in part {
        owner[v.0 as usize] = number;
    }
}

/// Whether each vertex of the part is settled with each member that doesn't have this number.
fn is_settled_part(state: &Rebuilt, owner: &[usize], number: usize, part: &[Vertex]) -> bool
    requires members { state.now.members ≡ below (length owner.now) }
    requires within { All (Contains state.now.members) part.now }
    ensures { IsTrue result ↔ All (GainNothingWith state.now owner.now number) part.now }
{
    for u in part {
        if !is_settled_with(state, owner, number, *u) {
            return false;
        }
    }
    true
}

fn is_settled_with(state: &Rebuilt, owner: &[usize], number: usize, u: Vertex) -> bool
    requires members { state.now.members ≡ below (length owner.now) }
    requires within { Contains state.now.members u }
    ensures { IsTrue result ↔ GainNothingWith state.now owner.now number u }
{
    for v in state.members() {
        if !is_inside_or_settled(state, owner, number, u, *v) {
            return false;
        }
    }
    true
}

fn is_inside_or_settled(
    state: &Rebuilt,
    owner: &[usize],
    number: usize,
    u: Vertex,
    v: Vertex,
) -> bool
    requires first { Contains state.now.members u }
    requires second { Contains state.now.members v }
    requires within { v < length owner.now }
    ensures { IsTrue result ↔ ((slice_index owner.now v ≡ number) ⊎ GainNothing state.now u v) }
{
    owner[v.0 as usize] == number || is_settled(state, u, v)
}

/// Whether the two are of different groups that are apart or gain nothing from sharing a block.
fn is_settled(state: &Rebuilt, u: Vertex, v: Vertex) -> bool
    requires first { Contains state.now.members u }
    requires second { Contains state.now.members v }
    ensures { IsTrue result ↔ GainNothing state.now u v }
{
    state.group_of(u) != state.group_of(v) && (state.is_apart(u, v) || state.weight(u, v) <= 0)
}
