//! The public call: a search is run to its end, and what it leaves is handed out.
//!
//! A gap means that all allowed branchings were made: a search ends only there, or where no leaf has a
//! bound above the best value.
ghost use Rattle.std.specs.Prelude.{◌≡◌, ◌≢◌, ◌↔◌, ◌<◌, ◌≤◌, ℕ, IfOk, OnOk, length, slice_index};
ghost use Rattle.clu_partition.specs.Closed.{IsPermitted};
ghost use Rattle.clu_partition.specs.Pairs.{weight_of};
ghost use Rattle.clu_partition.specs.Partition.{below, IsPartition};
ghost use Rattle.clu_partition.specs.Values.{value_on};
ghost use Rattle.clu_objective.specs.Problem.{printed, IsBetterOrEqual};
ghost use Rattle.clu_cert.specs.Fits.{Fits};
ghost use Rattle.clu_cert.specs.Valid.{IsValid};
ghost use Rattle.clu_search.specs.Count.{HasEachPermitted, count, partitions, permitted, permitted_of};
ghost use Rattle.clu_search.specs.Outcome.{StatesItsBound, branchings_of};
ghost use Rattle.clu_search.specs.Evidence.{IsEvidence};
ghost use Rattle.clu_search.specs.Search.{IsSearch, made};

use crate::search::Search;
use crate::{End, Limits, Outcome};
use clu_cert::Certificate;
use clu_objective::Problem;
use clu_partition::{Partition, Start};
use std::alloc::{AllocError, Global};

/// Searches for a best permitted partition, by branch and bound over the pairs of groups.
///
/// The next leaf is always one with the greatest bound. The search ends when no leaf has a bound
/// above the value of the best partition found, or when all allowed branchings were made.
pub fn solve(
    alloc: Global,
    problem: &Problem,
    start: &Start,
    limits: &Limits,
) -> Result<Outcome, AllocError>
    requires { length start.now.group ≡ problem.now.pairs.n }
    ensures partition { IfOk result (λ o. IsPartition problem.now.pairs.n o.partition) }
    ensures permitted { IfOk result (λ o. IsPermitted start.now (slice_index o.partition)) }
    ensures valid { IfOk result (λ o. IsValid problem.now start.now o.certificate) }
    ensures labels { IfOk result (λ o. o.certificate.labels ≡ o.partition) }
    ensures exact { IfOk result (λ o. StatesItsBound problem.now start.now o.certificate) }
    ensures none_better { IfOk result (λ o. (label : ℕ → ℕ) → IsPermitted start.now label
        → IsBetterOrEqual problem.now.objective o.certificate.bound (printed problem.now
        (value_on (weight_of problem.now.pairs) label (below problem.now.pairs.n)))) }
    ensures branchings { IfOk result (λ o. o.branchings ≡ branchings_of o.certificate) }
    ensures within { IfOk result (λ o. o.branchings ≤ limits.now.branchings) }
    ensures counted { IfOk result (λ o. o.branchings < count start.now) }
    ensures listed { IfOk result (λ _. HasEachPermitted start.now (permitted start.now)) }
    ensures optimal { IfOk result (λ o. (o.end ≡ End.Optimal)
        ↔ (o.certificate.value ≡ o.certificate.bound)) }
    ensures gap { IfOk result (λ o. (o.end ≡ End.Branchings)
        ↔ ((o.certificate.value ≢ o.certificate.bound)
        × (o.branchings ≡ limits.now.branchings))) }
    ensures fits { IfOk result (λ o. Fits o.certificate) }
{
    let search = Search::new(alloc, problem, start)?;
    let evidence = finish(alloc, search, limits.branchings)?;
    let end = end_of(&evidence.certificate);
    Ok(Outcome {
        partition: evidence.partition,
        certificate: evidence.certificate,
        branchings: evidence.branchings,
        end,
    })
}

/// What a search has to show where it ends.
#[derive(Drop)]
struct Evidence {
    partition: Partition,
    certificate: Certificate,
    branchings: u64,
}

/// Runs a search to its end, and hands out what it found: its tree becomes the proof.
fn finish(alloc: Global, mut search: Search, allowed: u64) -> Result<Evidence, AllocError>
    requires search { IsSearch search }
    requires unbranched { made search ≡ 0 }
    ensures evidence { IfOk result (λ e. IsEvidence search.entry.problem.now search.entry.start.now e) }
    ensures within { IfOk result (λ e. e.branchings ≤ allowed) }
    ensures counted { IfOk result (λ e. e.branchings < length (permitted_of
        search.entry.start.now (partitions (length search.entry.start.now.group)))) }
    ensures listed { IfOk result (λ _. HasEachPermitted search.entry.start.now
        (permitted_of search.entry.start.now (partitions (length search.entry.start.now.group)))) }
    ensures stopped { IfOk result (λ e. e.certificate.value ≢ e.certificate.bound
        → e.branchings ≡ allowed) }
{
    search.run(alloc, allowed)?;
    let branchings = search.branchings();
    let (partition, certificate) = search.certificate(alloc)?;
    Ok(Evidence {
        partition,
        certificate,
        branchings,
    })
}

/// How a search ended that left this certificate.
fn end_of(certificate: &Certificate) -> End
    ensures optimal { (result ≡ End.Optimal) ↔ (certificate.now.value ≡ certificate.now.bound) }
    ensures gap { (result ≡ End.Branchings) ↔ (certificate.now.value ≢ certificate.now.bound) }
{
    if certificate.value == certificate.bound {
        End::Optimal
    } else {
        End::Branchings
    }
}
