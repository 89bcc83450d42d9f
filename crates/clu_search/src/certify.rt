//! A certificate without root steps: one part of all vertices, whose proof is the search's tree. Whoever
//! checks it needs no part of the search, only the items and the rows at their leaves.

ghost use Rattle.std.specs.Prelude.{◌≡◌, ◌<◌, ◌≤◌, ◌^◌, ◌≤ℤ◌, pos, neg_ℤ, length, unsigned_abs, IfOk};
ghost use Rattle.clu_partition.specs.Partition.{below};
ghost use Rattle.clu_search.specs.Whole.{certificate_of, whole_proofs};

use crate::incumbent::Incumbent;
use clu_cert::{Certificate, Item, Proof};
use clu_objective::Problem;
use clu_partition::{Seq, all_vertices};
use std::alloc::{AllocError, Global};

/// The certificate of a partition, whose bound is the upper of these items. No value passes 2^88,
/// so an upper above it says no more than that.
pub(crate) fn certify(
    alloc: Global,
    problem: &Problem,
    best: &Incumbent,
    items: Seq<Item>,
    upper: i128,
) -> Result<Certificate, AllocError>
    requires value { unsigned_abs best.now.value ≤ 2 ^ 88 }
    requires upper { neg_ℤ (pos (2 ^ 88)) ≤ℤ upper }
    ensures certificate { IfOk result (λ cert.
        cert ≡ certificate_of problem.now best.now items upper) }
    ensures count { length items < 2 ^ 64 }
{
    // the type of a length bounds the number of items, which the certificate's text writes
    let _items = items.len();
    let labels = Seq::from_slice(alloc, best.partition.labels())?;
    let proofs = proofs_of(alloc, problem.pairs.n(), items)?;
    Ok(Certificate {
        objective: problem.objective,
        labels,
        value: problem.printed(best.value),
        bound: problem.printed(upper.min(1 << 88)),
        root_steps: Seq::new(alloc),
        proofs,
    })
}

/// The proofs of the parts: one part of all n vertices, where there are any.
fn proofs_of(alloc: Global, n: u32, items: Seq<Item>) -> Result<Seq<Proof>, AllocError>
    ensures { IfOk result (λ proofs. proofs ≡ whole_proofs n items) }
{
    let mut proofs = Seq::new(alloc);
    if n != 0 {
        proofs.push(whole_proof(alloc, n, items)?)?;
    }
    Ok(proofs)
}

/// The proof of a part of all n vertices.
fn whole_proof(alloc: Global, n: u32, items: Seq<Item>) -> Result<Proof, AllocError>
    ensures { IfOk result (λ proof. proof ≡ record { part = below n; items = items }) }
{
    let part = all_vertices(alloc, n)?;
    Ok(Proof { part, items })
}
