//! The triangles that a point violates, inequalities of Grötschel and Wakabayashi (1989): a centre's shares with two
//! others come to at most one whole and the share between them. Sound since each triple of groups is looked at from each
//! centre, until the limit is reached.

ghost use Rattle.std.specs.Prelude.{◌≡◌, ◌+◌, ◌++◌, ◌<◌, ◌≤◌, ◌≤ℤ◌, ◌^◌, pos, take, drop, length, IfOk, OnOk, slice_index, [], ◌∷◌};
ghost use Rattle.clu_cuts.specs.Shares.{AreShares};
ghost use Rattle.clu_cuts.specs.Stars.{breaks, broken, first_broken, pairs_with, star, triangles_at, with_two};

use crate::point::Cut;
use crate::shares::Shares;
use crate::star::{MOST, is_past, push_if};
use clu_partition::Seq;
use std::alloc::{AllocError, Global};

/// The first violated triangles.
pub(crate) fn all_triangles(alloc: Global, shares: &Shares) -> Result<Seq<Cut>, AllocError>
    requires shares { AreShares shares.now }
    ensures { IfOk result (λ cuts. cuts ≡ first_broken shares.now.point.now (triangles_at shares.now.groups.now shares.now.groups.now)) }
{
    let mut cuts = Seq::new(alloc);
    for a in 0..shares.groups.len() {
        if cuts.len() == MOST {
            return Ok(cuts);
        }
        push_seconds(alloc, shares, a, &mut cuts)?;
    }
    Ok(cuts)
}

/// Appends the violated triangles with the centre at a, up to the limit.
fn push_seconds(
    alloc: Global,
    shares: &Shares,
    a: usize,
    cuts: &mut Seq<Cut>,
) -> Result<(), AllocError>
    requires a { a < length shares.now.groups.now }
    requires shares { AreShares shares.now }
    requires room { length cuts.old ≤ 50 }
    ensures { OnOk result (cuts.new ≡ take 50 (cuts.old
        ++ broken shares.now.point.now (with_two (slice_index shares.now.groups.now a) shares.now.groups.now))) }
{
    for b in 0..shares.groups.len() {
        push_thirds(alloc, shares, a, b, cuts)?;
    }
    Ok(())
}

/// Appends the violated triangles of the groups at a and b with each later one, up to the limit.
fn push_thirds(
    alloc: Global,
    shares: &Shares,
    a: usize,
    b: usize,
    cuts: &mut Seq<Cut>,
) -> Result<(), AllocError>
    requires a { a < length shares.now.groups.now }
    requires b { b < length shares.now.groups.now }
    requires shares { AreShares shares.now }
    requires room { length cuts.old ≤ 50 }
    ensures { OnOk result (cuts.new ≡ take 50 (cuts.old
        ++ broken shares.now.point.now (pairs_with (slice_index shares.now.groups.now a) (slice_index shares.now.groups.now b)
        (drop (b + 1) shares.now.groups.now)))) }
{
    for c in b + 1..shares.groups.len() {
        if cuts.len() == MOST {
            return Ok(());
        }
        let violated = is_violated(shares, a, b, c);
        push_if(
            alloc,
            violated,
            shares.groups[a],
            &[shares.groups[b], shares.groups[c]],
            cuts,
        )?;
    }
    Ok(())
}

/// Whether the triangle with the centre at a and the others at b and c is violated.
fn is_violated(shares: &Shares, a: usize, b: usize, c: usize) -> bool
    requires a { a < length shares.now.groups.now }
    requires b { b < length shares.now.groups.now }
    requires c { c < length shares.now.groups.now }
    requires shares { AreShares shares.now }
    ensures { result ≡ breaks shares.now.point.now (star (slice_index shares.now.groups.now a)
        (slice_index shares.now.groups.now b ∷ slice_index shares.now.groups.now c ∷ [])) }
{
    let ab = shares.at(a, b);
    let ac = shares.at(a, c);
    let bc = shares.at(b, c);
    is_past(ab + ac, bc, shares.point.den)
}
