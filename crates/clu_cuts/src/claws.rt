//! The claws that a point violates, inequalities of Grötschel and Wakabayashi (1990): a centre's shares with three others
//! come to at most one whole and the shares between them. Sound since each centre is held against each three; fast since
//! three whose claws can't be violated are passed over with all their fourths.

ghost use Rattle.std.specs.Prelude.{◌≡◌, ◌+◌, ◌++◌, ◌<◌, ◌≤◌, ◌≤ℤ◌, ◌^◌, ℕ, pos, ◌+ℤ◌, take, drop, length, IfOk, OnOk, slice_index, [], ◌∷◌, false, int_lt, ◌-ℤ◌};
ghost use Rattle.clu_cuts.specs.Point.{share};
ghost use Rattle.clu_cuts.specs.Shares.{AreShares, IsMost};
ghost use Rattle.clu_cuts.specs.Stars.{breaks, broken, claws_at, first_broken, star, triples_with, with_three, with_two_more};

use crate::point::Cut;
use crate::shares::Shares;
use crate::star::{MOST, is_past, push_if, sum_of};
use clu_partition::Seq;
use std::alloc::{AllocError, Global};

/// The first violated claws.
pub(crate) fn all_claws(alloc: Global, shares: &Shares) -> Result<Seq<Cut>, AllocError>
    requires shares { AreShares shares.now }
    ensures { IfOk result (λ cuts. cuts ≡ first_broken shares.now.point.now (claws_at shares.now.groups.now shares.now.groups.now)) }
{
    let mut cuts = Seq::new(alloc);
    for a in 0..shares.groups.len() {
        if cuts.len() == MOST {
            return Ok(cuts);
        }
        push_seconds(alloc, shares, a, shares.point.den, &mut cuts)?;
    }
    Ok(cuts)
}

/// Appends the violated claws with the centre at a, up to the limit.
fn push_seconds(
    alloc: Global,
    shares: &Shares,
    a: usize,
    most: i128,
    cuts: &mut Seq<Cut>,
) -> Result<(), AllocError>
    requires a { a < length shares.now.groups.now }
    requires shares { AreShares shares.now }
    requires most { IsMost shares.now a most }
    requires room { length cuts.old ≤ 50 }
    ensures { OnOk result (cuts.new ≡ take 50 (cuts.old
        ++ broken shares.now.point.now (with_three (slice_index shares.now.groups.now a) shares.now.groups.now))) }
{
    for b in 0..shares.groups.len() {
        push_thirds(alloc, shares, a, b, most, cuts)?;
    }
    Ok(())
}

/// Appends the violated claws of the groups at a and b with each two later ones, up to the limit.
fn push_thirds(
    alloc: Global,
    shares: &Shares,
    a: usize,
    b: usize,
    most: i128,
    cuts: &mut Seq<Cut>,
) -> Result<(), AllocError>
    requires a { a < length shares.now.groups.now }
    requires b { b < length shares.now.groups.now }
    requires shares { AreShares shares.now }
    requires most { IsMost shares.now a most }
    requires room { length cuts.old ≤ 50 }
    ensures { OnOk result (cuts.new ≡ take 50 (cuts.old
        ++ broken shares.now.point.now (with_two_more (slice_index shares.now.groups.now a) (slice_index shares.now.groups.now b)
        (drop (b + 1) shares.now.groups.now)))) }
{
    for c in b + 1..shares.groups.len() {
        visit_third(alloc, shares, a, b, c, most, cuts)?;
    }
    Ok(())
}

/// Appends the violated claws of the groups at a, b and c with each later one, up to the limit,
/// and looks at none where none can be violated.
fn visit_third(
    alloc: Global,
    shares: &Shares,
    a: usize,
    b: usize,
    c: usize,
    most: i128,
    cuts: &mut Seq<Cut>,
) -> Result<(), AllocError>
    requires a { a < length shares.now.groups.now }
    requires b { b < length shares.now.groups.now }
    requires c { c < length shares.now.groups.now }
    requires shares { AreShares shares.now }
    requires most { IsMost shares.now a most }
    requires room { length cuts.old ≤ 50 }
    ensures { OnOk result (cuts.new ≡ take 50 (cuts.old
        ++ broken shares.now.point.now (triples_with (slice_index shares.now.groups.now a) (slice_index shares.now.groups.now b)
        (slice_index shares.now.groups.now c) (drop (c + 1) shares.now.groups.now)))) }
{
    if !may_violate(shares, a, b, c, most) {
        return Ok(());
    }
    push_fourths(alloc, shares, a, b, c, cuts)
}

/// Appends the violated claws of the groups at a, b and c with each later one, up to the limit.
fn push_fourths(
    alloc: Global,
    shares: &Shares,
    a: usize,
    b: usize,
    c: usize,
    cuts: &mut Seq<Cut>,
) -> Result<(), AllocError>
    requires a { a < length shares.now.groups.now }
    requires b { b < length shares.now.groups.now }
    requires c { c < length shares.now.groups.now }
    requires shares { AreShares shares.now }
    requires room { length cuts.old ≤ 50 }
    ensures { OnOk result (cuts.new ≡ take 50 (cuts.old
        ++ broken shares.now.point.now (triples_with (slice_index shares.now.groups.now a) (slice_index shares.now.groups.now b)
        (slice_index shares.now.groups.now c) (drop (c + 1) shares.now.groups.now)))) }
{
    for d in c + 1..shares.groups.len() {
        if cuts.len() == MOST {
            return Ok(());
        }
        let violated = is_violated(shares, a, b, c, d);
        push_if(
            alloc,
            violated,
            shares.groups[a],
            &[shares.groups[b], shares.groups[c], shares.groups[d]],
            cuts,
        )?;
    }
    Ok(())
}

/// Whether the claw with the centre at a and the others at b, c and d is violated.
fn is_violated(shares: &Shares, a: usize, b: usize, c: usize, d: usize) -> bool
    requires a { a < length shares.now.groups.now }
    requires b { b < length shares.now.groups.now }
    requires c { c < length shares.now.groups.now }
    requires d { d < length shares.now.groups.now }
    requires shares { AreShares shares.now }
    ensures { result ≡ breaks shares.now.point.now (star (slice_index shares.now.groups.now a)
        (slice_index shares.now.groups.now b ∷ slice_index shares.now.groups.now c ∷ slice_index shares.now.groups.now d ∷ [])) }
{
    let ab = shares.at(a, b);
    let ac = shares.at(a, c);
    let ad = shares.at(a, d);
    let bc = shares.at(b, c);
    let bd = shares.at(b, d);
    let cd = shares.at(c, d);
    let across = sum_of(ab, ac, ad);
    let inside = sum_of(bc, bd, cd);
    is_past(across, inside, shares.point.den)
}

/// Whether a claw with the centre at a, b and c among the others, and a share of at most `most` of
/// the centre with the third may be violated.
fn may_violate(shares: &Shares, a: usize, b: usize, c: usize, most: i128) -> bool
    requires a { a < length shares.now.groups.now }
    requires b { b < length shares.now.groups.now }
    requires c { c < length shares.now.groups.now }
    requires shares { AreShares shares.now }
    requires least { pos 0 ≤ℤ most }
    requires most { most ≤ℤ shares.now.point.now.den }
    ensures { result ≡ false
        → (share shares.now.point.now (slice_index shares.now.groups.now a) (slice_index shares.now.groups.now b)
        +ℤ share shares.now.point.now (slice_index shares.now.groups.now a) (slice_index shares.now.groups.now c) +ℤ most)
        ≤ℤ (shares.now.point.now.den +ℤ share shares.now.point.now (slice_index shares.now.groups.now b) (slice_index shares.now.groups.now c)) }
{
    let ab = shares.at(a, b);
    let ac = shares.at(a, c);
    let bc = shares.at(b, c);
    let reach = sum_of(ab, ac, most);
    is_past(reach, bc, shares.point.den)
}
