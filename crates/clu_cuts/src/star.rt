//! A star is a cut whose first set is one group, its centre: triangles and claws are stars. Here
//! is what both searches share.

ghost use Rattle.std.specs.Prelude.{◌≡◌, ◌++◌, ◌≤ℤ◌, ◌^◌, pos, ◌+ℤ◌, ◌-ℤ◌, int_lt, [], ◌∷◌, OnOk, if◌then◌else◌};
ghost use Rattle.clu_cuts.specs.Stars.{star};

use crate::point::Cut;
use clu_partition::{Seq, Vertex};
use std::alloc::{AllocError, Global};

/// The most cuts that one search answers.
pub(crate) const MOST: usize = 50;

/// Appends the cut of a centre and the others, where it is violated.
pub(crate) fn push_if(
    alloc: Global,
    violated: bool,
    a: Vertex,
    others: &[Vertex],
    cuts: &mut Seq<Cut>,
) -> Result<(), AllocError>
    ensures { OnOk result (cuts.new
        ≡ (if violated then cuts.old ++ star a others.now ∷ [] else cuts.old)) }
{
    if violated {
        let s = Seq::from_slice(alloc, &[a])?;
        let t = Seq::from_slice(alloc, others)?;
        cuts.push(Cut { s, t })?;
    }
    Ok(())
}

/// Whether the first number is more than the second one and the denominator.
pub(crate) fn is_past(across: i128, inside: i128, den: i128) -> bool
    requires across { (pos 0 ≤ℤ across) × (across ≤ℤ pos (2 ^ 102)) }
    requires inside { (pos 0 ≤ℤ inside) × (inside ≤ℤ pos (2 ^ 102)) }
    ensures { result ≡ int_lt den (across -ℤ inside) }
{
    across - inside > den
}

/// The sum of three shares.
pub(crate) fn sum_of(x: i128, y: i128, z: i128) -> i128
    requires x { (pos 0 ≤ℤ x) × (x ≤ℤ pos (2 ^ 100)) }
    requires y { (pos 0 ≤ℤ y) × (y ≤ℤ pos (2 ^ 100)) }
    requires z { (pos 0 ≤ℤ z) × (z ≤ℤ pos (2 ^ 100)) }
    ensures value { result ≡ x +ℤ y +ℤ z }
    ensures least { pos 0 ≤ℤ result }
    ensures most { result ≤ℤ pos (2 ^ 102) }
{
    x + y + z
}
