//! The two searches over a state: its groups, the table of the point's shares, and then the stars
//! in their order. Separation of two-set inequalities by enumeration, after Grötschel and
//! Wakabayashi (1989).

ghost use Rattle.std.specs.Prelude.{◌≡◌, ◌≤ℤ◌, ◌^◌, ℕ, pos, [], ◌∷◌, IfOk};
ghost use Rattle.clu_state.specs.State.{State};
ghost use Rattle.clu_cuts.specs.Cuts.{AreCuts, IsClaw, IsTriangle};
ghost use Rattle.clu_cuts.specs.Point.{AreGroups, IsPoint, TwoSetAt};
ghost use Rattle.clu_cuts.specs.Stars.{claws, first_broken, triangles};

use crate::claws::all_claws;
use crate::point::{Cut, Point};
use crate::shares::Shares;
use crate::triangles::all_triangles;
use clu_partition::Seq;
use clu_state::Situation;
use std::alloc::{AllocError, Global};

/// The first 50 triangles that the point violates, by the centre and then the others, rising; none
/// exactly where it violates none. The first set is the centre. Fails for want of memory alone.
pub fn violated_triangles<S: Situation>(
    alloc: Global,
    state: &S,
    point: &Point,
) -> Result<Seq<Cut>, AllocError>
    requires point { IsPoint (S.state state.now) point.now }
    requires common { point.now.den ≤ℤ pos (2 ^ 100) }
    ensures first { IfOk result (λ cuts.
        cuts ≡ first_broken point.now (triangles (S.state state.now))) }
    ensures found { IfOk result (λ cuts. AreCuts (IsTriangle (S.state state.now)) point.now cuts) }
    ensures none { IfOk result (λ cuts. cuts ≡ [] → (a b c : ℕ)
        → AreGroups (S.state state.now) (a ∷ b ∷ c ∷ []) → TwoSetAt point.now (a ∷ []) (b ∷ c ∷ [])) }
{
    let leaders = state.leaders(alloc)?;
    let shares = Shares::new(alloc, state, leaders.as_slice(), point)?;
    all_triangles(alloc, &shares)
}

/// The first 50 claws that the point violates, by the centre and then the others, rising; none
/// exactly where it violates none. The first set is the centre. Fails for want of memory alone.
pub fn violated_claws<S: Situation>(
    alloc: Global,
    state: &S,
    point: &Point,
) -> Result<Seq<Cut>, AllocError>
    requires point { IsPoint (S.state state.now) point.now }
    requires common { point.now.den ≤ℤ pos (2 ^ 100) }
    ensures first { IfOk result (λ cuts.
        cuts ≡ first_broken point.now (claws (S.state state.now))) }
    ensures found { IfOk result (λ cuts. AreCuts (IsClaw (S.state state.now)) point.now cuts) }
    ensures none { IfOk result (λ cuts. cuts ≡ [] → (a b c d : ℕ)
        → AreGroups (S.state state.now) (a ∷ b ∷ c ∷ d ∷ [])
        → TwoSetAt point.now (a ∷ []) (b ∷ c ∷ d ∷ [])) }
{
    let leaders = state.leaders(alloc)?;
    let shares = Shares::new(alloc, state, leaders.as_slice(), point)?;
    all_claws(alloc, &shares)
}
