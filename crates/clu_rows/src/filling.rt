//! The table before the first triangle: the weights of the free pairs of groups, and 0 where two groups are apart. It is filled anew
//! at each node, in room that is kept.
ghost use Rattle.std.specs.Prelude.{◌≡◌, ◌≢◌, ◌<◌, ◌≤◌, ℕ, length, slice_index, not, []};
ghost use Rattle.clu_partition.specs.Pairs.{weight_of};
ghost use Rattle.clu_partition.specs.Sums.{only_if};
ghost use Rattle.clu_state.specs.State.{IsState, are_apart, group_leaders, group_weight};
ghost use Rattle.clu_rows.specs.Table.{IsLeftTable};

use clu_partition::{Place, Residual, Vertex};
use clu_state::Situation;

/// Writes the weights of all free pairs.
pub(crate) fn fill<S: Situation>(state: &S, groups: &[Vertex], left: &mut Residual)
    requires room { length groups.now ≤ left.old.n }
    requires valid { IsState (S.state state.now) }
    requires leaders { groups.now ≡ group_leaders (S.state state.now) }
    ensures room { left.new.n ≡ left.old.n }
    ensures packed { IsLeftTable (S.state state.now) groups.now left.new [] }
{
    for i in 0..groups.len() {
        fill_row(state, groups, left, i);
    }
}

/// Writes the weights of the free pairs of the group at place i with the later ones.
fn fill_row<S: Situation>(state: &S, groups: &[Vertex], left: &mut Residual, i: usize)
    requires i { i < length groups.now }
    requires room { length groups.now ≤ left.old.n }
    requires valid { IsState (S.state state.now) }
    requires leaders { groups.now ≡ group_leaders (S.state state.now) }
    ensures room { left.new.n ≡ left.old.n }
    ensures row { (z : ℕ) → i < z → z < length groups.now
        → weight_of left.new i z ≡ only_if (not (are_apart (S.state state.now)
        (slice_index groups.now i) (slice_index groups.now z))) (group_weight (S.state state.now)
        (slice_index groups.now i) (slice_index groups.now z)) }
    ensures others { (x z : ℕ) → x < i → x < z → z < length groups.now
        → weight_of left.new x z ≡ weight_of left.old x z }
{
    for j in i + 1..groups.len() {
        left.set(Place(i), Place(j), free_weight(state, groups, i, j));
    }
}

/// The weight of two groups where they are free, else 0.
fn free_weight<S: Situation>(state: &S, groups: &[Vertex], i: usize, j: usize) -> i128
    requires i { i < length groups.now }
    requires j { j < length groups.now }
    requires differ { i ≢ j }
    requires valid { IsState (S.state state.now) }
    requires leaders { groups.now ≡ group_leaders (S.state state.now) }
    ensures { result ≡ only_if (not (are_apart (S.state state.now) (slice_index groups.now i)
        (slice_index groups.now j))) (group_weight (S.state state.now) (slice_index groups.now i)
        (slice_index groups.now j)) }
{
    let u = groups[i];
    let v = groups[j];
    unless(state.is_apart(u, v), state.weight(u, v))
}

/// 0 where the pair is apart, else its weight.
fn unless(apart: bool, w: i128) -> i128
    ensures { result ≡ only_if (not apart) w }
{
    if apart { 0 } else { w }
}
