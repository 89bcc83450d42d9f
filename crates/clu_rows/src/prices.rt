//! The prices that rows set on pairs of groups: the sum of the multipliers times the coefficients of the two-set inequalities
//! (Grötschel and Wakabayashi 1990), in a table that is cleared at the pairs of members alone.

ghost use Rattle.std.specs.Prelude.{◌≡◌, ◌≢◌, ◌<◌, ◌≤◌, ◌+◌, ◌*◌, ◌^◌, IsTrue, ℕ, ℤ, pos, ◌+ℤ◌, ◌≤ℤ◌, length, All, Contains, unsigned_abs, slice_index, ◌*ℤ◌};
ghost use Rattle.clu_partition.specs.Sums.{total, cross_total, pair_total, only_if};
ghost use Rattle.clu_partition.specs.Pairs.{are_pair, weight_of};
ghost use Rattle.clu_state.specs.State.{IsState, leader};
ghost use Rattle.clu_rows.specs.Rows.{coefficient, priced};
ghost use Rattle.clu_rows.specs.Prices.{hit};
ghost use Rattle.clu_rows.specs.Faults.{IsRow, AreRows};

use crate::row::Row;
use crate::rows::Rows;
use clu_partition::{Residual, Vertex};
use clu_state::Situation;

/// Adds all rows to a table that is 0 at each pair of members.
pub fn add_rows<S: Situation>(state: &S, scratch: &mut Residual, rows: &Rows)
    requires valid { IsState (S.state state.now) }
    requires room { (S.state state.now).pairs.n ≤ scratch.old.n }
    requires rows { AreRows (S.state state.now) rows.now }
    requires clear { (x z : ℕ) → Contains (S.state state.now).members x
        → Contains (S.state state.now).members z → x ≢ z → weight_of scratch.old x z ≡ pos 0 }
    ensures size { scratch.new.n ≡ scratch.old.n }
    ensures sums { (x z : ℕ) → Contains (S.state state.now).members x
        → Contains (S.state state.now).members z → x ≢ z
        → weight_of scratch.new x z ≡ priced (leader (S.state state.now)) rows.now x z }
{
    for i in 0..rows.len() {
        add_row(state, scratch, &rows.row(i));
    }
}

/// Adds k to the number of a and b.
fn add_pair(scratch: &mut Residual, a: Vertex, b: Vertex, k: i128)
    requires a { a < scratch.old.n }
    requires b { b < scratch.old.n }
    requires small { (unsigned_abs (weight_of scratch.old a b) + unsigned_abs k) < 2 ^ 127 }
    ensures size { scratch.new.n ≡ scratch.old.n }
    ensures sums { (x z : ℕ) → x < scratch.old.n → z < scratch.old.n → x ≢ z
        → weight_of scratch.new x z ≡ weight_of scratch.old x z +ℤ only_if (are_pair a b x z) k }
{
    let (p, q) = (a.place(), b.place());
    let sum = scratch.get(p, q) + k;
    scratch.set(p, q, sum);
}

/// Adds k to the number of the group of v and that of each of the others.
fn add_with<S: Situation>(state: &S, scratch: &mut Residual, v: Vertex, others: &[Vertex], k: i128)
    requires valid { IsState (S.state state.now) }
    requires room { (S.state state.now).pairs.n ≤ scratch.old.n }
    requires member { Contains (S.state state.now).members v }
    requires members { All (Contains (S.state state.now).members) others.now }
    requires small { (x z : ℕ) → Contains (S.state state.now).members x
        → Contains (S.state state.now).members z
        → (unsigned_abs (weight_of scratch.old x z) + (length others.now + 1) * unsigned_abs k)
        < 2 ^ 127 }
    ensures size { scratch.new.n ≡ scratch.old.n }
    ensures sums { (x z : ℕ) → Contains (S.state state.now).members x
        → Contains (S.state state.now).members z → x ≢ z
        → weight_of scratch.new x z ≡ weight_of scratch.old x z
        +ℤ total (hit (leader (S.state state.now)) x z k v) others.now }
{
    for w in others {
        add_pair(scratch, state.group_of(v), state.group_of(*w), k);
    }
}

/// Adds k to the number of each group of the one list with each of the other.
fn add_across<S: Situation>(
    state: &S,
    scratch: &mut Residual,
    first: &[Vertex],
    second: &[Vertex],
    k: i128,
)
    requires valid { IsState (S.state state.now) }
    requires room { (S.state state.now).pairs.n ≤ scratch.old.n }
    requires first { All (Contains (S.state state.now).members) first.now }
    requires second { All (Contains (S.state state.now).members) second.now }
    requires small { (x z : ℕ) → Contains (S.state state.now).members x
        → Contains (S.state state.now).members z
        → (unsigned_abs (weight_of scratch.old x z)
        + length first.now * ((length second.now + 1) * unsigned_abs k)) < 2 ^ 127 }
    ensures size { scratch.new.n ≡ scratch.old.n }
    ensures sums { (x z : ℕ) → Contains (S.state state.now).members x
        → Contains (S.state state.now).members z → x ≢ z
        → weight_of scratch.new x z ≡ weight_of scratch.old x z
        +ℤ cross_total (hit (leader (S.state state.now)) x z k) first.now second.now }
{
    for v in first {
        add_with(state, scratch, *v, second, k);
    }
}

/// Adds k to the number of each two groups of the list.
fn add_inside<S: Situation>(state: &S, scratch: &mut Residual, list: &[Vertex], k: i128)
    requires valid { IsState (S.state state.now) }
    requires room { (S.state state.now).pairs.n ≤ scratch.old.n }
    requires members { All (Contains (S.state state.now).members) list.now }
    requires small { (x z : ℕ) → Contains (S.state state.now).members x
        → Contains (S.state state.now).members z
        → (unsigned_abs (weight_of scratch.old x z)
        + length list.now * (length list.now * unsigned_abs k)) < 2 ^ 127 }
    ensures size { scratch.new.n ≡ scratch.old.n }
    ensures sums { (x z : ℕ) → Contains (S.state state.now).members x
        → Contains (S.state state.now).members z → x ≢ z
        → weight_of scratch.new x z ≡ weight_of scratch.old x z
        +ℤ pair_total (hit (leader (S.state state.now)) x z k) list.now }
{
    for (i, v) in list.iter().enumerate() {
        add_with(state, scratch, *v, &list[i + 1..], k);
    }
}

/// Adds the row's multiplier times its coefficients.
fn add_row<S: Situation>(state: &S, scratch: &mut Residual, row: &Row)
    requires valid { IsState (S.state state.now) }
    requires room { (S.state state.now).pairs.n ≤ scratch.old.n }
    requires row { IsRow (S.state state.now) row.now }
    requires worth { row.now.y * (length row.now.s + length row.now.t) ^ 2 ≤ 2 ^ 120 }
    requires small { (x z : ℕ) → Contains (S.state state.now).members x
        → Contains (S.state state.now).members z
        → (unsigned_abs (weight_of scratch.old x z)
        + row.now.y * (length row.now.s + length row.now.t) ^ 2) ≤ 2 ^ 120 }
    ensures size { scratch.new.n ≡ scratch.old.n }
    ensures sums { (x z : ℕ) → Contains (S.state state.now).members x
        → Contains (S.state state.now).members z → x ≢ z
        → weight_of scratch.new x z ≡ weight_of scratch.old x z
        +ℤ pos row.now.y *ℤ coefficient (leader (S.state state.now)) row.now x z }
{
    let (s, t) = (row.s, row.t);
    let y = row.y as i128;
    add_across(state, scratch, s, t, y);
    add_inside(state, scratch, s, -y);
    add_inside(state, scratch, t, -y);
}

/// Clears the pairs of the member at i with those after it.
fn clear_row(scratch: &mut Residual, members: &[Vertex], i: usize)
    requires below { All (λ v. v < scratch.old.n) members.now }
    requires i { i < length members.now }
    ensures size { scratch.new.n ≡ scratch.old.n }
    ensures row { (j : ℕ) → i < j → j < length members.now
        → slice_index members.now i ≢ slice_index members.now j
        → weight_of scratch.new (slice_index members.now i) (slice_index members.now j) ≡ pos 0 }
    ensures kept { (x z : ℕ) → x < scratch.old.n → z < scratch.old.n → weight_of scratch.old x z ≡ pos 0
        → weight_of scratch.new x z ≡ pos 0 }
{
    let u = members[i];
    for j in i + 1..members.len() {
        let v = members[j];
        scratch.set(u.place(), v.place(), 0);
    }
}

/// Clears the pairs of members.
pub fn clear(scratch: &mut Residual, members: &[Vertex])
    requires below { All (λ v. v < scratch.old.n) members.now }
    ensures size { scratch.new.n ≡ scratch.old.n }
    ensures clear { (x z : ℕ) → Contains members.now x → Contains members.now z → x ≢ z
        → weight_of scratch.new x z ≡ pos 0 }
{
    for i in 0..members.len() {
        clear_row(scratch, members, i);
    }
}
