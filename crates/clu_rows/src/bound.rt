//! The bound that a leaf proves: multipliers of two-set inequalities are a feasible dual solution of the linear program over
//! them, so no partition is worth more (linear-programming duality; two-set inequalities: Grötschel and Wakabayashi 1990).

ghost use Rattle.std.specs.Prelude.{◌≡◌, ◌≢◌, ◌<◌, ◌≤◌, ◌^◌, ℕ, ℤ, pos, ◌≤ℤ◌, All, Contains, IfOk, IsErrOf, OnErr, unsigned_abs};
ghost use Rattle.clu_partition.specs.Sums.{positive};
ghost use Rattle.clu_partition.specs.Values.{value_on};
ghost use Rattle.clu_partition.specs.Pairs.{weight_of};
ghost use Rattle.clu_state.specs.State.{IsState, InClass, leader};
ghost use Rattle.clu_rows.specs.Rows.{row_limit as row_limit_of, leaf_bound_of};
ghost use Rattle.clu_rows.specs.Prices.{uncovered as uncovered_of, uncovered_with as uncovered_with_of, uncovered_all};
ghost use Rattle.clu_rows.specs.Faults.{AreRows, IsDenominator, IsFirstBadRow, rows_mass};

use crate::faults::first_fault;
use crate::prices::{add_rows, clear};
use crate::row::{Leaf, LeafFault};
use crate::rows::Rows;
use clu_partition::{Residual, Vertex};
use clu_state::Situation;

/// The bound that a leaf proves: no partition of the state's class has a greater value. `scratch`
/// has room for the problem's vertices, and what it holds doesn't matter; after a fault it holds it
/// still.
///
/// The bound is the value inside the groups and, over the denominator and rounded down, the
/// multipliers times the rows' right sides and what these leave uncovered of the free pairs.
pub fn leaf_bound<S: Situation>(
    state: &S,
    leaf: &Leaf,
    scratch: &mut Residual,
) -> Result<i128, LeafFault>
    requires { (S.state state.now).pairs.n ≤ scratch.old.n }
    ensures ok { IfOk result (λ bound. bound
        ≡ leaf_bound_of (S.state state.now) leaf.now.den leaf.now.rows) }
    ensures sound { IfOk result (λ bound. (label : ℕ → ℕ) → InClass (S.state state.now) label
        → value_on (weight_of (S.state state.now).pairs) label (S.state state.now).members ≤ℤ bound) }
    ensures denominator { IfOk result (λ _. IsDenominator leaf.now.den) }
    ensures rows { IfOk result (λ _. AreRows (S.state state.now) leaf.now.rows) }
    ensures den_fault { IsErrOf result LeafFault.Den → IsDenominator leaf.now.den → ⊥ }
    ensures row_fault { (row : ℕ) → IsErrOf result (LeafFault.Row row)
        → IsDenominator leaf.now.den × IsFirstBadRow (S.state state.now) leaf.now.rows row }
    ensures room { scratch.new.n ≡ scratch.old.n }
    ensures kept { OnErr result (scratch.new ≡ scratch.old) }
{
    if leaf.den == 0 || leaf.den > 1 << 32 {
        return Err(LeafFault::Den);
    }
    if let Some(row) = first_fault(state, &leaf.rows) {
        return Err(LeafFault::Row { row });
    }
    Ok(sound_bound(state, leaf, scratch))
}

/// The multipliers times the rows' right sides.
pub(crate) fn row_limit(rows: &Rows) -> u128
    requires { rows_mass rows.now ≤ 2 ^ 120 }
    ensures { pos result ≡ row_limit_of rows.now }
{
    let mut sum = 0;
    for i in 0..rows.len() {
        let row = rows.row(i);
        sum += row.y * row.limit();
    }
    sum
}

fn positive_part(x: i128) -> u128
    ensures { result ≡ positive x }
{
    if x > 0 { x as u128 } else { 0 }
}

/// What the prices leave uncovered of the weight of two groups, times den.
fn uncovered<S: Situation>(state: &S, den: u64, prices: &Residual, a: Vertex, b: Vertex) -> u128
    requires valid { IsState (S.state state.now) }
    requires den { den ≤ 2 ^ 32 }
    requires room { (S.state state.now).pairs.n ≤ prices.now.n }
    requires first { Contains (S.state state.now).members a }
    requires second { Contains (S.state state.now).members b }
    requires differ { a ≢ b }
    requires leads { leader (S.state state.now) a ≡ a }
    requires small { unsigned_abs (weight_of prices.now a b) ≤ 2 ^ 120 }
    ensures { pos result ≡ uncovered_of (S.state state.now) den prices.now a b }
{
    if state.group_of(b) != b {
        return 0;
    }
    if state.is_apart(a, b) {
        return 0;
    }
    let left = den as i128 * state.weight(a, b) - prices.get(a.place(), b.place());
    positive_part(left)
}

/// The same for a with each of those after it.
fn uncovered_with<S: Situation>(
    state: &S,
    den: u64,
    prices: &Residual,
    a: Vertex,
    later: &[Vertex],
) -> u128
    requires valid { IsState (S.state state.now) }
    requires den { den ≤ 2 ^ 32 }
    requires room { (S.state state.now).pairs.n ≤ prices.now.n }
    requires member { Contains (S.state state.now).members a }
    requires later { All (Contains (S.state state.now).members) later.now }
    requires differ { All (λ b. a ≢ b) later.now }
    requires cells { (x z : ℕ) → Contains (S.state state.now).members x
        → Contains (S.state state.now).members z → unsigned_abs (weight_of prices.now x z) ≤ 2 ^ 120 }
    requires small { uncovered_with_of (S.state state.now) den prices.now a later.now ≤ℤ pos (2 ^ 121) }
    ensures { pos result ≡ uncovered_with_of (S.state state.now) den prices.now a later.now }
{
    if state.group_of(a) != a {
        return 0;
    }
    let mut sum = 0;
    for b in later {
        sum += uncovered(state, den, prices, a, *b);
    }
    sum
}

/// The same for all pairs of groups.
fn excess<S: Situation>(state: &S, den: u64, prices: &Residual) -> u128
    requires den { den ≤ 2 ^ 32 }
    requires room { (S.state state.now).pairs.n ≤ prices.now.n }
    requires cells { (x z : ℕ) → Contains (S.state state.now).members x
        → Contains (S.state state.now).members z → unsigned_abs (weight_of prices.now x z) ≤ 2 ^ 120 }
    requires small { uncovered_all (S.state state.now) den prices.now (S.state state.now).members
        ≤ℤ pos (2 ^ 121) }
    ensures { pos result ≡ uncovered_all (S.state state.now) den prices.now
        (S.state state.now).members }
{
    let members = state.members();
    let mut sum = 0;
    for (i, a) in members.iter().enumerate() {
        sum += uncovered_with(state, den, prices, *a, &members[i + 1..]);
    }
    sum
}

/// The bound of a leaf without a fault.
fn sound_bound<S: Situation>(state: &S, leaf: &Leaf, scratch: &mut Residual) -> i128
    requires room { (S.state state.now).pairs.n ≤ scratch.old.n }
    requires den { IsDenominator leaf.now.den }
    requires rows { AreRows (S.state state.now) leaf.now.rows }
    ensures value { result ≡ leaf_bound_of (S.state state.now) leaf.now.den leaf.now.rows }
    ensures sound { (label : ℕ → ℕ) → InClass (S.state state.now) label
        → value_on (weight_of (S.state state.now).pairs) label (S.state state.now).members ≤ℤ result }
    ensures room { scratch.new.n ≡ scratch.old.n }
{
    clear(scratch, state.members());
    add_rows(state, scratch, &leaf.rows);
    let covered = row_limit(&leaf.rows);
    let left = excess(state, leaf.den, scratch);
    state.fixed_value() + ((covered + left) / leaf.den as u128) as i128
}
