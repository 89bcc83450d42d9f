//! The faults of a leaf's rows: each names members of different groups, and the rows' worth together stays below a limit.
//! The limit keeps each sum of the bound in 128 bits, so that nothing has to be tested while it is taken.

ghost use Rattle.std.specs.Prelude.{◌≡◌, ◌≢◌, ◌↔◌, ◌<◌, ◌≤◌, ◌+◌, ◌*◌, ◌^◌, ◌++◌, All, Contains, IsTrue, IfSome, IsNone, length};
ghost use Rattle.clu_state.specs.State.{leader};
ghost use Rattle.clu_partition.specs.Groups.{NamesOnce};
ghost use Rattle.clu_rows.specs.Faults.{IsRow, AreRows, IsFirstBadRow};

use crate::row::Row;
use crate::rows::Rows;
use clu_partition::Vertex;
use clu_state::Situation;

/// The largest worth of a leaf's rows: the sum of the multipliers times the squares of the rows'
/// numbers of vertices.
const LIMIT: u128 = 1 << 120;

/// The first row with which the rows have a fault, counted from 1.
pub fn first_fault<S: Situation>(state: &S, rows: &Rows) -> Option<u64>
    ensures some { IfSome result (IsFirstBadRow (S.state state.now) rows.now) }
    ensures none { IsNone result → AreRows (S.state state.now) rows.now }
{
    let mut room = LIMIT;
    for i in 0..rows.len() {
        match room_after(state, &rows.row(i), room) {
            Some(left) => room = left,
            None => return Some(i as u64 + 1),
        }
    }
    None
}

/// Whether each vertex of the list is a member.
fn are_members<S: Situation>(state: &S, list: &[Vertex]) -> bool
    ensures { IsTrue result ↔ All (Contains (S.state state.now).members) list.now }
{
    for v in list {
        if !state.has_member(*v) {
            return false;
        }
    }
    true
}

/// Whether no other vertex names the group of v.
fn names_alone<S: Situation>(state: &S, v: Vertex, others: &[Vertex]) -> bool
    requires member { Contains (S.state state.now).members v }
    requires members { All (Contains (S.state state.now).members) others.now }
    ensures { IsTrue result ↔ All (λ w.
        leader (S.state state.now) v ≢ leader (S.state state.now) w) others.now }
{
    let group = state.group_of(v);
    for w in others {
        if state.group_of(*w) == group {
            return false;
        }
    }
    true
}

/// Whether no two vertices of the list, and none of it and one of the others, name one group.
fn names_differ<S: Situation>(state: &S, list: &[Vertex], others: &[Vertex]) -> bool
    requires list { All (Contains (S.state state.now).members) list.now }
    requires others { All (Contains (S.state state.now).members) others.now }
    ensures holds { IsTrue result → NamesOnce (leader (S.state state.now)) others.now
        → NamesOnce (leader (S.state state.now)) (list.now ++ others.now) }
    ensures needed { NamesOnce (leader (S.state state.now)) (list.now ++ others.now) → IsTrue result }
{
    for (i, v) in list.iter().enumerate() {
        if !names_alone(state, *v, &list[i + 1..]) {
            return false;
        }
        if !names_alone(state, *v, others) {
            return false;
        }
    }
    true
}

/// Whether the row has a multiplier and a vertex in each set, and no more vertices than `most`.
fn has_shape(row: &Row, most: usize) -> bool
    ensures { IsTrue result ↔ ((0 < length row.now.s) × (0 < length row.now.t) × (0 < row.now.y)
        × (length row.now.s + length row.now.t ≤ most)) }
{
    let (s, t) = (row.s.len(), row.t.len());
    s > 0 && t > 0 && row.y > 0 && s <= most && t <= most - s
}

/// Whether the row is one that a leaf may have.
fn is_row<S: Situation>(state: &S, row: &Row) -> bool
    ensures fits { IsTrue result ↔ IsRow (S.state state.now) row.now }
    ensures few { IsTrue result → length row.now.s + length row.now.t ≤ 1000 }
{
    if !has_shape(row, state.members().len()) {
        return false;
    }
    let (s, t) = (row.s, row.t);
    if !are_members(state, s) {
        return false;
    }
    if !are_members(state, t) {
        return false;
    }
    if !names_differ(state, t, &[]) {
        return false;
    }
    names_differ(state, s, t)
}

/// What the row leaves of the room for the rows' worth.
fn room_after<S: Situation>(state: &S, row: &Row, room: u128) -> Option<u128>
    ensures some { IfSome result (λ left. IsRow (S.state state.now) row.now
        × (left + row.now.y * (length row.now.s + length row.now.t) ^ 2 ≡ room)) }
    ensures none { IsNone result → IsRow (S.state state.now) row.now
        → room < row.now.y * (length row.now.s + length row.now.t) ^ 2 }
{
    if !is_row(state, row) {
        return None;
    }
    let size = (row.s.len() + row.t.len()) as u128;
    let square = size * size;
    if row.y > room / square {
        return None;
    }
    Some(room - row.y * square)
}
