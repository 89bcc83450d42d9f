//! The pairs of vertices whose values under a key are equal, or are different. Every two values are
//! compared, which is at most 1,000 times 1,000 for a key.

ghost use Rattle.std.specs.Prelude.{◌<◌, ◌↔◌, All, IsTrue};
ghost use Rattle.clu_rules.specs.Puts.{Puts, Any, Clash, ClashAt, ClashIn};

use crate::form::are_equal;
use clu_partition::{PairSet, Vertex};

/// A vertex with its value under a key.
#[derive(Clone, Copy, Debug)]
pub(crate) struct Value<'a> {
    pub vertex: Vertex,
    pub value: &'a [u8],
}

/// Puts the pairs of vertices with equal values into the set, or those with different ones.
pub(crate) fn put_values(set: &mut PairSet, equal: bool, values: &[Value<'_>])
    requires { All (λ a. a.vertex < set.old.n) values.now }
    ensures { Puts (λ u v. Any (ClashIn equal values.now) values.now u v) set.old set.new }
{
    for a in values {
        put_row(set, equal, a, values);
    }
}

fn put_row(set: &mut PairSet, equal: bool, a: &Value<'_>, values: &[Value<'_>])
    requires first { a.now.vertex < set.old.n }
    requires others { All (λ b. b.vertex < set.old.n) values.now }
    ensures { Puts (ClashIn equal values.now a.now) set.old set.new }
{
    for b in values {
        put_two(set, equal, a, b);
    }
}

fn put_two(set: &mut PairSet, equal: bool, a: &Value<'_>, b: &Value<'_>)
    requires first { a.now.vertex < set.old.n }
    requires second { b.now.vertex < set.old.n }
    ensures { Puts (ClashAt equal a.now b.now) set.old set.new }
{
    if clash(equal, a, b) {
        set.put(a.vertex, b.vertex);
    }
}

/// Whether two values make a pair: equal ones of two vertices, or different ones.
fn clash(equal: bool, a: &Value<'_>, b: &Value<'_>) -> bool
    ensures { IsTrue result ↔ Clash equal a.now b.now }
{
    let same = are_equal(a.value, b.value);
    if equal {
        same && a.vertex != b.vertex
    } else {
        !same
    }
}
