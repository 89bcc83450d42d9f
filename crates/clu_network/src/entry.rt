//! What one line of an edge list says: a vertex alone, or two that a weight joins. The first of its
//! causes is named where it says neither.

ghost use Rattle.std.specs.Prelude.{◌≡◌, ◌≢◌, ◌≤◌, [], IfSome, MatchResult};
ghost use Rattle.clu_text.specs.Lines.{fields_of};
ghost use Rattle.clu_network.specs.Entries.{IsEntry, IsEntryFault};

use clu_text::{Decimal, fields, read_decimal};

/// What a line says: that there is a vertex, or that a line of this weight joins two.
#[derive(Clone, Copy, Debug)]
pub(crate) enum Entry<'a> {
    Lone(&'a [u8]),
    Joined(&'a [u8], &'a [u8], Decimal),
}

/// Why it says neither.
#[derive(Clone, Copy, Debug)]
pub(crate) enum Fault {
    Fields,
    Weight,
}

/// What a line with fields says.
pub(crate) fn read_entry<'a>(line: &'a [u8], cut: Option<u8>) -> Result<Entry<'a>, Fault>
    requires cut { IfSome cut (λ k. k ≤ 9) }
    requires some { fields_of line.now ≢ [] }
    ensures { MatchResult result (λ e. IsEntry cut (fields_of line.now) e)
        (λ f. IsEntryFault cut (fields_of line.now) f) }
{
    let mut rest = fields(line);
    let Some(u) = rest.next() else {
        unreachable!();
    };
    let Some(v) = rest.next() else {
        return Ok(Entry::Lone(u));
    };
    let Some(field) = rest.next() else {
        return Ok(Entry::Joined(
            u,
            v,
            Decimal {
                units: 1,
                places: 0,
            },
        ));
    };
    if rest.next().is_some() {
        return Err(Fault::Fields);
    }
    match read_decimal(field, cut) {
        Ok(weight) => Ok(Entry::Joined(u, v, weight)),
        Err(_) => Err(Fault::Weight),
    }
}
