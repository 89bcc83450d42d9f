//! What a line says of vertices, once its names are looked up. A rule is a line's form with vertices
//! in place of names, so what it says depends on no other line.

ghost use Rattle.std.specs.Prelude.{◌≡◌, MatchOption};
ghost use Rattle.clu_rules.specs.Lines.{as_form, as_rule, Says, HasUnknown};

use crate::form::Form;
use clu_partition::{Names, Vertex};

/// A line by its vertices, keys and values.
#[derive(Clone, Copy, Debug)]
pub(crate) enum Rule<'a> {
    Together(Vertex, Vertex),
    Apart(Vertex, Vertex),
    Attribute(Vertex, &'a [u8], &'a [u8]),
    Share(&'a [u8]),
    Differ(&'a [u8]),
    Same(&'a [u8]),
}

/// What a line says of the vertices that it names; none where one of its names is that of no vertex.
pub(crate) fn rule_of<'a, N: Names>(names: &N, form: Form<'a>) -> Option<Rule<'a>>
    ensures { MatchOption result (HasUnknown (N.is_named names.now) (as_form form.entry))
        (λ rule. Says (N.is_named names.now) (as_form form.entry) (as_rule rule)) }
{
    match form {
        Form::Together(a, b) => {
            let u = names.find(a)?;
            let v = names.find(b)?;
            Some(Rule::Together(u, v))
        }
        Form::Apart(a, b) => {
            let u = names.find(a)?;
            let v = names.find(b)?;
            Some(Rule::Apart(u, v))
        }
        Form::Attribute(a, key, value) => {
            let v = names.find(a)?;
            Some(Rule::Attribute(v, key, value))
        }
        Form::Share(key) => Some(Rule::Share(key)),
        Form::Differ(key) => Some(Rule::Differ(key)),
        Form::Same(key) => Some(Rule::Same(key)),
    }
}

/// The same rule once more.
pub(crate) fn copy_of<'a>(rule: &Rule<'a>) -> Rule<'a>
    ensures { as_rule result ≡ as_rule rule.now }
{
    match rule {
        Rule::Together(u, v) => Rule::Together(*u, *v),
        Rule::Apart(u, v) => Rule::Apart(*u, *v),
        Rule::Attribute(v, key, value) => Rule::Attribute(*v, *key, *value),
        Rule::Share(key) => Rule::Share(*key),
        Rule::Differ(key) => Rule::Differ(*key),
        Rule::Same(key) => Rule::Same(*key),
    }
}
