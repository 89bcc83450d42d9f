//! The form of a line by its fields alone: which rule it is, of which names, keys and values. The
//! fields are slices of the file, so nothing is copied.

ghost use Rattle.std.specs.Prelude.{◌≡◌, ◌↔◌, ◌∷◌, [], ℕ, List, IsTrue, MatchOption};
ghost use Rattle.clu_text.specs.Lines.{fields_of};
ghost use Rattle.clu_rules.specs.Lines.{is_kept_in_rules as kept, form_fields, as_form, LineForm as Line};

use clu_text::{FieldIter, fields};

/// A line by its names, keys and values.
#[derive(Clone, Copy, Debug)]
pub(crate) enum Form<'a> {
    Together(&'a [u8], &'a [u8]),
    Apart(&'a [u8], &'a [u8]),
    Attribute(&'a [u8], &'a [u8], &'a [u8]),
    Share(&'a [u8]),
    Differ(&'a [u8]),
    Same(&'a [u8]),
}

/// The form of a line; none where its fields are those of no form.
pub(crate) fn form_of<'a>(line: &'a [u8]) -> Option<Form<'a>>
    ensures { MatchOption result ((form : Line) → fields_of line.now ≡ form_fields form → ⊥)
        (λ form. fields_of line.now ≡ form_fields (as_form form)) }
{
    let mut rest = fields(line);
    let word = rest.next()?;
    if are_equal(word, b"together") {
        let (a, b) = two(&mut rest)?;
        return Some(Form::Together(a, b));
    }
    if are_equal(word, b"apart") {
        let (a, b) = two(&mut rest)?;
        return Some(Form::Apart(a, b));
    }
    if are_equal(word, b"attribute") {
        let (a, key, value) = three(&mut rest)?;
        return Some(Form::Attribute(a, key, value));
    }
    if are_equal(word, b"share") {
        let key = one(&mut rest)?;
        return Some(Form::Share(key));
    }
    if are_equal(word, b"differ") {
        let key = one(&mut rest)?;
        return Some(Form::Differ(key));
    }
    if are_equal(word, b"same") {
        let key = one(&mut rest)?;
        return Some(Form::Same(key));
    }
    None
}

/// Whether a line has a field and is no comment.
pub(crate) fn is_kept(line: &[u8]) -> bool
    ensures { result ≡ kept (fields_of line.now) }
{
    match fields(line).next() {
        None => false,
        Some(first) => match first {
            [] => true,
            [byte, ..] => *byte != b'#',
        },
    }
}

/// Whether two texts are the same.
pub(crate) fn are_equal(a: &[u8], b: &[u8]) -> bool
    ensures { IsTrue result ↔ (a.now ≡ b.now) }
{
    a == b
}

/// The one field that is left.
fn one<'a>(rest: &mut FieldIter<'a>) -> Option<&'a [u8]>
    ensures { MatchOption result ((a : List ℕ) → rest.old ≡ a ∷ [] → ⊥) (λ a. rest.old ≡ a.now ∷ []) }
{
    let a = rest.next()?;
    if rest.next().is_some() {
        return None;
    }
    Some(a)
}

/// The two fields that are left.
fn two<'a>(rest: &mut FieldIter<'a>) -> Option<(&'a [u8], &'a [u8])>
    ensures { MatchOption result ((a b : List ℕ) → rest.old ≡ a ∷ b ∷ [] → ⊥)
        (λ r. rest.old ≡ r.0.now ∷ r.1.now ∷ []) }
{
    let a = rest.next()?;
    let b = rest.next()?;
    if rest.next().is_some() {
        return None;
    }
    Some((a, b))
}

/// The three fields that are left.
fn three<'a>(rest: &mut FieldIter<'a>) -> Option<(&'a [u8], &'a [u8], &'a [u8])>
    ensures { MatchOption result ((a b c : List ℕ) → rest.old ≡ a ∷ b ∷ c ∷ [] → ⊥)
        (λ r. rest.old ≡ r.0.now ∷ r.1.now ∷ r.2.now ∷ []) }
{
    let a = rest.next()?;
    let b = rest.next()?;
    let c = rest.next()?;
    if rest.next().is_some() {
        return None;
    }
    Some((a, b, c))
}
