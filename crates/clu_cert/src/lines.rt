//! The lines with a fixed number of fields: each is read by one function, whose contract says that no other
//! value has this spelling.

ghost use Rattle.std.specs.Prelude.{◌≡◌, ◌≤◌, ◌^◌, ◌↔◌, ℕ, List, [], ◌∷◌, IsTrue, MatchOption, unsigned_abs};
ghost use Rattle.clu_cert.specs.Cut.{spaced_fields};
ghost use Rattle.clu_cert.specs.Reads.{ReadsSpelling};
ghost use Rattle.clu_cert.specs.Text.{from_one, kind_word, objective_line, count_line, whole_line, step_line, version_line, end_line};
ghost use Rattle.clu_cert.specs.Fits.{IndexFits, StepFits};

use crate::cut::{Fields, fields_of};
use crate::numbers::{read_long, read_small, read_whole};
use clu_objective::Objective;
use clu_partition::Vertex;
use clu_reduce::{Kind, Step};

/// Whether the field is the word.
pub fn is_word(field: &[u8], word: &[u8]) -> bool
    ensures { IsTrue result ↔ (field.now ≡ word.now) }
{
    field == word
}

/// A number from 1 to 1,000, as it stands inside.
pub fn read_place(field: &[u8]) -> Option<u32>
    ensures { ReadsSpelling from_one IndexFits field.now result }
{
    let n = read_small(field)?;
    if n == 0 || n > 1000 {
        return None;
    }
    Some(n - 1)
}

/// The kind of a step.
pub fn read_kind(field: &[u8]) -> Option<Kind>
    ensures { ReadsSpelling kind_word (λ _. Unit {0}) field.now result }
{
    if is_word(field, b"twin") {
        Some(Kind::Twin)
    } else if is_word(field, b"pair") {
        Some(Kind::Pair)
    } else if is_word(field, b"heavy") {
        Some(Kind::Heavy)
    } else if is_word(field, b"light") {
        Some(Kind::Light)
    } else {
        None
    }
}

/// The field behind the word, where the line has no other.
fn behind_word<'a>(line: &'a [u8], word: &[u8]) -> Option<&'a [u8]>
    ensures { MatchOption result
        ((field : List ℕ) → spaced_fields line.now ≡ word.now ∷ field ∷ [] → ⊥)
        (λ field. spaced_fields line.now ≡ word.now ∷ field.now ∷ []) }
{
    let mut rest = fields_of(line);
    let first = rest.next()?;
    let second = rest.next()?;
    if rest.next().is_some() || !is_word(first, word) {
        return None;
    }
    Some(second)
}

/// The fields of a line that has three.
pub fn three_fields(line: &[u8]) -> Option<(&[u8], &[u8], &[u8])>
    ensures { MatchOption result
        ((f g h : List ℕ) → spaced_fields line.now ≡ f ∷ g ∷ h ∷ [] → ⊥)
        (λ three. spaced_fields line.now ≡ three.0.now ∷ three.1.now ∷ three.2.now ∷ []) }
{
    let mut rest = fields_of(line);
    let first = rest.next()?;
    let second = rest.next()?;
    let third = rest.next()?;
    if rest.next().is_some() {
        return None;
    }
    Some((first, second, third))
}

/// A line of a word and a count that is at most `most`.
pub fn read_count(line: &[u8], word: &[u8], most: u64) -> Option<u64>
    ensures { ReadsSpelling (count_line word.now) (λ n. n ≤ most) (spaced_fields line.now) result }
{
    let field = behind_word(line, word)?;
    let n = read_long(field)?;
    if n > most {
        return None;
    }
    Some(n)
}

/// A line of a word and a whole number.
pub fn read_value(line: &[u8], word: &[u8]) -> Option<i128>
    ensures { ReadsSpelling (whole_line word.now) (λ z. unsigned_abs z ≤ 2 ^ 126) (spaced_fields line.now) result }
{
    let field = behind_word(line, word)?;
    read_whole(field)
}

/// The line `objective`.
pub fn read_objective(line: &[u8]) -> Option<Objective>
    ensures { ReadsSpelling objective_line (λ _. Unit {0}) (spaced_fields line.now) result }
{
    let Some(field) = behind_word(line, b"objective") else {
        return None;
    };
    if is_word(field, b"edits") {
        Some(Objective::Edits)
    } else if is_word(field, b"agreement") {
        Some(Objective::Agreement)
    } else if is_word(field, b"modularity") {
        Some(Objective::Modularity)
    } else {
        None
    }
}

/// Whether the line is the first of a certificate.
pub fn is_version(line: &[u8]) -> bool
    ensures { IsTrue result ↔ (spaced_fields line.now ≡ version_line) }
{
    match behind_word(line, b"clucert") {
        Some(field) => is_word(field, b"1"),
        None => false,
    }
}

/// Whether the line is the last of a certificate.
pub fn is_end(line: &[u8]) -> bool
    ensures { IsTrue result ↔ (spaced_fields line.now ≡ end_line) }
{
    let mut rest = fields_of(line);
    match rest.next() {
        Some(first) => rest.next().is_none() && is_word(first, b"end"),
        None => false,
    }
}

/// The line of a root step.
pub fn read_step(line: &[u8]) -> Option<Step>
    ensures { ReadsSpelling step_line StepFits (spaced_fields line.now) result }
{
    let (word, one, two) = three_fields(line)?;
    let kind = read_kind(word)?;
    let u = read_place(one)?;
    let v = read_place(two)?;
    Some(Step {
        kind,
        u: Vertex(u),
        v: Vertex(v),
    })
}
