//! Bytes cut at a byte: a text at its line feeds, a line at its spaces. Places are found by `memchr`, and what
//! is cut is borrowed, so no byte is copied.

ghost use Rattle.std.specs.Prelude.{◌≡◌, ◌<◌, ◌≤◌, [], ◌∷◌, length, drop, MatchOption, IfSome};
ghost use Rattle.std.specs.List.{position_or_len, slice_split};
ghost use Rattle.clu_cert.specs.Cut.{is_byte, spaced_fields};

use memchr::memchr;
use std::marker::Model;

/// The fields of a line that are left, cut at each space.
#[derive(Drop)]
pub struct Fields<'a> {
    rest: Option<&'a [u8]>,
}

impl<'a> Model for Fields<'a> {
    ghost use Rattle.std.specs.Prelude.{ℕ, List};
    ghost use Rattle.clu_cert.specs.Cut.{fields_left};

    ghost Value = { List (List ℕ) };

    ghost view = { λ fields. fields_left fields.rest };
}

fn place(bytes: &[u8], by: u8) -> usize
    ensures is { result ≡ position_or_len (is_byte by) bytes.now }
    ensures within { result ≤ length bytes.now }
{
    match memchr(by, bytes) {
        Some(place) => place,
        None => bytes.len(),
    }
}

fn behind(bytes: &[u8], start: usize) -> &[u8]
    requires { start ≤ length bytes.now }
    ensures { result.now ≡ drop start bytes.now }
{
    &bytes[start..]
}

/// The bytes before the first one that is `by`, and those after it.
#[tactic(auto, using(crate::proofs::Cuts::cut_first, crate::proofs::Cuts::cut_none))]
pub fn cut(bytes: &[u8], by: u8) -> Option<(&[u8], &[u8])>
    ensures cut { MatchOption result
        (slice_split (is_byte by) bytes.now ≡ bytes.now ∷ [])
        (λ ends. slice_split (is_byte by) bytes.now ≡ ends.0.now ∷ slice_split (is_byte by) ends.1.now) }
    ensures shorter { IfSome result (λ ends. length ends.1.now < length bytes.now) }
{
    let end = place(bytes, by);
    if end < bytes.len() {
        Some((&bytes[..end], behind(bytes, end + 1)))
    } else {
        None
    }
}

/// The fields of a line.
pub fn fields_of<'a>(line: &'a [u8]) -> Fields<'a>
    ensures { result ≡ spaced_fields line.now }
{
    Fields { rest: Some(line) }
}

impl<'a> Fields<'a> {
    /// Takes the next field.
    pub fn next(&mut self) -> Option<&'a [u8]>
        ensures { MatchOption result (self.old ≡ []) (λ field. self.old ≡ field.now ∷ self.new) }
    {
        let rest = self.rest?;
        match cut(rest, b' ') {
            Some((field, more)) => {
                self.rest = Some(more);
                Some(field)
            }
            None => {
                self.rest = None;
                Some(rest)
            }
        }
    }
}
