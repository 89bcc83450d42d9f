//! The lines of a text, and the fields of a line: iterators over the bytes as they stand, so nothing
//! is copied. Their models are the lists of what is left; a line feed is sought by `memchr`.

ghost use Rattle.std.specs.Prelude.{◌≡◌, ◌+◌, ◌<◌, ◌≤◌, length, drop, not};
ghost use Rattle.std.specs.Iterator.{YieldsFirstBy, YieldsFirstRef, item_count};
ghost use Rattle.std.specs.List.{enumerate_from, position_or_len};
ghost use Rattle.clu_text.specs.Lines.{is_blank as blank, is_line_feed, without_return, lines_of, fields_of};

use memchr::memchr;
use std::marker::Model;

/// A line of a text.
#[derive(Clone, Copy, Debug)]
pub struct Line<'a> {
    /// The number, from 1.
    pub number: u64,
    /// The bytes before the line's end.
    pub bytes: &'a [u8],
}

/// The lines of a text that are left, each with its number.
#[derive(Drop)]
pub struct LineIter<'a> {
    rest: &'a [u8],
    number: u64,
}

impl<'a> Model for LineIter<'a> {
    ghost use Rattle.std.specs.Prelude.{ℕ, List, ◌+◌, ◌≤◌, ◌^◌, length};
    ghost use Rattle.std.specs.List.{enumerate_from};
    ghost use Rattle.clu_text.specs.Lines.{lines_of};

    ghost Value = { List (ℕ × List ℕ) };

    ghost view = { λ i. enumerate_from i.number (lines_of i.rest.now) };

    // Each line takes a byte at least, so the numbers fit.
    ghost invariant = { λ i. i.number + length i.rest.now ≤ 2 ^ 63 };
}

/// The fields of a line that are left.
#[derive(Drop)]
pub struct FieldIter<'a> {
    rest: &'a [u8],
}

impl<'a> Model for FieldIter<'a> {
    ghost use Rattle.std.specs.Prelude.{ℕ, List};
    ghost use Rattle.clu_text.specs.Lines.{fields_of};

    ghost Value = { List (List ℕ) };

    ghost view = { λ i. fields_of i.rest.now };
}

/// The lines of a text. Each ends with a line feed, which the last may lack; a carriage return
/// before that end is dropped.
pub fn lines<'a>(bytes: &'a [u8]) -> LineIter<'a>
    ensures { result ≡ enumerate_from 1 (lines_of bytes.now) }
{
    LineIter {
        rest: bytes,
        number: 1,
    }
}

/// The fields of a line: its longest pieces without a space or a tab.
pub fn fields<'a>(line: &'a [u8]) -> FieldIter<'a>
    ensures { result ≡ fields_of line.now }
{
    FieldIter { rest: line }
}

impl<'a> Iterator for LineIter<'a> {
    type Item = Line<'a>;

    ghost next_gives = { YieldsFirstBy (λ line. (line.number, line.bytes.now)) (λ left. left) };

    ghost remaining = { item_count (λ left. left) };

    #[tactic(auto, using(crate::proofs::Cuts::first_line))]
    fn next(&mut self) -> Option<Line<'a>> {
        if self.rest.is_empty() {
            return None;
        }
        let number = self.number;
        let end = end_of_line(self.rest);
        let bytes = cut_return(&self.rest[..end]);
        self.rest = after(self.rest, end);
        self.number += 1;
        Some(Line { number, bytes })
    }
}

impl<'a> Iterator for FieldIter<'a> {
    type Item = &'a [u8];

    ghost next_gives = { YieldsFirstRef (λ left. left) };

    ghost remaining = { item_count (λ left. left) };

    #[tactic(auto, using(crate::proofs::Cuts::fields_end, crate::proofs::Cuts::fields_next, crate::proofs::Cuts::fewer_fields))]
    fn next(&mut self) -> Option<&'a [u8]> {
        let start = start_of_field(self.rest);
        let word = skip(self.rest, start);
        let end = end_of_field(word);
        self.rest = skip(word, end);
        if end == 0 { None } else { Some(&word[..end]) }
    }
}

fn is_blank(byte: u8) -> bool
    ensures { result ≡ blank byte }
{
    byte == b' ' || byte == b'\t'
}

/// The place of the first line feed, or the length.
fn end_of_line(bytes: &[u8]) -> usize
    ensures is { result ≡ position_or_len is_line_feed bytes.now }
    ensures within { result ≤ length bytes.now }
{
    match memchr(b'\n', bytes) {
        Some(end) => end,
        None => bytes.len(),
    }
}

/// The place of the first byte that is no blank, or the length.
fn start_of_field(bytes: &[u8]) -> usize
    ensures is { result ≡ position_or_len (λ b. not (blank b)) bytes.now }
    ensures within { result ≤ length bytes.now }
{
    for (i, byte) in bytes.iter().enumerate() {
        if !is_blank(*byte) {
            return i;
        }
    }
    bytes.len()
}

/// The place of the first blank, or the length.
fn end_of_field(bytes: &[u8]) -> usize
    ensures is { result ≡ position_or_len blank bytes.now }
    ensures within { result ≤ length bytes.now }
{
    for (i, byte) in bytes.iter().enumerate() {
        if is_blank(*byte) {
            return i;
        }
    }
    bytes.len()
}

fn skip(bytes: &[u8], count: usize) -> &[u8]
    requires { count ≤ length bytes.now }
    ensures { result.now ≡ drop count bytes.now }
{
    &bytes[count..]
}

/// What stands behind the end of a line.
pub(crate) fn after(bytes: &[u8], end: usize) -> &[u8]
    requires { end ≤ length bytes.now }
    ensures { result.now ≡ drop (end + 1) bytes.now }
{
    if end < bytes.len() {
        &bytes[end + 1..]
    } else {
        &bytes[end..]
    }
}

/// The line without the carriage return that it may end with.
fn cut_return(line: &[u8]) -> &[u8]
    ensures { result.now ≡ without_return line.now }
{
    match line {
        [front @ .., b'\r'] => front,
        _ => line,
    }
}
