//! Worked edge lists, as tables: names, loops, comments, ends of lines, weights and each limit; which line is refused
//! and why; how each refusal is shown; and what vertices are named.

use crate::fixtures::{finds, has_count, is_named};
use clu_network::{NetError, NetLine, Network, read_network};
use clu_text::push_number;
use std::alloc::{AllocError, Global};
use std::test::Fail;

/// Names by first appearance, a repeated pair, a loop, comments, blanks and both ends of lines.
const SAMPLE: &[u8] = b"# sample\r\na\tb\t0.5\r\nb a 1.25\r\n\n% more\n c\nb c -1\r\na a";

/// Lines of ends alone, of blanks, and of comments, of which one is no text.
const FORMS: &[u8] = b"# \xff\r\na\tb\r\n\t\r\n \r\n% \xff\nc a\r\n";

/// A field, and how many units it weighs with how many places; `None` where it is refused.
const WEIGHTS: [(&str, Option<u8>, Option<(i128, u8)>); 10] = [
    ("-0", None, Some((0, 0))),
    ("+.5", None, Some((5, 1))),
    ("-5.", None, Some((-5, 0))),
    (".", None, None),
    ("-", None, None),
    ("0999999999999999999", None, Some((999999999999999999, 0))),
    ("1000000000000000000", None, None),
    ("0.123456789", None, Some((123456789, 9))),
    ("0.1234567890", None, None),
    ("0.1234567890", Some(9), Some((123456789, 9))),
];

const DISPLAYED: [(NetError, &str); 6] = [
    (NetError::TooManyFields { line: 7 }, "TooManyFields line 7"),
    (NetError::BadWeight { line: 1 }, "BadWeight line 1"),
    (
        NetError::TooManyVertices { line: 1_000_000 },
        "TooManyVertices line 1000000",
    ),
    (NetError::TooManyLines, "TooManyLines"),
    (NetError::NotText { line: 20 }, "NotText line 20"),
    (NetError::Memory, "memory"),
];

const REFUSED: [(&[u8], NetError); 7] = [
    (b"a b 1 x", NetError::TooManyFields { line: 1 }),
    (b"a b 0.123456789012", NetError::BadWeight { line: 1 }),
    (b"a b\na b 1e5\na b 1 2", NetError::BadWeight { line: 2 }),
    (b"a b\n# \xff\n\xff", NetError::NotText { line: 3 }),
    (b"a b 1 \xff", NetError::NotText { line: 1 }),
    (b"a b x y", NetError::TooManyFields { line: 1 }),
    (b"a b 1e5\na b 1 x", NetError::BadWeight { line: 1 }),
];

fn is_line(line: Option<&NetLine>, number: u64, u: u32, v: u32, weight: i128) -> bool {
    match line {
        Some(line) => {
            line.line == number && line.u.0 == u && line.v.0 == v && line.weight == weight
        }
        None => false,
    }
}

fn is_network(net: &Network, n: u32, places: u8, lines: usize) -> bool {
    net.n() == n && net.places() == places && net.lines().len() == lines
}

fn is_sample(net: &Network) -> bool {
    let lines = net.lines();
    is_network(net, 3, 2, 4)
        && is_line(lines.get(0), 2, 0, 1, 50)
        && is_line(lines.get(1), 3, 1, 0, 125)
        && is_line(lines.get(2), 7, 1, 2, -100)
        && is_line(lines.get(3), 8, 0, 0, 100)
}

fn are_forms(net: &Network) -> bool {
    let lines = net.lines();
    is_network(net, 3, 0, 2)
        && is_line(lines.get(0), 2, 0, 1, 1)
        && is_line(lines.get(1), 6, 2, 0, 1)
}

fn is_cut(net: &Network) -> bool {
    is_network(net, 2, 2, 1) && is_line(net.lines().first(), 1, 0, 1, 12)
}

#[test]
fn lines_are_read(rt: HostRuntime) -> Result<(), Fail> {
    assert!(rt; is_sample(&read_network(rt.alloc(), SAMPLE, None)?));
    assert!(rt; are_forms(&read_network(rt.alloc(), FORMS, None)?));
    assert!(rt; is_cut(&read_network(rt.alloc(), b"a b 0.123456789012", Some(2))?));
    Ok(())
}

fn is_refused(alloc: Global, text: &[u8], want: NetError) -> bool {
    match read_network(alloc, text, None) {
        Ok(_) => false,
        Err(error) => error == want,
    }
}

#[test]
fn the_first_bad_line_is_named(rt: HostRuntime) {
    for (text, want) in &REFUSED {
        assert!(rt; is_refused(rt.alloc(), text, *want), "{want}");
    }
}

/// A line of two names with this field as its weight.
fn line_of(alloc: Global, field: &str) -> Result<Vec<u8>, AllocError> {
    let mut text = Vec::new(alloc);
    text.extend_from_slice(b"a b ")?;
    text.extend_from_slice(field.as_bytes())?;
    Ok(text)
}

fn weighs(alloc: Global, text: &[u8], cut: Option<u8>, want: Option<(i128, u8)>) -> bool {
    if cut.is_some_and(|k| k > 9) {
        return false;
    }
    match (read_network(alloc, text, cut), want) {
        (Ok(net), Some((weight, places))) => {
            is_network(&net, 2, places, 1) && is_line(net.lines().first(), 1, 0, 1, weight)
        }
        (Err(error), None) => error == NetError::BadWeight { line: 1 },
        _ => false,
    }
}

#[test]
fn weights_are_read_with_their_places(rt: HostRuntime) -> Result<(), Fail> {
    for (field, cut, want) in &WEIGHTS {
        let text = line_of(rt.alloc(), field)?;
        assert!(rt; weighs(rt.alloc(), &text, *cut, *want), "of {field}");
    }
    Ok(())
}

fn displays(alloc: Global, error: NetError, want: &str) -> Result<bool, AllocError> {
    let text = format!(in alloc; "{error}")?;
    Ok(text.as_str() == want)
}

#[test]
fn errors_have_their_texts(rt: HostRuntime) -> Result<(), Fail> {
    for (error, want) in &DISPLAYED {
        assert!(rt; displays(rt.alloc(), *error, want)?, "{want}");
    }
    Ok(())
}

/// So many lines, each with its number from 0 as a name alone, and then as many empty ones as said.
fn numbered(alloc: Global, names: u32, empty: usize) -> Result<Vec<u8>, AllocError> {
    let mut text = Vec::new(alloc);
    for name in 0..names {
        push_number(&mut text, name as i128)?;
        text.push(b'\n')?;
    }
    for _ in 0..empty {
        text.push(b'\n')?;
    }
    Ok(text)
}

#[test]
fn a_thousand_names_are_read(rt: HostRuntime) -> Result<(), Fail> {
    let alloc = rt.alloc();
    let most = numbered(alloc, 1000, 0)?;
    assert!(rt; is_network(&read_network(alloc, &most, None)?, 1000, 0, 0));
    let past = numbered(alloc, 1001, 0)?;
    assert!(rt; is_refused(alloc, &past, NetError::TooManyVertices { line: 1001 }));
    Ok(())
}

/// The line past the limit is named before its name, which is the 1,001st.
#[test]
fn too_many_lines_come_first(rt: HostRuntime) -> Result<(), Fail> {
    let alloc = rt.alloc();
    let mut text = numbered(alloc, 1000, 999_000)?;
    text.push(b'a')?;
    assert!(rt; is_refused(alloc, &text, NetError::TooManyLines));
    Ok(())
}

/// A line of 64 KiB: a name, and behind many blanks another.
fn long_line(alloc: Global) -> Result<Vec<u8>, AllocError> {
    let mut text = vec![in alloc; b'a'; 32_768]?;
    for _ in 0..32_766 {
        text.push(b' ')?;
    }
    text.extend_from_slice(b"b\n")?;
    Ok(text)
}

#[test]
fn long_lines_are_read(rt: HostRuntime) -> Result<(), Fail> {
    let text = long_line(rt.alloc())?;
    let net = read_network(rt.alloc(), &text, None)?;
    assert!(rt; is_network(&net, 2, 0, 1));
    assert!(rt; is_line(net.lines().first(), 1, 0, 1, 1));
    Ok(())
}

/// So many empty lines, and then one with a name.
fn name_behind(alloc: Global, lines: usize) -> Result<Vec<u8>, AllocError> {
    let mut text = vec![in alloc; b'\n'; lines]?;
    text.push(b'a')?;
    Ok(text)
}

#[test]
fn a_million_lines_are_read(rt: HostRuntime) -> Result<(), Fail> {
    let alloc = rt.alloc();
    let most = name_behind(alloc, 999_999)?;
    assert!(rt; is_network(&read_network(alloc, &most, None)?, 1, 0, 0));
    let past = name_behind(alloc, 1_000_000)?;
    assert!(rt; is_refused(alloc, &past, NetError::TooManyLines));
    Ok(())
}

/// Names that look like others: a number with a zero before it, and a letter beyond ASCII.
const NAMES: &[u8] = b"b a\n#c d\ne\xc3\xa9 a 2\n01\n1 b";

/// Its names, with their vertices.
const NAMED: [(&[u8], u32); 5] = [
    (b"b", 0),
    (b"a", 1),
    (b"e\xc3\xa9", 2),
    (b"01", 3),
    (b"1", 4),
];

/// Bytes, and which vertex of it they name.
const FOUND: [(&[u8], Option<u32>); 12] = [
    (b"b", Some(0)),
    (b"a", Some(1)),
    (b"e\xc3\xa9", Some(2)),
    (b"01", Some(3)),
    (b"1", Some(4)),
    (b"", None),
    (b"c", None),
    (b"B", None),
    (b"bb", None),
    (b"e", None),
    (b"e\xc3", None),
    (b"\xff", None),
];

#[test]
fn a_vertex_is_named_by_its_field(rt: HostRuntime) -> Result<(), Fail> {
    let network = read_network(rt.alloc(), NAMES, None)?;
    assert!(rt; has_count(&network, 5));
    for (name, v) in &NAMED {
        assert!(rt; is_named(&network, *v, name), "of {v}");
    }
    assert!(rt; !is_named(&network, 3, b"1"));
    for (row, (name, v)) in FOUND.iter().enumerate() {
        assert!(rt; finds(&network, name, *v), "in row {row}");
    }
    Ok(())
}
