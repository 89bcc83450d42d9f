//! Texts of certificates, which are read and written back, and the lines that are named where one is changed
//! or cut.

use crate::fixtures::changed;
use clu_cert::{CertError, Certificate, read_cert, write_cert};
use clu_objective::Objective;
use std::alloc::{AllocError, Global};
use std::test::Fail;

/// A certificate of the five vertices of a small network, with a whole tree.
const TREE: &str = "clucert 1
objective agreement
vertices 5
value 14
bound 14
blocks 1 2 2 3 3
steps 0
parts 1
part 1 2 3 4 5
items 8
branch 2 3
pair 4 5
pair 4 1
leaf 1 0
pair 2 1
pair 3 4
pair 3 5
leaf 1 0
end
";

/// A line of each kind, and a negative bound.
const EACH_LINE: &str = "clucert 1
objective edits
vertices 5
value 14
bound -14
blocks 1 1 2 2 3
steps 1
twin 1 2
parts 1
part 1 2 3 4 5
items 4
branch 1 2
light 3 4
leaf 2 1
row 7 1 / 2 3
leaf 1 0
end
";

/// The ends of the ranges, a root step of each other kind, and a part with no item.
const ENDS: &str = "clucert 1
objective modularity
vertices 2
value 85070591730234615865843651857942052864
bound -85070591730234615865843651857942052864
blocks 1000 1
steps 3
pair 1 1000
heavy 1000 1
light 1 1
parts 2
part 1000
items 2
leaf 18446744073709551615 2
row 340282366920938463463374607431768211455 1000 1 / 1000
row 0 1 / 1 1
leaf 0 0
part 1
items 0
end
";

/// No vertices.
const EMPTY: &str = "clucert 1
objective agreement
vertices 0
value 0
bound 0
blocks
steps 0
parts 0
end
";

const TEXTS: [&str; 4] = [TREE, EACH_LINE, ENDS, EMPTY];

/// A text, a place in it, what stands there instead, and the line that is named then.
const CHANGES: [(&str, &str, &str, u64); 62] = [
    (TREE, "end\n", "", 19),
    (TREE, "value 14", "value 014", 4),
    // lines of another form
    (EACH_LINE, "clucert 1", "clucert 2", 1),
    (EACH_LINE, "objective edits", "objective edit", 2),
    (EACH_LINE, "vertices 5", "vertices 05", 3),
    (EACH_LINE, "vertices 5", "vertices 4", 6),
    (EACH_LINE, "value 14", "value 014", 4),
    (EACH_LINE, "value 14", "value -0", 4),
    (EACH_LINE, "value 14", "value +14", 4),
    (EACH_LINE, "bound -14", "bound -014", 5),
    (EACH_LINE, "bound -14", "bound", 5),
    (EACH_LINE, "steps 1", "steps 0", 8),
    (EACH_LINE, "steps 1", "steps 2", 9),
    (EACH_LINE, "twin 1 2", "twins 1 2", 8),
    (EACH_LINE, "twin 1 2", "Twin 1 2", 8),
    (EACH_LINE, "twin 1 2", "twin 1", 8),
    (EACH_LINE, "part 1 2 3 4 5", "part", 10),
    (EACH_LINE, "items 4", "items 3", 16),
    (EACH_LINE, "items 4", "items 5", 17),
    (EACH_LINE, "branch 1 2", "branch 1 2 3", 12),
    (EACH_LINE, "light 3 4", "lights 3 4", 13),
    (EACH_LINE, "leaf 2 1", "leaf 2 0", 15),
    (EACH_LINE, "leaf 2 1", "leaf 2 2", 16),
    (EACH_LINE, "row 7 1 / 2 3", "row 7 / 2 3", 15),
    (EACH_LINE, "row 7 1 / 2 3", "row 7 1 /", 15),
    (EACH_LINE, "row 7 1 / 2 3", "row 7 1 2 3", 15),
    (EACH_LINE, "row 7 1 / 2 3", "row 7 1 / 2 / 3", 15),
    (EACH_LINE, "end\n", "", 17),
    (EACH_LINE, "end\n", "end", 17),
    (EACH_LINE, "end\n", "end\nend\n", 18),
    (EACH_LINE, "end\n", "end\n\n", 18),
    (EACH_LINE, "end\n", "end\nx", 18),
    // blanks stand between fields alone
    (EACH_LINE, "value 14", "value  14", 4),
    (EACH_LINE, "value 14", "value 14 ", 4),
    (EACH_LINE, "value 14", " value 14", 4),
    (EACH_LINE, "value 14", "value\t14", 4),
    (EACH_LINE, "value 14", "value 14\r", 4),
    (EACH_LINE, "value 14", "\nvalue 14", 4),
    (EACH_LINE, "end\n", "end \n", 17),
    // numbers out of range
    (EACH_LINE, "vertices 5", "vertices 1001", 3),
    (
        EACH_LINE,
        "value 14",
        "value 85070591730234615865843651857942052865",
        4,
    ),
    (
        EACH_LINE,
        "bound -14",
        "bound -85070591730234615865843651857942052865",
        5,
    ),
    (EACH_LINE, "blocks 1", "blocks 0", 6),
    (EACH_LINE, "blocks 1", "blocks 1001", 6),
    (EACH_LINE, "twin 1 2", "twin 0 2", 8),
    (EACH_LINE, "twin 1 2", "twin 1 1001", 8),
    (EACH_LINE, "part 1", "part 0", 10),
    (EACH_LINE, "part 1", "part 1001", 10),
    (EACH_LINE, "branch 1 2", "branch 1 0", 12),
    (EACH_LINE, "branch 1 2", "branch 1001 2", 12),
    (EACH_LINE, "leaf 2 1", "leaf 18446744073709551616 1", 14),
    (
        EACH_LINE,
        "row 7 1",
        "row 340282366920938463463374607431768211456 1",
        15,
    ),
    (EACH_LINE, "row 7 1", "row 7 0", 15),
    (EACH_LINE, "/ 2 3", "/ 2 1001", 15),
    (EACH_LINE, "steps 1", "steps 18446744073709551616", 7),
    (EACH_LINE, "parts 1", "parts 18446744073709551616", 9),
    (EACH_LINE, "items 4", "items 18446744073709551616", 11),
    (EACH_LINE, "leaf 2 1", "leaf 2 18446744073709551616", 14),
    // the largest counts, for which nothing is reserved
    (EACH_LINE, "steps 1", "steps 18446744073709551615", 9),
    (EACH_LINE, "parts 1", "parts 18446744073709551615", 17),
    (EACH_LINE, "items 4", "items 18446744073709551615", 17),
    (EACH_LINE, "leaf 2 1", "leaf 2 18446744073709551615", 16),
];

/// Whether `read_cert` names the line.
fn is_named(alloc: Global, text: &[u8], line: u64) -> bool {
    match read_cert(alloc, text) {
        Err(CertError::Bad(bad)) => bad.line == line,
        _ => false,
    }
}

/// Whether the line is named where one place of the text is changed.
fn is_named_with(
    alloc: Global,
    text: &str,
    old: &str,
    new: &str,
    line: u64,
) -> Result<bool, AllocError> {
    let Some(text) = changed(alloc, text, old, new)? else {
        return Ok(false);
    };
    Ok(is_named(alloc, text.as_slice(), line))
}

/// Whether the text is that of the certificate that is read of it.
fn is_written_back(alloc: Global, text: &str) -> Result<bool, AllocError> {
    let Ok(cert) = read_cert(alloc, text.as_bytes()) else {
        return Ok(false);
    };
    let written = write_cert(alloc, &cert)?;
    Ok(written.as_slice() == text.as_bytes())
}

/// Whether it has what `TREE` says.
fn is_tree(cert: &Certificate) -> bool {
    let [proof] = cert.proofs.as_slice() else {
        return false;
    };
    cert.objective == Objective::Agreement
        && cert.value == 14
        && cert.labels.as_slice() == [0, 1, 1, 2, 2].as_slice()
        && cert.root_steps.len() == 0
        && proof.part.len() == 5
        && proof.items.len() == 8
}

/// Whether the text is read as what `TREE` says.
fn is_read(alloc: Global, text: &str) -> bool {
    match read_cert(alloc, text.as_bytes()) {
        Ok(cert) => is_tree(&cert),
        Err(_) => false,
    }
}

/// The number of the line behind a byte of this line.
fn line_behind(line: u64, byte: u8) -> u64 {
    if byte == b'\n' {
        line.saturating_add(1)
    } else {
        line
    }
}

#[test]
fn texts_are_read_and_written_back(rt: HostRuntime) -> Result<(), Fail> {
    for text in &TEXTS {
        assert!(rt; is_written_back(rt.alloc(), *text)?, "{text}");
    }
    Ok(())
}

#[test]
fn the_tree_has_its_items(rt: HostRuntime) {
    assert!(rt; is_read(rt.alloc(), TREE));
}

#[test]
fn a_changed_line_is_named(rt: HostRuntime) -> Result<(), Fail> {
    for (text, old, new, line) in &CHANGES {
        assert!(rt;
            is_named_with(rt.alloc(), *text, *old, *new, *line)?,
            "with {new}"
        );
    }
    Ok(())
}

#[test]
fn a_text_that_is_cut_is_refused_where_it_ends(rt: HostRuntime) -> Result<(), Fail> {
    let text = EACH_LINE.as_bytes();
    let mut line: u64 = 1;
    for (length, byte) in text.iter().enumerate() {
        assert!(rt; is_named(rt.alloc(), &text[..length], line), "at {length}");
        line = line_behind(line, *byte);
    }
    Ok(())
}
