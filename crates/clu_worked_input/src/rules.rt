//! Worked rules files over six vertices, what they give, and why others are refused. The names are
//! letters, so a text reads as a user would write it.

use clu_partition::{Name, Names, Vertex};
use clu_rules::{CloseError, RuleError, close, read_rules};
use std::alloc::{AllocError, Global};
use std::test::Fail;

/// The vertices a to f.
struct Letters;

impl Names for Letters {
    ghost use Rattle.std.specs.Prelude.{◌≡◌, ℕ, ◌+◌, ◌<◌, List, [], ◌∷◌, Option, Some, map, length, slice_get};
    ghost use Rattle.std.specs.List.{range_with_len};
    ghost use Rattle.std.specs.Option.{option_map};
    ghost use Rattle.std.proofs.Common.{arith, get_or, sym, ap, ◌∙◌};
    ghost use Rattle.std.proofs.lemmas.Option.{slice_get_within, slice_get-map, slice_get-get_or};
    ghost use Rattle.std.proofs.lemmas.List.FromFn.{get_or-range_with_len};

    ghost names = { λ _. map (λ v. (97 + v) ∷ []) (range_with_len 0 6) };

    ghost is_named = { λ _ name v. (v < 6) × (name ≡ (97 + v) ∷ []) };

    ghost one = { λ _ name u v p q.
        let e : (97 + u) ∷ [] ≡ (97 + v) ∷ [] = sym p.1 ∙ q.1 in
        let f : 97 + u ≡ 97 + v = Prim.cc in
        Prim.omega (arith, f) };

    ghost within = { λ _ name v p. p.0 };

    ghost own = { λ _ v name small is.
        let at : v < 6 = slice_get_within (map (λ (k : ℕ). (97 + k) ∷ []) (range_with_len 0 6)) v name is in
        let first : get_or (range_with_len 0 6) v 0 ≡ v = get_or-range_with_len 0 6 v 0 at ∙ Prim.omega arith in
        let there : slice_get (map (λ (k : ℕ). (97 + k) ∷ []) (range_with_len 0 6)) v ≡ Some ((97 + v) ∷ []) =
        slice_get-map (λ (k : ℕ). (97 + k) ∷ []) (range_with_len 0 6) v
        ∙ ap (λ (o : Option ℕ). option_map (λ (k : ℕ). (97 + k) ∷ []) o) (slice_get-get_or (range_with_len 0 6) v 0 at)
        ∙ ap (λ (k : ℕ). Some ((97 + k) ∷ [])) first in
        (at, Prim.cc (is, there)) };

    fn count(&self) -> u32 {
        6
    }

    fn find(&self, name: &[u8]) -> Option<Vertex> {
        match name {
            [letter] => {
                if *letter >= b'a' && *letter <= b'f' {
                    Some(Vertex((*letter - b'a') as u32))
                } else {
                    None
                }
            }
            _ => None,
        }
    }

    fn name(&self, v: Vertex) -> Name<'_> {
        match v.0 {
            0 => Name::Text("a"),
            1 => Name::Text("b"),
            2 => Name::Text("c"),
            3 => Name::Text("d"),
            4 => Name::Text("e"),
            _ => Name::Text("f"),
        }
    }
}

/// Texts with their required and their forbidden pairs.
const READ: [(&str, &[(u32, u32)], &[(u32, u32)]); 7] = [
    ("", &[], &[]),
    // f has no side and is free
    (
        "attribute a side left\nattribute b side left\nattribute c side left\nattribute d side right\nattribute e side right\nsame side\napart a b\n",
        &[],
        &[(0, 1), (0, 3), (0, 4), (1, 3), (1, 4), (2, 3), (2, 4)],
    ),
    // attribute lines behind the rule count
    (
        "same side\nattribute b side left\nattribute e side right\n",
        &[],
        &[(1, 4)],
    ),
    // comments, tabs, CR LF, a pair in both orders and one of equal vertices
    (
        "# rules\r\n\r\n\ttogether  b\ta \r\n  #apart a b\r\ntogether a b\r\ntogether c c",
        &[(0, 1), (2, 2)],
        &[],
    ),
    (
        "share team\nattribute a team x\nattribute f team x\nattribute c team y\nattribute b team x\nattribute d room x",
        &[(0, 1), (0, 5), (1, 5)],
        &[],
    ),
    (
        "attribute d k v\nattribute a k v\nattribute b k w\ndiffer k",
        &[],
        &[(0, 3)],
    ),
    // a value that is a word, and a key without values
    ("attribute a share same\nshare same\nsame share\n", &[], &[]),
];

fn are_pairs(pairs: &[(Vertex, Vertex)], want: &[(u32, u32)]) -> bool {
    let numbers = pairs.iter().map(|pair| (pair.0.0, pair.1.0));
    numbers.eq(want.iter().copied())
}

fn reads(alloc: Global, text: &str, required: &[(u32, u32)], forbidden: &[(u32, u32)]) -> bool {
    match read_rules(alloc, text.as_bytes(), &Letters) {
        Ok(rules) => {
            rules.n() == 6
                && are_pairs(rules.required(), required)
                && are_pairs(rules.forbidden(), forbidden)
        }
        Err(_) => false,
    }
}

#[test]
fn texts_give_their_pairs(rt: HostRuntime) {
    for (text, required, forbidden) in &READ {
        assert!(rt; reads(rt.alloc(), text, required, forbidden), "{text}");
    }
}

/// Texts that are refused: why, and how that is shown.
const REFUSED: [(&str, RuleError, &str); 9] = [
    (
        "joined a b",
        RuleError::BadRule { line: 1 },
        "BadRule line 1",
    ),
    (
        "apart a q",
        RuleError::UnknownVertex { line: 1 },
        "UnknownVertex line 1",
    ),
    (
        "attribute a side left\nattribute a side right",
        RuleError::AttributeTwice { line: 2 },
        "AttributeTwice line 2",
    ),
    // skipped lines have numbers, and the first line that fails is named
    (
        "# x\n\napart a a\nsame a b\njoined",
        RuleError::BadRule { line: 4 },
        "BadRule line 4",
    ),
    (
        "attribute a side",
        RuleError::BadRule { line: 1 },
        "BadRule line 1",
    ),
    ("share", RuleError::BadRule { line: 1 }, "BadRule line 1"),
    // the form first, then the names, then the key
    ("apart q", RuleError::BadRule { line: 1 }, "BadRule line 1"),
    (
        "attribute a x y\nattribute b x y\nattribute a z y\nattribute A x y",
        RuleError::UnknownVertex { line: 4 },
        "UnknownVertex line 4",
    ),
    (
        "attribute a x y\ntogether a b\nattribute a x y\ntogether a q",
        RuleError::AttributeTwice { line: 3 },
        "AttributeTwice line 3",
    ),
];

fn shows(alloc: Global, error: RuleError, shown: &str) -> Result<bool, AllocError> {
    let text = format!(in alloc; "{error}")?;
    Ok(text.as_str() == shown)
}

fn refuses(alloc: Global, text: &str, error: RuleError) -> bool {
    match read_rules(alloc, text.as_bytes(), &Letters) {
        Ok(_) => false,
        Err(found) => found == error,
    }
}

#[test]
fn the_first_fault_is_named(rt: HostRuntime) -> Result<(), Fail> {
    let alloc = rt.alloc();
    for (text, error, shown) in &REFUSED {
        assert!(rt; refuses(alloc, text, *error), "{text}");
        assert!(rt; shows(alloc, *error, shown)?, "{shown}");
    }
    assert!(rt; shows(alloc, RuleError::Memory, "memory")?);
    Ok(())
}

/// Texts that no partition obeys, with their least contradiction.
const CONTRADICTED: [(&str, u32, u32); 3] = [
    ("together a b\ntogether b c\napart a c", 0, 2),
    ("apart d d", 3, 3),
    ("apart f e\napart c b\ntogether c b\ntogether e f", 1, 2),
];

fn contradicts(alloc: Global, text: &str, u: u32, v: u32) -> bool {
    let Ok(rules) = read_rules(alloc, text.as_bytes(), &Letters) else {
        return false;
    };
    match close(alloc, &rules) {
        Err(CloseError::Contradiction(pair)) => pair.u.0 == u && pair.v.0 == v,
        _ => false,
    }
}

/// Texts that some partition obeys: a vertex, the least one of its group, and how many pairs of groups
/// are kept apart.
const CLOSED: [(&str, u32, u32, usize); 2] = [
    ("", 2, 2, 0),
    // d is kept apart from the group of a, b and c twice over
    ("together c b\ntogether a c\napart d b\napart a d", 2, 0, 1),
];

fn closes(alloc: Global, text: &str, v: u32, least: u32, apart: usize) -> bool {
    let Ok(rules) = read_rules(alloc, text.as_bytes(), &Letters) else {
        return false;
    };
    let Ok(start) = close(alloc, &rules) else {
        return false;
    };
    v < start.n() && start.group(Vertex(v)).0 == least && start.forbidden().len() == apart
}

#[test]
fn pairs_are_closed_or_contradict(rt: HostRuntime) {
    for (text, u, v) in &CONTRADICTED {
        assert!(rt; contradicts(rt.alloc(), text, *u, *v), "{text}");
    }
    for (text, v, least, apart) in &CLOSED {
        assert!(rt; closes(rt.alloc(), text, *v, *least, *apart), "{text}");
    }
}
