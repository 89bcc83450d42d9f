//! Names of vertices, and the trait by which rules and reports ask for them: a graph's are numbers, a network's are texts.
//! Bytes name one vertex at most, and each vertex is named by the bytes of its name, by laws of the trait.
ghost use Rattle.std.specs.Prelude.{◌≡◌, ◌≤◌, ◌<◌, ℕ, List, length, slice_get, Some, MatchOption};
ghost use Rattle.clu_partition.specs.Names.{name_bytes, FitsArray, HasDigits};

use crate::Vertex;

/// A vertex's name: decimal digits at the front of an array, or a text.
#[derive(Clone, Copy, Debug)]
pub enum Name<'a> {
    /// A number: the first `len` of the digits.
    Number { digits: [u8; 10], len: u8 },
    /// A text as it stands in the file.
    Text(&'a str),
}

impl<'a> Name<'a> {
    /// The bytes of the name.
    pub fn as_bytes(&self) -> &[u8]
        requires { FitsArray self.now }
        ensures { result.now ≡ name_bytes self.now }
    {
        match self {
            Name::Number { digits, len } => &digits[..*len as usize],
            Name::Text(text) => text.as_bytes(),
        }
    }
}

/// What gives the vertices of a graph their names.
pub trait Names {
    /// The bytes of each vertex's name.
    ghost names: { Self → List (List ℕ) };

    /// Whether bytes name a vertex.
    ghost is_named: { Self → List ℕ → ℕ → Type 0 };

    /// The number of vertices, at most 1,000.
    fn count(&self) -> u32
        ensures count { result ≡ length (names self.now) }
        ensures small { result ≤ 1000 };

    /// The vertex that bytes name; `None` where they name none.
    fn find(&self, name: &[u8]) -> Option<Vertex>
        ensures { MatchOption result ((v : ℕ) → is_named self.now name.now v → ⊥)
            (λ v. is_named self.now name.now v) };

    /// The name of a vertex.
    fn name(&self, v: Vertex) -> Name<'_>
        requires { v < length (names self.now) }
        ensures bytes { slice_get (names self.now) v ≡ Some (name_bytes result) }
        ensures within { FitsArray result }
        ensures digits { HasDigits result };

    /// The same bytes name one vertex at most.
    ghost one: { (s : Self) (name : List ℕ) (u v : ℕ) → is_named s name u → is_named s name v
        → u ≡ v };

    /// Only vertices have names.
    ghost within: { (s : Self) (name : List ℕ) (v : ℕ) → is_named s name v → v < length (names s) };

    /// The bytes of its name name each vertex.
    ghost own: { (s : Self) (v : ℕ) (name : List ℕ) → length (names s) ≤ 1000
        → slice_get (names s) v ≡ Some name → is_named s name v };
}
