//! The names of vertices, numbered as they first appear. An `IndexSet` keeps their order and finds one
//! in constant time on average; a new name alone is copied.

ghost use Rattle.std.specs.Prelude.{◌≡◌, ◌<◌, ◌≤◌, ◌++◌, [], ◌∷◌, false, map, length, position, slice_get, Some, is_some, OnOk, OnErr};
ghost use Rattle.std.specs.Str.{bytes_eq};
ghost use Rattle.std.specs.List.{list_any, IsDistinct};

use indexmap::IndexSet;
use std::alloc::{AllocError, Global};
use std::marker::Model;
use std::str::from_utf8;

/// The names of a network's vertices in the order of their first appearance.
#[derive(Debug, Drop)]
pub(crate) struct NameTable {
    names: IndexSet<String>,
}

impl Model for NameTable {
    ghost use Rattle.std.specs.Prelude.{ℕ, List, map, ◌≤◌, length};
    ghost use Rattle.std.specs.String.{string_bytes};
    ghost use Rattle.std.specs.List.{IsDistinct};
    ghost use Rattle.std.specs.Str.{bytes_eq};

    ghost Value = { List (List ℕ) };

    ghost view = { λ t. map string_bytes t.names.keys };

    ghost invariant = { λ t. (length t.names.keys ≤ 1000) × IsDistinct bytes_eq (map string_bytes t.names.keys) };
}

impl NameTable {
    /// No names.
    pub(crate) fn new(alloc: Global) -> Self
        ensures { result ≡ [] }
    {
        NameTable {
            names: IndexSet::new(alloc),
        }
    }

    /// The number of names.
    pub(crate) fn len(&self) -> u32
        ensures len { result ≡ length self.now }
        ensures small { result ≤ 1000 }
        ensures apart { IsDistinct bytes_eq self.now }
    {
        self.names.len() as u32
    }

    /// The number of the name of these bytes. Bytes that are no text are no name.
    pub(crate) fn find(&self, name: &[u8]) -> Option<u32>
        ensures number { result ≡ position (bytes_eq name.now) self.now }
        ensures found { is_some result ≡ list_any (bytes_eq name.now) self.now }
        ensures small { length self.now ≤ 1000 }
    {
        let names = &self.names;
        let Ok(text) = from_utf8(name) else {
            return None;
        };
        match names.get_index_of(text) {
            Some(index) => Some(index as u32),
            None => None,
        }
    }

    /// The name of a number.
    pub(crate) fn name(&self, number: u32) -> &str
        requires { number < length self.now }
        ensures { slice_get self.now number ≡ Some result.now }
    {
        match self.names.get_index(number as usize) {
            Some(name) => name.as_str(),
            None => unreachable!(),
        }
    }

    /// Puts a name behind the others. After an error the names are as they were.
    pub(crate) fn add(&mut self, alloc: Global, name: &str) -> Result<(), AllocError>
        requires absent { list_any (bytes_eq name.now) self.old ≡ false }
        requires room { length self.old < 1000 }
        ensures ok { OnOk result (self.new ≡ self.old ++ name.now ∷ []) }
        ensures err { OnErr result (self.new ≡ self.old) }
    {
        let owned = String::from_str(alloc, name)?;
        self.names.insert(owned)?;
        Ok(())
    }
}
