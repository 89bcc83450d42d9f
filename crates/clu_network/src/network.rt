//! Networks: names, and lines of a weight that may repeat a pair and be loops. The type keeps the
//! limits, so that no sum of weights above comes near the end of 128 bits.

ghost use Rattle.std.specs.List.{IsDistinct};
ghost use Rattle.std.specs.Str.{bytes_eq};
ghost use Rattle.std.specs.Prelude.{◌≡◌, ◌≤◌, ◌<◌, ◌^◌, All, length, unsigned_abs};
ghost use Rattle.clu_network.specs.Naming.{net_names};

use crate::names::NameTable;
use clu_partition::Vertex;
use std::marker::Model;

/// A line of an edge list: two vertices, which are one on a loop, and a weight times ten to the power
/// of the network's places.
#[derive(Clone, Copy, Debug, PartialEq, Eq)]
pub struct NetLine {
    /// The number of the line in its file, from 1.
    pub line: u64,
    /// The first field.
    pub u: Vertex,
    /// The second field.
    pub v: Vertex,
    /// The weight in units of the network's last decimal place, at most 10^27 in size.
    pub weight: i128,
}

/// A network of at most 1,000 named vertices and 1,000,000 lines, which may repeat a pair in either
/// order.
#[derive(Debug, Drop)]
pub struct Network {
    n: u32,
    names: NameTable,
    places: u8,
    lines: Vec<NetLine>,
}

impl Model for Network {
    ghost use Rattle.clu_network.specs.Network.{Net, IsNet};

    ghost Value = { Net };

    ghost view = { λ g. record { n = g.n; names = g.names; places = g.places; lines = g.lines.items } };

    ghost invariant = { λ g. IsNet (record { n = g.n; names = g.names; places = g.places; lines = g.lines.items }) };
}

impl Network {
    /// The network of these names and lines.
    pub(crate) fn new(names: NameTable, places: u8, lines: Vec<NetLine>) -> Network
        requires places { places ≤ 9 }
        requires few { length lines.items ≤ 1000000 }
        requires within { All (λ l. (l.u < length names) × (l.v < length names)) lines.items }
        requires light { All (λ l. unsigned_abs l.weight ≤ 10 ^ 27) lines.items }
        ensures names { result.names ≡ names }
        ensures places { result.places ≡ places }
        ensures lines { result.lines ≡ lines.items }
    {
        Network {
            n: names.len(),
            names,
            places,
            lines,
        }
    }

    /// The number of vertices.
    pub fn n(&self) -> u32
        ensures n { result ≡ self.now.n }
        ensures names { result ≡ length self.now.names }
        ensures apart { IsDistinct bytes_eq self.now.names }
        ensures small { result ≤ 1000 }
        ensures named { net_names self.now ≡ self.now.names }
    {
        self.n
    }

    /// The table of the names.
    pub(crate) fn table(&self) -> &NameTable
        ensures names { result.now ≡ net_names self.now }
    {
        &self.names
    }

    /// The number of decimal places of the weights: ten to this power units make one, at most 9.
    pub fn places(&self) -> u8
        ensures places { result ≡ self.now.places }
        ensures few { result ≤ 9 }
    {
        self.places
    }

    /// The lines in the order of the file.
    pub fn lines(&self) -> &[NetLine]
        ensures lines { result.now ≡ self.now.lines }
        ensures few { length self.now.lines ≤ 1000000 }
        ensures within { All (λ l. (l.u < self.now.n) × (l.v < self.now.n)) self.now.lines }
        ensures small { All (λ l. unsigned_abs l.weight ≤ 10 ^ 27) self.now.lines }
    {
        &self.lines
    }
}
