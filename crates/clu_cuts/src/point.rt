//! Points and cuts as a caller hands them in and gets them: whole shares over one denominator, so that a violation is
//! an exact comparison and no rounding can hide one.

use clu_partition::{Seq, Vertex};

/// A number for each free pair of a state: how far the two groups are together, as a share of the
/// denominator. Apart pairs have the share 0.
#[derive(Debug, Drop)]
pub struct Point {
    /// The denominator, from 1 to 2^100.
    pub den: i128,
    /// The free pairs by their least vertices, rising.
    pub pairs: Seq<(Vertex, Vertex)>,
    /// The share of each, from 0 to the denominator.
    pub x: Seq<i128>,
}

/// A two-set inequality: the shares across s and t, less those inside s and inside t, come to at
/// most the denominator times the smaller size. Each group stands as its least vertex.
#[derive(Debug, Drop)]
pub struct Cut {
    /// The first set.
    pub s: Seq<Vertex>,
    /// The second set.
    pub t: Seq<Vertex>,
}
