//! What a partition is judged by: cluster editing, correlation clustering or modularity. All three are weights of
//! pairs inside blocks (Grötschel and Wakabayashi 1989), so one search serves them all.

/// What a partition is judged by.
#[derive(Clone, Copy, Debug, PartialEq, Eq)]
pub enum Objective {
    /// The edges between blocks and the pairs without an edge inside blocks. Fewer are better.
    Edits,
    /// The positive weights of pairs inside blocks and the absolute negative ones between blocks. More
    /// is better.
    Agreement,
    /// The modularity of Newman and Girvan, times the square of twice the total weight. More is better.
    Modularity,
}
