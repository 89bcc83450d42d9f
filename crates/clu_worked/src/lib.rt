//! Worked values: what the crates of states, rows, reductions, starts, cuts, nodes, certificates, trees, searches,
//! checks and commands answer where a person has worked out the answer by hand.
//!
//! They stand on public names alone, in a crate of their own: nothing above waits for them, and a
//! crate whose tests stand here is proved once.
#![tactic(auto)]

#[cfg(test)]
mod cert;
#[cfg(test)]
mod check;
#[cfg(test)]
mod commands;
#[cfg(test)]
mod cuts;
#[cfg(test)]
mod fixtures;
#[cfg(test)]
mod node;
#[cfg(test)]
mod reduce;
#[cfg(test)]
mod rows;
#[cfg(test)]
mod search;
#[cfg(test)]
mod starts;
#[cfg(test)]
mod state;
#[cfg(test)]
mod tree;
