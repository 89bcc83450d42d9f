//! Worked values: what the crates of texts, partitions, graphs, networks, objectives and rules answer
//! where a person has worked out the answer by hand.
//!
//! They stand on public names alone, in a crate of their own: nothing above waits for them, and a
//! crate whose tests stand here is proved once.
#![tactic(auto)]

#[cfg(test)]
mod fixtures;
#[cfg(test)]
mod network;
#[cfg(test)]
mod objective;
#[cfg(test)]
mod pace;
#[cfg(test)]
mod partition;
#[cfg(test)]
mod rules;
#[cfg(test)]
mod text;
