//! The outside of the program: a folder of files and a sink of bytes, over memory and over the
//! system.
//!
//! The top call uses this: what a folder and a sink tell of their content, and counts of faults
//! that rise wherever a fault is answered. The definitions stand in `specs/Folder.antt`,
//! `specs/Sink.antt` and `specs/Counts.antt`.
#![tactic(auto)]

#[cfg(test)]
mod fixtures;
mod folder;
mod memory_folder;
mod memory_sink;
mod real_folder;
mod real_sink;
mod sink;
mod store;

pub use folder::{Folder, LoadErr};
pub use memory_folder::MemoryFolder;
pub use memory_sink::MemorySink;
pub use real_folder::RealFolder;
pub use real_sink::RealSink;
pub use sink::{Sink, WriteErr, write_whole};
pub use store::{PIECE, store_whole};
