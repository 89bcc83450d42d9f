//! Networks of weighted lines, and the reader of edge lists.
//!
//! The crates above use this: `read_network` answers the one network of a text exactly where the
//! bytes are one of at most 1,000 names, and else the first line that fails with its cause; a
//! `Network` is its names, its places and its list of lines, and names its vertices by the texts of
//! the file. The definitions stand in `specs/Network.antt`, `specs/NameList.antt`,
//! `specs/Entries.antt`, `specs/Reading.antt`, `specs/Scaling.antt`, `specs/Naming.antt` and
//! `specs/Telling.antt`.
#![tactic(auto)]

mod entry;
mod error;
mod names;
mod naming;
mod network;
mod reader;

pub use error::NetError;
pub use network::{NetLine, Network};
pub use reader::read_network;
