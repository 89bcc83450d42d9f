//! A folder of files as a trait: what a load, a create and an append do, and when each answer comes, over any folder.
//! Sound over the system too, since a folder says what it holds only where it tells it, and each fault raises a count.

ghost use Rattle.std.specs.Prelude.{◌≡◌, ℕ, Option};
ghost use Rattle.clu_outside.specs.declared.folder.LoadErr.TheVariants.{Memory};
ghost use Rattle.clu_outside.specs.Folder.{Told, LoadTells, LoadCause, CreateTells, AppendTells};
ghost use Rattle.clu_outside.specs.Sink.{WriteCause};

use crate::WriteErr;
use std::alloc::{AllocError, Global};

/// Why a load gave no bytes.
#[derive(Clone, Copy, Debug, PartialEq, Eq)]
pub enum LoadErr {
    /// The folder met a fault.
    Failed,
    /// There is no file of that name.
    Missing,
    /// The file is longer than the limit.
    TooLong,
    /// Want of memory.
    Memory,
}

impl From<AllocError> for LoadErr {
    ghost from_gives = { λ _ e. e ≡ Memory };

    fn from(_: AllocError) -> Self {
        LoadErr::Memory
    }
}

/// A folder of files, each under a name.
pub trait Folder {
    /// What it holds and how many calls it has had, where it tells.
    ghost told: { Self → Option Told };

    /// How many loads have met a fault, up to the last value of a `u64`.
    ghost load_faults: { Self → ℕ };

    /// How many creates and appends have met a fault, up to the last value of a `u64`.
    ghost store_faults: { Self → ℕ };

    /// The bytes under a name, unless they are longer than the limit. At the last value of a
    /// `u64` there is no limit.
    fn load(&mut self, alloc: Global, name: &str, limit: u64) -> Result<Vec<u8>, LoadErr>
        ensures tells { LoadTells (told self.old) (told self.new) name.now limit result }
        ensures cause { LoadCause (load_faults self.old) (load_faults self.new) result }
        ensures stores { store_faults self.new ≡ store_faults self.old };

    /// Makes the name hold no bytes.
    fn create(&mut self, name: &str) -> Result<(), WriteErr>
        ensures tells { CreateTells (told self.old) (told self.new) name.now result }
        ensures cause { WriteCause (store_faults self.old) (store_faults self.new) result }
        ensures loads { load_faults self.new ≡ load_faults self.old };

    /// Adds bytes at the end of what the name holds. A missing name counts as one without bytes.
    fn append(&mut self, name: &str, bytes: &[u8]) -> Result<(), WriteErr>
        ensures tells { AppendTells (told self.old) (told self.new) name.now bytes.now result }
        ensures cause { WriteCause (store_faults self.old) (store_faults self.new) result }
        ensures loads { load_faults self.new ≡ load_faults self.old };
}
