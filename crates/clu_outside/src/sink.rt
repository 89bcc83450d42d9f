//! A sink of bytes as a trait: a write takes a prefix and says how long it is. `write_whole` hands over what is left
//! until nothing is; it ends since each write takes a byte at least, and a fault leaves a prefix.

ghost use Rattle.std.specs.Prelude.{◌≡◌, ℕ, Option, List};
ghost use Rattle.clu_outside.specs.declared.sink.WriteErr.TheVariants.{Memory};
ghost use Rattle.clu_outside.specs.Sink.{TakesPrefix, TakesWhole, WriteCause};

use std::alloc::AllocError;

/// Why a sink didn't take bytes, or a folder didn't store them.
#[derive(Clone, Copy, Debug, PartialEq, Eq)]
pub enum WriteErr {
    /// The sink or the folder met a fault.
    Failed,
    /// Want of memory.
    Memory,
}

impl From<AllocError> for WriteErr {
    ghost from_gives = { λ _ e. e ≡ Memory };

    fn from(_: AllocError) -> Self {
        WriteErr::Memory
    }
}

/// A sink of bytes.
pub trait Sink {
    /// What it has taken, where it tells.
    ghost written: { Self → Option (List ℕ) };

    /// How many writes have met a fault, up to the last value of a `u64`.
    ghost faults: { Self → ℕ };

    /// Takes a prefix of the bytes and says how long it is: at least 1 where there is a byte.
    fn write(&mut self, bytes: &[u8]) -> Result<usize, WriteErr>
        ensures takes { TakesPrefix (written self.old) (written self.new) bytes.now result }
        ensures cause { WriteCause (faults self.old) (faults self.new) result };
}

/// Writes all the bytes, a prefix at a time. After an error a prefix of them was taken.
pub fn write_whole<O: Sink>(sink: &mut O, bytes: &[u8]) -> Result<(), WriteErr>
    ensures takes { TakesWhole (O.written sink.old) (O.written sink.new) bytes.now result }
    ensures cause { WriteCause (O.faults sink.old) (O.faults sink.new) result }
{
    let mut done: usize = 0;
    while done < bytes.len() {
        let count = sink.write(&bytes[done..])?;
        done += count;
    }
    Ok(())
}
