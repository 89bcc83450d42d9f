//! A file stored by one create and an append for each piece, so that no call has to hold all of it. The pieces follow
//! each other without a gap, so a fault leaves what the name held or a prefix of the file.

ghost use Rattle.std.specs.Prelude.{◌≡◌};
ghost use Rattle.clu_outside.specs.Folder.{StoresWhole};
ghost use Rattle.clu_outside.specs.Sink.{WriteCause};

use crate::{Folder, WriteErr};

/// The length of the pieces in which a file is stored.
pub const PIECE: usize = 4_096;

/// Stores a file: creates it and appends the bytes in pieces of 4,096, of which the last may be
/// shorter and none is empty.
pub fn store_whole<F: Folder>(folder: &mut F, name: &str, bytes: &[u8]) -> Result<(), WriteErr>
    ensures tells { StoresWhole (F.told folder.old) (F.told folder.new) name.now bytes.now result }
    ensures cause { WriteCause (F.store_faults folder.old) (F.store_faults folder.new) result }
    ensures loads { F.load_faults folder.new ≡ F.load_faults folder.old }
{
    folder.create(name)?;
    let mut done: usize = 0;
    while done < bytes.len() {
        let count = PIECE.min(bytes.len() - done);
        folder.append(name, &bytes[done..done + count])?;
        done += count;
    }
    Ok(())
}

#[cfg(test)]
mod tests {
    use super::*;
    use crate::fixtures::{has, lays, removes};
    use crate::{MemoryFolder, RealFolder};
    use std::alloc::{AllocError, Global};
    use std::test::Fail;

    /// Bytes of which no two pieces are the same.
    fn mixed(alloc: Global, count: usize) -> Result<Vec<u8>, AllocError> {
        let mut bytes = Vec::new(alloc);
        for i in 0..count {
            bytes.push((i % 251) as u8)?;
        }
        Ok(bytes)
    }

    /// A folder whose file `g` has these bytes, and whose call of this number, from 1, fails.
    fn over(alloc: Global, failing: u64, stood: &[u8]) -> Result<MemoryFolder, AllocError> {
        let mut folder = MemoryFolder::new(alloc, [failing].to_vec(alloc)?);
        folder.put("g", stood)?;
        Ok(folder)
    }

    /// Whether the folder's file has these bytes, after so many calls.
    fn leaves(folder: &MemoryFolder, held: &[u8], calls: u64) -> bool {
        match folder.get("g") {
            Some(bytes) => bytes == held && folder.calls() == calls,
            None => false,
        }
    }

    /// Whether a store of these bytes has this answer, and leaves those after so many calls.
    fn stores(
        folder: &mut MemoryFolder,
        bytes: &[u8],
        want: Result<(), WriteErr>,
        held: &[u8],
        calls: u64,
    ) -> bool {
        store_whole(folder, "g", bytes) == want && leaves(folder, held, calls)
    }

    /// Whether a file of so many bytes is stored whole, by so many calls.
    fn is_whole(alloc: Global, size: usize, calls: u64) -> Result<bool, AllocError> {
        let bytes = mixed(alloc, size)?;
        let mut folder = over(alloc, 0, b"what stood there")?;
        Ok(stores(&mut folder, &bytes, Ok(()), &bytes, calls))
    }

    #[test]
    fn pieces_are_stored_in_order(rt: HostRuntime) -> Result<(), Fail> {
        for (size, calls) in &[(0, 1), (1, 2), (4_096, 2), (4_097, 3), (8_193, 4)] {
            assert!(rt; is_whole(rt.alloc(), *size, *calls)?, "of {size}");
        }
        Ok(())
    }

    /// Whether a store of these bytes in which this call fails, the last one, leaves those.
    fn is_cut(alloc: Global, bytes: &[u8], call: u64, held: &[u8]) -> Result<bool, AllocError> {
        let mut folder = over(alloc, call, b"abc")?;
        Ok(stores(&mut folder, bytes, Err(WriteErr::Failed), held, call))
    }

    #[test]
    fn a_fault_leaves_a_prefix(rt: HostRuntime) -> Result<(), Fail> {
        let bytes = mixed(rt.alloc(), 4_097)?;
        let piece = mixed(rt.alloc(), 4_096)?;
        for (call, held) in &[(1, b"abc".as_slice()), (2, b""), (3, piece.as_slice())] {
            assert!(rt; is_cut(rt.alloc(), &bytes, *call, *held)?, "at {call}");
        }
        Ok(())
    }

    #[test]
    fn a_file_of_the_system_is_stored_whole(rt: HostRuntime) -> Result<(), Fail> {
        let bytes = mixed(rt.alloc(), 10_000)?;
        assert!(rt; lays(&rt, "g", b"what stood there"));
        let mut folder = RealFolder::new(&rt);
        assert!(rt; store_whole(&mut folder, "g", &bytes) == Ok(()));
        assert!(rt; has(&rt, "g", &bytes));
        assert!(rt; removes(&rt, "g"));
        Ok(())
    }
}
