//! The folder in which the program runs, by the calls of the system. It tells nothing, and is trusted with its content.
//! A file is read in pieces up to the limit, so a longer one is refused without being held; the one that was stored
//! in last stays open, so a file of many pieces is opened once.

ghost use Rattle.std.specs.Prelude.{◌≡◌, None};
ghost use Rattle.clu_outside.specs.Counts.{next_count};
ghost use Rattle.clu_outside.specs.Sink.{WriteCause};

use crate::{Folder, LoadErr, WriteErr};
use std::alloc::Global;
use std::fs;
use std::fs::OpenOptions;
use std::io::{ErrorKind, Read, Write};
use std::marker::Model;
use std::rt::Files;

/// How many bytes a read of a file asks for.
const PIECE: usize = 65_536;

/// A file that is open at its end.
#[derive(Drop)]
struct LastStored<T: Drop> {
    name: String,
    file: T,
}

/// A folder of the system. It tells nothing of its content, and is trusted with it. The file that
/// was stored in last stays open.
#[derive(Drop)]
pub struct RealFolder<'a, R: Files + AllocGlobal> {
    rt: &'a R,
    last: Option<LastStored<R::File>>,
    load_faults: u64,
    store_faults: u64,
}

impl<'a, R: Files + AllocGlobal> Model for RealFolder<'a, R> {
    ghost use Rattle.clu_outside.specs.Counts.{FolderFaults};

    ghost Value = { FolderFaults };

    ghost view = { λ f. record { loads = f.load_faults; stores = f.store_faults } };
}

impl<'a, R: Files + AllocGlobal> RealFolder<'a, R> {
    /// The folder in which the program runs.
    pub fn new(rt: &'a R) -> Self
        ensures loads { result.loads ≡ 0 }
        ensures stores { result.stores ≡ 0 }
    {
        RealFolder {
            rt,
            last: None,
            load_faults: 0,
            store_faults: 0,
        }
    }

    fn load_fault(&mut self) -> LoadErr
        ensures fault { result ≡ LoadErr.Failed }
        ensures loads { self.new.loads ≡ next_count (self.old.loads) }
        ensures stores { self.new.stores ≡ self.old.stores }
    {
        self.load_faults = self.load_faults.saturating_add(1);
        LoadErr::Failed
    }

    fn store_fault(&mut self) -> WriteErr
        ensures fault { result ≡ WriteErr.Failed }
        ensures loads { self.new.loads ≡ self.old.loads }
        ensures stores { self.new.stores ≡ next_count (self.old.stores) }
    {
        self.store_faults = self.store_faults.saturating_add(1);
        WriteErr::Failed
    }

    /// The file of that name, open at its end: the one that is still open, or opened anew.
    fn at_end(&mut self, name: &str) -> Result<LastStored<R::File>, WriteErr>
        ensures cause { WriteCause self.old.stores self.new.stores result }
        ensures loads { self.new.loads ≡ self.old.loads }
    {
        if let Some(last) = self.last.take() {
            if last.name.as_str() == name {
                return Ok(last);
            }
        }
        let name = String::from_str(self.rt.alloc(), name)?;
        let opened = OpenOptions::new()
            .append(true)
            .create(true)
            .open(self.rt, name.as_str());
        match opened {
            Ok(file) => Ok(LastStored { name, file }),
            Err(_) => Err(self.store_fault()),
        }
    }
}

impl<'a, R: Files + AllocGlobal> Folder for RealFolder<'a, R> {
    ghost told = { λ _. None };

    ghost load_faults = { λ f. f.loads };

    ghost store_faults = { λ f. f.stores };

    fn load(&mut self, alloc: Global, name: &str, limit: u64) -> Result<Vec<u8>, LoadErr> {
        let mut file = match fs::open(self.rt, name) {
            Ok(file) => file,
            Err(error) => {
                if error.kind() == ErrorKind::NotFound {
                    return Err(LoadErr::Missing);
                }
                return Err(self.load_fault());
            }
        };
        let mut bytes: Vec<u8> = Vec::new(alloc);
        let mut piece = [0u8; PIECE];
        // Nothing says that a file ends, so the reads are counted.
        for _ in 0..u64::MAX {
            let count = match file.read(&mut piece) {
                Ok(count) => count,
                Err(_) => return Err(self.load_fault()),
            };
            if count == 0 {
                return Ok(bytes);
            }
            if limit < u64::MAX && (count as u64) > limit - bytes.len() as u64 {
                return Err(LoadErr::TooLong);
            }
            bytes.extend_from_slice(&piece[..count])?;
        }
        Err(self.load_fault())
    }

    fn create(&mut self, name: &str) -> Result<(), WriteErr> {
        self.last = None;
        let name = String::from_str(self.rt.alloc(), name)?;
        match fs::create(self.rt, name.as_str()) {
            Ok(file) => {
                self.last = Some(LastStored { name, file });
                Ok(())
            }
            Err(_) => Err(self.store_fault()),
        }
    }

    fn append(&mut self, name: &str, bytes: &[u8]) -> Result<(), WriteErr> {
        let mut last = self.at_end(name)?;
        let written = last.file.write_all(bytes);
        self.last = Some(last);
        match written {
            Ok(()) => Ok(()),
            Err(_) => Err(self.store_fault()),
        }
    }
}

#[cfg(test)]
mod tests {
    use super::*;
    use crate::fixtures::{has, lays, removes};

    /// Whether a load answers these bytes.
    fn loads<F: Folder>(
        alloc: Global,
        folder: &mut F,
        name: &str,
        limit: u64,
        want: &[u8],
    ) -> bool {
        match folder.load(alloc, name, limit) {
            Ok(bytes) => bytes.as_slice() == want,
            Err(_) => false,
        }
    }

    /// Whether a load answers this error.
    fn refuses<F: Folder>(
        alloc: Global,
        folder: &mut F,
        name: &str,
        limit: u64,
        want: LoadErr,
    ) -> bool {
        match folder.load(alloc, name, limit) {
            Ok(_) => false,
            Err(error) => error == want,
        }
    }

    #[test]
    fn a_load_has_a_limit_and_a_cause(rt: HostRuntime) {
        let alloc = rt.alloc();
        let x = [b'x'; PIECE + 1];
        assert!(rt; lays(&rt, "g", b"abc"));
        assert!(rt; lays(&rt, "long", &x));
        assert!(rt; fs::create_dir_all(&rt, "folder").is_ok());
        let mut folder = RealFolder::new(&rt);
        assert!(rt; loads(alloc, &mut folder, "g", 3, b"abc"));
        assert!(rt; loads(alloc, &mut folder, "g", u64::MAX, b"abc"));
        assert!(rt; loads(alloc, &mut folder, "long", PIECE as u64 + 1, &x));
        for (name, limit, want, faults) in &[
            ("g", 2, LoadErr::TooLong, 0),
            ("long", PIECE as u64, LoadErr::TooLong, 0),
            ("missing", 3, LoadErr::Missing, 0),
            ("folder", 3, LoadErr::Failed, 1),
        ] {
            assert!(rt; refuses(alloc, &mut folder, *name, *limit, *want), "{name}");
            assert!(rt; folder.load_faults == *faults, "{name}");
        }
        assert!(rt; removes(&rt, "g"));
        assert!(rt; removes(&rt, "long"));
        assert!(rt; fs::remove_dir(&rt, "folder").is_ok());
    }

    /// Whether an append goes well, and leaves these bytes in the system's file.
    fn adds(
        rt: &HostRuntime,
        folder: &mut RealFolder<'_, HostRuntime>,
        name: &str,
        bytes: &str,
        held: &str,
    ) -> bool {
        folder.append(name, bytes.as_bytes()) == Ok(()) && has(rt, name, held.as_bytes())
    }

    #[test]
    fn a_file_is_created_and_added_to(rt: HostRuntime) {
        assert!(rt; lays(&rt, "g", b"what stood there"));
        assert!(rt; lays(&rt, "h", b"ab"));
        let mut folder = RealFolder::new(&rt);
        assert!(rt; folder.create("g") == Ok(()));
        assert!(rt; has(&rt, "g", b""));
        for (name, bytes, held) in &[
            ("g", "ab", "ab"),
            ("g", "c", "abc"),
            ("h", "cd", "abcd"),
            ("g", "d", "abcd"),
            ("new", "e", "e"),
        ] {
            assert!(rt; adds(&rt, &mut folder, *name, *bytes, *held), "{name}");
        }
        assert!(rt; folder.store_faults == 0);
        for name in &["g", "h", "new"] {
            assert!(rt; removes(&rt, *name), "{name}");
        }
    }

    /// Whether a create and an append in a folder that isn't there fail, and are counted.
    fn fails_to_store(folder: &mut RealFolder<'_, HostRuntime>) -> bool {
        folder.create("none/g") == Err(WriteErr::Failed)
            && folder.store_faults == 1
            && folder.append("none/g", b"ab") == Err(WriteErr::Failed)
            && folder.store_faults == 2
            && folder.load_faults == 0
    }

    #[test]
    fn a_store_in_a_missing_folder_fails(rt: HostRuntime) {
        let mut folder = RealFolder::new(&rt);
        assert!(rt; fails_to_store(&mut folder));
    }
}
