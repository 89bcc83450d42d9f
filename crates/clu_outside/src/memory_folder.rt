//! A folder in memory, for tests: it tells its whole content and the names of its loads, and the calls that are
//! listed meet a fault, and no others. A name is noted before its load, so the note of a load that was made is there.

ghost use Rattle.std.specs.Prelude.{◌≡◌, ◌↔◌, ◌⊎◌, [], ◌∷◌, ◌++◌, Some, None, OnOk, OnErr, IfErr, IsErr, IsErrOf, IsTrue, is_ok, if◌then◌else◌, MatchOption, Contains, map, string_bytes};
ghost use Rattle.clu_outside.specs.Counts.{next_count};
ghost use Rattle.clu_outside.specs.Folder.{LoadTells, LoadCause, CreateTells, AppendTells, SameElsewhere, bytes_under};
ghost use Rattle.clu_outside.specs.Sink.{WriteCause};
ghost use Rattle.clu_outside.specs.MemoryFolder.{told_by, load_faults_of, store_faults_of, failing_calls_of, SameCalls, SameFiles};

use crate::{Folder, LoadErr, WriteErr};
use std::alloc::{AllocError, Global};
use std::collections::BTreeMap;

/// A folder in memory. Its calls whose numbers, from 1, are listed meet a fault, and no others.
#[derive(Drop)]
pub struct MemoryFolder {
    alloc: Global,
    files: BTreeMap<String, Vec<u8>>,
    failing: Vec<u64>,
    calls: u64,
    loaded: Vec<String>,
    load_faults: u64,
    store_faults: u64,
}

impl MemoryFolder {
    /// A folder without files, whose listed calls are to fail.
    pub fn new(alloc: Global, failing: Vec<u64>) -> Self
        ensures empty { (told_by result).held ≡ λ _. None }
        ensures calls { (told_by result).calls ≡ 0 }
        ensures loads { (told_by result).loads ≡ [] }
        ensures load_faults { load_faults_of result ≡ 0 }
        ensures store_faults { store_faults_of result ≡ 0 }
        ensures failing { failing_calls_of result ≡ failing.items }
    {
        MemoryFolder {
            alloc,
            files: BTreeMap::new(alloc),
            failing,
            calls: 0,
            loaded: Vec::new(alloc),
            load_faults: 0,
            store_faults: 0,
        }
    }

    /// Puts a file into the folder, in place of one of that name. This is no call of the trait.
    pub fn put(&mut self, name: &str, bytes: &[u8]) -> Result<(), AllocError>
        ensures put { OnOk result ((told_by self.new).held name.now ≡ Some bytes.now) }
        ensures others { SameElsewhere (told_by self.old) (told_by self.new) name.now }
        ensures err { OnErr result ((told_by self.new).held ≡ (told_by self.old).held) }
        ensures calls { SameCalls self.old self.new }
    {
        self.put_at(name, bytes.to_vec(self.alloc)?)
    }

    /// How many calls it has had.
    pub fn calls(&self) -> u64
        ensures { result ≡ (told_by self.now).calls }
    {
        self.calls
    }

    /// The names of the loads that it has had, the first one first.
    pub fn loads(&self) -> &[String]
        ensures { map string_bytes result.now ≡ (told_by self.now).loads }
    {
        &self.loaded
    }

    /// Notes the name of a load. Without memory for it nothing changes.
    fn note(&mut self, name: &str) -> Result<(), AllocError>
        ensures noted { OnOk result
            ((told_by self.new).loads ≡ (told_by self.old).loads ++ name.now ∷ []) }
        ensures err { OnErr result ((told_by self.new).loads ≡ (told_by self.old).loads) }
        ensures others { self.new ≡ record self.old { loaded = self.new.loaded } }
    {
        let name = String::from_str(self.alloc, name)?;
        self.loaded.push(name)?;
        Ok(())
    }

    fn put_at(&mut self, name: &str, bytes: Vec<u8>) -> Result<(), AllocError>
        ensures put { OnOk result ((told_by self.new).held name.now ≡ Some bytes.items) }
        ensures others { SameElsewhere (told_by self.old) (told_by self.new) name.now }
        ensures err { OnErr result ((told_by self.new).held ≡ (told_by self.old).held) }
        ensures calls { SameCalls self.old self.new }
    {
        let key = String::from_str(self.alloc, name)?;
        self.files.insert(key, bytes)?;
        Ok(())
    }

    fn add_at(&mut self, name: &str, bytes: &[u8]) -> Result<(), AllocError>
        ensures added { OnOk result ((told_by self.new).held name.now
            ≡ Some (bytes_under (told_by self.old) name.now ++ bytes.now)) }
        ensures others { SameElsewhere (told_by self.old) (told_by self.new) name.now }
        ensures err { OnErr result (SameFiles self.old self.new) }
        ensures calls { SameCalls self.old self.new }
    {
        match self.files.get_mut(name) {
            Some(held) => held.extend_from_slice(bytes),
            None => self.put_at(name, bytes.to_vec(self.alloc)?),
        }
    }

    /// Counts a call, and says whether it is listed.
    fn next_is_listed(&mut self) -> bool
        ensures listed { IsTrue result
            ↔ Contains (failing_calls_of self.old) (next_count (told_by self.old).calls) }
        ensures counted { self.new ≡ record self.old { calls = next_count self.old.calls } }
    {
        self.calls = self.calls.saturating_add(1);
        let call = self.calls;
        self.failing.contains(&call)
    }

    /// Counts a create or an append, and fails where it is listed.
    fn begin_store(&mut self) -> Result<(), WriteErr>
        ensures held { (told_by self.new).held ≡ (told_by self.old).held }
        ensures calls { (told_by self.new).calls ≡ next_count (told_by self.old).calls }
        ensures cause { IfErr result (λ error. error ≡ WriteErr.Failed) }
        ensures faults { store_faults_of self.new
            ≡ (if is_ok result then store_faults_of self.old
            else next_count (store_faults_of self.old)) }
        ensures loads { load_faults_of self.new ≡ load_faults_of self.old }
        ensures names { (told_by self.new).loads ≡ (told_by self.old).loads }
        ensures listed { IsErr result
            ↔ Contains (failing_calls_of self.old) (next_count (told_by self.old).calls) }
        ensures failing { failing_calls_of self.new ≡ failing_calls_of self.old }
    {
        if self.next_is_listed() {
            self.store_faults = self.store_faults.saturating_add(1);
            return Err(WriteErr::Failed);
        }
        Ok(())
    }

    /// The bytes under a name; `None` where there is no such file.
    pub fn get(&self, name: &str) -> Option<&[u8]>
        ensures { MatchOption result ((told_by self.now).held name.now ≡ None)
            (λ bytes. (told_by self.now).held name.now ≡ Some bytes.now) }
    {
        match self.files.get(name) {
            None => None,
            Some(bytes) => Some(bytes.as_slice()),
        }
    }
}

impl Folder for MemoryFolder {
    ghost told = { λ folder. Some (told_by folder) };

    ghost load_faults = { load_faults_of };

    ghost store_faults = { store_faults_of };

    fn load(&mut self, alloc: Global, name: &str, limit: u64) -> Result<Vec<u8>, LoadErr>
        ensures tells { LoadTells (Some (told_by self.old)) (Some (told_by self.new))
            name.now limit result }
        ensures cause { LoadCause (load_faults_of self.old) (load_faults_of self.new) result }
        ensures stores { store_faults_of self.new ≡ store_faults_of self.old }
        ensures counted { IsErrOf result LoadErr.Failed
            → load_faults_of self.new ≡ next_count (load_faults_of self.old) }
        ensures listed { IsErrOf result LoadErr.Failed
            → Contains (failing_calls_of self.old) (next_count (told_by self.old).calls) }
        ensures fails { Contains (failing_calls_of self.old) (next_count (told_by self.old).calls)
            → IsErrOf result LoadErr.Failed
            ⊎ (IsErrOf result LoadErr.Memory × (told_by self.new ≡ told_by self.old)) }
        ensures failing { failing_calls_of self.new ≡ failing_calls_of self.old }
    {
        self.note(name)?;
        if self.next_is_listed() {
            self.load_faults = self.load_faults.saturating_add(1);
            return Err(LoadErr::Failed);
        }
        match self.files.get(name) {
            None => Err(LoadErr::Missing),
            Some(bytes) => {
                if limit < u64::MAX && bytes.len() as u64 > limit {
                    return Err(LoadErr::TooLong);
                }
                Ok(bytes.to_vec(alloc)?)
            }
        }
    }

    fn create(&mut self, name: &str) -> Result<(), WriteErr>
        ensures tells { CreateTells (Some (told_by self.old)) (Some (told_by self.new))
            name.now result }
        ensures cause { WriteCause (store_faults_of self.old) (store_faults_of self.new) result }
        ensures loads { load_faults_of self.new ≡ load_faults_of self.old }
        ensures counted { IsErrOf result WriteErr.Failed
            → store_faults_of self.new ≡ next_count (store_faults_of self.old) }
        ensures listed { IsErrOf result WriteErr.Failed
            ↔ Contains (failing_calls_of self.old) (next_count (told_by self.old).calls) }
        ensures refused { OnErr result (SameFiles self.old self.new) }
        ensures failing { failing_calls_of self.new ≡ failing_calls_of self.old }
    {
        self.begin_store()?;
        self.put_at(name, Vec::new(self.alloc))?;
        Ok(())
    }

    fn append(&mut self, name: &str, bytes: &[u8]) -> Result<(), WriteErr>
        ensures tells { AppendTells (Some (told_by self.old)) (Some (told_by self.new))
            name.now bytes.now result }
        ensures cause { WriteCause (store_faults_of self.old) (store_faults_of self.new) result }
        ensures loads { load_faults_of self.new ≡ load_faults_of self.old }
        ensures counted { IsErrOf result WriteErr.Failed
            → store_faults_of self.new ≡ next_count (store_faults_of self.old) }
        ensures listed { IsErrOf result WriteErr.Failed
            ↔ Contains (failing_calls_of self.old) (next_count (told_by self.old).calls) }
        ensures refused { OnErr result (SameFiles self.old self.new) }
        ensures failing { failing_calls_of self.new ≡ failing_calls_of self.old }
    {
        self.begin_store()?;
        self.add_at(name, bytes)?;
        Ok(())
    }
}

#[cfg(test)]
mod tests {
    use super::*;
    use std::test::Fail;

    /// A folder whose file `g` has the bytes `abc`, and whose call of this number, from 1, fails.
    fn with_a_file(alloc: Global, failing: u64) -> Result<MemoryFolder, AllocError> {
        let mut folder = MemoryFolder::new(alloc, [failing].to_vec(alloc)?);
        folder.put("g", b"abc")?;
        Ok(folder)
    }

    /// Whether the folder has a file of that name with exactly these bytes.
    fn holds(folder: &MemoryFolder, name: &str, bytes: &str) -> bool {
        match folder.get(name) {
            Some(held) => held == bytes.as_bytes(),
            None => false,
        }
    }

    /// Whether these are the folder's counts: of calls, of load faults and of store faults.
    fn counts(folder: &MemoryFolder, calls: u64, loads: u64, stores: u64) -> bool {
        folder.calls == calls && folder.load_faults == loads && folder.store_faults == stores
    }

    /// Whether a load answers the bytes `abc`.
    fn loads(folder: &mut MemoryFolder, name: &str, limit: u64) -> bool {
        match folder.load(folder.alloc, name, limit) {
            Ok(bytes) => bytes.as_slice() == b"abc".as_slice(),
            Err(_) => false,
        }
    }

    /// Whether a load answers this error.
    fn refuses(folder: &mut MemoryFolder, name: &str, limit: u64, want: LoadErr) -> bool {
        match folder.load(folder.alloc, name, limit) {
            Ok(_) => false,
            Err(error) => error == want,
        }
    }

    fn loads_within_a_limit(folder: &mut MemoryFolder) -> bool {
        loads(folder, "g", 3)
            && refuses(folder, "g", 2, LoadErr::TooLong)
            && refuses(folder, "h", 2, LoadErr::Missing)
            && counts(folder, 3, 0, 0)
    }

    #[test]
    fn a_load_has_a_limit_and_a_cause(rt: HostRuntime) -> Result<(), Fail> {
        assert!(rt; loads_within_a_limit(&mut with_a_file(rt.alloc(), 0)?));
        Ok(())
    }

    /// Whether the load of this index has this name.
    fn is_noted(folder: &MemoryFolder, index: usize, name: &str) -> bool {
        match folder.loads().get(index) {
            Some(noted) => noted.as_str() == name,
            None => false,
        }
    }

    fn notes_each_load(folder: &mut MemoryFolder) -> bool {
        loads(folder, "g", 3)
            && is_noted(folder, 0, "g")
            && refuses(folder, "g", 3, LoadErr::Failed)
            && is_noted(folder, 1, "g")
            && refuses(folder, "h", 3, LoadErr::Missing)
            && is_noted(folder, 2, "h")
            && folder.create("h") == Ok(())
            && folder.append("h", b"ab") == Ok(())
            && folder.loads().len() == 3
    }

    #[test]
    fn loads_are_noted_in_their_order(rt: HostRuntime) -> Result<(), Fail> {
        assert!(rt; notes_each_load(&mut with_a_file(rt.alloc(), 2)?));
        Ok(())
    }

    fn fails_at_the_second_load(folder: &mut MemoryFolder) -> bool {
        loads(folder, "g", u64::MAX)
            && refuses(folder, "g", u64::MAX, LoadErr::Failed)
            && loads(folder, "g", u64::MAX)
            && counts(folder, 3, 1, 0)
            && holds(folder, "g", "abc")
            && folder.get("h").is_none()
    }

    fn fails_at_the_second_create(folder: &mut MemoryFolder) -> bool {
        folder.create("h") == Ok(())
            && folder.create("g") == Err(WriteErr::Failed)
            && holds(folder, "h", "")
            && holds(folder, "g", "abc")
            && folder.create("g") == Ok(())
            && holds(folder, "g", "")
            && counts(folder, 3, 0, 1)
    }

    fn fails_at_the_second_append(folder: &mut MemoryFolder) -> bool {
        folder.create("g") == Ok(())
            && folder.append("g", b"ab") == Ok(())
            && holds(folder, "g", "ab")
            && counts(folder, 2, 0, 0)
            && folder.append("g", b"cd") == Err(WriteErr::Failed)
            && holds(folder, "g", "ab")
            && counts(folder, 3, 0, 1)
            && folder.append("g", b"e") == Ok(())
            && holds(folder, "g", "abe")
            && counts(folder, 4, 0, 1)
            && folder.append("missing", b"xy") == Ok(())
            && holds(folder, "missing", "xy")
            && counts(folder, 5, 0, 1)
    }

    #[test]
    fn a_listed_call_fails(rt: HostRuntime) -> Result<(), Fail> {
        let alloc = rt.alloc();
        assert!(rt; fails_at_the_second_load(&mut with_a_file(alloc, 2)?));
        assert!(rt; fails_at_the_second_create(&mut with_a_file(alloc, 2)?));
        assert!(rt; fails_at_the_second_append(&mut with_a_file(alloc, 3)?));
        Ok(())
    }
}
