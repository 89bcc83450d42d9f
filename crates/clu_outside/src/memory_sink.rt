//! A sink in memory, for tests: it tells all that it has taken, and the writes that are listed meet a fault, and
//! no others.

ghost use Rattle.std.specs.Prelude.{◌≡◌, ◌↔◌, [], Some, IsErrOf, IfOk, length, Contains};
ghost use Rattle.clu_outside.specs.Counts.{next_count};
ghost use Rattle.clu_outside.specs.Sink.{TakesPrefix, WriteCause};
ghost use Rattle.clu_outside.specs.MemorySink.{bytes_of, calls_of, faults_of, failing_writes_of};

use crate::{Sink, WriteErr};
use std::alloc::Global;

/// A sink in memory. Its calls whose numbers, from 1, are listed meet a fault, and no others.
#[derive(Drop)]
pub struct MemorySink {
    bytes: Vec<u8>,
    failing: Vec<u64>,
    calls: u64,
    faults: u64,
}

impl MemorySink {
    /// A sink that has taken nothing, whose listed calls are to fail.
    pub fn new(alloc: Global, failing: Vec<u64>) -> Self
        ensures bytes { bytes_of result ≡ [] }
        ensures calls { calls_of result ≡ 0 }
        ensures faults { faults_of result ≡ 0 }
        ensures failing { failing_writes_of result ≡ failing.items }
    {
        MemorySink {
            bytes: Vec::new(alloc),
            failing,
            calls: 0,
            faults: 0,
        }
    }

    /// What the sink has taken.
    pub fn bytes(&self) -> &[u8]
        ensures { result.now ≡ bytes_of self.now }
    {
        &self.bytes
    }
}

impl Sink for MemorySink {
    ghost written = { λ sink. Some (bytes_of sink) };

    ghost faults = { faults_of };

    fn write(&mut self, bytes: &[u8]) -> Result<usize, WriteErr>
        ensures takes { TakesPrefix (Some (bytes_of self.old)) (Some (bytes_of self.new))
            bytes.now result }
        ensures cause { WriteCause (faults_of self.old) (faults_of self.new) result }
        ensures counted { IsErrOf result WriteErr.Failed
            → faults_of self.new ≡ next_count (faults_of self.old) }
        ensures listed { IsErrOf result WriteErr.Failed
            ↔ Contains (failing_writes_of self.old) (next_count (calls_of self.old)) }
        ensures all { IfOk result (λ count. count ≡ length bytes.now) }
        ensures calls { calls_of self.new ≡ next_count (calls_of self.old) }
        ensures failing { failing_writes_of self.new ≡ failing_writes_of self.old }
    {
        self.calls = self.calls.saturating_add(1);
        let call = self.calls;
        if self.failing.contains(&call) {
            self.faults = self.faults.saturating_add(1);
            return Err(WriteErr::Failed);
        }
        self.bytes.extend_from_slice(bytes)?;
        Ok(bytes.len())
    }
}

#[cfg(test)]
mod tests {
    use super::*;
    use crate::write_whole;
    use std::test::Fail;

    fn fails_at_the_second_write(sink: &mut MemorySink) -> bool {
        write_whole(sink, b"ab") == Ok(())
            && write_whole(sink, b"cd") == Err(WriteErr::Failed)
            && sink.bytes() == b"ab".as_slice()
            && sink.faults == 1
    }

    #[test]
    fn a_listed_write_fails(rt: HostRuntime) -> Result<(), Fail> {
        let alloc = rt.alloc();
        let mut sink = MemorySink::new(alloc, [2].to_vec(alloc)?);
        assert!(rt; fails_at_the_second_write(&mut sink));
        Ok(())
    }
}
