//! A stream of the system as a sink. It tells nothing, and is trusted with what it has taken; a write that takes no
//! byte counts as a fault, so a full stream ends the work.

ghost use Rattle.std.specs.Prelude.{◌≡◌, ℕ, None};

use crate::{Sink, WriteErr};
use std::io::Write;
use std::marker::Model;

/// A stream of the system as a sink. It tells nothing of its content, and is trusted with it.
#[derive(Drop)]
pub struct RealSink<W: Write + Drop> {
    writer: W,
    faults: u64,
}

impl<W: Write + Drop> Model for RealSink<W> {
    ghost use Rattle.std.specs.Prelude.{ℕ};

    ghost Value = { ℕ };

    ghost view = { λ sink. sink.faults };
}

impl<W: Write + Drop> RealSink<W> {
    /// A sink that writes to the stream.
    pub fn new(writer: W) -> Self
        ensures { ◌≡◌ {A = ℕ} result 0 }
    {
        RealSink { writer, faults: 0 }
    }
}

impl<W: Write + Drop> Sink for RealSink<W> {
    ghost written = { λ _. None };

    ghost faults = { λ faults. faults };

    fn write(&mut self, bytes: &[u8]) -> Result<usize, WriteErr> {
        match self.writer.write(bytes) {
            Ok(count) if count > 0 || bytes.is_empty() => Ok(count),
            _ => {
                self.faults = self.faults.saturating_add(1);
                Err(WriteErr::Failed)
            }
        }
    }
}

#[cfg(test)]
mod tests {
    use super::*;
    use crate::write_whole;
    use std::io;
    use std::test::Fail;

    /// A stream that takes at most two bytes a time, until it is full. Then it fails, or answers
    /// that it took none.
    #[derive(Drop)]
    struct Narrow {
        taken: Vec<u8>,
        room: usize,
        fails: bool,
    }

    impl Write for Narrow {
        fn write(&mut self, bytes: &[u8]) -> io::Result<usize> {
            let room = self.room.saturating_sub(self.taken.len());
            if room == 0 && self.fails {
                return Err(io::Error::from(io::ErrorKind::StorageFull));
            }
            let count = bytes.len().min(room).min(2);
            self.taken.extend_from_slice(&bytes[..count])?;
            Ok(count)
        }

        fn flush(&mut self) -> io::Result<()> {
            Ok(())
        }
    }

    /// Whether a write of `abcde` has this answer, and leaves this and so many faults.
    fn takes(
        sink: &mut RealSink<Narrow>,
        want: Result<(), WriteErr>,
        taken: &str,
        faults: u64,
    ) -> bool {
        write_whole(sink, b"abcde") == want
            && sink.writer.taken.as_slice() == taken.as_bytes()
            && sink.faults == faults
    }

    #[test]
    fn a_full_stream_is_a_fault(rt: HostRuntime) {
        for (room, fails, want, taken, faults) in &[
            (5, true, Ok(()), "abcde", 0),
            (5, false, Ok(()), "abcde", 0),
            (3, true, Err(WriteErr::Failed), "abc", 1),
            (3, false, Err(WriteErr::Failed), "abc", 1),
        ] {
            let stream = Narrow {
                taken: Vec::new(rt.alloc()),
                room: *room,
                fails: *fails,
            };
            let mut sink = RealSink::new(stream);
            assert!(rt;
                takes(&mut sink, *want, *taken, *faults),
                "at {room} {fails}"
            );
        }
    }
}
