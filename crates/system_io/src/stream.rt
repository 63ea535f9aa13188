// A sink over a writer.
ghost use Rattle.std.specs.Prelude.{◌≡◌, ◌<◌, ◌≤◌, None, [], true, false, length, IfOk, OnOk};
ghost use Rattle.ct_io.specs.Counts.{HasCause, Rose};

use ct_io::{PutFailed, Sink};
use std::alloc::{AllocError, Global};
use std::io::Write;

// So many bytes are gathered before they are written.
const ROOM: usize = 65536;

/// A writer that counts its failures. Pieces are gathered and written 64 KiB at a time, and at the end by `finish`. It doesn't tell what
/// was written.
#[derive(Drop)]
pub struct Stream<W: Drop> {
    writer: W,
    gathered: Vec<u8>,
    faults: u64,
    last: bool,
}

impl<W: Write + Drop> Stream<W> {
    /// A writer that hasn't failed yet. It takes all memory that it will need.
    pub fn new(alloc: Global, writer: W) -> Result<Self, AllocError>
        ensures { IfOk result (λ stream. (stream.writer ≡ writer) × (stream.gathered.items ≡ []) × (stream.faults ≡ 0) × (stream.last ≡ false)) }
    {
        Ok(Stream {
            writer,
            gathered: Vec::with_capacity(alloc, ROOM)?,
            faults: 0,
            last: false,
        })
    }

    /// The same stream, with which the process ends.
    pub fn as_last(self) -> Self
        ensures { (result.writer ≡ self.writer) × (result.gathered ≡ self.gathered) × (result.faults ≡ self.faults) × (result.last ≡ true) }
    {
        Stream { last: true, ..self }
    }

    /// Writes what is gathered. It fails where the writer does, or takes no byte; then that isn't gathered any more.
    pub fn finish(&mut self) -> Result<(), PutFailed>
        ensures empty { length self.new.gathered.items ≡ 0 }
        ensures cause { HasCause self.old.faults self.new.faults result }
    {
        let written = self.writer.write_all(self.gathered.as_slice());
        self.gathered.clear();
        match written {
            Ok(()) => Ok(()),
            Err(_) => Err(self.fail()),
        }
    }

    // Counts a failure.
    fn fail(&mut self) -> PutFailed
        ensures later { self.old.faults ≤ self.new.faults }
        ensures rose { Rose self.old.faults self.new.faults }
        ensures gathered { self.new.gathered ≡ self.old.gathered }
    {
        self.faults = self.faults.saturating_add(1);
        PutFailed
    }

    // Has room for a byte at least.
    fn make_room(&mut self) -> Result<(), PutFailed>
        ensures room { OnOk result (length self.new.gathered.items < 65536) }
        ensures cause { HasCause self.old.faults self.new.faults result }
    {
        if self.gathered.len() < ROOM {
            return Ok(());
        }
        self.finish()
    }

    // Gathers some first bytes of a piece that isn't empty.
    fn gather(&mut self, piece: &[u8]) -> Result<usize, PutFailed>
        requires some { 0 < length piece.now }
        requires room { length self.old.gathered.items < 65536 }
        ensures some { IfOk result (λ count. 1 ≤ count) }
        ensures within { IfOk result (λ count. count ≤ length piece.now) }
        ensures cause { HasCause self.old.faults self.new.faults result }
    {
        let count = piece.len().min(ROOM - self.gathered.len());
        match self.gathered.extend_from_slice(&piece[..count]) {
            Ok(()) => Ok(count),
            Err(_) => Err(self.fail()),
        }
    }
}

impl<W: Write + Drop> Sink for Stream<W> {
    ghost written = { λ _. None };

    ghost faults = { λ s. s.faults };

    ghost last = { λ s. s.last };

    fn is_last(&self) -> bool {
        self.last
    }

    fn put(&mut self, piece: &[u8]) -> Result<usize, PutFailed> {
        self.make_room()?;
        self.gather(piece)
    }
}

#[cfg(test)]
mod tests {
    use super::*;
    use std::test::Fail;

    #[test]
    fn pieces_are_gathered_and_written(rt: HostRuntime) -> Result<(), Fail> {
        let mut room = [0u8; 5];
        let mut stream = Stream::new(rt.alloc(), room.as_mut_slice())?;
        for piece in [b"abc".as_slice(), b"de".as_slice()] {
            assert_eq!(rt; stream.put(piece)?, piece.len());
        }
        assert!(rt; stream.finish().is_ok());
        assert!(rt; stream.finish().is_ok());
        assert_eq!(rt; stream.put(b"f")?, 1);
        // The writer has no room left.
        assert!(rt; stream.finish().is_err());
        assert_eq!(rt; stream.faults, 1);
        drop(stream);
        assert_eq!(rt; room.as_slice(), b"abcde".as_slice());
        Ok(())
    }

    #[test]
    fn a_full_stream_is_written_before_it_takes_more(rt: HostRuntime) -> Result<(), Fail> {
        let mut room = [0u8; ROOM];
        let mut stream = Stream::new(rt.alloc(), room.as_mut_slice())?;
        let piece = [7u8; ROOM - 1];
        assert_eq!(rt; stream.put(&piece)?, ROOM - 1);
        assert_eq!(rt; stream.put(b"ab")?, 1);
        assert_eq!(rt; stream.put(b"b")?, 1);
        assert!(rt; stream.finish().is_err());
        drop(stream);
        assert!(rt; room[ROOM - 2] == 7 && room[ROOM - 1] == b'a');
        Ok(())
    }
}
