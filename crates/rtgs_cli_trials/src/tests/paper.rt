//! What a run prints on.
use std::alloc::Global;
use std::io;
use std::io::Write;

/// Keeps what it takes, which is no more than it has room for, and counts its writes.
#[derive(Drop)]
pub struct Paper {
    taken: Vec<u8>,
    room: usize,
    writes: usize,
}

impl Paper {
    /// With room for this many bytes.
    pub fn new(alloc: Global, room: usize) -> Paper {
        Paper {
            taken: Vec::new(alloc),
            room,
            writes: 0,
        }
    }

    /// What it has taken.
    pub fn bytes(&self) -> &[u8] {
        self.taken.as_slice()
    }

    /// How often it was written on.
    pub fn writes(&self) -> usize {
        self.writes
    }
}

impl Write for Paper {
    fn write(&mut self, bytes: &[u8]) -> io::Result<usize> {
        let count = bytes.len().min(self.room);
        self.taken.extend_from_slice(&bytes[..count])?;
        self.room = self.room.saturating_sub(count);
        self.writes = self.writes.saturating_add(1);
        Ok(count)
    }

    fn flush(&mut self) -> io::Result<()> {
        Ok(())
    }
}
