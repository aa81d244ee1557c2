//! A reader that counts how often it is asked, and fails when a test wants it.
use std::io;
use std::io::{ErrorKind, Read};

/// Gives a few bytes at a time, and fails after a number of reads.
#[derive(Drop)]
pub struct CountedReader<'a> {
    left: &'a [u8],
    most: usize,
    reads: usize,
    /// How many reads it gave bytes to.
    pub made: usize,
}

impl<'a> CountedReader<'a> {
    pub fn new(left: &'a [u8], most: usize, reads: usize) -> CountedReader<'a> {
        CountedReader {
            left,
            most,
            reads,
            made: 0,
        }
    }
}

impl Read for CountedReader<'_> {
    fn read(&mut self, room: &mut [u8]) -> io::Result<usize> {
        if self.reads == 0 {
            return Err(io::Error::from(ErrorKind::ConnectionReset));
        }
        self.reads -= 1;
        self.made = self.made.saturating_add(1);
        let count = room.len().min(self.most);
        self.left.read(&mut room[..count])
    }
}
