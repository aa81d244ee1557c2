//! A reader that gives little at once.
use std::io;
use std::io::Read;

/// Gives one byte at a time.
#[derive(Drop)]
pub struct Drip<'a> {
    left: &'a [u8],
}

impl<'a> Drip<'a> {
    pub fn new(left: &'a [u8]) -> Drip<'a> {
        Drip { left }
    }
}

impl Read for Drip<'_> {
    fn read(&mut self, room: &mut [u8]) -> io::Result<usize> {
        let count = room.len().min(1);
        self.left.read(&mut room[..count])
    }
}
