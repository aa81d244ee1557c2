//! A page that a text is written on without memory.
use std::io;
use std::io::Write;

/// How many bytes a page has.
const SIZE: usize = 2048;

/// Bytes that were written, as far as the page has room for them.
#[derive(Clone, Copy, Debug)]
pub struct Page {
    bytes: [u8; SIZE],
    written: usize,
}

impl Page {
    /// Nothing is written on it.
    pub fn new() -> Page {
        Page {
            bytes: [0; SIZE],
            written: 0,
        }
    }
}

impl Write for Page {
    ghost use Rattle.std.specs.Prelude.{None};

    ghost contents = { λ _. None };

    fn write(&mut self, bytes: &[u8]) -> io::Result<usize> {
        let Some(room) = self.bytes.get_mut(self.written..) else {
            return Ok(0);
        };
        let count = bytes.len().min(room.len());
        room[..count].copy_from_slice(&bytes[..count]);
        self.written = self.written.saturating_add(count);
        Ok(count)
    }

    fn flush(&mut self) -> io::Result<()> {
        Ok(())
    }
}
