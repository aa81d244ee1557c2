//! A writer that takes little at a time, and fails when a test wants it.
use std::alloc::Global;
use std::io;
use std::io::{ErrorKind, Write};

/// Takes at most five bytes a write, and nothing after a number of writes: it then fails, or takes no byte.
#[derive(Drop)]
pub struct CutWriter {
    pub taken: Vec<u8>,
    writes: usize,
    fails: bool,
}

impl CutWriter {
    pub fn new(alloc: Global, writes: usize, fails: bool) -> CutWriter {
        CutWriter {
            taken: Vec::new(alloc),
            writes,
            fails,
        }
    }
}

impl Write for CutWriter {
    ghost use Rattle.std.specs.Prelude.{Some};

    ghost contents = { λ writer. Some writer.taken.items };

    fn write(&mut self, bytes: &[u8]) -> io::Result<usize> {
        if self.writes == 0 && self.fails {
            return Err(io::Error::from(ErrorKind::BrokenPipe));
        }
        if self.writes == 0 {
            return Ok(0);
        }
        let count = bytes.len().min(5);
        self.taken.extend_from_slice(&bytes[..count])?;
        self.writes -= 1;
        Ok(count)
    }

    fn flush(&mut self) -> io::Result<()> {
        Ok(())
    }
}
