//! A writer that sees how many commits have returned.
use std::alloc::Global;
use std::cell::Cell;
use std::io;
use std::io::Write;

/// Keeps how many commits had returned before each write. It takes one byte a write.
#[derive(Drop)]
pub struct WatchingWriter<'a> {
    pub seen: Vec<usize>,
    commits: &'a Cell<usize>,
}

impl<'a> WatchingWriter<'a> {
    /// It sees this count.
    pub fn new(alloc: Global, commits: &'a Cell<usize>) -> WatchingWriter<'a> {
        WatchingWriter {
            seen: Vec::new(alloc),
            commits,
        }
    }
}

impl Write for WatchingWriter<'_> {
    fn write(&mut self, bytes: &[u8]) -> io::Result<usize> {
        self.seen.push(self.commits.get())?;
        Ok(bytes.len().min(1))
    }

    fn flush(&mut self) -> io::Result<()> {
        Ok(())
    }
}
