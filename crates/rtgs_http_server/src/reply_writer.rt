//! What a connection's reply is written to.
use crate::deadline::Deadline;
use std::io;
use std::io::Write;
use std::net::{Shutdown, TcpStream};
use std::rc::Rc;
use std::time::Duration;

/// How many seconds all writes of one reply may take together.
const SECONDS_FOR_A_REPLY: u64 = 5;

/// A connection to which one reply is written. From the first write on all writes together have a few seconds: a write
/// that waits longer, or comes later, answers an error.
#[derive(Drop)]
pub struct ReplyWriter {
    rt: HostRuntime,
    stream: Rc<TcpStream>,
    deadline: Option<Deadline>,
}

impl ReplyWriter {
    /// Writes to this connection.
    pub fn new(rt: &HostRuntime, stream: Rc<TcpStream>) -> ReplyWriter {
        ReplyWriter {
            rt: *rt,
            stream,
            deadline: None,
        }
    }

    /// Tells the peer that nothing more is written. The error is the system's, as where the peer is gone.
    pub fn end(&self) -> io::Result<()> {
        self.stream.shutdown(Shutdown::Write)
    }

    // The time that is left for writes. It begins to run at the first of them.
    fn time_left(&mut self) -> io::Result<Duration> {
        let deadline = match self.deadline {
            Some(deadline) => deadline,
            None => Deadline::after(&self.rt, SECONDS_FOR_A_REPLY)?,
        };
        self.deadline = Some(deadline);
        deadline.left()
    }
}

impl Write for ReplyWriter {
    fn write(&mut self, bytes: &[u8]) -> io::Result<usize> {
        let left = self.time_left()?;
        let mut stream = &*self.stream;
        stream.set_write_timeout(Some(left))?;
        stream.write(bytes)
    }

    // Each write hands its bytes to the system.
    fn flush(&mut self) -> io::Result<()> {
        Ok(())
    }
}
