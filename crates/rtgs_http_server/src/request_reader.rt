//! What a connection's request is read from.
use crate::deadline::Deadline;
use std::io;
use std::io::Read;
use std::net::TcpStream;
use std::rc::Rc;

/// How many seconds all reads of one request may take together.
const SECONDS_FOR_A_REQUEST: u64 = 5;

/// How many seconds the peer may go on sending after its reply.
const SECONDS_AFTER_A_REPLY: u64 = 1;

/// A connection of which one request is read. All reads together have a few seconds: a read that waits longer, or comes
/// later, answers an error.
#[derive(Drop)]
pub struct RequestReader {
    rt: HostRuntime,
    stream: Rc<TcpStream>,
    deadline: Deadline,
}

impl RequestReader {
    /// Reads from this connection, from now on. The error is the system's, which did not tell the time.
    pub fn new(rt: &HostRuntime, stream: Rc<TcpStream>) -> io::Result<RequestReader> {
        Ok(RequestReader {
            rt: *rt,
            stream,
            deadline: Deadline::after(rt, SECONDS_FOR_A_REQUEST)?,
        })
    }

    /// Gives what the peer still sends after its reply a shorter time, from now on. The error is the system's, which
    /// did not tell the time.
    pub(crate) fn linger(&mut self) -> io::Result<()> {
        self.deadline = Deadline::after(&self.rt, SECONDS_AFTER_A_REPLY)?;
        Ok(())
    }
}

impl Read for RequestReader {
    fn read(&mut self, room: &mut [u8]) -> io::Result<usize> {
        let mut stream = &*self.stream;
        stream.set_read_timeout(Some(self.deadline.left()?))?;
        stream.read(room)
    }
}
