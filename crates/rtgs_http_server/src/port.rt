//! A port of this machine.
ghost use Rattle.std.specs.Prelude.{◌≡◌, ◌+◌, IfOk};

use crate::connections::Connections;
use crate::input::PIECE;
use crate::reply_writer::ReplyWriter;
use crate::request_reader::RequestReader;
use http::StatusCode;
use std::io;
use std::io::{ErrorKind, Read};
use std::net::{Ipv4Addr, TcpListener};
use std::rc::Rc;

/// How many pieces are read and dropped after a reply, at most.
const MOST_PIECES_DROPPED: usize = 64;

/// A port of this machine at its own address, 127.0.0.1, on which a number of connections is taken.
#[derive(Drop)]
pub struct Port {
    rt: HostRuntime,
    listener: TcpListener,
    left: u32,
    /// The last connection, where its request was done and its peer may not have closed it yet.
    done: Option<RequestReader>,
}

impl Port {
    /// Listens on the port with this number, for this many connections. The error is the system's, as where another
    /// program has the port.
    pub fn listen(rt: &HostRuntime, number: u16, count: u32) -> io::Result<Port>
        ensures { IfOk result (λ port. port.left ≡ count) }
    {
        Ok(Port {
            rt: *rt,
            listener: TcpListener::bind(rt, (Ipv4Addr::LOCALHOST, number))?,
            left: count,
            done: None,
        })
    }

    // The next connection: what its request is read from, and what its reply is written to.
    fn next(&self) -> io::Result<(RequestReader, ReplyWriter)> {
        let (stream, _) = self.listener.accept()?;
        let Ok(stream) = Rc::new(self.rt.alloc(), stream) else {
            return Err(io::Error::from(ErrorKind::OutOfMemory));
        };
        let writer = ReplyWriter::new(&self.rt, stream.clone()?);
        Ok((RequestReader::new(&self.rt, stream)?, writer))
    }
}

impl Connections for Port {
    type Reader = RequestReader;

    type Writer = ReplyWriter;

    ghost to_come = { λ port. port.left };

    fn left(&self) -> u32 {
        self.left
    }

    // The last connection may get no reply, and then nothing is closed any more.
    fn accept(&mut self) -> Option<(RequestReader, ReplyWriter)> {
        self.left -= 1;
        if self.left == 0 {
            finish(self.done.take());
        }
        self.next().ok()
    }

    // The writing side is ended first, which tells the peer that the reply is whole. What the peer still sends is read
    // and dropped: a connection that is closed with bytes unread may lose the reply (RFC 9112, section 9.6). A peer
    // whose request was done has sent all of it. So it has until the next connection is closed to close its own, and
    // the next does not wait for it.
    fn close(&mut self, reader: RequestReader, writer: ReplyWriter, status: StatusCode) {
        if writer.end().is_err() {
            return;
        }
        finish(self.done.replace(reader));
        if status != StatusCode::OK || self.left == 0 {
            finish(self.done.take());
        }
    }
}

// Reads and drops what the peer of a connection still sends after its reply, where there is such a connection.
fn finish(connection: Option<RequestReader>) {
    if let Some(mut reader) = connection {
        if reader.linger().is_ok() {
            drop_rest(&mut reader);
        }
    }
}

// Reads and drops what a peer still sends, up to its end, a time, or a number of pieces.
fn drop_rest(reader: &mut RequestReader) {
    let mut piece = [0; PIECE];
    for _ in 0..MOST_PIECES_DROPPED {
        match reader.read(&mut piece) {
            Ok(0) | Err(_) => return,
            Ok(_) => {}
        }
    }
}
