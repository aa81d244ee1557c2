//! Where requests come from.
ghost use Rattle.std.specs.Prelude.{◌≡◌, ◌+◌, ◌<◌, ℕ};

use http::StatusCode;
use std::io::{Read, Write};

/// A number of connections that come one after another.
pub trait Connections {
    /// What a connection's request is read from.
    type Reader: Read + Drop;

    /// What its reply is written to.
    type Writer: Write + Drop;

    // How many connections are to be taken yet.
    ghost to_come: { Self → ℕ };

    /// How many connections are to be taken yet.
    fn left(&self) -> u32
        ensures { result ≡ to_come self.now };

    /// Takes the next connection. There is none where it cannot be accepted, and it is taken all the same.
    fn accept(&mut self) -> Option<(Self::Reader, Self::Writer)>
        requires { 0 < to_come self.old }
        ensures { to_come self.new + 1 ≡ to_come self.old };

    /// Ends a connection to which the whole reply with this status was written, so that its peer gets the reply.
    fn close(&mut self, reader: Self::Reader, writer: Self::Writer, status: StatusCode)
        ensures { to_come self.new ≡ to_come self.old };
}
