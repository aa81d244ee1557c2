//! What is read of a file of orders: all that there is, up to one byte more than it may have, or why a read failed.
use rtgs_cli::imports::read_bytes;
use rtgs_tests_desks::ensure;
use std::io;
use std::io::{ErrorKind, Read};
use std::test::Fail;

// Gives a number of bytes, at most a thousand at a time, and then fails or ends.
#[derive(Clone, Copy)]
struct Giving {
    left: usize,
    fails: bool,
}

impl Read for Giving {
    fn read(&mut self, room: &mut [u8]) -> io::Result<usize> {
        if self.left == 0 && self.fails {
            return Err(io::Error::from(ErrorKind::ConnectionReset));
        }
        let count = room.len().min(self.left).min(1000);
        self.left -= count;
        Ok(count)
    }
}

// How many bytes are read of this many.
fn count_of(rt: &HostRuntime, left: usize) -> Result<usize, Fail> {
    let reader = Giving { left, fails: false };
    Ok(read_bytes(rt.alloc(), reader)?.len())
}

#[test]
fn no_more_is_read_than_one_byte_too_many(rt: HostRuntime) -> Result<(), Fail> {
    for left in [0, 10, 65_536, 65_537] {
        ensure(count_of(&rt, left)? == left)?;
    }
    ensure(count_of(&rt, 1_000_000)? == 65_537)
}

#[test]
fn a_read_that_fails_in_the_middle_is_not_the_end(rt: HostRuntime) -> Result<(), Fail> {
    for left in [0, 10, 30_000] {
        let reader = Giving { left, fails: true };
        match read_bytes(rt.alloc(), reader) {
            Err(error) if error.kind() == ErrorKind::ConnectionReset => (),
            _ => return Err(Fail::new("bytes that were not all read")),
        }
    }
    Ok(())
}
