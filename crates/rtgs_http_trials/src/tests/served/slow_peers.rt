//! A peer that does not read.
use rtgs_http_server::ReplyWriter;
use rtgs_tests_desks::ensure;
use std::alloc::Global;
use std::io::{ErrorKind, Read, Write};
use std::net::{Ipv4Addr, TcpListener, TcpStream};
use std::rc::Rc;
use std::test::Fail;
use std::time::Instant;

// How many bytes a piece has.
const PIECE: usize = 1_000_000;

// Writes a piece again and again, each time from the first byte that was not taken. Answers why a write fails, before
// which this many go well at most, and counts the bytes that were taken.
fn failure(
    writer: &mut ReplyWriter,
    piece: &[u8],
    most: usize,
    taken: &mut usize,
) -> Result<ErrorKind, Fail> {
    for _ in 0..=most {
        let rest = piece.get(*taken % PIECE..).ok_or("no piece")?;
        match writer.write(rest) {
            Ok(count) => *taken = taken.saturating_add(count),
            Err(error) => return Ok(error.kind()),
        }
    }
    Err(Fail::from("no write failed"))
}

// A piece, no two parts of which are alike: numbers of eight digits.
fn numbers(alloc: Global) -> Result<String, Fail> {
    let mut piece = String::new(alloc);
    for number in 0..125_000u32 {
        let digits = format!(in alloc; "{number:08}")?;
        piece.push_str(digits.as_str())?;
    }
    ensure(piece.len() == PIECE)?;
    Ok(piece)
}

// The bytes are a piece again and again, of which the last may be cut.
fn are_pieces(bytes: &[u8], piece: &[u8]) -> Result<(), Fail> {
    for part in bytes.chunks(PIECE) {
        ensure(piece.starts_with(part))?;
    }
    Ok(())
}

// All writes of a reply have five seconds together. So one that waits fails then, and the next one does not wait. A
// gigabyte is more than a connection takes whose peer does not read. What was taken until then is what the peer finds
// when it reads at last: a write of which a part was taken says how much.
#[test]
fn writes_to_a_peer_that_never_reads_come_to_an_end(rt: HostRuntime) -> Result<(), Fail> {
    let listener = TcpListener::bind(&rt, (Ipv4Addr::LOCALHOST, 0))?;
    let port = listener.local_addr()?.port();
    let mut peer = TcpStream::connect(&rt, (Ipv4Addr::LOCALHOST, port))?;
    let (stream, _) = listener.accept()?;
    let mut writer = ReplyWriter::new(&rt, Rc::new(rt.alloc(), stream)?);
    let piece = numbers(rt.alloc())?;
    let begun = Instant::now(&rt)?;
    let mut taken = 0;
    let first = failure(&mut writer, piece.as_bytes(), 1000, &mut taken)?;
    let seconds = begun.elapsed(&rt)?.as_secs();
    let next = failure(&mut writer, piece.as_bytes(), 0, &mut taken)?;
    drop(writer);
    let mut given = Vec::new(rt.alloc());
    peer.read_to_end(&mut given)?;
    ensure(0 < taken && given.len() == taken)?;
    are_pieces(given.as_slice(), piece.as_bytes())?;
    assert!(rt;
        matches!(first, ErrorKind::WouldBlock | ErrorKind::TimedOut),
        "{first:?}"
    );
    assert!(rt; 4 <= seconds && seconds < 30, "{seconds} seconds");
    ensure(next == ErrorKind::TimedOut)
}
