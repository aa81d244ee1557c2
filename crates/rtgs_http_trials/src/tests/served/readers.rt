//! Readers that fail, and how often a reader is asked.
use super::super::GOOD;
use super::super::requests::WrittenRequest;
use super::super::test_desk::{TestDesk, follows};
use super::counted_reader::CountedReader;
use super::lengths::spaced;
use rtgs_http_server::Served;
use std::alloc::Global;
use std::io::Read;
use std::test::Fail;

const QUEUED: &str =
    "HTTP/1.1 200 OK\r\nContent-Type: application/json\r\nContent-Length: 40\r\nConnection: close\r\n\r\n\
     {\"answer\":\"queued\",\"number\":1,\"place\":1}";

// Whether a reader's request has this reply. None where the reader failed and nothing was written.
fn is_replied<R: Read>(
    alloc: Global,
    desk: &mut TestDesk,
    reader: &mut R,
    reply: &str,
) -> Option<bool> {
    let mut written = Vec::new(alloc);
    match desk.serve(reader, &mut written) {
        Served::ReadFault(_) if written.is_empty() => None,
        Served::Answered(_) => Some(written.as_slice() == reply.as_bytes()),
        _ => Some(false),
    }
}

// The same of the good request, whose reader gives a byte a read, and fails after this many reads.
fn is_replied_after(alloc: Global, desk: &mut TestDesk, reads: usize) -> Option<bool> {
    let mut reader = CountedReader::new(GOOD.as_bytes(), 1, reads);
    is_replied(alloc, desk, &mut reader, QUEUED)
}

#[test]
fn a_reader_that_fails_gives_no_command(rt: HostRuntime) -> Result<(), Fail> {
    let mut desk = TestDesk::open(rt.alloc())?;
    for reads in 0..GOOD.len() {
        let replied = is_replied_after(rt.alloc(), &mut desk, reads);
        assert!(rt; replied.is_none(), "{replied:?} after {reads} reads");
    }
    desk.is_answered(
        "ALFA GET /orders/A-1",
        r#"404 Not Found {"code":9,"name":"UnknownOrder"}"#,
    )?;
    let replied = is_replied_after(rt.alloc(), &mut desk, GOOD.len());
    assert!(rt; replied == Some(true), "{replied:?}");
    Ok(())
}

// The input has this reply after this many reads, of this many bytes each at most, and none is made after them.
fn is_answered_after(
    alloc: Global,
    input: &str,
    most: usize,
    reads: usize,
    reply: &str,
) -> Result<(), Fail> {
    let mut desk = TestDesk::open(alloc)?;
    let mut reader = CountedReader::new(input.as_bytes(), most, usize::MAX);
    let replied = is_replied(alloc, &mut desk, &mut reader, reply);
    if replied == Some(true) && reader.made == reads {
        return Ok(());
    }
    let (made, length) = (reader.made, input.len());
    let said = format!(in alloc;
        "{length} bytes: {made} reads of {most}, not {reads}: {replied:?}"
    )?;
    Err(Fail::from(said))
}

// This many reads are enough for the whole of the good request.
fn is_enough(alloc: Global, most: usize, reads: usize) -> Result<(), Fail> {
    is_answered_after(alloc, GOOD, most, reads, QUEUED)
}

#[test]
fn no_read_follows_the_last_byte(rt: HostRuntime) -> Result<(), Fail> {
    let length = GOOD.len();
    is_enough(rt.alloc(), usize::MAX, 1)?;
    is_enough(rt.alloc(), length, 1)?;
    is_enough(rt.alloc(), length.saturating_sub(1), 2)?;
    is_enough(rt.alloc(), 1, length)
}

// The good request, in two pieces that are cut here, has its reply.
fn is_good_where_cut(alloc: Global, cut: usize) -> Result<(), Fail> {
    let mut desk = TestDesk::open(alloc)?;
    let (first, second) = GOOD.as_bytes().split_at_checked(cut).ok_or("no cut")?;
    match is_replied(alloc, &mut desk, &mut first.chain(second), QUEUED) {
        Some(true) => Ok(()),
        _ => Err(Fail::from(format!(in alloc; "cut at {cut}")?)),
    }
}

#[test]
fn a_request_has_one_reply_wherever_it_is_cut(rt: HostRuntime) -> Result<(), Fail> {
    for cut in 0..=GOOD.len() {
        is_good_where_cut(rt.alloc(), cut)?;
    }
    Ok(())
}

// Two requests on one connection.
const TWO: &str = r#"
RAW POST /orders HTTP/1.1\r\n
desk-key: 0000000000000000000000000000000a\r\n
Content-Length: 44\r\n
\r\n
{"amount":100,"reference":"A-1","to":"BETA"}
POST /orders/A-1/withdraw HTTP/1.1\r\n
desk-key: 0000000000000000000000000000000a\r\n
Content-Length: 2\r\n
\r\n
{}
-> 200 OK {"answer":"queued","number":1,"place":1}

ALFA GET /queue
-> 200 OK {"orders":[{"amount":100,"number":1,"place":1,"reference":"A-1","to":"BETA"}]}
"#;

#[test]
fn a_second_request_is_not_looked_at(rt: HostRuntime) -> Result<(), Fail> {
    follows(rt.alloc(), TWO)
}

// A fault that is in the head is answered without a read behind the head.
#[test]
fn no_read_follows_a_fault(rt: HostRuntime) -> Result<(), Fail> {
    let head = "POST /nothing HTTP/1.1\r\nContent-Length: 5\r\n\r\n";
    let reply = "HTTP/1.1 404 Not Found\r\nContent-Type: application/json\r\nContent-Length: 32\r\n\
         Connection: close\r\n\r\n{\"code\":67,\"name\":\"NoSuchRoute\"}";
    let mut desk = TestDesk::open(rt.alloc())?;
    let mut reader = CountedReader::new(head.as_bytes(), usize::MAX, 1);
    let replied = is_replied(rt.alloc(), &mut desk, &mut reader, reply);
    assert!(rt; replied == Some(true), "{replied:?}");
    Ok(())
}

const TOO_LONG: &str =
    "HTTP/1.1 413 Content Too Large\r\nContent-Type: application/json\r\nContent-Length: 32\r\n\
     Connection: close\r\n\r\n{\"code\":61,\"name\":\"HeadTooLong\"}";

// A head is too long once 8192 bytes of it have come, and 4096 at most are asked for at once.
#[test]
fn no_read_follows_a_head_that_is_too_long(rt: HostRuntime) -> Result<(), Fail> {
    let head = "A".repeat(rt.alloc(), 10000)?;
    is_answered_after(rt.alloc(), head.as_str(), usize::MAX, 2, TOO_LONG)?;
    is_answered_after(rt.alloc(), head.as_str(), 3000, 3, TOO_LONG)?;
    is_answered_after(rt.alloc(), head.as_str(), 1, 8192, TOO_LONG)
}

// The good request with as many spaces behind its order as give it this length.
fn good_of(alloc: Global, length: usize) -> Result<String, Fail> {
    // the length of the body has four digits in place of two
    let shortest = GOOD.len().saturating_add(2);
    let asked = spaced(alloc, length.saturating_sub(shortest))?;
    let input = WrittenRequest::read(asked.as_str())?.input(alloc)?;
    if input.len() == length {
        return Ok(input);
    }
    Err(Fail::from("another length"))
}

// The good request of this length is read in this many reads.
fn is_read_in(alloc: Global, length: usize, reads: usize) -> Result<(), Fail> {
    let input = good_of(alloc, length)?;
    is_answered_after(alloc, input.as_str(), usize::MAX, reads, QUEUED)
}

#[test]
fn a_request_is_read_in_pieces_of_4096_bytes(rt: HostRuntime) -> Result<(), Fail> {
    is_read_in(rt.alloc(), 4096, 1)?;
    is_read_in(rt.alloc(), 4097, 2)?;
    is_read_in(rt.alloc(), 8192, 2)?;
    is_read_in(rt.alloc(), 8193, 3)
}
