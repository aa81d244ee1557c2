//! Heads of requests.
use anyhow::{Result, ensure};
use rtgs_http_requests::{HeadFeed, HeadStep, Plan};
use rtgs_money::{Key, KeyDigest};
use std::alloc::{AllocError, Global};
use std::time::{Duration, Instant};

const TIMES: usize = 20;

/// Measures a head of this many bytes.
pub fn measure(rt: &HostRuntime, length: usize, timed: bool) -> Result<()> {
    let head = head_of(rt.alloc(), length)?;
    let operator = Key::read(b"0000000000000000000000000000000f")?.digest();
    let mut whole = Duration::MAX;
    let mut bytes = Duration::MAX;
    for _ in 0..TIMES {
        let start = Instant::now(rt)?;
        ensure!(
            judged_whole(rt.alloc(), &operator, head.as_bytes())?,
            "the head in one piece"
        );
        whole = whole.min(start.elapsed(rt)?);
        let start = Instant::now(rt)?;
        ensure!(
            judged_in_bytes(rt.alloc(), &operator, head.as_bytes())?,
            "the head byte by byte"
        );
        bytes = bytes.min(start.elapsed(rt)?);
    }
    print!(rt; "a head of {} bytes", head.len())?;
    if timed {
        let (whole, bytes) = (whole.as_micros(), bytes.as_micros());
        print!(rt; ": {whole} us in one piece, {bytes} us byte by byte")?;
    }
    println!(rt;)?;
    Ok(())
}

// A bank's GET with 30 fields more, this many bytes long.
fn head_of(alloc: Global, length: usize) -> Result<String, AllocError> {
    let mut head = String::new(alloc);
    head.push_str("GET /account HTTP/1.1\r\ndesk-key: 0000000000000000000000000000000a\r\n")?;
    for _ in 0..29 {
        head.push_str("x: y\r\n")?;
    }
    head.push_str("z: ")?;
    for _ in head.len() + 4..length {
        head.push('y')?;
    }
    head.push_str("\r\n\r\n")?;
    Ok(head)
}

// Whether the head is read to its end and leads to a route, given in one piece.
fn judged_whole(alloc: Global, operator: &KeyDigest, head: &[u8]) -> Result<bool> {
    let mut feed = HeadFeed::new(alloc)?;
    let step = feed.feed(head);
    Ok(matches!(step, HeadStep::Region { .. }) && Plan::read(alloc, operator, feed.bytes()).is_ok())
}

// The same, given byte by byte.
fn judged_in_bytes(alloc: Global, operator: &KeyDigest, head: &[u8]) -> Result<bool> {
    let mut feed = HeadFeed::new(alloc)?;
    for place in 0..head.len() {
        match feed.feed(&head[place..place + 1]) {
            HeadStep::More => {}
            HeadStep::TooLong => return Ok(false),
            HeadStep::Region { .. } => return Ok(Plan::read(alloc, operator, feed.bytes()).is_ok()),
        }
    }
    Ok(false)
}
