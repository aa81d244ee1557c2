//! The same input in pieces.
use rtgs_http_requests::{BodyFeed, BodyStep, HeadFeed, HeadStep};
use rtgs_tests_desks::ensure;
use std::alloc::Global;
use std::test::Fail;

const GOOD: &[u8] =
    b"POST /orders HTTP/1.1\r\ndesk-key: 0000000000000000000000000000000a\r\nContent-Length: 44\r\n\r\n\
      {\"amount\":100,\"reference\":\"A-1\",\"to\":\"BETA\"}";

// How many bytes of the good request are its head.
const HEAD: usize = GOOD.len() - 44;

// Whether a piece ends the head, of which this many bytes came before.
fn ends_head(step: HeadStep, before: usize) -> bool {
    match step {
        HeadStep::Region { taken } => HEAD.checked_sub(before) == Some(taken),
        _ => false,
    }
}

// Whether the head of these two pieces is that of the good request. It is open after the first piece, or ends in it.
fn is_good_head(alloc: Global, first: &[u8], second: &[u8]) -> Result<bool, Fail> {
    let mut feed = HeadFeed::new(alloc)?;
    let is_fed = match feed.feed(first) {
        HeadStep::More => {
            let is_open = feed.end().is_err();
            let step = feed.feed(second);
            is_open && ends_head(step, first.len())
        }
        _ => true,
    };
    Ok(is_fed && feed.bytes() == &GOOD[..HEAD] && feed.end().is_ok())
}

#[test]
fn a_head_is_the_same_wherever_it_is_cut(rt: HostRuntime) -> Result<(), Fail> {
    for cut in 0..=GOOD.len() {
        let (first, second) = GOOD.split_at(cut);
        assert!(rt; is_good_head(rt.alloc(), first, second)?, "cut at {cut}");
    }
    Ok(())
}

// The length of a body that has less than the good one.
const SHORTER: usize = 40;

// Whether a piece ends such a body, of which this many bytes came before.
fn ends_body(step: BodyStep, before: usize) -> bool {
    match step {
        BodyStep::Full { taken } => SHORTER.checked_sub(before) == Some(taken),
        _ => false,
    }
}

// Whether these two pieces of the good body give the shorter one. It is open after the first piece, or ends in it.
fn is_shorter_body(alloc: Global, first: &[u8], second: &[u8]) -> Result<bool, Fail> {
    let mut feed = BodyFeed::new(alloc, SHORTER)?;
    let is_fed = match feed.feed(first) {
        BodyStep::More => {
            let is_open = feed.end().is_err();
            let step = feed.feed(second);
            is_open && ends_body(step, first.len())
        }
        _ => true,
    };
    Ok(is_fed && feed.bytes() == &GOOD[HEAD..HEAD + SHORTER] && feed.end().is_ok())
}

#[test]
fn a_body_is_the_same_wherever_it_is_cut(rt: HostRuntime) -> Result<(), Fail> {
    let (_, body) = GOOD.split_at(HEAD);
    for cut in 0..=body.len() {
        let (first, second) = body.split_at(cut);
        assert!(rt; is_shorter_body(rt.alloc(), first, second)?, "cut at {cut}");
    }
    Ok(())
}

// The head that the input begins with, fed byte by byte.
fn head_in_bytes(alloc: Global, input: &[u8]) -> Result<Option<HeadFeed>, Fail> {
    let mut feed = HeadFeed::new(alloc)?;
    for place in 0..input.len() {
        match feed.feed(&input[place..place + 1]) {
            HeadStep::More => {}
            HeadStep::Region { .. } => return Ok(Some(feed)),
            HeadStep::TooLong => return Ok(None),
        }
    }
    Ok(None)
}

#[test]
fn single_bytes_make_the_same_head(rt: HostRuntime) -> Result<(), Fail> {
    let Some(feed) = head_in_bytes(rt.alloc(), GOOD)? else {
        return Err(Fail::from("no head"));
    };
    ensure(feed.bytes() == &GOOD[..HEAD])?;
    ensure(head_in_bytes(rt.alloc(), &[b'A'; 8192])?.is_none())
}

#[test]
fn single_bytes_make_the_same_body(rt: HostRuntime) -> Result<(), Fail> {
    let (_, body) = GOOD.split_at(HEAD);
    let mut feed = BodyFeed::new(rt.alloc(), body.len())?;
    for place in 0..body.len() {
        ensure(feed.end().is_err())?;
        feed.feed(&body[place..place + 1]);
    }
    ensure(feed.bytes() == body)?;
    ensure(feed.end() == Ok(()))
}

#[test]
fn a_body_without_bytes_is_whole(rt: HostRuntime) -> Result<(), Fail> {
    let mut feed = BodyFeed::new(rt.alloc(), 0)?;
    ensure(feed.end() == Ok(()))?;
    ensure(feed.feed(b"behind") == BodyStep::Full { taken: 0 })
}
