//! Feeds of a head and of a body, which have all their room from the beginning: they take pieces without memory.
use super::super::scarce::{Held, had_none, in_a_process, is_limited, is_none_left};
use rtgs_http_requests::{BodyFeed, BodyStep, HeadFeed, HeadStep};
use rtgs_tests_desks::ensure;
use std::alloc::Global;
use std::test::Fail;

const HEAD: &[u8] = b"POST /orders HTTP/1.1\r\nContent-Length: 44\r\n\r\n";

/// The first piece of it.
const HEAD_BEGINS: &[u8] = b"POST /orders HTTP/1.1\r\nContent-Le";

/// The other piece, of which 12 bytes are the head's.
const HEAD_ENDS: &[u8] = b"ngth: 44\r\n\r\n{\"amount\":";

const BODY: &[u8] = b"{\"amount\":100,\"reference\":\"A-1\",\"to\":\"BETA\"}";

/// The first piece of it.
const BODY_BEGINS: &[u8] = b"{\"amount\":";

/// The other piece, of which 34 bytes are the body's.
const BODY_ENDS: &[u8] = b"100,\"reference\":\"A-1\",\"to\":\"BETA\"}behind";

// Whether a head that is fed in its pieces without memory is open after the first, and whole after the other.
fn head_is_fed(alloc: Global) -> Result<bool, Fail> {
    let mut feed = HeadFeed::new(alloc)?;
    let held = Held::all_but(alloc, 0)?;
    let is_none = is_none_left(alloc);
    let is_fed = match feed.feed(HEAD_BEGINS) {
        HeadStep::More => {
            let is_open = feed.end().is_err();
            let step = feed.feed(HEAD_ENDS);
            is_open && step == HeadStep::Region { taken: 12 }
        }
        _ => false,
    };
    let is_whole = is_fed && feed.bytes() == HEAD && feed.end().is_ok();
    held.free();
    had_none(is_none)?;
    Ok(is_whole)
}

// The same of a body.
fn body_is_fed(alloc: Global) -> Result<bool, Fail> {
    let mut feed = BodyFeed::new(alloc, BODY.len())?;
    let held = Held::all_but(alloc, 0)?;
    let is_none = is_none_left(alloc);
    let is_more = feed.feed(BODY_BEGINS) == BodyStep::More;
    let is_open = feed.end().is_err();
    let is_full = feed.feed(BODY_ENDS) == BodyStep::Full { taken: 34 };
    let is_whole = feed.bytes() == BODY && feed.end().is_ok();
    held.free();
    had_none(is_none)?;
    Ok(is_more && is_open && is_full && is_whole)
}

#[test]
fn of_a_head(rt: HostRuntime) -> Result<(), Fail> {
    if !is_limited(&rt) {
        return in_a_process(&rt, "tests::in_memory::feeds::of_a_head");
    }
    ensure(head_is_fed(rt.alloc())?)
}

#[test]
fn of_a_body(rt: HostRuntime) -> Result<(), Fail> {
    if !is_limited(&rt) {
        return in_a_process(&rt, "tests::in_memory::feeds::of_a_body");
    }
    ensure(body_is_fed(rt.alloc())?)
}
