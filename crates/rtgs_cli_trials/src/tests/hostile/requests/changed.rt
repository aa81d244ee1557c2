//! Requests that chance has changed: the length of their body, the body, its values, or all of their bytes.
use super::super::draw::Draw;
use super::super::met;
use super::edits::{changed, revalued};
use super::limits::limit;
use super::sent::{ROUTES, body, good, with_body, with_length};
use super::serving::{before, serve};
use std::alloc::{AllocError, Global};
use std::test::Fail;

/// What is changed of a request: the length of its body, its body, one or two values of that, or any bytes, this many
/// times at most.
#[derive(Clone, Copy)]
enum What {
    Length,
    Body,
    Values,
    Bytes(usize),
}

// How often each request is changed: at least once.
fn times(what: What) -> usize {
    match what {
        What::Length => 32,
        What::Body | What::Values => 80,
        What::Bytes(_) => 70,
    }
}

// The bytes with this many changes at most, and with one at least.
fn with_changes(
    alloc: Global,
    draw: &mut Draw,
    bytes: Vec<u8>,
    most: usize,
) -> Result<Vec<u8>, AllocError> {
    let mut bytes = bytes;
    for _ in 0..=draw.below(most) {
        bytes = changed(alloc, draw, bytes.as_slice())?;
    }
    Ok(bytes)
}

// The body with one or two other values.
fn with_values(alloc: Global, draw: &mut Draw, own: &[u8]) -> Result<Vec<u8>, AllocError> {
    let body = revalued(alloc, draw, own)?;
    if draw.below(2) == 0 {
        return Ok(body);
    }
    revalued(alloc, draw, body.as_slice())
}

// A request that is changed so.
fn input_of(
    alloc: Global,
    draw: &mut Draw,
    what: What,
    request: &'static str,
    turn: usize,
) -> Result<Vec<u8>, AllocError> {
    let own = body(request).as_bytes();
    match what {
        What::Length => with_length(alloc, request, limit(turn), own),
        What::Body => with_body(alloc, request, changed(alloc, draw, own)?.as_slice()),
        What::Values => with_body(alloc, request, with_values(alloc, draw, own)?.as_slice()),
        What::Bytes(most) => { with_changes(alloc, draw, with_body(alloc, request, own)?, most) }
    }
}

// Whether a request has what is to be changed.
fn has(what: What, request: &'static str) -> bool {
    match what {
        What::Values => body(request).contains(',') || body(request).contains(':'),
        _ => true,
    }
}

// Changes a request, and adds the word for its reply.
fn meet(
    alloc: Global,
    before: &str,
    draw: &mut Draw,
    what: What,
    turn: usize,
    met: &mut Vec<&'static str>,
) -> Result<(), Fail> {
    let request = good(turn / times(what).max(1));
    if !has(what, request) {
        return Ok(());
    }
    let input = input_of(alloc, draw, what, request, turn)?;
    let word = serve(alloc, before, input.as_slice())?;
    Ok(met.push(word)?)
}

// These counts are met where each request is changed so by this seed.
fn are_met(alloc: Global, what: What, seed: u64, all: &str) -> Result<(), Fail> {
    let before = before(alloc)?;
    let mut draw = Draw::new(seed);
    let mut met = Vec::new(alloc);
    for turn in 0..ROUTES.saturating_mul(times(what)) {
        meet(alloc, before.as_str(), &mut draw, what, turn, &mut met)?;
    }
    met::are_met(met.as_slice(), all)
}

#[test]
fn lengths_at_limits(rt: HostRuntime) -> Result<(), Fail> {
    let all = "read 10, 40 4, 60 330, 63 18, 64 56, 65 30";
    are_met(rt.alloc(), What::Length, 0, all)
}

#[test]
fn bodies_with_a_change(rt: HostRuntime) -> Result<(), Fail> {
    let all =
        "read 276, 1 2, 2 2, 3 1, 4 1, 14 1, 30 6, 31 2, 35 69, 40 18, 41 49, 60 124, 65 485, 66 52, done 32";
    are_met(rt.alloc(), What::Body, 3, all)
}

#[test]
fn bodies_with_other_values(rt: HostRuntime) -> Result<(), Fail> {
    let all =
        "1 2, 2 1, 4 4, 6 5, 14 12, 15 10, 30 25, 31 17, 32 7, 35 145, 40 16, 41 43, 65 112, 66 95, done 66";
    are_met(rt.alloc(), What::Values, 4, all)
}

#[test]
fn requests_with_one_change(rt: HostRuntime) -> Result<(), Fail> {
    let all =
        "read 35, 9 1, 14 2, 35 4, 40 3, 41 14, 60 346, 62 18, 64 277, 65 67, 66 3, 67 16, 68 177, done 17";
    are_met(rt.alloc(), What::Bytes(1), 1, all)
}

#[test]
fn requests_with_more_changes(rt: HostRuntime) -> Result<(), Fail> {
    let all =
        "read 9, 9 1, 14 2, 35 1, 40 1, 41 6, 60 310, 62 5, 64 523, 65 23, 67 10, 68 85, done 4";
    are_met(rt.alloc(), What::Bytes(5), 2, all)
}
