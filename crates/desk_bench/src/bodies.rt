//! Bodies of requests.
ghost use Rattle.std.specs.Prelude.{◌≤◌, length};
ghost use Rattle.rtgs_http_requests.specs.declared.feeds.limits.TheConstants.{LONGEST_BODY};

use anyhow::{Result, ensure};
use rtgs_http_requests::feeds::limits::LONGEST_BODY;
use rtgs_http_requests::{Admitted, BankRoute, BodyFeed, Parameters, read_asked};
use rtgs_money::Code;
use std::alloc::{AllocError, Global};
use std::time::{Duration, Instant};

const TIMES: usize = 20;

/// A body, what is in it, the route that it is sent to, and whether it is good there.
#[derive(Clone, Copy)]
struct Sample<'a> {
    what: &'a str,
    route: BankRoute,
    body: &'a [u8],
    good: bool,
}

/// Measures bodies of about this many bytes: an order among spaces, and two that are refused, an object with many keys
/// and a file of orders whose one row has a long reference.
pub fn measure(rt: &HostRuntime, length: usize, timed: bool) -> Result<()> {
    let order = BankRoute::SendOrder;
    let spaces = spaces_of(rt.alloc(), length)?;
    measure_body(
        rt,
        sample_of("spaces", order, spaces.as_bytes(), true),
        timed,
    )?;
    let keys = keys_of(rt.alloc(), length)?;
    measure_body(rt, sample_of("keys", order, keys.as_bytes(), false), timed)?;
    let field = field_of(rt.alloc(), length)?;
    let field = sample_of("a field", BankRoute::SendBatch, field.as_bytes(), false);
    measure_body(rt, field, timed)
}

/// Measures a file of this many orders.
pub fn measure_rows(rt: &HostRuntime, rows: usize, timed: bool) -> Result<()> {
    let rows = rows_of(rt.alloc(), rows)?;
    let rows = sample_of("rows", BankRoute::SendBatch, rows.as_bytes(), true);
    measure_body(rt, rows, timed)
}

fn sample_of<'a>(what: &'a str, route: BankRoute, body: &'a [u8], good: bool) -> Sample<'a> {
    Sample {
        what,
        route,
        body,
        good,
    }
}

fn measure_body(rt: &HostRuntime, sample: Sample<'_>, timed: bool) -> Result<()> {
    let Sample {
        what,
        route,
        body,
        good,
    } = sample;
    ensure!(body.len() <= LONGEST_BODY, "the length");
    let mut whole = Duration::MAX;
    let mut bytes = Duration::MAX;
    for _ in 0..TIMES {
        let start = Instant::now(rt)?;
        ensure!(
            judged_whole(rt.alloc(), route, body)? == good,
            "the body in one piece"
        );
        whole = whole.min(start.elapsed(rt)?);
        let start = Instant::now(rt)?;
        ensure!(
            judged_in_bytes(rt.alloc(), route, body)? == good,
            "the body byte by byte"
        );
        bytes = bytes.min(start.elapsed(rt)?);
    }
    print!(rt; "a body of {} bytes, {what}", body.len())?;
    if timed {
        let (whole, bytes) = (whole.as_micros(), bytes.as_micros());
        print!(rt; ": {whole} us in one piece, {bytes} us byte by byte")?;
    }
    println!(rt;)?;
    Ok(())
}

// An order behind spaces.
fn spaces_of(alloc: Global, length: usize) -> Result<String, AllocError> {
    let mut body = String::new(alloc);
    for _ in 44..length {
        body.push(' ')?;
    }
    body.push_str("{\"amount\":100,\"reference\":\"A-1\",\"to\":\"BETA\"}")?;
    Ok(body)
}

// An object with a key for each sixteen bytes, in falling order.
fn keys_of(alloc: Global, length: usize) -> Result<String, AllocError> {
    let mut body = String::new(alloc);
    let count = length / 16;
    body.push_str("{\"amount\":1")?;
    for index in 1..count {
        let key = count - index;
        let member = format!(in alloc; ",\"x{key:010}\":1")?;
        body.push_str(member.as_str())?;
    }
    body.push('}')?;
    Ok(body)
}

// A file of orders with one row, whose reference fills it.
fn field_of(alloc: Global, length: usize) -> Result<String, AllocError> {
    let mut body = String::new(alloc);
    body.push_str("reference,to,amount\n")?;
    for _ in 27..length {
        body.push('A')?;
    }
    body.push_str(",BETA,1")?;
    Ok(body)
}

// A file of this many orders.
fn rows_of(alloc: Global, rows: usize) -> Result<String, AllocError> {
    let mut body = String::new(alloc);
    body.push_str("reference,to,amount\n")?;
    for row in 0..rows {
        let line = format!(in alloc; "A-{row},BETA,1\n")?;
        body.push_str(line.as_str())?;
    }
    Ok(body)
}

// Whether the body is good, given in one piece.
fn judged_whole(alloc: Global, route: BankRoute, body: &[u8]) -> Result<bool>
    requires { length body.now ≤ LONGEST_BODY }
{
    let mut feed = BodyFeed::new(alloc, body.len())?;
    feed.feed(body);
    is_good(alloc, route, feed.bytes())
}

// The same, given byte by byte.
fn judged_in_bytes(alloc: Global, route: BankRoute, body: &[u8]) -> Result<bool>
    requires { length body.now ≤ LONGEST_BODY }
{
    let mut feed = BodyFeed::new(alloc, body.len())?;
    for place in 0..body.len() {
        feed.feed(&body[place..place + 1]);
    }
    is_good(alloc, route, feed.bytes())
}

fn is_good(alloc: Global, route: BankRoute, body: &[u8]) -> Result<bool> {
    let caller = Code::read(b"ALFA")?;
    let admitted = Admitted::Bank { route, caller };
    Ok(read_asked(alloc, admitted, Parameters::NONE, body).is_ok())
}
