//! Connections served one after another.
use super::super::requests::{OTHER, WrittenRequest};
use super::super::test_desk::TestDesk;
use super::super::{GOOD, OPERATOR, digest};
use http::StatusCode;
use rtgs_book::{Answer, Command, Refusal, WholeAnswer};
use rtgs_http_server::{Connections, serve_connections};
use rtgs_tests_desks::{Trouble, ensure};
use std::alloc::Global;
use std::test::Fail;

/// Connections with these inputs. One without an input cannot be accepted. Keeps each reply that was written whole.
#[derive(Drop)]
struct Scripted<'a> {
    alloc: Global,
    inputs: &'a [Option<&'a [u8]>],
    // how many of them were taken
    taken: usize,
    left: u32,
    replies: Vec<Vec<u8>>,
}

impl<'a> Scripted<'a> {
    fn new(alloc: Global, inputs: &'a [Option<&'a [u8]>], left: u32) -> Scripted<'a> {
        Scripted {
            alloc,
            inputs,
            taken: 0,
            left,
            replies: Vec::new(alloc),
        }
    }

    /// Whether the replies begin like this, in order.
    fn replied(&self, beginnings: &[&str]) -> bool {
        self.replies.len() == beginnings.len()
            && self.replies.iter().zip(beginnings).all(|(reply, beginning)| reply
                .as_slice()
                .starts_with(beginning.as_bytes()))
    }
}

impl<'a> Connections for Scripted<'a> {
    type Reader = &'a [u8];

    type Writer = Vec<u8>;

    ghost to_come = { λ script. script.left };

    fn left(&self) -> u32 {
        self.left
    }

    fn accept(&mut self) -> Option<(&'a [u8], Vec<u8>)> {
        let at = self.taken;
        self.taken = at.saturating_add(1);
        self.left -= 1;
        let input = *self.inputs.get(at)?;
        Some((input?, Vec::new(self.alloc)))
    }

    fn close(&mut self, _reader: &'a [u8], writer: Vec<u8>, _status: StatusCode) {
        let _ = self.replies.push(writer);
    }
}

// Serves these connections at a desk. Whether this many are left then, and the replies begin like this.
fn serves(
    alloc: Global,
    desk: &mut TestDesk,
    inputs: &[Option<&[u8]>],
    count: u32,
    left: u32,
    beginnings: &[&str],
) -> bool {
    let mut connections = Scripted::new(alloc, inputs, count);
    serve_connections(alloc, &mut connections, &mut desk.desk, &desk.operator);
    connections.left == left && connections.replied(beginnings)
}

#[test]
fn one_that_is_not_accepted_counts_as_served(rt: HostRuntime) -> Result<(), Fail> {
    let mut desk = TestDesk::open(rt.alloc())?;
    let good = Some(GOOD.as_bytes());
    let inputs = [None, good, Some("GET".as_bytes()), good];
    let statuses = ["HTTP/1.1 200 OK\r\n", "HTTP/1.1 400 Bad Request\r\n"];
    ensure(serves(rt.alloc(), &mut desk, &inputs, 3, 0, &statuses))
}

#[test]
fn each_of_forty_is_served(rt: HostRuntime) -> Result<(), Fail> {
    let mut desk = TestDesk::open(rt.alloc())?;
    let inputs = [Some(GOOD.as_bytes()); 40];
    let statuses = ["HTTP/1.1 200 OK\r\n"; 40];
    ensure(serves(rt.alloc(), &mut desk, &inputs, 40, 0, &statuses))
}

#[test]
fn the_first_of_a_million_are_served(rt: HostRuntime) -> Result<(), Fail> {
    let mut desk = TestDesk::open(rt.alloc())?;
    let inputs = [Some(GOOD.as_bytes()); 3];
    let statuses = ["HTTP/1.1 200 OK\r\n"; 3];
    ensure(serves(rt.alloc(), &mut desk, &inputs, 1_000_000, 0, &statuses))
}

#[test]
fn none_is_served_once_the_desk_has_failed(rt: HostRuntime) -> Result<(), Fail> {
    // the order is looked up, and then kept
    let mut desk = TestDesk::troubled(rt.alloc(), 1, Trouble::Lost)?;
    let good = Some(GOOD.as_bytes());
    let statuses = ["HTTP/1.1 503 Service Unavailable\r\n"];
    ensure(serves(rt.alloc(), &mut desk, &[good, good], 2, 1, &statuses))
}

// The bytes of a request.
fn sent(alloc: Global, asked: &str) -> Result<String, Fail> {
    WrittenRequest::read(asked)?.input(alloc)
}

// Whether a desk whose operator has this key answers so to a resolution that carries the usual key, and to one that
// carries the other.
fn operates(alloc: Global, key: &str, beginnings: &[&str]) -> Result<bool, Fail> {
    let mut desk = TestDesk::open(alloc)?;
    desk.operator = digest(key.as_bytes())?;
    let usual = sent(alloc, "OPERATOR POST /desk/resolve {}")?;
    let other = sent(alloc, "OTHER POST /desk/resolve {}")?;
    let inputs = [Some(usual.as_bytes()), Some(other.as_bytes())];
    Ok(serves(alloc, &mut desk, &inputs, 2, 0, beginnings))
}

#[test]
fn the_operator_has_the_key_that_was_given(rt: HostRuntime) -> Result<(), Fail> {
    let taken = "HTTP/1.1 200 OK\r\n";
    let refused = "HTTP/1.1 403 Forbidden\r\n";
    ensure(operates(rt.alloc(), OPERATOR, &[taken, refused])?)?;
    ensure(operates(rt.alloc(), OTHER, &[refused, taken])?)
}

// Orders of a ring, none of which is covered.
const RING: [&str; 3] = [
    r#"ALFA POST /orders {"amount":100,"reference":"R-1","to":"BETA"}"#,
    r#"BETA POST /orders {"amount":100,"reference":"R-1","to":"GAMA"}"#,
    r#"GAMA POST /orders {"amount":100,"reference":"R-1","to":"ALFA"}"#,
];

// Whether a desk that serves the orders of the ring takes them all.
fn takes_ring(alloc: Global, desk: &mut TestDesk) -> Result<bool, Fail> {
    let first = sent(alloc, RING[0])?;
    let second = sent(alloc, RING[1])?;
    let third = sent(alloc, RING[2])?;
    let inputs = [
        Some(first.as_bytes()),
        Some(second.as_bytes()),
        Some(third.as_bytes()),
    ];
    let statuses = ["HTTP/1.1 200 OK\r\n"; 3];
    Ok(serves(alloc, desk, &inputs, 3, 0, &statuses))
}

// Whether a resolution that was asked for settled three orders.
fn settles_three(reply: &Result<WholeAnswer, Refusal>) -> bool {
    match reply {
        Ok(answer) => matches!(answer.own, Answer::Resolved { count: 3, .. }),
        Err(_) => false,
    }
}

#[test]
fn orders_in_a_ring_wait_until_somebody_resolves(rt: HostRuntime) -> Result<(), Fail> {
    let mut desk = TestDesk::open(rt.alloc())?;
    ensure(takes_ring(rt.alloc(), &mut desk)?)?;
    let resolved = desk.desk.submit(Command::Resolve);
    ensure(settles_three(&resolved))
}
