//! One request over HTTP.
use super::call::{Call, Outcome};
use super::sending::ORDERS;
use super::setting::{ALFAS_KEY, code, desk_after, seen_of};
use super::store::Store;
use rtgs_book::NewOrder;
use rtgs_desk::{Desk, submit_batch};
use rtgs_http_server::{Served, serve_one};
use rtgs_keeper::Keeper;
use rtgs_money::KeyDigest;
use rtgs_order_files::read_orders;
use rtgs_tests_desks::desk_over;
use std::alloc::Global;
use std::fmt::Write;
use std::test::Fail;

pub const OPERATOR: &str = "0000000000000000000000000000000f";

/// What no reply here is longer than.
const LONGEST: usize = 4096;

/// The reply that memory is refused.
const OUT_OF_MEMORY: &[u8] =
    b"HTTP/1.1 503 Service Unavailable\r\nContent-Type: application/json\r\nContent-Length: 32\r\n\
      Connection: close\r\n\r\n{\"code\":90,\"name\":\"OutOfMemory\"}";

/// The reply that an answer is lost.
pub const ANSWER_LOST: &[u8] =
    b"HTTP/1.1 503 Service Unavailable\r\nContent-Type: application/json\r\nContent-Length: 31\r\n\
      Connection: close\r\n\r\n{\"code\":69,\"name\":\"AnswerLost\"}";

/// The reply that the store failed.
const STORE_FAULT: &[u8] =
    b"HTTP/1.1 503 Service Unavailable\r\nContent-Type: application/json\r\nContent-Length: 31\r\n\
      Connection: close\r\n\r\n{\"code\":91,\"name\":\"StoreFault\"}";

/// The beginning of the reply of a batch that stopped, up to the length of its results.
const STOPPED: &str =
    "HTTP/1.1 503 Service Unavailable\r\nContent-Type: text/csv\r\nContent-Length: ";

/// The first line of results.
const HEADER: &str = "reference,result,number,detail\n";

/// The results of the three orders that each batch here has.
const RESULTS: [&str; 3] = ["A-1,settled,1,1\n", "A-2,settled,2,2\n", "A-3,queued,3,1\n"];

/// One request to a desk over this store, which has three banks, after the commands of a script.
#[derive(Clone, Copy)]
pub struct Serves<'a, S> {
    pub store: S,
    pub before: &'a str,
    pub request: &'a [u8],
    pub operator: KeyDigest,
    /// The rows of the request where it is a batch of ALFA, and else none.
    pub rows: &'a [NewOrder],
}

impl<S: Store> Serves<'_, S> {
    // Whether a lost answer may be that a part is done: a batch that stopped, or a store that failed.
    fn may_stop(&self) -> bool {
        self.store.may_fail() || !self.rows.is_empty()
    }
}

// The reply of a batch of the three orders that has this many answered, and stops for lack of memory at the next one.
fn stopped_reply(alloc: Global, count: usize) -> Result<String, Fail> {
    let mut results = String::from_str(alloc, HEADER)?;
    let lines = RESULTS;
    for line in lines.get(..count).ok_or("so many lines")? {
        results.push_str(*line)?;
    }
    let number = count.saturating_add(1);
    write!(results, "A-{number},stopped,,90\n")?;
    let length = results.len();
    let mut reply = String::from_str(alloc, STOPPED)?;
    write!(reply, "{length}\r\nConnection: close\r\n\r\n{results}")?;
    Ok(reply)
}

// How many orders such a reply has answered. It fails where some byte of it is another one.
fn answered_in(alloc: Global, written: &[u8]) -> Result<usize, Fail> {
    for count in 0..RESULTS.len() {
        let reply = stopped_reply(alloc, count)?;
        if reply.as_bytes() == written {
            return Ok(count);
        }
    }
    Err(Fail::from("no reply of a batch that stopped"))
}

// What is seen of the desk after this many rows of a batch.
fn seen_after<S: Store>(alloc: Global, serves: &Serves<'_, S>, count: usize) -> Result<String, Fail>
where
    S::Kept: Keeper + Drop,
{
    let mut desk = desk_after(alloc, serves.store.keeper(alloc)?, serves.before)?;
    let rows = serves.rows.get(..count).ok_or("so many rows")?;
    submit_batch(alloc, &mut desk, code("ALFA")?, rows)?;
    seen_of(alloc, &mut desk)
}

// What is seen of it after each number of rows. There is none after which nothing was done: an answer is lost once a
// row was answered, and for one that is refused for lack of memory, with what the row before it took, the results are
// had. Before the first row memory is refused by another reply.
fn seen_after_each<S: Store>(alloc: Global, serves: &Serves<'_, S>) -> Result<Vec<String>, Fail>
where
    S::Kept: Keeper + Drop,
{
    let mut parts = Vec::new(alloc);
    for count in 1..=serves.rows.len() {
        parts.push(seen_after(alloc, serves, count)?)?;
    }
    Ok(parts)
}

/// A request that is sent: its key, its line and its body.
#[derive(Clone, Copy)]
pub struct Sent {
    pub key: &'static str,
    pub line: &'static str,
    pub body: &'static str,
}

impl Sent {
    /// A batch of ALFA.
    pub const BATCH: Sent = Sent {
        key: ALFAS_KEY,
        line: "POST /batches",
        body: ORDERS,
    };
}

/// The rows of a batch, and none of another request.
pub fn rows_of(alloc: Global, sent: &Sent) -> Result<Vec<NewOrder>, Fail> {
    if sent.line == Sent::BATCH.line {
        return Ok(read_orders(alloc, sent.body.as_bytes())?);
    }
    Ok(Vec::new(alloc))
}

/// The bytes of a request.
pub fn request_of(alloc: Global, sent: &Sent) -> Result<String, Fail> {
    let Sent { key, line, body } = *sent;
    let length = body.len();
    let text = format!(in alloc;
        "{line} HTTP/1.1\r\ndesk-key: {key}\r\nContent-Length: {length}\r\n\r\n{body}"
    )?;
    Ok(text)
}

/// A desk, and room for the reply.
#[derive(Drop)]
pub struct Server<K: Keeper + Drop> {
    desk: Desk<K>,
    room: Vec<u8>,
}

/// The status of the reply, and the bytes that are written.
#[derive(Debug, Drop)]
pub struct ServedReply {
    status: Option<u16>,
    written: Vec<u8>,
}

impl<S: Store> Call for Serves<'_, S>
where
    S::Kept: Keeper + Drop,
{
    type State = Server<S::Kept>;

    type Answer = ServedReply;

    fn begin(&self, alloc: Global) -> Result<Server<S::Kept>, Fail> {
        Ok(Server {
            desk: desk_after(alloc, self.store.keeper(alloc)?, self.before)?,
            room: Vec::with_capacity(alloc, LONGEST)?,
        })
    }

    fn call(&self, alloc: Global, server: &mut Server<S::Kept>) -> ServedReply {
        let mut reader = self.request;
        let mut written = std::mem::replace(&mut server.room, Vec::new(alloc));
        let desk = &mut server.desk;
        let served = serve_one(alloc, &mut reader, &mut written, desk, &self.operator);
        let status = match served {
            Served::Answered(status) => Some(status.as_u16()),
            _ => None,
        };
        ServedReply { status, written }
    }

    fn outcome(&self, reply: &ServedReply) -> Outcome {
        let written = reply.written.as_slice();
        match reply.status {
            Some(503) if written == OUT_OF_MEMORY => Outcome::Refused,
            Some(503) if written == ANSWER_LOST && self.may_stop() => Outcome::Stopped,
            Some(503) if written == ANSWER_LOST => Outcome::Lost,
            Some(503) if written == STORE_FAULT && self.store.may_fail() => Outcome::Faulted,
            Some(503) if written.starts_with(STOPPED.as_bytes()) => Outcome::Stopped,
            _ => Outcome::Other,
        }
    }

    fn reopened(&self, alloc: Global, server: Server<S::Kept>) -> Result<Server<S::Kept>, Fail> {
        let Server { desk, room } = server;
        let keeper = self.store.restarted(alloc, desk.into_keeper())?;
        Ok(Server {
            desk: desk_over(alloc, keeper)?,
            room,
        })
    }

    fn seen(&self, alloc: Global, server: &mut Server<S::Kept>) -> Result<String, Fail> {
        seen_of(alloc, &mut server.desk)
    }

    fn parts(&self, alloc: Global, reply: &ServedReply) -> Result<Vec<String>, Fail> {
        let written = reply.written.as_slice();
        if self.rows.is_empty() {
            return Ok(Vec::new(alloc));
        }
        if written == ANSWER_LOST {
            return seen_after_each(alloc, self);
        }
        let count = answered_in(alloc, written)?;
        Ok(vec![in alloc; seen_after(alloc, self, count)?]?)
    }
}
