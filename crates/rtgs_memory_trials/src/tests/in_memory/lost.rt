//! An order that is accepted, and whose reply finds no memory: it is answered that its answer is lost, and when it is
//! sent again that it was accepted before.
use super::super::scarce::setting::{ALFAS_KEY, FUNDED_DAY, desk_after};
use super::super::scarce::{
    ANSWER_LOST, Held, OPERATOR, Sent, TakingKeeper, in_a_process, is_limited, request_of, same,
};
use rtgs_desk::Desk;
use rtgs_http_server::serve_one;
use rtgs_keeper::Keeper;
use rtgs_money::Key;
use rtgs_tests_desks::{MemoryKeeper, desk_over};
use std::alloc::Global;
use std::cell::Cell;
use std::test::Fail;

/// What no reply here is longer than.
const LONGEST: usize = 4096;

/// The reply to the order when it is sent again.
const REPEATED: &str = "HTTP/1.1 200 OK\r\nContent-Type: application/json\r\nContent-Length: 49\r\n\
    Connection: close\r\n\r\n{\"answer\":\"repeated\",\"number\":1,\"state\":\"queued\"}";

/// Where a keeper holds the memory that it takes.
type Holding = Cell<Option<Held>>;

// Lets go of what is held. There has to be something, or else nothing was committed.
fn free(held: &Holding) -> Result<(), Fail> {
    match held.replace(None) {
        Some(held) => {
            held.free();
            Ok(())
        }
        None => Err(Fail::from("nothing is held")),
    }
}

// Serves a request. Gives what is written.
fn served<K: Keeper>(alloc: Global, desk: &mut Desk<K>, request: &String) -> Result<Vec<u8>, Fail> {
    let operator = Key::read(OPERATOR.as_bytes())?.digest();
    let mut written = Vec::with_capacity(alloc, LONGEST)?;
    let mut reader = request.as_bytes();
    let _ = serve_one(alloc, &mut reader, &mut written, desk, &operator);
    Ok(written)
}

// The answer to an order is lost while what its commit took is held. Once that is let go of, it is answered as
// repeated. The order waits, since its one row gives back less memory, once it is adopted, than a reply needs.
fn is_lost<K: Keeper>(alloc: Global, desk: &mut Desk<K>, held: &Holding) -> Result<(), Fail> {
    let sent = Sent {
        key: ALFAS_KEY,
        line: "POST /orders",
        body: "{\"amount\":200,\"reference\":\"A-1\",\"to\":\"BETA\"}",
    };
    let request = request_of(alloc, &sent)?;
    let lost = served(alloc, desk, &request)?;
    free(held)?;
    let wanted = std::str::from_utf8(ANSWER_LOST)?;
    same(alloc, std::str::from_utf8(lost.as_slice())?, wanted)?;
    let reply = served(alloc, desk, &request)?;
    same(alloc, std::str::from_utf8(reply.as_slice())?, REPEATED)
}

#[test]
fn an_order_is_accepted(rt: HostRuntime) -> Result<(), Fail> {
    if !is_limited(&rt) {
        return in_a_process(&rt, "tests::in_memory::lost::an_order_is_accepted");
    }
    let desk = desk_after(rt.alloc(), MemoryKeeper::new(rt.alloc()), FUNDED_DAY)?;
    let held = Cell::new(None);
    let keeper = TakingKeeper::new(rt.alloc(), desk.into_keeper(), &held);
    let mut desk = desk_over(rt.alloc(), keeper)?;
    is_lost(rt.alloc(), &mut desk, &held)
}
