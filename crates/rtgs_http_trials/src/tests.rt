//! What inputs ask for, where ALFA's key ends with an a and the operator's with an f.
mod all_queues;
mod bodies;
mod callers;
mod drip;
mod faults;
mod heads;
mod numbers;
mod openings;
mod pieces;
mod requests;
mod routes;
mod served;
mod targets;
mod test_desk;
mod whole;
mod words;

use rtgs_money::{Key, KeyDigest};
use std::test::Fail;

const ALFA: &str = "0000000000000000000000000000000a";

const OPERATOR: &str = "0000000000000000000000000000000f";

const GOOD: &str =
    "POST /orders HTTP/1.1\r\ndesk-key: 0000000000000000000000000000000a\r\nContent-Length: 44\r\n\r\n\
      {\"amount\":100,\"reference\":\"A-1\",\"to\":\"BETA\"}";

// Fails where another text is wanted.
fn is_same(found: &str, wanted: &str) -> Result<(), Fail> {
    if found == wanted {
        return Ok(());
    }
    Err(Fail::new(found))
}

fn digest(key: &[u8]) -> Result<KeyDigest, Fail> {
    Ok(Key::read(key)?.digest())
}
