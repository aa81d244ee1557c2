//! Writers that take little, fail or take nothing: the order stands, whatever is answered to it.
use super::super::GOOD;
use super::super::test_desk::TestDesk;
use super::cut_writer::{CutWriter, MOST};
use rtgs_http_server::Served;
use std::alloc::Global;
use std::test::Fail;

const QUEUED: &str =
    "HTTP/1.1 200 OK\r\nContent-Type: application/json\r\nContent-Length: 40\r\nConnection: close\r\n\r\n\
     {\"answer\":\"queued\",\"number\":1,\"place\":1}";

const REPEATED: &str = r#"RAW HTTP/1.1 200 OK\r\n
Content-Type: application/json\r\n
Content-Length: 49\r\n
Connection: close\r\n
\r\n
{"answer":"repeated","number":1,"state":"queued"}"#;

// Whether the reply with the status 200 was written whole, or was not.
fn is_answered(served: &Served) -> Option<bool> {
    match served {
        Served::Answered(status) if status.as_u16() == 200 => Some(true),
        Served::WriteFault(status, _) if status.as_u16() == 200 => Some(false),
        _ => None,
    }
}

// A writer that takes this many pieces has a beginning of the reply, and the order stands.
fn is_cut(alloc: Global, writes: usize, fails: bool) -> Result<(), Fail> {
    let mut desk = TestDesk::open(alloc)?;
    let mut writer = CutWriter::new(alloc, writes, fails);
    let mut reader = GOOD.as_bytes();
    let served = desk.serve(&mut reader, &mut writer);
    let length = QUEUED.len().min(MOST.saturating_mul(writes));
    let beginning = &QUEUED.as_bytes()[..length];
    let whole = length == QUEUED.len();
    if writer.taken.as_slice() != beginning || is_answered(&served) != Some(whole) {
        let said = format!(in alloc; "after {writes} writes {served:?}")?;
        return Err(Fail::from(said));
    }
    desk.tells(GOOD, REPEATED)
}

#[test]
fn a_reply_that_is_cut_leaves_the_order(rt: HostRuntime) -> Result<(), Fail> {
    let enough = QUEUED.len().div_ceil(MOST);
    for writes in 0..=enough {
        is_cut(rt.alloc(), writes, true)?;
        is_cut(rt.alloc(), writes, false)?;
    }
    Ok(())
}
