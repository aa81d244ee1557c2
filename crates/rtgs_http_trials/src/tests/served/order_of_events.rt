//! The last commit of a request has returned before the first byte of the reply is written.
use super::super::requests::WrittenRequest;
use super::super::test_desk::begin_day;
use super::super::{OPERATOR, digest};
use super::watching_writer::WatchingWriter;
use rtgs_desk::Desk;
use rtgs_http_server::serve_one;
use rtgs_keeper::Keeper;
use rtgs_tests_desks::{CountingKeeper, MemoryKeeper, desk_over, ensure};
use std::alloc::Global;
use std::cell::Cell;
use std::test::Fail;

// Serves what is asked.
fn serve<K: Keeper>(
    alloc: Global,
    desk: &mut Desk<K>,
    asked: &str,
    writer: &mut WatchingWriter<'_>,
) -> Result<(), Fail> {
    let input = WrittenRequest::read(asked)?.input(alloc)?;
    let operator = digest(OPERATOR.as_bytes())?;
    let mut reader = input.as_bytes();
    let _ = serve_one(alloc, &mut reader, writer, desk, &operator);
    Ok(())
}

// Whether each byte of the reply to what is asked is written once this many commits have returned, and no more follow.
fn is_written_last<K: Keeper>(
    alloc: Global,
    desk: &mut Desk<K>,
    asked: &str,
    commits: &Cell<usize>,
    count: usize,
) -> Result<bool, Fail> {
    let mut writer = WatchingWriter::new(alloc, commits);
    serve(alloc, desk, asked, &mut writer)?;
    let is_last = commits.get() == count && writer.seen.iter().all(|seen| *seen == count);
    Ok(is_last && writer.seen.len() > 100)
}

// A batch of three orders.
const BATCH: &str =
    "ALFA POST /batches\nreference,to,amount\nA-1,BETA,100\nA-2,GAMA,50\nA-3,BETA,25";

#[test]
fn each_byte_is_written_after_the_last_commit(rt: HostRuntime) -> Result<(), Fail> {
    let commits = Cell::new(0);
    let keeper = CountingKeeper::new(MemoryKeeper::new(rt.alloc()), &commits);
    let mut desk = desk_over(rt.alloc(), keeper)?;
    begin_day(&mut desk, false)?;
    ensure(commits.get() == 4)?;
    ensure(is_written_last(rt.alloc(), &mut desk, BATCH, &commits, 7)?)
}

const FIRST: &str = r#"ALFA POST /orders {"amount":100,"reference":"A-1","to":"BETA"}"#;

// With it both settle on an automatic day.
const SECOND: &str = r#"BETA POST /orders {"amount":100,"reference":"B-1","to":"ALFA"}"#;

#[test]
fn what_follows_an_order_is_in_its_commit(rt: HostRuntime) -> Result<(), Fail> {
    let commits = Cell::new(0);
    let keeper = CountingKeeper::new(MemoryKeeper::new(rt.alloc()), &commits);
    let mut desk = desk_over(rt.alloc(), keeper)?;
    begin_day(&mut desk, true)?;
    ensure(is_written_last(rt.alloc(), &mut desk, FIRST, &commits, 5)?)?;
    ensure(is_written_last(rt.alloc(), &mut desk, SECOND, &commits, 6)?)?;
    ensure(is_written_last(rt.alloc(), &mut desk, SECOND, &commits, 6)?)
}
