//! A store that fails at an order, before or after the order is kept, and memory that is refused.
use super::super::test_desk::TestDesk;
use rtgs_tests_desks::Trouble;
use std::alloc::Global;
use std::test::Fail;

// How many calls of its keeper a desk makes before it looks the order up.
const LOOK_UP: usize = 0;

// How many it makes before the order is kept.
const COMMIT: usize = 1;

const ORDER: &str = r#"ALFA POST /orders {"amount":100,"reference":"A-1","to":"BETA"}"#;

const QUEUED: &str = r#"200 OK {"answer":"queued","number":1,"place":1}"#;

const REPEATED: &str = r#"200 OK {"answer":"repeated","number":1,"state":"queued"}"#;

const NO_MEMORY: &str = r#"503 Service Unavailable {"code":90,"name":"OutOfMemory"}"#;

const FAULT: &str = r#"503 Service Unavailable {"code":91,"name":"StoreFault"}"#;

const FAILED: &str = r#"503 Service Unavailable {"code":92,"name":"Failed"}"#;

// The store fails at the order, and after a restart the same order has this reply.
fn is_answered_after(
    alloc: Global,
    calls: usize,
    trouble: Trouble,
    reply: &str,
) -> Result<(), Fail> {
    let mut desk = TestDesk::troubled(alloc, calls, trouble)?;
    desk.is_answered(ORDER, FAULT)?;
    desk.is_answered(ORDER, FAILED)?;
    let mut desk = desk.restarted()?;
    desk.is_answered(ORDER, reply)
}

#[test]
fn an_order_that_the_store_lost(rt: HostRuntime) -> Result<(), Fail> {
    is_answered_after(rt.alloc(), COMMIT, Trouble::Lost, QUEUED)
}

#[test]
fn an_order_that_the_store_kept(rt: HostRuntime) -> Result<(), Fail> {
    is_answered_after(rt.alloc(), COMMIT, Trouble::Kept, REPEATED)
}

#[test]
fn an_order_whose_look_up_failed(rt: HostRuntime) -> Result<(), Fail> {
    is_answered_after(rt.alloc(), LOOK_UP, Trouble::Lost, QUEUED)?;
    is_answered_after(rt.alloc(), LOOK_UP, Trouble::Kept, QUEUED)
}

// Memory is refused once at the order, after this many calls, and not when it comes again.
fn waits(alloc: Global, calls: usize) -> Result<(), Fail> {
    let mut desk = TestDesk::troubled(alloc, calls, Trouble::OutOfMemory)?;
    desk.is_answered(ORDER, NO_MEMORY)?;
    desk.is_answered(ORDER, QUEUED)?;
    desk.is_answered(ORDER, REPEATED)
}

#[test]
fn an_order_without_memory(rt: HostRuntime) -> Result<(), Fail> {
    waits(rt.alloc(), LOOK_UP)?;
    waits(rt.alloc(), COMMIT)
}
