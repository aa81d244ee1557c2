//! A desk over a keeper in memory.
mod calm;
mod dated;
mod queues;
mod readings;
mod waiting;

use super::scripts::command;
use super::setting::{alone, desk_over};
use rtgs_book::{Answer, NewOrder, Refusal};
use rtgs_desk::Desk;
use rtgs_keeper::Keeper;
use rtgs_tests_desks::{MemoryKeeper, ensure};
use std::alloc::Global;
use std::test::Fail;

/// How many postings a desk kept.
fn postings_kept(alloc: Global, desk: Desk<MemoryKeeper>) -> Result<usize, Fail> {
    Ok(desk.into_keeper().load(alloc)?.postings.len())
}

#[test]
fn a_posting_is_answered_and_kept(rt: HostRuntime) -> Result<(), Fail> {
    // Names the type of orders for the borrow checker, which finds it nowhere else in this function.
    let _no_order: Option<NewOrder> = None;
    let add = command(rt.alloc(), "add ALFA 0000000000000000000000000000000a")?;
    let post = command(rt.alloc(), "post ALFA P-1 100")?;
    let mut desk = desk_over(rt.alloc(), MemoryKeeper::new(rt.alloc()))?;
    let replies = [desk.submit(add), desk.submit(post)];
    let wanted = [alone(Answer::Added), alone(Answer::Posted { number: 1 })];
    ensure((replies, desk.failed()) == (wanted, false))?;
    ensure(postings_kept(rt.alloc(), desk)? == 1)
}

#[test]
fn commands_are_run_in_order(rt: HostRuntime) -> Result<(), Fail> {
    let add = command(rt.alloc(), "add ALFA 0000000000000000000000000000000a")?;
    let commands = [add, command(rt.alloc(), "post ALFA P-1 -1")?];
    let mut desk = desk_over(rt.alloc(), MemoryKeeper::new(rt.alloc()))?;
    let answers = desk.run(&commands)?;
    let expected = [alone(Answer::Added), Err(Refusal::NoCover)];
    ensure(answers.as_slice() == expected.as_slice())
}
