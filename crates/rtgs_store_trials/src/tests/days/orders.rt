//! Short days, answer by answer.
use super::super::scripts::desks::{desk_after, desk_follows};
use super::super::scripts::{command, follows};
use super::super::setting::{Reply, queued};
use rtgs_book::{Command, NewOrder, Refusal};
use rtgs_desk::Desk;
use rtgs_keeper::Keeper;
use rtgs_tests_desks::ensure;
use std::alloc::Global;
use std::process::Abort;
use std::test::Fail;

#[test]
fn an_order_settles_once(rt: HostRuntime) -> Result<(), Fail> {
    desk_follows(
        &rt,
        "
open 2024-03-04 => Opened
post ALFA P-1 100 => Posted { number: 1 }
order ALFA A-1 BETA 100 => Settled { number: 1, mark: 1 }
order ALFA A-1 BETA 100 => Repeated(Order { number: 1, state: Settled(1) })
order ALFA A-1 BETA 99 => refused: ReferenceUsed
order BETA A-1 GAMA 60 => Settled { number: 2, mark: 2 }
order ALFA A-2 BETA 1 => Queued { number: 3, place: 1 }
account ALFA => 0 cents, 1 queued
account BETA => 40 cents, 0 queued
account GAMA => 60 cents, 0 queued
",
    )
}

#[test]
fn an_order_is_between_two_banks(rt: HostRuntime) -> Result<(), Fail> {
    desk_follows(
        &rt,
        "
open 2024-03-04 => Opened
order ALFA A-1 ALFA 1 => refused: SameParty
order ALFA A-1 ZETA 1 => refused: UnknownReceiver
order ZETA A-1 ALFA 1 => refused: UnknownParticipant
",
    )
}

#[test]
fn a_day_is_opened_once(rt: HostRuntime) -> Result<(), Fail> {
    desk_follows(
        &rt,
        "
order ALFA A-1 BETA 1 => refused: NotOpen
open 2024-03-02 => refused: Weekend
open 2024-03-04 => Opened
open 2024-03-04 => Repeated(Nothing)
open 2024-03-05 => refused: WrongPhase
open 2024-03-01 => refused: WrongPhase
",
    )
}

/// ALFA's order of this number, which nothing covers.
fn uncovered(alloc: Global, number: u64) -> Result<Command, Fail> {
    let text = format!(in alloc; "order ALFA A-{number} BETA 5")?;
    command(alloc, text.as_str())
}

/// What the desk answers to ALFA's order of this number.
fn sent<K: Keeper>(alloc: Global, desk: &mut Desk<K>, number: u64) -> Result<Reply, Fail> {
    let order = uncovered(alloc, number)?;
    Ok(desk.submit(order))
}

/// ALFA's first 500 orders wait, each behind the last.
fn fills_a_queue<K: Keeper>(
    rt: &(impl Abort + AllocGlobal),
    desk: &mut Desk<K>,
) -> Result<(), Fail> {
    for number in 1..=500u64 {
        ensure(sent(rt.alloc(), desk, number)? == queued(number, number))?;
    }
    Ok(())
}

#[test]
fn a_queue_takes_500_orders(rt: HostRuntime) -> Result<(), Fail> {
    // Names the type of orders for the borrow checker, which finds it nowhere else in this function.
    let _no_order: Option<NewOrder> = None;
    let another = command(rt.alloc(), "order BETA B-1 ALFA 5")?;
    let mut desk = desk_after(rt.alloc(), "open 2024-03-04 => Opened")?;
    fills_a_queue(&rt, &mut desk)?;
    let replies = [sent(rt.alloc(), &mut desk, 501)?, desk.submit(another)];
    ensure(replies == [Err(Refusal::QueueFull), queued(501, 1)])
}

// What is full is refused before the posting that frees it, and is taken after it.
#[test]
fn a_full_queue_is_freed_on_an_automatic_day(rt: HostRuntime) -> Result<(), Fail> {
    let frees = "post ALFA P-1 2500 => Posted { number: 1 } auto 1 500 2500";
    let mut desk = desk_after(rt.alloc(), "open 2024-03-04 automatic => Opened")?;
    fills_a_queue(&rt, &mut desk)?;
    let before = sent(rt.alloc(), &mut desk, 501)?;
    follows(rt.alloc(), &mut desk, frees)?;
    let after = sent(rt.alloc(), &mut desk, 501)?;
    ensure([before, after] == [Err(Refusal::QueueFull), queued(501, 1)])
}
