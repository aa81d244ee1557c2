//! What a desk says of its book.
use super::super::scripts::desks::desk_follows;
use super::super::setting::{MONDAY, code, date, desk_over, kept, order, participant};
use rtgs_book::{AccountReading, Day, Order, OrderState, Phase, Refusal, RowChange};
use rtgs_desk::Desk;
use rtgs_keeper::Keeper;
use rtgs_money::{Cents, Code, Reference, Units};
use rtgs_tests_desks::{MemoryKeeper, ensure};
use std::alloc::Global;
use std::test::Fail;

// The day is automatic: what waits cannot settle, since ALFA has nothing.
fn today() -> Result<Day, Fail> {
    Ok(Day {
        date: Some(date(MONDAY)?),
        phase: Phase::Open,
        automatic: true,
    })
}

// ALFA has two queued orders, and took one back between them.
fn orders() -> Result<[Order; 3], Fail> {
    Ok([
        order(1, "O-1", 100, OrderState::Queued)?,
        order(2, "O-2", 7, OrderState::Withdrawn)?,
        order(3, "O-3", 50, OrderState::Queued)?,
    ])
}

// The rows of ALFA, BETA and these orders, on an open day.
fn rows(orders: &[Order; 3]) -> Result<[RowChange; 6], Fail> {
    Ok([
        RowChange::AddParticipant(participant("ALFA", 1)?),
        RowChange::AddParticipant(participant("BETA", 2)?),
        RowChange::SetDay(today()?),
        RowChange::AddOrder(orders[0]),
        RowChange::AddOrder(orders[1]),
        RowChange::AddOrder(orders[2]),
    ])
}

// A desk with these rows.
fn waiting(alloc: Global, orders: &[Order; 3]) -> Result<Desk<MemoryKeeper>, Fail> {
    let rows = rows(orders)?;
    let keeper = kept(alloc, MemoryKeeper::new(alloc), &rows)?;
    desk_over(alloc, keeper)
}

#[test]
fn an_account_is_answered_with_its_queue(rt: HostRuntime) -> Result<(), Fail> {
    let unknown = code("GAMMA")?;
    let reading = AccountReading {
        participant: participant("ALFA", 1)?,
        balance: Cents::new(0),
        day: today()?,
        queued: 2,
        queued_value: Units::new(150),
    };
    let desk = waiting(rt.alloc(), &orders()?)?;
    let accounts = [
        desk.account(&reading.participant.code),
        desk.account(&unknown),
    ];
    ensure(accounts == [Ok(reading), Err(Refusal::UnknownParticipant)])
}

// ABLE is added last, and comes first. ALFA is below 0 within its limit, and two of its orders wait.
const BELOW_ZERO: &str = "
accounts => [ALFA 0 0 0 0.00][BETA 0 0 0 0.00][GAMA 0 0 0 0.00]
add ABLE 0000000000000000000000000000000d => Added
credit ALFA 100 => CreditSet
open 2024-03-04 => Opened
order ALFA O-1 BETA 60 => Settled { number: 1, mark: 1 }
order ALFA O-2 BETA 50 => Queued { number: 2, place: 1 }
order ALFA O-3 BETA 7 => Queued { number: 3, place: 2 }
accounts => [ABLE 0 0 0 0.00][ALFA -60 100 2 0.57][BETA 60 0 0 0.00][GAMA 0 0 0 0.00]
";

#[test]
fn all_accounts_are_answered_in_their_order(rt: HostRuntime) -> Result<(), Fail> {
    desk_follows(&rt, BELOW_ZERO)
}

const DAYS: &str = "
day => Day { date: None, phase: Closed, automatic: false }
open 2024-03-04 automatic => Opened
day => Day { date: Some(BusinessDate { number: 20240304 }), phase: Open, automatic: true }
cutoff 2024-03-04 => CutOffDone
day => Day { date: Some(BusinessDate { number: 20240304 }), phase: CutOff, automatic: true }
";

#[test]
fn the_day_is_answered(rt: HostRuntime) -> Result<(), Fail> {
    desk_follows(&rt, DAYS)
}

// Whether the desk tells these orders as the sender's queue.
fn has_queue<K: Keeper>(desk: &Desk<K>, sender: &Code, orders: &[Order]) -> Result<bool, Refusal> {
    let queue = desk.queue_of(sender)?;
    Ok(queue.as_slice() == orders)
}

#[test]
fn a_queue_is_answered_in_its_order(rt: HostRuntime) -> Result<(), Fail> {
    let unknown = code("GAMMA")?;
    let orders = orders()?;
    let desk = waiting(rt.alloc(), &orders)?;
    let answers = [
        has_queue(&desk, &orders[0].sender, &[orders[0], orders[2]]),
        has_queue(&desk, &unknown, &[]),
    ];
    ensure(answers == [Ok(true), Err(Refusal::UnknownParticipant)])
}

// What the desk says of the order with this reference, from one sender after another.
fn orders_of<K: Keeper>(
    desk: &mut Desk<K>,
    senders: &[Code; 3],
    reference: &Reference,
) -> [Result<Order, Refusal>; 3] {
    [
        desk.order_of(&senders[0], reference),
        desk.order_of(&senders[1], reference),
        desk.order_of(&senders[2], reference),
    ]
}

#[test]
fn an_order_is_answered_by_its_name(rt: HostRuntime) -> Result<(), Fail> {
    let orders = orders()?;
    let withdrawn = orders[1];
    let senders = [withdrawn.sender, code("BETA")?, code("GAMMA")?];
    let mut desk = waiting(rt.alloc(), &orders)?;
    let answers = orders_of(&mut desk, &senders, &withdrawn.reference);
    let wanted = [
        Ok(withdrawn),
        Err(Refusal::UnknownOrder),
        Err(Refusal::UnknownParticipant),
    ];
    ensure(answers == wanted)
}
