//! A book at its limits: a ring of a hundred banks, the queue of each of which is full. It is kept in tables, found
//! again, and settled under one mark, at once or by the order that closes it.
ghost use Rattle.std.specs.Prelude.{◌≤◌};

use super::super::setting::{
    MONDAY, Reply, alone, amount, change, code, date, desk_over, new_keeper, opened, participant,
    queued, reference, resolved,
};
use rtgs_book::{
    Answer, Command, Day, Known, NewOrder, Order, OrderState, Phase, Refusal, Resolution,
    RowChange, WholeAnswer,
};
use rtgs_keeper::Keeper;
use rtgs_money::{BusinessDate, Cents, Code, Reference};
use rtgs_tables::SqlKeeper;
use rtgs_tests_desks::ensure;
use sqlite::Alter;
use std::alloc::Global;
use std::test::Fail;

/// How many banks there are.
const BANKS: u64 = 100;

/// How many orders wait in the queue of a bank, which is full, and are kept in one commit.
const AT_ONCE: u64 = 500;

/// Which banks send orders, each to the next one: those from the first sender on. The last one sends to the first bank.
#[derive(Clone, Copy)]
struct Ring {
    first: u64,
}

/// All banks send, so that all orders can settle.
const CLOSED: Ring = Ring { first: 0 };

/// The first bank does not send, so that nobody can.
const OPEN: Ring = Ring { first: 1 };

impl Ring {
    /// How many banks send.
    fn senders(self) -> u64
        ensures { 1 ≤ result }
    {
        BANKS.saturating_sub(self.first).max(1)
    }

    /// How many orders wait in all queues.
    fn orders(self) -> u64 {
        self.senders().saturating_mul(AT_ONCE)
    }

    /// The number of the bank that sends the order with this number.
    fn sender(self, number: u64) -> u64 {
        self.first.saturating_add(number % self.senders())
    }
}

fn bank(alloc: Global, number: u64) -> Result<Code, Fail> {
    let text = format!(in alloc; "BANK{number}")?;
    code(text.as_str())
}

fn keep<K: Keeper>(alloc: Global, keeper: &mut K, row: RowChange) -> Result<(), Fail> {
    keeper.commit(&change(alloc, &[row])?)?;
    Ok(())
}

fn add_bank<K: Keeper>(alloc: Global, keeper: &mut K, number: u64) -> Result<(), Fail> {
    let text = format!(in alloc; "BANK{number}")?;
    let bank = participant(text.as_str(), (number % 256) as u8)?;
    keep(alloc, keeper, RowChange::AddParticipant(bank))
}

fn add_banks<K: Keeper>(alloc: Global, keeper: &mut K) -> Result<(), Fail> {
    for number in 0..BANKS {
        add_bank(alloc, keeper, number)?;
    }
    Ok(())
}

/// Opens Monday, which is automatic or not.
fn open_monday<K: Keeper>(alloc: Global, keeper: &mut K, automatic: bool) -> Result<(), Fail> {
    let day = Day {
        date: Some(date(MONDAY)?),
        phase: Phase::Open,
        automatic,
    };
    keep(alloc, keeper, RowChange::SetDay(day))
}

/// The reference of an order.
fn name(alloc: Global, number: u64) -> Result<Reference, Fail> {
    let text = format!(in alloc; "R-{number}")?;
    reference(text.as_str())
}

/// The order with this number, of one cent from a bank to the next one.
fn order(alloc: Global, ring: Ring, number: u64) -> Result<Order, Fail> {
    let sender = ring.sender(number);
    Ok(Order {
        number,
        sender: bank(alloc, sender)?,
        reference: name(alloc, number)?,
        receiver: bank(alloc, sender.saturating_add(1) % BANKS)?,
        amount: amount(1)?,
        date: date(MONDAY)?,
        due: None,
        state: OrderState::Queued,
    })
}

/// The rows of the orders after this number, as many as are kept at once.
fn orders_after(alloc: Global, ring: Ring, number: u64) -> Result<Vec<RowChange>, Fail> {
    // Names the type of due dates for the borrow checker, which finds it nowhere else in this function.
    let _no_date: Option<BusinessDate> = None;
    let mut rows = Vec::new(alloc);
    for at in 1..=AT_ONCE {
        let order = order(alloc, ring, number.saturating_add(at))?;
        let row = [RowChange::AddOrder(order)];
        rows.extend_from_slice(&row)?;
    }
    Ok(rows)
}

fn queue_orders<K: Keeper>(alloc: Global, keeper: &mut K, ring: Ring) -> Result<(), Fail> {
    for turn in 0..ring.senders() {
        let rows = orders_after(alloc, ring, turn.saturating_mul(AT_ONCE))?;
        keeper.commit(&change(alloc, rows.as_slice())?)?;
    }
    Ok(())
}

/// Sends the order with this number.
fn sends(alloc: Global, ring: Ring, number: u64) -> Result<Command, Fail> {
    let order = order(alloc, ring, number)?;
    Ok(Command::Order {
        sender: order.sender,
        order: NewOrder {
            reference: order.reference,
            receiver: order.receiver,
            amount: order.amount,
            due: order.due,
        },
    })
}

/// Keeps the ring, on a day that is automatic or not.
fn keep_ring<K: Keeper>(
    alloc: Global,
    keeper: &mut K,
    ring: Ring,
    automatic: bool,
) -> Result<(), Fail> {
    add_banks(alloc, keeper)?;
    open_monday(alloc, keeper, automatic)?;
    queue_orders(alloc, keeper, ring)
}

/// What a desk that is opened for it answers a command, and the keeper that it leaves.
fn submitted<K: Keeper + Drop>(
    alloc: Global,
    keeper: K,
    command: Command,
) -> Result<(Reply, K), Fail> {
    let mut desk = desk_over(alloc, keeper)?;
    let reply = desk.submit(command);
    Ok((reply, desk.into_keeper()))
}

/// What is answered to commands over tables that are opened again for each of them.
fn replies<S: Alter + Drop>(
    alloc: Global,
    keeper: SqlKeeper<S>,
    commands: &[Command],
) -> Result<Vec<Reply>, Fail> {
    // Names the types of orders and due dates for the borrow checker, which finds them nowhere else in this function.
    let (_no_order, _no_date): (Option<NewOrder>, Option<BusinessDate>) = (None, None);
    let mut keeper = keeper;
    let mut replies = Vec::new(alloc);
    for command in commands {
        let (reply, left) = submitted(alloc, opened(keeper), *command)?;
        replies.push(reply)?;
        keeper = left;
    }
    Ok(replies)
}

/// The same over tables in which the ring is kept first, on a day that is automatic or not.
fn replies_over<S: Alter + Drop>(
    alloc: Global,
    keeper: SqlKeeper<S>,
    (ring, automatic): (Ring, bool),
    commands: &[Command],
) -> Result<Vec<Reply>, Fail> {
    let mut keeper = keeper;
    keep_ring(alloc, &mut keeper, ring, automatic)?;
    replies(alloc, keeper, commands)
}

/// One order more than a queue holds, a resolution of the closed ring, its last order again, the one more again, and
/// the end of the day.
fn resolving(alloc: Global) -> Result<[Command; 6], Fail> {
    let one_more = sends(alloc, CLOSED, CLOSED.orders().saturating_add(1))?;
    Ok([
        one_more,
        Command::Resolve,
        sends(alloc, CLOSED, CLOSED.orders())?,
        one_more,
        Command::CutOff(date(MONDAY)?),
        Command::CloseDay(date(MONDAY)?),
    ])
}

#[test]
fn a_book_at_its_limits_is_resolved_and_closed(rt: HostRuntime) -> Result<(), Fail> {
    let wanted = [
        Err(Refusal::QueueFull),
        resolved(1, 50_000, 50_000),
        settled_before(50_000),
        queued(50_001, 1),
        alone(Answer::CutOffDone),
        alone(Answer::Closed { rejected: 1 }),
    ];
    let commands = resolving(rt.alloc())?;
    let keeper = new_keeper(rt.alloc())?;
    let replies = replies_over(rt.alloc(), keeper, (CLOSED, false), &commands)?;
    ensure(replies.as_slice() == wanted.as_slice())
}

#[test]
fn a_close_rejects_49500_orders(rt: HostRuntime) -> Result<(), Fail> {
    let wanted = [
        alone(Answer::CutOffDone),
        alone(Answer::Closed { rejected: 49_500 }),
        alone(Answer::Repeated(Known::Nothing)),
    ];
    let close = Command::CloseDay(date(MONDAY)?);
    let commands = [Command::CutOff(date(MONDAY)?), close, close];
    let keeper = new_keeper(rt.alloc())?;
    let replies = replies_over(rt.alloc(), keeper, (OPEN, false), &commands)?;
    ensure(replies.as_slice() == wanted.as_slice())
}

/// The order of 500 cents that closes the open ring.
fn closing(alloc: Global) -> Result<Command, Fail> {
    let due: Option<BusinessDate> = None;
    Ok(Command::Order {
        sender: bank(alloc, 0)?,
        order: NewOrder {
            reference: name(alloc, 0)?,
            receiver: bank(alloc, 1)?,
            amount: amount(AT_ONCE)?,
            due,
        },
    })
}

/// The order that closes the open ring, that order again, and the last order of the ring again.
fn closing_twice(alloc: Global) -> Result<[Command; 3], Fail> {
    Ok([
        closing(alloc)?,
        closing(alloc)?,
        sends(alloc, OPEN, OPEN.orders())?,
    ])
}

/// The order with this number came before, and was settled under the first mark.
fn settled_before(number: u64) -> Reply {
    alone(Answer::Repeated(Known::Order {
        number,
        state: OrderState::Settled(1),
    }))
}

#[test]
fn an_order_settles_with_49500_others_on_an_automatic_day(rt: HostRuntime) -> Result<(), Fail> {
    let closed = WholeAnswer {
        own: Answer::Queued {
            number: 49_501,
            place: 1,
        },
        auto: Some(Resolution {
            mark: 1,
            count: 49_501,
            value: Cents::new(50_000),
        }),
    };
    let wanted = [Ok(closed), settled_before(49_501), settled_before(49_500)];
    let commands = closing_twice(rt.alloc())?;
    let keeper = new_keeper(rt.alloc())?;
    let replies = replies_over(rt.alloc(), keeper, (OPEN, true), &commands)?;
    ensure(replies.as_slice() == wanted.as_slice())
}
