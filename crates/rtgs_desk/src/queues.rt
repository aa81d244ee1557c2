//! What is said of all queues, from the ledger.
ghost use Rattle.std.specs.Prelude.{◌≡◌, ◌++◌, IfOk, IfErr, OnOk, slice_index};
ghost use Rattle.rtgs_book.specs.declared.book.Book.{Book};
ghost use Rattle.rtgs_book.specs.Choice.{Choice, IsGreatest};
ghost use Rattle.rtgs_book.specs.Queue.{queue};
ghost use Rattle.rtgs_book.specs.cores.Cores.{IsCoreOf};
ghost use Rattle.rtgs_desk.specs.Queues.{queue_if_any, queue_readings, reading_of_queue, receiver_of, receivers_of};
ghost use Rattle.rtgs_desk.specs.Queues.{short_of};

use crate::payments::Payments;
use crate::value::value_of;
use rtgs_book::{Order, QueueReading, ReceiverReading, Refusal, Rows};
use rtgs_ledger::Ledger;
use rtgs_money::{Amount, Cents, Code};
use std::alloc::{AllocError, Global};

/// The queues that have orders, in the order of their participants' codes. The only refusal is lack of memory.
pub(crate) fn queue_readings(alloc: Global, ledger: &Ledger) -> Result<Vec<QueueReading>, Refusal>
    ensures answered { (book : Book) (choice : Choice) → IsCoreOf book ledger.now.core → IsGreatest book choice
        → IfOk result (λ readings. readings.items ≡ queue_readings book choice) }
    ensures kinds { IfErr result (λ refusal. refusal ≡ Refusal.OutOfMemory) }
{
    let lengths = ledger.greatest_choice()?;
    let mut readings = Vec::new(alloc);
    for (index, account) in ledger.accounts().iter().enumerate() {
        let chosen = chosen_at(lengths.as_slice(), index);
        add_queue(
            &mut readings,
            alloc,
            ledger,
            &account.participant.code,
            chosen,
        )?;
    }
    Ok(readings)
}

// How many orders are chosen of the queue at this place.
fn chosen_at(lengths: &[usize], index: usize) -> usize
    ensures { result ≡ slice_index lengths.now index }
{
    lengths.get(index).copied().unwrap_or(0)
}

// Adds what is said of the queue of the participant with this code, if it has orders. This many of them are chosen.
fn add_queue(
    readings: &mut Vec<QueueReading>,
    alloc: Global,
    ledger: &Ledger,
    code: &Code,
    chosen: usize,
) -> Result<(), AllocError>
    ensures { (book : Book) (choice : Choice) → IsCoreOf book ledger.now.core → choice code.now ≡ chosen
        → OnOk result (readings.new.items
        ≡ readings.old.items ++ queue_if_any book choice code.now (queue book code.now)) }
{
    let queue = ledger.queue(code)?;
    let orders = queue.as_slice();
    let Some(first) = orders.first() else {
        return Ok(());
    };
    let reading = queue_reading(alloc, ledger, code, first, orders, chosen)?;
    readings.push(reading)?;
    Ok(())
}

// What is said of a queue with this first order. This many of its orders are chosen.
fn queue_reading(
    alloc: Global,
    ledger: &Ledger,
    code: &Code,
    first: &Order,
    orders: &[Order],
    chosen: usize,
) -> Result<QueueReading, AllocError>
    ensures { (book : Book) (choice : Choice) → IsCoreOf book ledger.now.core → choice code.now ≡ chosen
        → IfOk result (λ reading. reading ≡ reading_of_queue book choice code.now first.now orders.now) }
{
    let headroom = ledger.headroom(code);
    let settling = &orders[..chosen.min(orders.len())];
    Ok(QueueReading {
        code: *code,
        first: *first,
        headroom,
        queued: orders.len(),
        queued_value: value_of(orders),
        receivers: receivers_of(alloc, ledger, orders)?,
        settling: settling.len(),
        settling_value: value_of(settling),
        short: short_of(headroom, first.amount),
    })
}

// Whom the orders pay, in the order of the codes.
fn receivers_of(
    alloc: Global,
    ledger: &Ledger,
    orders: &[Order],
) -> Result<Rows<ReceiverReading>, AllocError>
    ensures { (book : Book) → IsCoreOf book ledger.now.core
        → IfOk result (λ receivers. receivers ≡ receivers_of book orders.now) }
{
    let payments = Payments::of(alloc, orders)?;
    let mut receivers = Vec::new(alloc);
    for account in ledger.accounts() {
        let code = account.participant.code;
        add_receiver(&mut receivers, code, payments.to(&code))?;
    }
    Ok(Rows::from_vec(receivers))
}

// Adds what these orders pay to the participant with this code, if there are any.
fn add_receiver(
    receivers: &mut Vec<ReceiverReading>,
    code: Code,
    orders: &[Order],
) -> Result<(), AllocError>
    ensures { OnOk result (receivers.new.items ≡ receivers.old.items ++ receiver_of code orders.now) }
{
    if orders.is_empty() {
        return Ok(());
    }
    receivers.push(ReceiverReading {
        queued: orders.len(),
        queued_value: value_of(orders),
        to: code,
    })?;
    Ok(())
}

// By how many cents the amount exceeds the headroom, and 0 where it does not.
fn short_of(headroom: Cents, amount: Amount) -> u64
    ensures { result ≡ short_of headroom amount }
{
    let wanted = amount.cents() as i64;
    if headroom.cents() < wanted {
        wanted.abs_diff(headroom.cents())
    } else {
        0
    }
}
