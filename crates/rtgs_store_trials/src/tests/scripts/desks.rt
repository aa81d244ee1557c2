//! Scripts for a desk.
use super::super::setting::{code, desk_over, reference};
use super::records::{mark_if_any, order_if_any, posting_if_any, queue_text};
use super::{Answers, command_of, day_of, follows, reply_text, words_of};
use rtgs_book::{AccountReading, QueueReading, ReceiverReading, Tally};
use rtgs_desk::Desk;
use rtgs_keeper::Keeper;
use rtgs_money::BusinessDate;
use rtgs_statements::Source;
use rtgs_tests_desks::MemoryKeeper;
use std::alloc::Global;
use std::test::Fail;

/// The three banks, before the first day.
const BANKS: &str = "
add ALFA 0000000000000000000000000000000a => Added
add BETA 0000000000000000000000000000000b => Added
add GAMA 0000000000000000000000000000000c => Added
";

impl<K: Keeper> Answers for Desk<K> {
    fn answer(&mut self, alloc: Global, asked: &str) -> Result<String, Fail> {
        let words = words_of(alloc, asked)?;
        match words.as_slice() {
            ["account", participant] => account_text(alloc, self, participant),
            ["accounts"] => accounts_text(alloc, self),
            ["queues"] => queues_text(alloc, self),
            ["queue", sender] => queue_of(alloc, self, sender),
            ["held", sender] => held_of(alloc, self, sender),
            ["waiting", sender] => waiting_text(alloc, self, sender),
            ["status"] => status_text(alloc, self),
            ["kept", sender, name] => kept_order(alloc, self, sender, name),
            ["day"] => day_text(alloc, self),
            ["next-posting", day, after] => next_posting_text(alloc, self, day, after),
            ["next-order", day, after] => next_order_text(alloc, self, day, after),
            ["next-mark", day, after] => next_mark_text(alloc, self, day, after),
            ["code-at", index] => code_text(alloc, self, index),
            others => {
                let command = command_of(others)?;
                reply_text(alloc, &self.submit(command))
            }
        }
    }
}

/// A desk of ALFA, BETA and GAMA that answered the script as it tells.
pub fn desk_after(alloc: Global, script: &str) -> Result<Desk<MemoryKeeper>, Fail> {
    let mut desk = desk_over(alloc, MemoryKeeper::new(alloc))?;
    follows(alloc, &mut desk, BANKS)?;
    follows(alloc, &mut desk, script)?;
    Ok(desk)
}

/// Fails unless a desk of ALFA, BETA and GAMA answers the script as it tells.
pub fn desk_follows(rt: &HostRuntime, script: &str) -> Result<(), Fail> {
    desk_after(rt.alloc(), script)?;
    Ok(())
}

/// The balance of a participant, and how many orders its queue has.
fn account_text<K: Keeper>(
    alloc: Global,
    desk: &Desk<K>,
    participant: &str,
) -> Result<String, Fail> {
    match desk.account(&code(participant)?) {
        Ok(account) => {
            let (cents, queued) = (account.balance.cents(), account.queued);
            Ok(format!(in alloc; "{cents} cents, {queued} queued")?)
        }
        Err(refusal) => Ok(format!(in alloc; "refused: {refusal:?}")?),
    }
}

/// The orders that wait in the sender's queue.
fn queue_of<K: Keeper>(alloc: Global, desk: &Desk<K>, sender: &str) -> Result<String, Fail> {
    // Names the type of due dates for the borrow checker, which finds it nowhere else in this function.
    let _no_date: Option<BusinessDate> = None;
    let queue = desk.queue_of(&code(sender)?)?;
    queue_text(alloc, queue.as_slice())
}

/// The sender's held orders, in their order.
fn held_of<K: Keeper>(alloc: Global, desk: &Desk<K>, sender: &str) -> Result<String, Fail> {
    // Names the type of due dates for the borrow checker, which finds it nowhere else in this function.
    let _no_date: Option<BusinessDate> = None;
    let held = desk.held_of(&code(sender)?)?;
    queue_text(alloc, held.as_slice())
}

/// Why the sender's orders wait: the number of the first, the headroom, what it lacks, and what is queued and held.
fn waiting_text<K: Keeper>(alloc: Global, desk: &Desk<K>, sender: &str) -> Result<String, Fail> {
    let reading = desk.waiting_of(&code(sender)?)?;
    let first = match &reading.first {
        Some(order) => order.number,
        None => 0,
    };
    let (headroom, short) = (reading.headroom, reading.short);
    let reason = format!(in alloc; "first {first}, {headroom} free, {short} short")?;
    let waiting = tallies_text(alloc, &reading.queued, &reading.held)?;
    Ok(format!(in alloc; "{reason}, {waiting}")?)
}

/// What is queued and held.
fn tallies_text(alloc: Global, queued: &Tally, held: &Tally) -> Result<String, Fail> {
    let (count, value) = (queued.count, queued.value);
    let queued = format!(in alloc; "{count} queued of {value}")?;
    let (count, value) = (held.count, held.value);
    Ok(format!(in alloc; "{queued}, {count} held of {value}")?)
}

/// How the desk stands: its day, the participants with all their cents, what waits, and the numbers that come next.
fn status_text<K: Keeper>(alloc: Global, desk: &Desk<K>) -> Result<String, Fail> {
    let status = desk.status()?;
    let (day, participants, sum) = (status.day, status.participants, status.sum);
    let begun = format!(in alloc; "{day:?}, {participants} have {sum}")?;
    let waiting = tallies_text(alloc, &status.queued, &status.held)?;
    let (posting, order, mark) = (status.next_posting, status.next_order, status.next_mark);
    let next = format!(in alloc; "next {posting} {order} {mark}")?;
    Ok(format!(in alloc; "{begun}, {waiting}, {next}")?)
}

/// The sender's order of this reference, as it is kept.
fn kept_order<K: Keeper>(
    alloc: Global,
    desk: &mut Desk<K>,
    sender: &str,
    name: &str,
) -> Result<String, Fail> {
    // Names the type of due dates for the borrow checker, which finds it nowhere else in this function.
    let _no_date: Option<BusinessDate> = None;
    let order = desk.order_of(&code(sender)?, &reference(name)?)?;
    order_if_any(alloc, &Some(order))
}

/// All accounts, in their order. Each is answered as the account of its code is.
fn accounts_text<K: Keeper>(alloc: Global, desk: &Desk<K>) -> Result<String, Fail> {
    let mut text = String::new(alloc);
    let accounts = desk.accounts()?;
    for account in accounts.as_slice() {
        if desk.account(&account.participant.code)? != *account {
            return Err(Fail::from("an account is answered in two ways"));
        }
        let listed = listed_text(alloc, account)?;
        text.push_str(listed.as_str())?;
    }
    Ok(text)
}

/// The code, the balance, the credit limit, how many orders are queued, and what they pay.
fn listed_text(alloc: Global, account: &AccountReading) -> Result<String, Fail> {
    let (code, credit) = (account.participant.code, account.participant.credit.cents());
    let (cents, queued, value) = (
        account.balance.cents(),
        account.queued,
        account.queued_value,
    );
    Ok(format!(in alloc; "[{code} {cents} {credit} {queued} {value}]")?)
}

/// All queues, in their order, and `none` where nobody has one.
fn queues_text<K: Keeper>(alloc: Global, desk: &Desk<K>) -> Result<String, Fail> {
    let mut text = String::new(alloc);
    let queues = desk.queues()?;
    if queues.is_empty() {
        text.push_str("none")?;
    }
    for queue in queues.as_slice() {
        let shown = shown_queue(alloc, queue)?;
        text.push_str(shown.as_str())?;
    }
    Ok(text)
}

/// The code, the first order, the headroom and what it is short of; then how many orders are queued and how many would
/// settle, each with what they pay; and the receivers.
fn shown_queue(alloc: Global, queue: &QueueReading) -> Result<String, Fail> {
    let (code, first) = (queue.code, queue.first.reference);
    let (headroom, short) = (queue.headroom.cents(), queue.short);
    let (queued, value) = (queue.queued, queue.queued_value);
    let (settling, settled) = (queue.settling, queue.settling_value);
    let mut text = format!(in alloc;
        "[{code} {first} {headroom} {short}|{queued} {value}|{settling} {settled}"
    )?;
    for receiver in queue.receivers.as_slice() {
        let shown = shown_receiver(alloc, receiver)?;
        text.push_str(shown.as_str())?;
    }
    text.push_str("]")?;
    Ok(text)
}

/// The code, how many orders pay it, and how much.
fn shown_receiver(alloc: Global, receiver: &ReceiverReading) -> Result<String, Fail> {
    let (to, queued, value) = (receiver.to, receiver.queued, receiver.queued_value);
    Ok(format!(in alloc; "|{to} {queued} {value}")?)
}

/// The business day.
fn day_text<K: Keeper>(alloc: Global, desk: &Desk<K>) -> Result<String, Fail> {
    let day = desk.day()?;
    Ok(format!(in alloc; "{day:?}")?)
}

/// The date's first posting after this number.
fn next_posting_text<K: Keeper>(
    alloc: Global,
    desk: &mut Desk<K>,
    day: &str,
    after: &str,
) -> Result<String, Fail> {
    let found = desk.next_posting(day_of(day)?, after.parse::<u64>()?)?;
    posting_if_any(alloc, &found)
}

/// The date's first order after this number.
fn next_order_text<K: Keeper>(
    alloc: Global,
    desk: &mut Desk<K>,
    day: &str,
    after: &str,
) -> Result<String, Fail> {
    let found = desk.next_order(day_of(day)?, after.parse::<u64>()?)?;
    order_if_any(alloc, &found)
}

/// The date's first mark after this number.
fn next_mark_text<K: Keeper>(
    alloc: Global,
    desk: &mut Desk<K>,
    day: &str,
    after: &str,
) -> Result<String, Fail> {
    let found = desk.next_mark(day_of(day)?, after.parse::<u64>()?)?;
    mark_if_any(alloc, &found)
}

/// The code at this index.
fn code_text<K: Keeper>(alloc: Global, desk: &Desk<K>, index: &str) -> Result<String, Fail> {
    match desk.code_at(index.parse::<usize>()?) {
        Some(code) => Ok(format!(in alloc; "{code}")?),
        None => Ok(format!(in alloc; "none")?),
    }
}
