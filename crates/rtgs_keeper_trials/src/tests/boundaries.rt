//! The shortest and longest texts, the least and greatest numbers, the first and last days, and as many participants
//! and queued orders as there may be, over both keepers.
use super::disks::OnDisks;
use super::memory::InMemory;
use super::store::{Booked, Ended, Job, Store};
use super::two_keepers::{end_in_one_book, make};
use rtgs_book::{Answer, Command, NewOrder, Refusal};
use rtgs_money::BusinessDate;
use rtgs_tests_desks::{Reply, addition, command, desk_over, follows};
use std::alloc::Global;
use std::fmt::Write;
use std::mem;
use std::test::Fail;

// Commands, and the replies to them once a desk was given them.
#[derive(Drop)]
struct GivenList {
    commands: Vec<Command>,
    replies: Vec<Reply>,
}

impl Job for GivenList {
    fn done<K: Booked>(&mut self, alloc: Global, keeper: K) -> Result<(K, bool), Fail> {
        let mut desk = desk_over(alloc, keeper)?;
        self.replies = desk.run(self.commands.as_slice())?;
        Ok((desk.into_keeper(), true))
    }
}

// Gives the commands to a new desk in this store. All but the last are accepted, and the last is refused so.
fn refuse_the_last_in<S: Store>(
    alloc: Global,
    store: &mut S,
    listed: &mut GivenList,
    refusal: &Refusal,
) -> Result<(), Fail> {
    make(alloc, store)?;
    let ended = store.session(alloc, false, listed)?;
    let mut left = listed.replies.len();
    for reply in listed.replies.as_slice() {
        left = left.saturating_sub(1);
        let is_right = match reply {
            Ok(answer) => left > 0 && !matches!(answer.own, Answer::Repeated(_)),
            Err(other) => left == 0 && other == refusal,
        };
        if !is_right {
            return Err(Fail::new("another reply"));
        }
    }
    if matches!(ended, Ended::Closed) && !listed.replies.is_empty() {
        Ok(())
    } else {
        Err(Fail::new("no reply, or not closed"))
    }
}

// These commands, and behind them those of the script.
fn all_of(alloc: Global, first: &[Command], script: &str) -> Result<Vec<Command>, Fail> {
    // Names the types of orders and due dates for the borrow checker, which finds them nowhere else in this function.
    let (_no_order, _no_date): (Option<NewOrder>, Option<BusinessDate>) = (None, None);
    let mut all = Vec::new(alloc);
    all.extend_from_slice(first)?;
    for line in script.lines() {
        all.push(command(line)?)?;
    }
    Ok(all)
}

// Fails unless new desks in both stores answer these commands and those of the script alike, accept all but the last,
// and end with one book.
fn refuse_the_last<M: Store, S: Store>(
    alloc: Global,
    first: &[Command],
    script: &str,
    refusal: Refusal,
) -> Result<(), Fail> {
    let commands = all_of(alloc, first, script)?;
    let (mut memory, mut store) = (M::blank(alloc), S::blank(alloc));
    let mut listed = GivenList {
        commands,
        replies: Vec::new(alloc),
    };
    refuse_the_last_in(alloc, &mut memory, &mut listed, &refusal)?;
    let replies = mem::replace(&mut listed.replies, Vec::new(alloc));
    refuse_the_last_in(alloc, &mut store, &mut listed, &refusal)?;
    if replies.as_slice() != listed.replies.as_slice() {
        return Err(Fail::new("two answers"));
    }
    end_in_one_book(alloc, &mut memory, &mut store)
}

const LOWEST_KEY: &str = "00000000000000000000000000000000";

const HIGHEST_KEY: &str = "ffffffffffffffffffffffffffffffff";

const LONGEST_NAME: &str = "~ 23456789 123456789 123456789 123456789";

const NUMBERS_AT_THEIR_BOUNDS: &str = "\
credit ABC 100000000000000
credit Z9999999 0
post ABC 0 1000000000000000
debit ABC Z-0123456789ABC9 1000000000000000
post ABC - 1
debit ABC A 1
open 2024-03-04
order ABC 9 Z9999999 1000000000000
order ABC Z-0123456789ABC9 Z9999999 1
post Z9999999 B 1000000000000000
post ABC C 1";

#[test]
fn texts_and_numbers_reach_their_bounds(rt: HostRuntime) -> Result<(), Fail> {
    let shortest = addition("ABC", "A", LOWEST_KEY)?;
    let longest = addition("Z9999999", LONGEST_NAME, HIGHEST_KEY)?;
    refuse_the_last::<InMemory, OnDisks>(
        rt.alloc(),
        &[shortest, longest],
        NUMBERS_AT_THEIR_BOUNDS,
        Refusal::TotalTooLarge,
    )
}

const DAYS_AT_THEIR_BOUNDS: &str = "\
open 2000-01-03
cutoff 2000-01-03
close 2000-01-03
open 2000-12-29
cutoff 2000-12-29
close 2000-12-29
open 2999-01-01
cutoff 2999-01-01
close 2999-01-01
open 2999-12-31
cutoff 2999-12-31
close 2999-12-31
open 2999-12-31";

#[test]
fn days_reach_their_bounds(rt: HostRuntime) -> Result<(), Fail> {
    refuse_the_last::<InMemory, OnDisks>(rt.alloc(), &[], DAYS_AT_THEIR_BOUNDS, Refusal::WrongDate)
}

#[test]
fn there_are_a_hundred_participants(rt: HostRuntime) -> Result<(), Fail> {
    let mut script = String::new(rt.alloc());
    for number in 0..=100u64 {
        write!(script, "add BANK{number} {number:032}\n")?;
    }
    refuse_the_last::<InMemory, OnDisks>(
        rt.alloc(),
        &[],
        script.as_str(),
        Refusal::TooManyParticipants,
    )
}

const TWO_BANKS: &str = "\
add BANK1 00000000000000000000000000000001
add BANK2 00000000000000000000000000000002
open 2024-03-04
";

#[test]
fn five_hundred_orders_of_one_sender_wait(rt: HostRuntime) -> Result<(), Fail> {
    let mut script = String::from_str(rt.alloc(), TWO_BANKS)?;
    for number in 1..=501u64 {
        // nothing covers it
        write!(script, "order BANK1 A-{number} BANK2 5\n")?;
    }
    refuse_the_last::<InMemory, OnDisks>(rt.alloc(), &[], script.as_str(), Refusal::QueueFull)
}

// A script that a desk follows.
#[derive(Drop)]
struct Follows {
    script: String,
}

impl Job for Follows {
    fn done<K: Booked>(&mut self, alloc: Global, keeper: K) -> Result<(K, bool), Fail> {
        let mut desk = desk_over(alloc, keeper)?;
        follows(alloc, &mut desk, self.script.as_str())?;
        Ok((desk.into_keeper(), true))
    }
}

// Fails unless new desks in both stores answer as the script tells, and end with one book.
fn follow<M: Store, S: Store>(alloc: Global, script: String) -> Result<(), Fail> {
    let mut job = Follows { script };
    let (mut memory, mut store) = (M::blank(alloc), S::blank(alloc));
    make(alloc, &mut memory)?;
    make(alloc, &mut store)?;
    let in_memory = memory.session(alloc, false, &mut job)?;
    let in_store = store.session(alloc, false, &mut job)?;
    if !matches!((in_memory, in_store), (Ended::Closed, Ended::Closed)) {
        return Err(Fail::new("not closed"));
    }
    end_in_one_book(alloc, &mut memory, &mut store)
}

const TWO_BANKS_OPEN: &str = "\
add BANK1 00000000000000000000000000000001 => Ok(Added)
add BANK2 00000000000000000000000000000002 => Ok(Added)
open 2024-03-04 => Ok(Opened)
";

// Adds orders of the first bank that wait: this many in its queue, since nothing covers them, and behind them this many
// that are held.
fn add_waiting(script: &mut String, queued: u64, held: u64) -> Result<(), Fail> {
    for number in 1..=queued {
        write!(
            script,
            "order BANK1 A-{number} BANK2 5 => Ok(Queued {{ number: {number}, place: {number} }})\n"
        )?;
    }
    for number in queued.saturating_add(1)..=queued.saturating_add(held) {
        write!(
            script,
            "order BANK1 A-{number} BANK2 5 due 2024-03-05 => \
            Ok(Held {{ number: {number}, due: BusinessDate {{ number: 20240305 }} }})\n"
        )?;
    }
    Ok(())
}

// The bank that has as many as may wait is refused one more, whether it would be queued or held. Where one of them is
// taken back, one more is taken.
const ONE_MORE: &str = "\
order BANK1 B-1 BANK2 5 => Err(QueueFull)
order BANK1 B-1 BANK2 5 due 2024-03-06 => Err(QueueFull)
order BANK2 B-1 BANK1 5 due 2024-03-06 => Ok(Held { number: 501, due: BusinessDate { number: 20240306 } })
withdraw BANK1 A-500 => Ok(Withdrawn { number: 500 })
order BANK1 B-1 BANK2 5 due 2024-03-06 => Ok(Held { number: 502, due: BusinessDate { number: 20240306 } })
order BANK1 B-2 BANK2 5 => Err(QueueFull)";

#[test]
fn five_hundred_orders_are_queued_or_held(rt: HostRuntime) -> Result<(), Fail> {
    for (queued, held) in [(499, 1), (1, 499)] {
        let mut script = String::from_str(rt.alloc(), TWO_BANKS_OPEN)?;
        add_waiting(&mut script, queued, held)?;
        script.push_str(ONE_MORE)?;
        follow::<InMemory, OnDisks>(rt.alloc(), script)?;
    }
    Ok(())
}

// What is covered is settled at once beside as many held orders as there may be. They fill the queue on the next day,
// and are settled together.
const ALL_ENTER: &str = "\
order BANK1 B-1 BANK2 5 => Err(QueueFull)
order BANK1 B-1 BANK2 5 due 2024-03-06 => Err(QueueFull)
post BANK1 P-1 5 => Ok(Posted { number: 1 })
order BANK1 B-1 BANK2 5 due 2024-03-06 => Err(QueueFull)
order BANK1 B-1 BANK2 5 => Ok(Settled { number: 501, mark: 1 })
cutoff 2024-03-04 => Ok(CutOffDone)
close 2024-03-04 => Ok(Closed { rejected: 0 })
open 2024-03-05 => Ok(Opened)
post BANK1 P-2 2495 => Ok(Posted { number: 2 })
order BANK1 B-2 BANK2 5 => Err(QueueFull)
order BANK1 B-2 BANK2 5 due 2024-03-06 => Err(QueueFull)
post BANK1 P-3 5 => Ok(Posted { number: 3 })
resolve => Ok(Resolved { mark: 2, count: 500, value: Cents(2500) })
order BANK1 B-2 BANK2 5 => Ok(Queued { number: 502, place: 1 })";

#[test]
fn five_hundred_held_orders_enter_one_queue(rt: HostRuntime) -> Result<(), Fail> {
    let mut script = String::from_str(rt.alloc(), TWO_BANKS_OPEN)?;
    add_waiting(&mut script, 0, 500)?;
    script.push_str(ALL_ENTER)?;
    follow::<InMemory, OnDisks>(rt.alloc(), script)
}

const TWO_BANKS_AUTOMATIC: &str = "\
add BANK1 00000000000000000000000000000001 => Ok(Added)
add BANK2 00000000000000000000000000000002 => Ok(Added)
open 2024-03-04 automatic => Ok(Opened)
";

// One posting frees a whole queue, and the next order settles at once.
const ALL_SETTLE: &str = "\
order BANK1 B-1 BANK2 5 => Err(QueueFull)
post BANK1 P-1 2500 => Ok(Posted { number: 1 }) auto 1 500 2500
post BANK1 P-2 5 => Ok(Posted { number: 2 })
order BANK1 B-1 BANK2 5 => Ok(Settled { number: 501, mark: 2 })
order BANK1 A-500 BANK2 5 => Ok(Repeated(Order { number: 500, state: Settled(1) }))";

#[test]
fn five_hundred_orders_settle_behind_one_posting(rt: HostRuntime) -> Result<(), Fail> {
    let mut script = String::from_str(rt.alloc(), TWO_BANKS_AUTOMATIC)?;
    add_waiting(&mut script, 500, 0)?;
    script.push_str(ALL_SETTLE)?;
    follow::<InMemory, OnDisks>(rt.alloc(), script)
}

// As many held orders as there may be enter their queue as an automatic day is opened, and all but one settle then.
const ALL_ENTER_AND_SETTLE: &str = "\
cutoff 2024-03-04 => Ok(CutOffDone)
close 2024-03-04 => Ok(Closed { rejected: 0 })
post BANK1 P-1 2499 => Ok(Posted { number: 1 })
open 2024-03-05 automatic => Ok(Opened) auto 1 499 2495
order BANK1 B-1 BANK2 4 => Ok(Queued { number: 501, place: 2 })
withdraw BANK1 A-500 => Ok(Withdrawn { number: 500 }) auto 2 1 4
resolve => Ok(Nothing)";

#[test]
fn five_hundred_held_orders_settle_at_an_opening(rt: HostRuntime) -> Result<(), Fail> {
    let mut script = String::from_str(rt.alloc(), TWO_BANKS_OPEN)?;
    add_waiting(&mut script, 0, 500)?;
    script.push_str(ALL_ENTER_AND_SETTLE)?;
    follow::<InMemory, OnDisks>(rt.alloc(), script)
}
