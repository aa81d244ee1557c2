//! The greatest choice of books that no desk has, which are worked out by hand, and of generated books beside the
//! published procedure written plainly.
use super::books::{ResolverInput, SMALL_BOOKS, chain, mixed, ring, small};
use super::lengths_of;
use super::plain::greatest_plainly;
use rtgs_gridlock::{OutOfMemory, Payment, Position};
use rtgs_tests_desks::ensure;
use std::alloc::Global;
use std::process::Abort;
use std::test::Fail;

/// A book of N participants, with the balance, floor and queue of each.
fn book(alloc: Global, rows: &[(i64, i64, &[(usize, u64)])]) -> Result<ResolverInput, Fail> {
    let mut book = ResolverInput::new(alloc);
    for (balance, floor, queue) in rows {
        let mut payments = Vec::new(alloc);
        for (receiver, amount) in *queue {
            payments.push(Payment {
                receiver: *receiver,
                amount: *amount,
            })?;
        }
        let position = Position {
            balance: *balance,
            floor: *floor,
        };
        book.add(alloc, position, payments)?;
    }
    Ok(book)
}

/// Compares the resolver with the plain procedure, and counts the payments that settle.
fn compared(rt: &impl Abort, alloc: Global, book: &ResolverInput) -> Result<usize, Fail> {
    let found = lengths_of(alloc, &book.positions, &book.queues)?;
    let plain = greatest_plainly(alloc, &book.positions, book.payments.as_slice())?;
    ensure(found == plain)?;
    let settled = found
        .iter()
        .try_fold(0usize, |sum, length| sum.checked_add(*length));
    Ok(settled.ok_or("too many payments")?)
}

#[test]
fn want_of_memory_is_printed(rt: HostRuntime) -> Result<(), Fail> {
    let printed = format!(in rt.alloc(); "{OutOfMemory}")?;
    ensure(printed.as_str() == "out of memory")
}

#[test]
fn no_participants(rt: HostRuntime) -> Result<(), Fail> {
    let book = ResolverInput::new(rt.alloc());
    ensure(book.positions.is_empty())?;
    ensure(book.queues.is_empty())?;
    ensure(lengths_of(rt.alloc(), &book.positions, &book.queues)?.is_empty())
}

/// A payment to oneself moves nothing.
#[test]
fn payment_to_oneself_settles(rt: HostRuntime) -> Result<(), Fail> {
    let rows = [(0, 0, [(0, 100), (1, 1)].as_slice()), (0, 0, [].as_slice())];
    let book = book(rt.alloc(), &rows)?;
    let found = lengths_of(rt.alloc(), &book.positions, &book.queues)?;
    ensure(found.as_slice() == [1, 0].as_slice())
}

/// The largest amounts and balances that the types hold do not overflow.
#[test]
fn largest_amounts(rt: HostRuntime) -> Result<(), Fail> {
    let rows = [
        (
            i64::MAX,
            i64::MIN,
            [(1, u64::MAX), (1, u64::MAX)].as_slice(),
        ),
        (i64::MIN, i64::MIN, [(0, u64::MAX)].as_slice()),
    ];
    let book = book(rt.alloc(), &rows)?;
    let found = lengths_of(rt.alloc(), &book.positions, &book.queues)?;
    ensure(found.as_slice() == [2, 1].as_slice())
}

/// Every book of three participants with a cent or none each, and at most two payments in each
/// queue, of one or two cents to either of the others. How many payments settle in all of them
/// was counted by going through every choice of every book.
#[test]
fn all_small_books(rt: HostRuntime) -> Result<(), Fail> {
    let mut settled = 0usize;
    for number in 0..SMALL_BOOKS {
        let here = compared(&rt, rt.alloc(), &small(rt.alloc(), number)?)?;
        settled = settled.checked_add(here).ok_or("too many payments")?;
    }
    ensure(settled == 246294)
}

#[test]
fn rings(rt: HostRuntime) -> Result<(), Fail> {
    for (participants, each) in [(1, 1), (2, 3), (7, 20), (100, 500)] {
        let settled = compared(&rt, rt.alloc(), &ring(rt.alloc(), participants, each)?)?;
        ensure(settled == participants * each)?;
    }
    Ok(())
}

/// In a chain without money at its top each removal leads to the next, until nothing is left.
#[test]
fn chains_without_money(rt: HostRuntime) -> Result<(), Fail> {
    for (participants, each) in [(2, 3), (10, 10), (100, 500)] {
        let settled = compared(&rt, rt.alloc(), &chain(rt.alloc(), participants, each, 0)?)?;
        ensure(settled == 0)?;
    }
    Ok(())
}

#[test]
fn chains_with_money_at_the_top(rt: HostRuntime) -> Result<(), Fail> {
    for (each, money, expected) in [(500, 500, 49500), (500, 498, 49302), (30, 7, 693)] {
        let settled = compared(&rt, rt.alloc(), &chain(rt.alloc(), 100, each, money)?)?;
        ensure(settled == expected)?;
    }
    Ok(())
}

/// How many payments settle was found by another program, which takes them back in another order.
#[test]
fn mixed_books(rt: HostRuntime) -> Result<(), Fail> {
    let mut settled = 0usize;
    for stride in 1..200 {
        let here = compared(&rt, rt.alloc(), &mixed(rt.alloc(), 12, 15, stride, 20)?)?;
        settled = settled.checked_add(here).ok_or("too many payments")?;
    }
    ensure(settled == 13057)?;
    let large = mixed(rt.alloc(), 100, 500, 37, 300)?;
    ensure(compared(&rt, rt.alloc(), &large)? == 47714)
}
