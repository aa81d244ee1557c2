//! The core of a sound book.
ghost use Rattle.std.specs.Prelude.{◌≡◌, ◌+◌, ◌≤◌, ℤ, map, filter, Some, FitsSigned, IfOk};
ghost use Rattle.std.specs.BTreeMap.{get};
ghost use Rattle.std.specs.Cmp.Lexicographic.{slice_cmp};
ghost use Rattle.std.specs.Int.{w64};
ghost use Rattle.std.specs.Ordering.{nat_cmp};
ghost use Rattle.rtgs_book.specs.declared.limits.TheConstants.{LARGEST_NUMBER};
ghost use Rattle.rtgs_book.specs.Books.{is_waiting};
ghost use Rattle.rtgs_book.specs.Ranges.{Fits};
ghost use Rattle.rtgs_book.specs.Soundness.{IsSound};
ghost use Rattle.rtgs_book.specs.cores.Cores.{account_of, core_of};

use crate::rules::queues::is_waiting;
use crate::soundness::balances;
use rtgs_book::laws::balances_are_small;
use rtgs_book::{Account, Book, Core, Order, Participant, Rows};
use rtgs_money::{Cents, Code};
use std::alloc::{AllocError, Global};
use std::collections::BTreeMap;

/// The core of a sound book, with its balances summed from scratch. The only error is lack of memory.
pub fn core_of(alloc: Global, book: &Book) -> Result<Core, AllocError>
    requires sound { IsSound book.now }
    requires fits { Fits book.now }
    ensures { IfOk result (λ core. core ≡ core_of book.now) }
{
    Ok(Core {
        accounts: Rows::from_vec(accounts_of(alloc, book)?),
        waiting: Rows::from_vec(waiting_of(alloc, book.orders.as_slice())?),
        day: book.day,
        next_posting: number_after(book.postings.len()),
        next_order: number_after(book.orders.len()),
        next_mark: number_after(book.marks.len()),
    })
}

// The number of the record after this many.
fn number_after(records: usize) -> u64
    requires { records ≤ LARGEST_NUMBER }
    ensures { result ≡ records + 1 }
{
    records as u64 + 1
}

// Those among these orders that are queued or held.
fn waiting_of(alloc: Global, orders: &[Order]) -> Result<Vec<Order>, AllocError>
    ensures { IfOk result (λ waiting. waiting.items ≡ filter is_waiting orders.now) }
{
    orders.iter().copied().filter(is_waiting).collect(alloc)
}

// The accounts of a sound book, each with its balance.
fn accounts_of(alloc: Global, book: &Book) -> Result<Vec<Account>, AllocError>
    requires sound { IsSound book.now }
    requires fits { Fits book.now }
    ensures { IfOk result (λ accounts. accounts.items ≡ map (account_of book.now) book.now.participants) }
{
    balances_are_small();
    let balances = balances(book)?;
    let mut accounts = Vec::with_capacity(alloc, book.participants.len())?;
    for participant in book.participants.as_slice() {
        accounts.push_reserved(account_of(participant, &balances));
    }
    Ok(accounts)
}

// The participant with its balance, of those that the map has.
fn account_of(participant: &Participant, balances: &BTreeMap<Code, i128>) -> Account
    requires { (balance : ℤ) × (get (slice_cmp nat_cmp) balances.now participant.now.code ≡ Some balance)
        × FitsSigned w64 balance }
    ensures participant { result.participant ≡ participant.now }
    ensures balance { get (slice_cmp nat_cmp) balances.now participant.now.code ≡ Some result.balance }
{
    match balances.get(&participant.code) {
        Some(balance) => Account {
            participant: *participant,
            balance: Cents::new(i64::try_from(*balance).unwrap()),
        },
        None => unreachable!(),
    }
}
