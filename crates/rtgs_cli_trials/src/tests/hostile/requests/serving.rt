//! A desk on an open Monday that is automatic, and what one input does to it.
use super::super::met::column;
use super::replies::row_of_reply;
use rtgs_desk::Desk;
use rtgs_http_server::{Served, serve_one};
use rtgs_keeper::Keeper;
use rtgs_money::Key;
use rtgs_tests_desks::{CountingKeeper, MemoryKeeper, desk_over, follows};
use std::alloc::Global;
use std::cell::Cell;
use std::test::Fail;

// Three banks, money and a credit limit for ALFA, a Monday, and ALFA's orders: one that settled, and two that wait.
const BEGUN: &str = "add ALFA 0000000000000000000000000000000a => Ok(Added)
add BETA 0000000000000000000000000000000b => Ok(Added)
add GAMA 0000000000000000000000000000000c => Ok(Added)
post ALFA P-1 100 => Ok(Posted { number: 1 })
credit ALFA 50 => Ok(CreditSet)
open 2024-03-04 automatic => Ok(Opened)
order ALFA A-1 BETA 100 => Ok(Settled { number: 1, mark: 1 })
order ALFA A-2 GAMA 500 => Ok(Queued { number: 2, place: 1 })
order ALFA A-3 BETA 7 => Ok(Queued { number: 3, place: 2 })";

const OPERATOR: &[u8] = b"0000000000000000000000000000000f";

// The row that tells what is replied to an input.
fn row_of_input<K: Keeper>(
    alloc: Global,
    desk: &mut Desk<K>,
    input: &[u8],
) -> Result<&'static str, Fail> {
    let operator = Key::read(OPERATOR)?.digest();
    let mut reader = input;
    let mut written = Vec::new(alloc);
    match serve_one(alloc, &mut reader, &mut written, desk, &operator) {
        Served::Answered(status) => row_of_reply(alloc, status.as_str(), written.as_slice()),
        _ => Err(Fail::from("not answered")),
    }
}

// A desk over a keeper of no book does all that it begins with, and then what an input asks for, if there is one. The
// row that is about the input, or nothing, and what is kept then.
fn served<K: Keeper + Drop>(
    alloc: Global,
    keeper: K,
    input: Option<&[u8]>,
) -> Result<(&'static str, K), Fail> {
    let mut desk = desk_over(alloc, keeper)?;
    follows(alloc, &mut desk, BEGUN)?;
    let row = match input {
        Some(input) => row_of_input(alloc, &mut desk, input)?,
        None => "",
    };
    Ok((row, desk.into_keeper()))
}

// In words what is kept, and how many commits made it.
fn in_words(alloc: Global, kept: MemoryKeeper, commits: usize) -> Result<String, Fail> {
    let mut kept = kept;
    let book = kept.load(alloc)?;
    Ok(format!(in alloc; "{commits} commits made {book:?}")?)
}

// The row that is about an input to a new desk, and in words the book that the desk has then.
fn outcome(alloc: Global, input: Option<&[u8]>) -> Result<(&'static str, String), Fail> {
    let commits = Cell::new(0);
    let keeper = CountingKeeper::new(MemoryKeeper::new(alloc), &commits);
    match served(alloc, keeper, input) {
        Ok((row, keeper)) => Ok((row, in_words(alloc, keeper.kept, commits.get())?)),
        Err(fail) => Err(fail),
    }
}

/// In words the book that a desk begins with, and how many commits made it.
pub fn before(alloc: Global) -> Result<String, Fail> {
    match outcome(alloc, None) {
        Ok((_row, before)) => Ok(before),
        Err(fail) => Err(fail),
    }
}

// The word of a row that is about a command, or about another input after which the book is the one before.
fn judged(row: &'static str, after: &str, before: &str) -> Result<&'static str, Fail> {
    let word = column(row, 0);
    if word == "done" || after == before {
        return Ok(word);
    }
    Err(Fail::new(format_args!("{row}, and {after}")))
}

/// The word for what a desk says of an input. A desk that said nothing of a command made no commit, and has the book
/// that it began with.
pub fn serve(alloc: Global, before: &str, input: &[u8]) -> Result<&'static str, Fail> {
    match outcome(alloc, Some(input)) {
        Ok((row, after)) => judged(row, after.as_str(), before),
        Err(fail) => Err(fail),
    }
}
