//! Trials in a store that fails at each of its calls in turn, and what is found then.
use super::store::{Ended, Failing, Store};
use super::trial::{Part, Progress, Trial, Work};
use rtgs_book::Fault;
use std::alloc::Global;
use std::test::Fail;

/// Makes the store new, with a desk of three banks, after the commands before.
pub fn begin<S: Store>(alloc: Global, store: &mut S, trial: &Trial) -> Result<(), Fail> {
    *store = S::blank(alloc);
    let part = Part::Begin { held: trial.held };
    let mut work = Work::new(trial.before, false, part, trial.is_closed);
    match store.session(alloc, true, &mut work)? {
        Ended::Closed if trial.is_closed => Ok(()),
        Ended::Stopped if !trial.is_closed => {
            store.crash();
            Ok(())
        }
        _ => Err(Fail::new("not begun")),
    }
}

/// How far this many of the commands come in a store, which is closed after all of them, or is not.
pub fn progress_in<S: Store>(
    alloc: Global,
    store: &mut S,
    trial: &Trial,
    most: usize,
    closes: bool,
) -> Result<Progress, Fail> {
    let mut work = Work::new(trial.rows, trial.is_batch, Part::Give(most), closes);
    let ended = store.session(alloc, false, &mut work)?;
    match work.fault {
        Some(Fault::StoreFault) => Ok(Progress::Unopened),
        Some(fault) => Err(Fail::from(fault)),
        None if matches!(ended, Ended::Unclosed) => Ok(Progress::Unclosed),
        None => Ok(work.progress),
    }
}

/// What is found in a store of which no call fails.
pub fn found_in<S: Store>(alloc: Global, store: &mut S) -> Result<String, Fail> {
    found_after(alloc, store, "", false, 0, 0)
}

/// The same once this many commands were given, of which this many are known and come again. They may come in one
/// batch.
pub fn found_after<S: Store>(
    alloc: Global,
    store: &mut S,
    script: &'static str,
    is_batch: bool,
    known: usize,
    most: usize,
) -> Result<String, Fail> {
    let mut work = Work::new(script, is_batch, Part::Look { known, most }, false);
    store.session(alloc, false, &mut work)?;
    Ok(work.found.ok_or("nothing was found")?)
}

// What a desk in this store has before the first of the commands, and after each, where they come one by one. The banks
// then stand as is expected.
fn books<S: Store>(alloc: Global, store: &mut S, trial: &Trial) -> Result<Vec<String>, Fail> {
    let mut books = Vec::new(alloc);
    for count in 0..=trial.rows.lines().count() {
        begin(alloc, store, trial)?;
        let found = found_after(alloc, store, trial.rows, false, 0, count)?;
        if found.as_str().lines().next() != trial.standings.lines().nth(count) {
            return Err(Fail::from(found));
        }
        books.push(found)?;
    }
    Ok(books)
}

// Whether this is what was found after this many commands.
fn is_at(books: &[String], place: usize, found: &str) -> bool {
    match books.get(place) {
        Some(book) => book.as_str() == found,
        None => false,
    }
}

// Behind how many of this many commands this is found, where it may be: with all that was answered, and with at most
// the one command more that was open.
fn place_of(books: &[String], all: usize, progress: Progress, found: &str) -> Option<usize> {
    let (least, most) = match progress {
        Progress::Unopened => (0, 0),
        Progress::Failed(count) => (count, count.saturating_add(1)),
        Progress::Unclosed | Progress::Whole => (all, all),
    };
    if is_at(books, least, found) {
        return Some(least);
    }
    if is_at(books, most, found) {
        Some(most)
    } else {
        None
    }
}

// Makes the store as it is before the commands: by a copy, where there is one to copy, since that is quicker.
fn begin_again<S: Store>(
    alloc: Global,
    store: &mut S,
    trial: &Trial,
    begun: &Option<S>,
) -> Result<(), Fail> {
    match begun {
        None => begin(alloc, store, trial),
        Some(begun) => {
            *store = begun.copied(alloc)?.ok_or("no second copy")?;
            Ok(())
        }
    }
}

// How many calls go well where first no run meets this failure. In each run before one is met, and then a book is
// found that may be, and the commands, given once more, end from it as if they had come once.
fn failures<S: Store>(
    alloc: Global,
    store: &mut S,
    trial: &Trial,
    books: &[String],
    failing: Failing,
) -> Result<usize, Fail> {
    let all = trial.rows.lines().count();
    begin(alloc, store, trial)?;
    let begun = store.copied(alloc)?;
    for calls in 0..1000 {
        begin_again(alloc, store, trial, &begun)?;
        store.fail(alloc, failing, calls)?;
        let progress = progress_in(alloc, store, trial, all, true)?;
        store.crash();
        let found = found_in(alloc, store)?;
        let Some(place) = place_of(books, all, progress, found.as_str()) else {
            return Err(Fail::new("another book"));
        };
        let found = found_after(alloc, store, trial.rows, trial.is_batch, place, all)?;
        if !is_at(books, all, found.as_str()) {
            return Err(Fail::new("another end"));
        }
        if matches!(progress, Progress::Whole) {
            return Ok(calls);
        }
    }
    Err(Fail::new("each run failed"))
}

// Fails unless just the answered commands are found after a stop behind each of them, where nothing is closed.
fn stops_leave_what_was_answered<S: Store>(
    alloc: Global,
    store: &mut S,
    trial: &Trial,
    books: &[String],
) -> Result<(), Fail> {
    for count in 0..=trial.rows.lines().count() {
        begin(alloc, store, trial)?;
        let progress = progress_in(alloc, store, trial, count, false)?;
        store.crash();
        let found = found_in(alloc, store)?;
        if !matches!(progress, Progress::Whole) || !is_at(books, count, found.as_str()) {
            return Err(Fail::new("another book after a stop"));
        }
    }
    Ok(())
}

/// Gives the commands to a desk in a store of each kind, with a stop behind each of them in the second. Just those that
/// were answered are found then, and the banks stand as is expected.
pub fn answers_of_two<M: Store, S: Store>(alloc: Global, trial: &Trial) -> Result<(), Fail> {
    let books = books(alloc, &mut M::blank(alloc), trial)?;
    let mut store = S::blank(alloc);
    stops_leave_what_was_answered(alloc, &mut store, trial, books.as_slice())
}

/// Tries the commands in a store of the second kind, with a stop behind each of them and with each of two failures, and
/// tells how many calls go well where first no run meets them. The books that may be found are those of the first kind.
pub fn failures_of_two<M: Store, S: Store>(
    alloc: Global,
    trial: &Trial,
    one: Failing,
    other: Failing,
) -> Result<(usize, usize), Fail> {
    let books = books(alloc, &mut M::blank(alloc), trial)?;
    let mut store = S::blank(alloc);
    stops_leave_what_was_answered(alloc, &mut store, trial, books.as_slice())?;
    let one = failures(alloc, &mut store, trial, books.as_slice(), one)?;
    let other = failures(alloc, &mut store, trial, books.as_slice(), other)?;
    Ok((one, other))
}
