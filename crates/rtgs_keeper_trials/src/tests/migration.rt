//! Tables of each earlier version that are made those of the newest, at each call of their disks that fails, and what
//! is found of them after a crash.
ghost use Rattle.std.specs.Prelude.{◌≡◌, false};

use super::disks::OnDisks;
use super::runs::begin;
use super::store::{Booked, Ended, Failing, Job, OverTables, Task};
use super::trial::Trial;
use rtgs_book::Fault;
use rtgs_sql_loading::load_book;
use rtgs_tables::migrate;
use rtgs_tests_desks::{desk_over, seen_of};
use sqlite::{Alter, Connection};
use std::alloc::Global;
use std::test::Fail;

/// A book in tables of an earlier version.
#[derive(Clone, Copy)]
struct Older {
    book: Trial,
    /// Makes tables of the newest version those of this one.
    ages: &'static str,
}

/// Two days, with an order in each state that the first version has: rejected, settled, queued and withdrawn.
const FIRST: Older = Older {
    book: Trial {
        before: "\
open 2024-03-01 => Ok(Opened)
order GAMA G-1 ALFA 5 => Ok(Queued { number: 1, place: 1 })
cutoff 2024-03-01 => Ok(CutOffDone)
close 2024-03-01 => Ok(Closed { rejected: 1 })
post ALFA P-1 150 => Ok(Posted { number: 1 })
credit BETA 40 => Ok(CreditSet)
open 2024-03-04 => Ok(Opened)
order ALFA A-1 BETA 100 => Ok(Settled { number: 2, mark: 1 })
order ALFA A-2 GAMA 90 => Ok(Queued { number: 3, place: 1 })
order ALFA A-3 BETA 1 => Ok(Queued { number: 4, place: 2 })
order BETA B-1 GAMA 141 => Ok(Queued { number: 5, place: 1 })
withdraw ALFA A-3 => Ok(Withdrawn { number: 4 })",
        held: 0,
        rows: "",
        is_batch: false,
        standings: "",
        is_closed: true,
    },
    ages: "DROP TABLE resolution; DROP TABLE forward; UPDATE desk SET version = 1",
};

/// The same with orders that have due dates: one has entered its queue and settled, one was taken back, and one is
/// held.
const SECOND: Older = Older {
    book: Trial {
        before: "\
open 2024-03-01 => Ok(Opened)
order GAMA G-1 ALFA 5 => Ok(Queued { number: 1, place: 1 })
order ALFA A-1 BETA 7 due 2024-03-04 => Ok(Held { number: 2, due: BusinessDate { number: 20240304 } })
order ALFA A-2 BETA 9 due 2024-03-06 => Ok(Held { number: 3, due: BusinessDate { number: 20240306 } })
order ALFA A-3 BETA 8 due 2024-03-06 => Ok(Held { number: 4, due: BusinessDate { number: 20240306 } })
cutoff 2024-03-01 => Ok(CutOffDone)
close 2024-03-01 => Ok(Closed { rejected: 1 })
post ALFA P-1 150 => Ok(Posted { number: 1 })
credit BETA 40 => Ok(CreditSet)
open 2024-03-04 => Ok(Opened)
order ALFA A-4 BETA 100 => Ok(Queued { number: 5, place: 2 })
resolve => Ok(Resolved { mark: 1, count: 2, value: Cents(107) })
order ALFA A-5 GAMA 90 => Ok(Queued { number: 6, place: 1 })
order BETA B-1 GAMA 148 => Ok(Queued { number: 7, place: 1 })
withdraw ALFA A-2 => Ok(Withdrawn { number: 3 })",
        held: 0,
        rows: "",
        is_batch: false,
        standings: "",
        is_closed: true,
    },
    ages: "DROP TABLE resolution; UPDATE desk SET version = 2",
};

/// The days of these books.
const DAYS: [&str; 3] = ["2024-03-01", "2024-03-04", "2024-03-06"];

/// The tables are made those of an earlier version by hand, since no desk makes such tables.
#[derive(Clone, Copy)]
struct Ages {
    sql: &'static str,
}

impl Task for Ages {
    fn done<S: Alter + Drop>(
        &mut self,
        _alloc: Global,
        conn: Connection<S>,
    ) -> Result<(Connection<S>, Ended), Fail> {
        let mut conn = conn;
        conn.execute_batch(self.sql)?;
        Ok((conn, Ended::Closed))
    }
}

/// The tables are made those of the newest version, and the store is closed where that is answered.
#[derive(Clone, Copy)]
struct Migrates {
    /// What is answered, once that was tried.
    answer: Option<Result<bool, Fault>>,
}

impl Task for Migrates {
    fn done<S: Alter + Drop>(
        &mut self,
        alloc: Global,
        conn: Connection<S>,
    ) -> Result<(Connection<S>, Ended), Fail> {
        let mut conn = conn;
        let answer = migrate(alloc, &mut conn);
        self.answer = Some(answer);
        if answer.is_ok() {
            Ok((conn, Ended::Closed))
        } else {
            Ok((conn, Ended::Stopped))
        }
    }
}

// The book that is read of tables as those of this version, or why none is.
fn read_as<S: Alter>(
    alloc: Global,
    conn: &mut Connection<S>,
    version: u64,
) -> Result<String, Fail> {
    let book = load_book(alloc, conn, version);
    Ok(format!(in alloc; "{book:?}")?)
}

/// The tables are looked at: how many there are, and the book that is read of them as those of each version, or why
/// none is.
#[derive(Drop)]
struct Looks {
    shown: Option<String>,
}

impl Task for Looks {
    fn done<S: Alter + Drop>(
        &mut self,
        alloc: Global,
        conn: Connection<S>,
    ) -> Result<(Connection<S>, Ended), Fail> {
        let mut conn = conn;
        let tables = conn.schema().tables.len();
        let first = read_as(alloc, &mut conn, 1)?;
        let second = read_as(alloc, &mut conn, 2)?;
        let third = read_as(alloc, &mut conn, 3)?;
        self.shown = Some(format!(in alloc; "{tables} tables: {first}, {second}, {third}")?);
        Ok((conn, Ended::Stopped))
    }
}

/// A desk is opened, and shows its book.
#[derive(Drop)]
struct Tells {
    seen: Option<String>,
}

impl Job for Tells {
    fn done<K: Booked>(&mut self, alloc: Global, keeper: K) -> Result<(K, bool), Fail> {
        let mut desk = desk_over(alloc, keeper)?;
        let mut seen = String::new(alloc);
        for day in DAYS {
            seen.push_str(seen_of(alloc, &mut desk, day)?.as_str())?;
        }
        self.seen = Some(seen);
        Ok((desk.into_keeper(), true))
    }
}

// What the tables of a store show.
fn shown_in<S: OverTables>(alloc: Global, store: &mut S) -> Result<String, Fail> {
    let mut looks = Looks { shown: None };
    store.tables(alloc, &mut looks)?;
    Ok(looks.shown.ok_or("nothing is shown")?)
}

// What a desk in a store tells.
fn seen_in<S: OverTables>(alloc: Global, store: &mut S) -> Result<String, Fail> {
    let mut tells = Tells { seen: None };
    store.session(alloc, false, &mut tells)?;
    Ok(tells.seen.ok_or("nothing is reported")?)
}

// Makes the store new, with the book in tables of the earlier version.
fn begin_older<S: OverTables>(alloc: Global, store: &mut S, older: &Older) -> Result<(), Fail> {
    begin(alloc, store, &older.book)?;
    if matches!(
        store.tables(alloc, &mut Ages { sql: older.ages })?,
        Ended::Closed
    ) {
        Ok(())
    } else {
        Err(Fail::new("not closed"))
    }
}

/// What is known of the book.
#[derive(Drop)]
struct Known {
    /// What its tables show while they are of the earlier version, and what those show that a desk makes today.
    older: String,
    newest: String,
    /// What a desk says of it.
    seen: String,
}

impl Known {
    // In a store that does not fail.
    fn of<S: OverTables>(alloc: Global, store: &mut S, older: &Older) -> Result<Known, Fail> {
        begin(alloc, store, &older.book)?;
        let newest = shown_in(alloc, store)?;
        let seen = seen_in(alloc, store)?;
        begin_older(alloc, store, older)?;
        Ok(Known {
            older: shown_in(alloc, store)?,
            newest,
            seen,
        })
    }

    // Whether the tables of a store are of the newest version. It fails where they show neither what they show in the
    // one version nor what they show in the other.
    fn is_newest<S: OverTables>(&self, alloc: Global, store: &mut S) -> Result<bool, Fail> {
        let shown = shown_in(alloc, store)?;
        if shown.as_str() == self.newest.as_str() {
            return Ok(true);
        }
        if shown.as_str() == self.older.as_str() {
            return Ok(false);
        }
        Err(Fail::from(shown))
    }

    // Fails unless the tables of a store, once more migrated, show and tell the book.
    fn ends_alike<S: OverTables>(
        &self,
        alloc: Global,
        store: &mut S,
        is_newest: bool,
    ) -> Result<(), Fail> {
        let mut again = Migrates { answer: None };
        let ended = store.tables(alloc, &mut again)?;
        if !matches!(ended, Ended::Closed) || again.answer != Some(Ok(!is_newest)) {
            return Err(Fail::new("another answer when it comes again"));
        }
        let seen = seen_in(alloc, store)?;
        if self.is_newest(alloc, store)? && seen.as_str() == self.seen.as_str() {
            Ok(())
        } else {
            Err(Fail::new("another end"))
        }
    }
}

// Whether the answer goes with the version of the tables that are found after it. Where a disk failed in the call, they
// may be of either.
fn goes_with(answer: Option<Result<bool, Fault>>, is_newest: bool) -> bool {
    match answer {
        None => !is_newest,
        Some(Ok(wrote)) => wrote && is_newest,
        Some(Err(fault)) => fault == Fault::StoreFault,
    }
}

// Makes a book of an earlier version one of the newest, for as many calls that go well as it takes until no failure is
// met: how many that are, and in how many of the runs before the tables were of the newest version after a crash. In
// each they were whole, of that version or the earlier one.
fn migrations<S: OverTables>(
    alloc: Global,
    older: &Older,
    failing: Failing,
) -> Result<(usize, usize), Fail> {
    let mut begun = S::blank(alloc);
    let known = Known::of(alloc, &mut begun, older)?;
    begin_older(alloc, &mut begun, older)?;
    let mut migrated = 0usize;
    for calls in 0..1000 {
        let mut store = begun.copied(alloc)?.ok_or("no copy")?;
        store.fail(alloc, failing, calls)?;
        let mut tried = Migrates { answer: None };
        let ended = store.tables(alloc, &mut tried)?;
        store.crash();
        let is_newest = known.is_newest(alloc, &mut store)?;
        if !goes_with(tried.answer, is_newest) {
            return Err(Fail::new("another answer"));
        }
        known.ends_alike(alloc, &mut store, is_newest)?;
        if matches!(ended, Ended::Closed) {
            return Ok((calls, migrated));
        }
        if is_newest {
            migrated = migrated.saturating_add(1);
        }
    }
    Err(Fail::new("each run failed"))
}

// Fails unless a failure of the log is met in this many runs, of which this many leave the newest version, and one of
// the database file in this many.
fn is_migrated(
    alloc: Global,
    older: &Older,
    of_log: (usize, usize),
    of_file: (usize, usize),
) -> Result<(), Fail> {
    let log = migrations::<OnDisks>(alloc, older, Failing::Log)?;
    let db = migrations::<OnDisks>(alloc, older, Failing::Database)?;
    if log == of_log && db == of_file {
        Ok(())
    } else {
        Err(Fail::from(format!(in alloc; "{log:?} of the log, {db:?} of the file")?))
    }
}

#[test]
fn a_book_of_the_first_version_is_migrated_whole_or_not_at_all(
    rt: HostRuntime,
) -> Result<(), Fail> {
    is_migrated(rt.alloc(), &FIRST, (50, 16), (50, 6))
}

#[test]
fn a_book_of_the_second_version_is_migrated_whole_or_not_at_all(
    rt: HostRuntime,
) -> Result<(), Fail> {
    is_migrated(rt.alloc(), &SECOND, (48, 14), (51, 5))
}
