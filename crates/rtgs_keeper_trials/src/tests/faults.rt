//! Commands that meet a failure at each call of their store in turn: on the log, on the database file, at the keeper,
//! before the call is passed on or after. Just the books are found that may be.
use super::disks::OnDisks;
use super::memory::InMemory;
use super::runs::failures_of_two;
use super::store::Failing;
use super::trial::Trial;
use rtgs_tests_desks::Trouble;
use std::alloc::Global;
use std::test::Fail;

// Tries the commands with each failure of the keeper, before a call is passed on and after, and tells in how many runs
// they met it.
fn each_of_the_keeper(alloc: Global, trial: &Trial) -> Result<usize, Fail> {
    let (lost, kept) = (
        Failing::Keeper(Trouble::Lost),
        Failing::Keeper(Trouble::Kept),
    );
    let (lost, kept) = failures_of_two::<InMemory, InMemory>(alloc, trial, lost, kept)?;
    if lost == kept {
        Ok(lost)
    } else {
        Err(Fail::new("other calls"))
    }
}

/// Tries the commands with each failure. It fails unless the numbers of runs in which they met one of the log, one of
/// the database file, and one of the keeper are these.
pub fn meets(alloc: Global, trial: &Trial, expected: [usize; 3]) -> Result<(), Fail> {
    let keeper = each_of_the_keeper(alloc, trial)?;
    let (log, db) = failures_of_two::<InMemory, OnDisks>(
        alloc,
        trial,
        Failing::Log,
        Failing::Database,
    )?;
    if [log, db, keeper] == expected {
        Ok(())
    } else {
        Err(Fail::from(format!(in alloc;
            "{log} of the log, {db} of the file, {keeper} of the keeper"
        )?))
    }
}

/// Orders of which two can settle together: ALFA has 10, and each of the three waits.
const CASCADE: &str = "\
open 2024-03-04 => Ok(Opened)
post ALFA P-1 10 => Ok(Posted { number: 1 })
order ALFA A-1 BETA 60 => Ok(Queued { number: 1, place: 1 })
order ALFA A-2 GAMA 10 => Ok(Queued { number: 2, place: 2 })
order BETA B-1 ALFA 50 => Ok(Queued { number: 3, place: 1 })
order BETA B-2 GAMA 20 => Ok(Queued { number: 4, place: 2 })
order GAMA G-1 ALFA 5 => Ok(Queued { number: 5, place: 1 })";

const RESOLUTION: Trial = Trial {
    before: CASCADE,
    held: 0,
    rows: "resolve => Ok(Resolved { mark: 1, count: 2, value: Cents(110) }) => Ok(Nothing)",
    is_batch: false,
    standings: "\
[(10, 2), (0, 2), (0, 1)]
[(0, 1), (10, 1), (0, 1)]",
    is_closed: true,
};

#[test]
fn a_resolution_is_found_whole_or_not_at_all(rt: HostRuntime) -> Result<(), Fail> {
    meets(rt.alloc(), &RESOLUTION, [48, 51, 2])
}

const BATCH: Trial = Trial {
    before: "\
post ALFA P-1 150 => Ok(Posted { number: 1 })
open 2024-03-04 => Ok(Opened)",
    held: 0,
    rows: "\
order ALFA A-1 BETA 100 => Ok(Settled { number: 1, mark: 1 }) => Ok(Repeated(Order { number: 1, state: Settled(1) }))
order ALFA A-2 GAMA 50 => Ok(Settled { number: 2, mark: 2 }) => Ok(Repeated(Order { number: 2, state: Settled(2) }))
order ALFA A-3 BETA 25 => Ok(Queued { number: 3, place: 1 }) => Ok(Repeated(Order { number: 3, state: Queued }))",
    is_batch: true,
    standings: "\
[(150, 0), (0, 0), (0, 0)]
[(50, 0), (100, 0), (0, 0)]
[(0, 0), (100, 0), (50, 0)]
[(0, 1), (100, 0), (50, 0)]",
    is_closed: true,
};

#[test]
fn a_batch_is_found_up_to_a_row(rt: HostRuntime) -> Result<(), Fail> {
    meets(rt.alloc(), &BATCH, [61, 52, 7])
}

const CLOSE: Trial = Trial {
    before: "\
open 2024-03-04 => Ok(Opened)
order ALFA A-1 BETA 100 => Ok(Queued { number: 1, place: 1 })
order BETA B-1 GAMA 90 => Ok(Queued { number: 2, place: 1 })
cutoff 2024-03-04 => Ok(CutOffDone)",
    held: 0,
    rows: "close 2024-03-04 => Ok(Closed { rejected: 2 }) => Ok(Repeated(Nothing))",
    is_batch: false,
    standings: "\
[(0, 1), (0, 1), (0, 0)]
[(0, 0), (0, 0), (0, 0)]",
    is_closed: true,
};

#[test]
fn a_close_rejects_all_or_nothing(rt: HostRuntime) -> Result<(), Fail> {
    meets(rt.alloc(), &CLOSE, [48, 51, 2])
}

const NEW_ORDER: Trial = Trial {
    before: "\
open 2024-03-04 => Ok(Opened)
credit ALFA 100 => Ok(CreditSet)",
    held: 0,
    rows: "\
order ALFA A-1 BETA 100 => Ok(Settled { number: 1, mark: 1 }) => Ok(Repeated(Order { number: 1, state: Settled(1) }))",
    is_batch: false,
    standings: "\
[(0, 0), (0, 0), (0, 0)]
[(-100, 0), (100, 0), (0, 0)]",
    is_closed: true,
};

#[test]
fn a_new_order_is_found_or_not(rt: HostRuntime) -> Result<(), Fail> {
    meets(rt.alloc(), &NEW_ORDER, [50, 52, 3])
}

const ORDER_THAT_WAITS: Trial = Trial {
    before: "\
open 2024-03-04 => Ok(Opened)
credit ALFA 100 => Ok(CreditSet)",
    held: 0,
    rows: "\
order ALFA A-1 BETA 101 => Ok(Queued { number: 1, place: 1 }) => Ok(Repeated(Order { number: 1, state: Queued }))",
    is_batch: false,
    standings: "\
[(0, 0), (0, 0), (0, 0)]
[(0, 1), (0, 0), (0, 0)]",
    is_closed: true,
};

#[test]
fn an_order_that_waits_is_found_or_not(rt: HostRuntime) -> Result<(), Fail> {
    if each_of_the_keeper(rt.alloc(), &ORDER_THAT_WAITS)? == 3 {
        Ok(())
    } else {
        Err(Fail::new("other runs"))
    }
}

const REPEATED_ORDER: Trial = Trial {
    before: "\
open 2024-03-04 => Ok(Opened)
credit ALFA 100 => Ok(CreditSet)
order ALFA A-1 BETA 100 => Ok(Settled { number: 1, mark: 1 })",
    held: 0,
    rows: "\
order ALFA A-1 BETA 100 => Ok(Repeated(Order { number: 1, state: Settled(1) })) => \
Ok(Repeated(Order { number: 1, state: Settled(1) }))",
    is_batch: false,
    standings: "\
[(-100, 0), (100, 0), (0, 0)]
[(-100, 0), (100, 0), (0, 0)]",
    is_closed: true,
};

#[test]
fn an_order_that_comes_again_changes_nothing(rt: HostRuntime) -> Result<(), Fail> {
    meets(rt.alloc(), &REPEATED_ORDER, [29, 46, 2])
}

const OPENING: Trial = Trial {
    before: CASCADE,
    held: 0,
    rows: "",
    is_batch: false,
    standings: "[(10, 2), (0, 2), (0, 1)]",
    is_closed: true,
};

#[test]
fn an_opening_leaves_the_book(rt: HostRuntime) -> Result<(), Fail> {
    meets(rt.alloc(), &OPENING, [29, 46, 1])
}

const OPENING_AFTER_A_CRASH: Trial = Trial {
    before: CASCADE,
    held: 0,
    rows: "",
    is_batch: false,
    standings: "[(10, 2), (0, 2), (0, 1)]",
    is_closed: false,
};

#[test]
fn an_opening_after_a_crash_leaves_the_book(rt: HostRuntime) -> Result<(), Fail> {
    meets(rt.alloc(), &OPENING_AFTER_A_CRASH, [227, 22, 1])
}
