//! The same failures on an automatic day, at each command that may free orders, and at openings. What is found is the
//! book before the command or the one after all that follows it, and never one in between.
use super::faults::meets;
use super::trial::Trial;
use std::test::Fail;

// ALFA has 10, and two orders of it wait.
const TWO_WAIT: &str = "\
open 2024-03-04 automatic => Ok(Opened)
post ALFA P-1 10 => Ok(Posted { number: 1 })
order ALFA A-1 BETA 60 => Ok(Queued { number: 1, place: 1 })
order ALFA A-2 GAMA 10 => Ok(Queued { number: 2, place: 2 })";

// Of three orders two settle.
const CASCADE: Trial = Trial {
    before: TWO_WAIT,
    held: 0,
    rows: "order BETA B-1 ALFA 50 => Ok(Queued { number: 3, place: 1 }) auto 1 2 110 => \
    Ok(Repeated(Order { number: 3, state: Settled(1) }))",
    is_batch: false,
    standings: "\
[(10, 2), (0, 0), (0, 0)]
[(0, 1), (10, 0), (0, 0)]",
    is_closed: true,
};

#[test]
fn an_order_is_found_with_what_it_freed_or_not_at_all(rt: HostRuntime) -> Result<(), Fail> {
    meets(rt.alloc(), &CASCADE, [50, 52, 3])
}

const RING: Trial = Trial {
    before: "\
open 2024-03-04 automatic => Ok(Opened)
order ALFA A-1 BETA 100 => Ok(Queued { number: 1, place: 1 })
order BETA B-1 GAMA 100 => Ok(Queued { number: 2, place: 1 })",
    held: 0,
    rows: "order GAMA G-1 ALFA 100 => Ok(Queued { number: 3, place: 1 }) auto 1 3 300 => \
    Ok(Repeated(Order { number: 3, state: Settled(1) }))",
    is_batch: false,
    standings: "\
[(0, 1), (0, 1), (0, 0)]
[(0, 0), (0, 0), (0, 0)]",
    is_closed: true,
};

#[test]
fn a_ring_is_found_closed_and_settled_or_open(rt: HostRuntime) -> Result<(), Fail> {
    meets(rt.alloc(), &RING, [48, 51, 3])
}

const TWO_MARKS: Trial = Trial {
    before: "\
open 2024-03-04 automatic => Ok(Opened)
post BETA P-1 30 => Ok(Posted { number: 1 })
order ALFA A-1 GAMA 20 => Ok(Queued { number: 1, place: 1 })",
    held: 0,
    rows: "order BETA B-1 ALFA 30 => Ok(Settled { number: 2, mark: 1 }) auto 2 1 20 => \
    Ok(Repeated(Order { number: 2, state: Settled(1) }))",
    is_batch: false,
    standings: "\
[(0, 1), (30, 0), (0, 0)]
[(10, 0), (0, 0), (20, 0)]",
    is_closed: true,
};

#[test]
fn two_marks_are_found_or_none(rt: HostRuntime) -> Result<(), Fail> {
    meets(rt.alloc(), &TWO_MARKS, [50, 52, 3])
}

const POSTING: Trial = Trial {
    before: TWO_WAIT,
    held: 0,
    rows: "post ALFA P-2 50 => Ok(Posted { number: 2 }) auto 1 1 60 => Ok(Repeated(Posting { number: 2 }))",
    is_batch: false,
    standings: "\
[(10, 2), (0, 0), (0, 0)]
[(0, 1), (60, 0), (0, 0)]",
    is_closed: true,
};

#[test]
fn a_posting_is_found_with_what_it_freed_or_not_at_all(rt: HostRuntime) -> Result<(), Fail> {
    meets(rt.alloc(), &POSTING, [52, 53, 3])
}

const LIMIT: Trial = Trial {
    before: TWO_WAIT,
    held: 0,
    rows: "credit ALFA 60 => Ok(CreditSet) auto 1 2 70 => Ok(CreditSet)",
    is_batch: false,
    standings: "\
[(10, 2), (0, 0), (0, 0)]
[(-60, 0), (60, 0), (10, 0)]",
    is_closed: true,
};

#[test]
fn a_limit_is_found_with_what_it_freed_or_not_at_all(rt: HostRuntime) -> Result<(), Fail> {
    meets(rt.alloc(), &LIMIT, [48, 51, 2])
}

const WITHDRAWAL: Trial = Trial {
    before: TWO_WAIT,
    held: 0,
    rows: "withdraw ALFA A-1 => Ok(Withdrawn { number: 1 }) auto 1 1 10 => \
    Ok(Repeated(Order { number: 1, state: Withdrawn }))",
    is_batch: false,
    standings: "\
[(10, 2), (0, 0), (0, 0)]
[(0, 0), (0, 0), (10, 0)]",
    is_closed: true,
};

#[test]
fn a_withdrawal_is_found_with_what_it_freed_or_not_at_all(rt: HostRuntime) -> Result<(), Fail> {
    meets(rt.alloc(), &WITHDRAWAL, [48, 51, 3])
}

const DAY: Trial = Trial {
    before: "\
open 2024-03-04 => Ok(Opened)
order ALFA A-1 BETA 60 due 2024-03-05 => Ok(Held { number: 1, due: BusinessDate { number: 20240305 } })
order ALFA A-2 BETA 70 due 2024-03-05 => Ok(Held { number: 2, due: BusinessDate { number: 20240305 } })
post ALFA P-1 60 => Ok(Posted { number: 1 })
cutoff 2024-03-04 => Ok(CutOffDone)
close 2024-03-04 => Ok(Closed { rejected: 0 })",
    held: 0,
    rows: "open 2024-03-05 automatic => Ok(Opened) auto 1 1 60 => Ok(Repeated(Nothing))",
    is_batch: false,
    standings: "\
[(60, 0), (0, 0), (0, 0)]
[(0, 1), (60, 0), (0, 0)]",
    is_closed: true,
};

#[test]
fn a_day_is_found_open_with_what_settled_or_closed(rt: HostRuntime) -> Result<(), Fail> {
    meets(rt.alloc(), &DAY, [52, 53, 2])
}

// As many orders of one sender are due as there may be, and four in five are covered.
const A_WHOLE_QUEUE: Trial = Trial {
    before: "\
open 2024-03-04 => Ok(Opened)
post ALFA P-1 400 => Ok(Posted { number: 1 })",
    held: 500,
    rows: "open 2024-03-05 automatic => Ok(Opened) auto 1 400 400 => Ok(Repeated(Nothing))",
    is_batch: false,
    standings: "\
[(400, 0), (0, 0), (0, 0)]
[(0, 100), (400, 0), (0, 0)]",
    is_closed: true,
};

#[test]
fn a_day_is_found_open_with_all_that_settled_or_closed(rt: HostRuntime) -> Result<(), Fail> {
    meets(rt.alloc(), &A_WHOLE_QUEUE, [60, 81, 2])
}

// The first order of the batch frees two of others. The rest wait.
const BATCH: Trial = Trial {
    before: "\
open 2024-03-04 automatic => Ok(Opened)
post ALFA P-1 150 => Ok(Posted { number: 1 })
order BETA B-1 GAMA 100 => Ok(Queued { number: 1, place: 1 })
order GAMA G-1 ALFA 30 => Ok(Queued { number: 2, place: 1 })",
    held: 0,
    rows: "\
order ALFA A-1 BETA 100 => Ok(Settled { number: 3, mark: 1 }) auto 2 2 130 => \
Ok(Repeated(Order { number: 3, state: Settled(1) }))
order ALFA A-2 GAMA 90 => Ok(Queued { number: 4, place: 1 }) => Ok(Repeated(Order { number: 4, state: Queued }))
order ALFA A-3 GAMA 10 => Ok(Queued { number: 5, place: 2 }) => Ok(Repeated(Order { number: 5, state: Queued }))",
    is_batch: true,
    standings: "\
[(150, 0), (0, 1), (0, 1)]
[(80, 0), (0, 0), (70, 0)]
[(80, 1), (0, 0), (70, 0)]
[(80, 2), (0, 0), (70, 0)]",
    is_closed: true,
};

#[test]
fn a_batch_is_found_up_to_a_row_with_what_it_freed(rt: HostRuntime) -> Result<(), Fail> {
    meets(rt.alloc(), &BATCH, [60, 52, 7])
}

// Three orders wait that cannot settle together.
const CALM: &str = "\
open 2024-03-04 automatic => Ok(Opened)
post ALFA P-1 10 => Ok(Posted { number: 1 })
order ALFA A-1 BETA 60 => Ok(Queued { number: 1, place: 1 })
order ALFA A-2 GAMA 10 => Ok(Queued { number: 2, place: 2 })
order BETA B-1 ALFA 50 => Ok(Queued { number: 3, place: 1 }) auto 1 2 110
order BETA B-2 GAMA 20 => Ok(Queued { number: 4, place: 1 })
order GAMA G-1 ALFA 5 => Ok(Queued { number: 5, place: 1 })";

const OPENING: Trial = Trial {
    before: CALM,
    held: 0,
    rows: "",
    is_batch: false,
    standings: "[(0, 1), (10, 1), (0, 1)]",
    is_closed: true,
};

#[test]
fn an_opening_leaves_the_book(rt: HostRuntime) -> Result<(), Fail> {
    meets(rt.alloc(), &OPENING, [29, 46, 1])
}

const OPENING_AFTER_A_CRASH: Trial = Trial {
    before: CALM,
    held: 0,
    rows: "",
    is_batch: false,
    standings: "[(0, 1), (10, 1), (0, 1)]",
    is_closed: false,
};

#[test]
fn an_opening_after_a_crash_leaves_the_book(rt: HostRuntime) -> Result<(), Fail> {
    meets(rt.alloc(), &OPENING_AFTER_A_CRASH, [235, 22, 1])
}
