//! The same failures as an order is held until a later day, and as that day is opened, which lets in what is due.
use super::faults::meets;
use super::trial::Trial;
use std::test::Fail;

const HELD_ORDER: Trial = Trial {
    before: "\
open 2024-03-04 => Ok(Opened)
credit ALFA 100 => Ok(CreditSet)",
    held: 0,
    rows: "\
order ALFA A-1 BETA 100 due 2024-03-05 => Ok(Held { number: 1, due: BusinessDate { number: 20240305 } }) => \
Ok(Repeated(Order { number: 1, state: Held }))",
    is_batch: false,
    standings: "\
[(0, 0), (0, 0), (0, 0)]
[(0, 0), (0, 0), (0, 0)]",
    is_closed: true,
};

#[test]
fn a_held_order_is_found_with_its_due_date_or_not_at_all(rt: HostRuntime) -> Result<(), Fail> {
    meets(rt.alloc(), &HELD_ORDER, [48, 51, 3])
}

// A day is opened on which nothing is due.
const NONE_ENTERS: Trial = Trial {
    before: "\
open 2024-03-04 => Ok(Opened)
order ALFA A-1 BETA 60 due 2024-03-06 => Ok(Held { number: 1, due: BusinessDate { number: 20240306 } })
cutoff 2024-03-04 => Ok(CutOffDone)
close 2024-03-04 => Ok(Closed { rejected: 0 })",
    held: 0,
    rows: "open 2024-03-05 => Ok(Opened) => Ok(Repeated(Nothing))",
    is_batch: false,
    standings: "\
[(0, 0), (0, 0), (0, 0)]
[(0, 0), (0, 0), (0, 0)]",
    is_closed: true,
};

#[test]
fn a_day_is_found_open_or_closed(rt: HostRuntime) -> Result<(), Fail> {
    meets(rt.alloc(), &NONE_ENTERS, [46, 50, 2])
}

const ONE_ENTERS: Trial = Trial {
    before: "open 2024-03-04 => Ok(Opened)",
    held: 1,
    rows: "open 2024-03-05 => Ok(Opened) => Ok(Repeated(Nothing))",
    is_batch: false,
    standings: "\
[(0, 0), (0, 0), (0, 0)]
[(0, 1), (0, 0), (0, 0)]",
    is_closed: true,
};

#[test]
fn a_day_is_found_open_with_the_order_that_is_due(rt: HostRuntime) -> Result<(), Fail> {
    meets(rt.alloc(), &ONE_ENTERS, [48, 51, 2])
}

// Three orders are due, of which one was due before. One was taken back, and one stays.
const THREE_ENTER: Trial = Trial {
    before: "\
open 2024-03-04 => Ok(Opened)
order ALFA A-1 BETA 60 due 2024-03-06 => Ok(Held { number: 1, due: BusinessDate { number: 20240306 } })
order BETA B-1 GAMA 50 due 2024-03-05 => Ok(Held { number: 2, due: BusinessDate { number: 20240305 } })
order ALFA A-2 BETA 40 due 2024-03-07 => Ok(Held { number: 3, due: BusinessDate { number: 20240307 } })
order ALFA A-3 GAMA 30 due 2024-03-06 => Ok(Held { number: 4, due: BusinessDate { number: 20240306 } })
order ALFA A-4 GAMA 20 due 2024-03-06 => Ok(Held { number: 5, due: BusinessDate { number: 20240306 } })
withdraw ALFA A-3 => Ok(Withdrawn { number: 4 })
cutoff 2024-03-04 => Ok(CutOffDone)
close 2024-03-04 => Ok(Closed { rejected: 0 })",
    held: 0,
    rows: "open 2024-03-06 => Ok(Opened) => Ok(Repeated(Nothing))",
    is_batch: false,
    standings: "\
[(0, 0), (0, 0), (0, 0)]
[(0, 2), (0, 1), (0, 0)]",
    is_closed: true,
};

#[test]
fn a_day_is_found_open_with_all_that_is_due(rt: HostRuntime) -> Result<(), Fail> {
    meets(rt.alloc(), &THREE_ENTER, [48, 51, 2])
}

// As many orders of one sender are due as there may be.
const A_WHOLE_QUEUE_ENTERS: Trial = Trial {
    before: "open 2024-03-04 => Ok(Opened)",
    held: 500,
    rows: "open 2024-03-05 => Ok(Opened) => Ok(Repeated(Nothing))",
    is_batch: false,
    standings: "\
[(0, 0), (0, 0), (0, 0)]
[(0, 500), (0, 0), (0, 0)]",
    is_closed: true,
};

#[test]
fn a_day_is_found_open_with_a_whole_queue(rt: HostRuntime) -> Result<(), Fail> {
    meets(rt.alloc(), &A_WHOLE_QUEUE_ENTERS, [56, 79, 2])
}
