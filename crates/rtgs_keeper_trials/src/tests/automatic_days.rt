//! Automatic days, answer by answer, over both keepers: in memory, and on disks that are left as they are behind each
//! answer and opened again.
use super::disks::OnDisks;
use super::memory::InMemory;
use super::runs::answers_of_two;
use super::trial::Trial;
use std::alloc::Global;
use std::test::Fail;

/// The opening of a day on which gridlocks are resolved without being asked for.
const AUTOMATIC: &str = "open 2024-03-04 automatic => Ok(Opened)";

// Fails unless desks over both keepers answer the rows as they tell after these commands, and the banks then stand so.
fn answer(
    alloc: Global,
    before: &'static str,
    rows: &'static str,
    standings: &'static str,
) -> Result<(), Fail> {
    let trial = Trial {
        before,
        held: 0,
        rows,
        is_batch: false,
        standings,
        is_closed: true,
    };
    if rows.lines().count().saturating_add(1) != standings.lines().count() {
        return Err(Fail::new("standings of other rows"));
    }
    answers_of_two::<InMemory, OnDisks>(alloc, &trial)
}

const RING: &str = "\
order ALFA A-1 BETA 100 => Ok(Queued { number: 1, place: 1 })
order BETA B-1 GAMA 100 => Ok(Queued { number: 2, place: 1 })
order GAMA G-1 ALFA 100 => Ok(Queued { number: 3, place: 1 }) auto 1 3 300
order GAMA G-1 ALFA 100 => Ok(Repeated(Order { number: 3, state: Settled(1) }))";

const STANDINGS_OF_THE_RING: &str = "\
[(0, 0), (0, 0), (0, 0)]
[(0, 1), (0, 0), (0, 0)]
[(0, 1), (0, 1), (0, 0)]
[(0, 0), (0, 0), (0, 0)]
[(0, 0), (0, 0), (0, 0)]";

#[test]
fn an_order_closes_a_ring(rt: HostRuntime) -> Result<(), Fail> {
    answer(rt.alloc(), AUTOMATIC, RING, STANDINGS_OF_THE_RING)
}

const CASCADE: &str = "\
post ALFA P-1 10 => Ok(Posted { number: 1 })
order ALFA A-1 BETA 60 => Ok(Queued { number: 1, place: 1 })
order ALFA A-2 GAMA 10 => Ok(Queued { number: 2, place: 2 })
order BETA B-1 ALFA 50 => Ok(Queued { number: 3, place: 1 }) auto 1 2 110
order BETA B-2 GAMA 20 => Ok(Queued { number: 4, place: 1 })
order GAMA G-1 ALFA 5 => Ok(Queued { number: 5, place: 1 })
order BETA B-1 ALFA 50 => Ok(Repeated(Order { number: 3, state: Settled(1) }))
resolve => Ok(Nothing)";

const STANDINGS_OF_THE_CASCADE: &str = "\
[(0, 0), (0, 0), (0, 0)]
[(10, 0), (0, 0), (0, 0)]
[(10, 1), (0, 0), (0, 0)]
[(10, 2), (0, 0), (0, 0)]
[(0, 1), (10, 0), (0, 0)]
[(0, 1), (10, 1), (0, 0)]
[(0, 1), (10, 1), (0, 1)]
[(0, 1), (10, 1), (0, 1)]
[(0, 1), (10, 1), (0, 1)]";

#[test]
fn an_order_frees_another(rt: HostRuntime) -> Result<(), Fail> {
    answer(rt.alloc(), AUTOMATIC, CASCADE, STANDINGS_OF_THE_CASCADE)
}

const TWO_MARKS: &str = "\
post BETA P-1 30 => Ok(Posted { number: 1 })
order ALFA A-1 GAMA 20 => Ok(Queued { number: 1, place: 1 })
order BETA B-1 ALFA 30 => Ok(Settled { number: 2, mark: 1 }) auto 2 1 20
order BETA B-1 ALFA 30 => Ok(Repeated(Order { number: 2, state: Settled(1) }))
order ALFA A-1 GAMA 20 => Ok(Repeated(Order { number: 1, state: Settled(2) }))";

const STANDINGS_OF_TWO_MARKS: &str = "\
[(0, 0), (0, 0), (0, 0)]
[(0, 0), (30, 0), (0, 0)]
[(0, 1), (30, 0), (0, 0)]
[(10, 0), (0, 0), (20, 0)]
[(10, 0), (0, 0), (20, 0)]
[(10, 0), (0, 0), (20, 0)]";

#[test]
fn an_order_that_settles_frees_another_under_a_mark_of_its_own(
    rt: HostRuntime,
) -> Result<(), Fail> {
    answer(rt.alloc(), AUTOMATIC, TWO_MARKS, STANDINGS_OF_TWO_MARKS)
}

// ALFA passes on all that it gets, so that its balance is what it was.
const PASSED_ON: &str = "\
post BETA P-1 30 => Ok(Posted { number: 1 })
order ALFA A-1 GAMA 30 => Ok(Queued { number: 1, place: 1 })
order BETA B-1 ALFA 30 => Ok(Settled { number: 2, mark: 1 }) auto 2 1 30";

const STANDINGS_OF_WHAT_IS_PASSED_ON: &str = "\
[(0, 0), (0, 0), (0, 0)]
[(0, 0), (30, 0), (0, 0)]
[(0, 1), (30, 0), (0, 0)]
[(0, 0), (0, 0), (30, 0)]";

#[test]
fn a_balance_comes_back_to_what_it_was(rt: HostRuntime) -> Result<(), Fail> {
    answer(
        rt.alloc(),
        AUTOMATIC,
        PASSED_ON,
        STANDINGS_OF_WHAT_IS_PASSED_ON,
    )
}

// A day before, on which an order was held for the next.
const HELD: &str = "\
open 2024-03-01 => Ok(Opened)
order ALFA A-1 BETA 60 due 2024-03-04 => Ok(Held { number: 1, due: BusinessDate { number: 20240304 } })
cutoff 2024-03-01 => Ok(CutOffDone)
close 2024-03-01 => Ok(Closed { rejected: 0 })";

const EACH_COMMAND: &str = "\
post ALFA P-1 60 => Ok(Posted { number: 1 })
open 2024-03-04 automatic => Ok(Opened) auto 1 1 60
order ALFA A-2 GAMA 40 => Ok(Queued { number: 2, place: 1 })
order ALFA A-3 GAMA 90 => Ok(Queued { number: 3, place: 2 })
order ALFA A-4 GAMA 5 => Ok(Queued { number: 4, place: 3 })
post ALFA P-2 37 => Ok(Posted { number: 2 })
credit ALFA 5 => Ok(CreditSet) auto 2 1 40
post ALFA P-3 3 => Ok(Posted { number: 3 })
cutoff 2024-03-04 => Ok(CutOffDone)
withdraw ALFA A-3 => Ok(Withdrawn { number: 3 }) auto 3 1 5
withdraw ALFA A-3 => Ok(Repeated(Order { number: 3, state: Withdrawn }))
credit ALFA 4 => Err(NoCover)
post ALFA P-4 5 => Ok(Posted { number: 4 })
close 2024-03-04 => Ok(Closed { rejected: 0 })
open 2024-03-04 automatic => Err(WrongDate)
open 2024-03-05 => Ok(Opened)
open 2024-03-05 automatic => Err(WrongPhase)";

const STANDINGS_OF_EACH_COMMAND: &str = "\
[(0, 0), (0, 0), (0, 0)]
[(60, 0), (0, 0), (0, 0)]
[(0, 0), (60, 0), (0, 0)]
[(0, 1), (60, 0), (0, 0)]
[(0, 2), (60, 0), (0, 0)]
[(0, 3), (60, 0), (0, 0)]
[(37, 3), (60, 0), (0, 0)]
[(-3, 2), (60, 0), (40, 0)]
[(0, 2), (60, 0), (40, 0)]
[(0, 2), (60, 0), (40, 0)]
[(-5, 0), (60, 0), (45, 0)]
[(-5, 0), (60, 0), (45, 0)]
[(-5, 0), (60, 0), (45, 0)]
[(0, 0), (60, 0), (45, 0)]
[(0, 0), (60, 0), (45, 0)]
[(0, 0), (60, 0), (45, 0)]
[(0, 0), (60, 0), (45, 0)]
[(0, 0), (60, 0), (45, 0)]";

#[test]
fn each_command_frees_orders_until_the_close(rt: HostRuntime) -> Result<(), Fail> {
    answer(rt.alloc(), HELD, EACH_COMMAND, STANDINGS_OF_EACH_COMMAND)
}

// The same orders on a day on request, where nothing settles unasked.
const ON_REQUEST: &str = "\
post ALFA P-1 60 => Ok(Posted { number: 1 })
open 2024-03-04 => Ok(Opened)
open 2024-03-04 automatic => Err(WrongPhase)
order ALFA A-2 GAMA 40 => Ok(Queued { number: 2, place: 2 })
post ALFA P-2 40 => Ok(Posted { number: 2 })
order BETA B-1 ALFA 5 => Ok(Queued { number: 3, place: 1 })
withdraw BETA B-1 => Ok(Withdrawn { number: 3 })
credit ALFA 5 => Ok(CreditSet)
cutoff 2024-03-04 => Ok(CutOffDone)
close 2024-03-04 => Err(Resolvable)
resolve => Ok(Resolved { mark: 1, count: 2, value: Cents(100) })";

const STANDINGS_ON_REQUEST: &str = "\
[(0, 0), (0, 0), (0, 0)]
[(60, 0), (0, 0), (0, 0)]
[(60, 1), (0, 0), (0, 0)]
[(60, 1), (0, 0), (0, 0)]
[(60, 2), (0, 0), (0, 0)]
[(100, 2), (0, 0), (0, 0)]
[(100, 2), (0, 1), (0, 0)]
[(100, 2), (0, 0), (0, 0)]
[(100, 2), (0, 0), (0, 0)]
[(100, 2), (0, 0), (0, 0)]
[(100, 2), (0, 0), (0, 0)]
[(0, 0), (60, 0), (40, 0)]";

#[test]
fn nothing_is_resolved_unasked_on_another_day(rt: HostRuntime) -> Result<(), Fail> {
    answer(rt.alloc(), HELD, ON_REQUEST, STANDINGS_ON_REQUEST)
}
