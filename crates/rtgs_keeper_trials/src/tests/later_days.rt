//! Orders for later days, answer by answer, over both keepers: in memory, and on disks that are left as they are behind
//! each answer and opened again.
use super::disks::OnDisks;
use super::memory::InMemory;
use super::runs::answers_of_two;
use super::trial::Trial;
use std::alloc::Global;
use std::test::Fail;

// Fails unless desks over both keepers answer the rows as they tell on an open Monday, and the banks then stand so.
fn answer(alloc: Global, rows: &'static str, standings: &'static str) -> Result<(), Fail> {
    let trial = Trial {
        before: "open 2024-03-04 => Ok(Opened)",
        held: 0,
        rows,
        is_batch: false,
        standings,
        is_closed: true,
    };
    if rows.lines().count().saturating_add(1) != standings.lines().count() {
        return Err(Fail::new("standings of other rows"));
    }
    answers_of_two::<InMemory, OnDisks>(alloc, &trial)
}

const A_DAY_AND_THE_NEXT: &str = "\
post ALFA P-1 100 => Ok(Posted { number: 1 })
order ALFA A-1 BETA 60 due 2024-03-05 => Ok(Held { number: 1, due: BusinessDate { number: 20240305 } })
order ALFA A-2 BETA 50 => Ok(Settled { number: 2, mark: 1 })
order ALFA A-1 BETA 60 due 2024-03-05 => Ok(Repeated(Order { number: 1, state: Held }))
order ALFA A-1 BETA 60 => Err(ReferenceUsed)
order ALFA A-4 BETA 60 due 2024-03-04 => Err(DueNotLater)
order ALFA A-4 BETA 60 due 2024-03-09 => Err(Weekend)
cutoff 2024-03-04 => Ok(CutOffDone)
close 2024-03-04 => Ok(Closed { rejected: 0 })
open 2024-03-05 => Ok(Opened)
order ALFA A-3 GAMA 10 => Ok(Queued { number: 3, place: 2 })
resolve => Ok(Nothing)
post ALFA P-2 10 => Ok(Posted { number: 2 })
resolve => Ok(Resolved { mark: 2, count: 1, value: Cents(60) })";

const THEIR_STANDINGS: &str = "\
[(0, 0), (0, 0), (0, 0)]
[(100, 0), (0, 0), (0, 0)]
[(100, 0), (0, 0), (0, 0)]
[(50, 0), (50, 0), (0, 0)]
[(50, 0), (50, 0), (0, 0)]
[(50, 0), (50, 0), (0, 0)]
[(50, 0), (50, 0), (0, 0)]
[(50, 0), (50, 0), (0, 0)]
[(50, 0), (50, 0), (0, 0)]
[(50, 0), (50, 0), (0, 0)]
[(50, 1), (50, 0), (0, 0)]
[(50, 2), (50, 0), (0, 0)]
[(50, 2), (50, 0), (0, 0)]
[(60, 2), (50, 0), (0, 0)]
[(0, 1), (110, 0), (0, 0)]";

#[test]
fn an_order_for_the_next_day_waits_for_it(rt: HostRuntime) -> Result<(), Fail> {
    answer(rt.alloc(), A_DAY_AND_THE_NEXT, THEIR_STANDINGS)
}

// What is refused first where an order is refused for more than one reason, and for none of them where it comes again.
const REFUSALS: &str = "\
order ZETA A-1 BETA 60 due 2024-03-04 => Err(UnknownParticipant)
order ALFA A-1 ZETA 60 due 2024-03-04 => Err(UnknownReceiver)
order ALFA A-1 ALFA 60 due 2024-03-04 => Err(SameParty)
order ALFA A-1 BETA 60 due 2024-03-02 => Err(DueNotLater)
order ALFA A-1 BETA 60 due 2000-01-03 => Err(DueNotLater)
order ALFA A-1 BETA 60 due 2024-03-10 => Err(Weekend)
order ALFA A-1 BETA 60 due 2999-12-31 => Ok(Held { number: 1, due: BusinessDate { number: 29991231 } })
order ALFA A-1 BETA 60 due 2024-03-05 => Err(ReferenceUsed)
order ALFA A-1 BETA 60 due 2024-03-02 => Err(ReferenceUsed)
order ALFA A-1 BETA 61 due 2999-12-31 => Err(ReferenceUsed)
order ALFA A-1 GAMA 60 due 2999-12-31 => Err(ReferenceUsed)
cutoff 2024-03-04 => Ok(CutOffDone)
order ALFA A-1 BETA 60 due 2999-12-31 => Ok(Repeated(Order { number: 1, state: Held }))
order ALFA A-2 BETA 60 due 2024-03-05 => Err(NotOpen)
close 2024-03-04 => Ok(Closed { rejected: 0 })
order ALFA A-1 BETA 60 due 2999-12-31 => Ok(Repeated(Order { number: 1, state: Held }))
order ALFA A-2 BETA 60 due 2024-03-05 => Err(NotOpen)";

const NOBODY_MOVES: &str = "\
[(0, 0), (0, 0), (0, 0)]
[(0, 0), (0, 0), (0, 0)]
[(0, 0), (0, 0), (0, 0)]
[(0, 0), (0, 0), (0, 0)]
[(0, 0), (0, 0), (0, 0)]
[(0, 0), (0, 0), (0, 0)]
[(0, 0), (0, 0), (0, 0)]
[(0, 0), (0, 0), (0, 0)]
[(0, 0), (0, 0), (0, 0)]
[(0, 0), (0, 0), (0, 0)]
[(0, 0), (0, 0), (0, 0)]
[(0, 0), (0, 0), (0, 0)]
[(0, 0), (0, 0), (0, 0)]
[(0, 0), (0, 0), (0, 0)]
[(0, 0), (0, 0), (0, 0)]
[(0, 0), (0, 0), (0, 0)]
[(0, 0), (0, 0), (0, 0)]
[(0, 0), (0, 0), (0, 0)]";

#[test]
fn an_order_is_refused_for_its_first_reason(rt: HostRuntime) -> Result<(), Fail> {
    answer(rt.alloc(), REFUSALS, NOBODY_MOVES)
}

// Two orders are due on days that are not opened.
const SKIPPED_DAYS: &str = "\
order ALFA A-1 BETA 60 due 2024-03-05 => Ok(Held { number: 1, due: BusinessDate { number: 20240305 } })
order ALFA A-2 BETA 7 due 2024-03-07 => Ok(Held { number: 2, due: BusinessDate { number: 20240307 } })
order ALFA A-3 BETA 5 => Ok(Queued { number: 3, place: 1 })
cutoff 2024-03-04 => Ok(CutOffDone)
close 2024-03-04 => Ok(Closed { rejected: 1 })
open 2024-03-06 => Ok(Opened)
order ALFA A-1 BETA 60 due 2024-03-05 => Ok(Repeated(Order { number: 1, state: Queued }))
order ALFA A-2 BETA 7 due 2024-03-07 => Ok(Repeated(Order { number: 2, state: Held }))
cutoff 2024-03-06 => Ok(CutOffDone)
close 2024-03-06 => Ok(Closed { rejected: 1 })
order ALFA A-1 BETA 60 due 2024-03-05 => Ok(Repeated(Order { number: 1, state: Rejected }))
order ALFA A-2 BETA 7 due 2024-03-07 => Ok(Repeated(Order { number: 2, state: Held }))
open 2024-03-11 => Ok(Opened)
order ALFA A-2 BETA 7 due 2024-03-07 => Ok(Repeated(Order { number: 2, state: Queued }))
post ALFA P-1 7 => Ok(Posted { number: 1 })
resolve => Ok(Resolved { mark: 1, count: 1, value: Cents(7) })";

const STANDINGS_OF_SKIPPED_DAYS: &str = "\
[(0, 0), (0, 0), (0, 0)]
[(0, 0), (0, 0), (0, 0)]
[(0, 0), (0, 0), (0, 0)]
[(0, 1), (0, 0), (0, 0)]
[(0, 1), (0, 0), (0, 0)]
[(0, 0), (0, 0), (0, 0)]
[(0, 1), (0, 0), (0, 0)]
[(0, 1), (0, 0), (0, 0)]
[(0, 1), (0, 0), (0, 0)]
[(0, 1), (0, 0), (0, 0)]
[(0, 0), (0, 0), (0, 0)]
[(0, 0), (0, 0), (0, 0)]
[(0, 0), (0, 0), (0, 0)]
[(0, 1), (0, 0), (0, 0)]
[(0, 1), (0, 0), (0, 0)]
[(7, 1), (0, 0), (0, 0)]
[(0, 0), (7, 0), (0, 0)]";

#[test]
fn an_order_enters_on_the_first_day_from_its_due_date_on(rt: HostRuntime) -> Result<(), Fail> {
    answer(rt.alloc(), SKIPPED_DAYS, STANDINGS_OF_SKIPPED_DAYS)
}

// Orders are taken back in each phase before their due date, on it, and after it.
const WITHDRAWALS: &str = "\
order ALFA A-1 BETA 1 due 2024-03-05 => Ok(Held { number: 1, due: BusinessDate { number: 20240305 } })
order ALFA A-2 BETA 2 due 2024-03-05 => Ok(Held { number: 2, due: BusinessDate { number: 20240305 } })
order ALFA A-3 BETA 3 due 2024-03-05 => Ok(Held { number: 3, due: BusinessDate { number: 20240305 } })
order ALFA A-4 BETA 4 due 2024-03-05 => Ok(Held { number: 4, due: BusinessDate { number: 20240305 } })
order ALFA A-5 BETA 5 due 2024-03-05 => Ok(Held { number: 5, due: BusinessDate { number: 20240305 } })
order ALFA A-6 BETA 6 due 2024-03-06 => Ok(Held { number: 6, due: BusinessDate { number: 20240306 } })
withdraw ALFA A-1 => Ok(Withdrawn { number: 1 })
withdraw ALFA A-1 => Ok(Repeated(Order { number: 1, state: Withdrawn }))
order ALFA A-1 BETA 1 due 2024-03-05 => Ok(Repeated(Order { number: 1, state: Withdrawn }))
cutoff 2024-03-04 => Ok(CutOffDone)
withdraw ALFA A-2 => Ok(Withdrawn { number: 2 })
close 2024-03-04 => Ok(Closed { rejected: 0 })
withdraw ALFA A-3 => Ok(Withdrawn { number: 3 })
open 2024-03-05 => Ok(Opened)
withdraw ALFA A-4 => Ok(Withdrawn { number: 4 })
cutoff 2024-03-05 => Ok(CutOffDone)
close 2024-03-05 => Ok(Closed { rejected: 1 })
withdraw ALFA A-5 => Err(NotQueued)
open 2024-03-07 => Ok(Opened)
withdraw ALFA A-6 => Ok(Withdrawn { number: 6 })
resolve => Ok(Nothing)";

const STANDINGS_OF_WITHDRAWALS: &str = "\
[(0, 0), (0, 0), (0, 0)]
[(0, 0), (0, 0), (0, 0)]
[(0, 0), (0, 0), (0, 0)]
[(0, 0), (0, 0), (0, 0)]
[(0, 0), (0, 0), (0, 0)]
[(0, 0), (0, 0), (0, 0)]
[(0, 0), (0, 0), (0, 0)]
[(0, 0), (0, 0), (0, 0)]
[(0, 0), (0, 0), (0, 0)]
[(0, 0), (0, 0), (0, 0)]
[(0, 0), (0, 0), (0, 0)]
[(0, 0), (0, 0), (0, 0)]
[(0, 0), (0, 0), (0, 0)]
[(0, 0), (0, 0), (0, 0)]
[(0, 2), (0, 0), (0, 0)]
[(0, 1), (0, 0), (0, 0)]
[(0, 1), (0, 0), (0, 0)]
[(0, 0), (0, 0), (0, 0)]
[(0, 0), (0, 0), (0, 0)]
[(0, 1), (0, 0), (0, 0)]
[(0, 0), (0, 0), (0, 0)]
[(0, 0), (0, 0), (0, 0)]";

#[test]
fn an_order_is_withdrawn_before_its_due_date_and_after(rt: HostRuntime) -> Result<(), Fail> {
    answer(rt.alloc(), WITHDRAWALS, STANDINGS_OF_WITHDRAWALS)
}
