//! A keeper that fails as an order is held until a later day, and as that day is opened, which lets it in.
use super::failing_desk::answers_again;
use rtgs_tests_desks::{Trouble, failing};
use std::alloc::Global;
use std::test::Fail;

// How many calls of its keeper a desk makes before it looks the order up: at its opening, for two banks and for a day.
const LOOK_UP: usize = 4;

// How many it makes before the order is kept.
const COMMIT: usize = 5;

const FAILS: &str = "\
add ALFA 0000000000000000000000000000000a => Ok(Added)
add BETA 0000000000000000000000000000000b => Ok(Added)
open 2024-03-04 => Ok(Opened)
order ALFA A-1 BETA 60 due 2024-03-05 => Err(StoreFault)
order ALFA A-1 BETA 60 due 2024-03-05 => Err(Failed)";

const HELD: &str = "\
withdraw ALFA A-1 => Err(UnknownOrder)
order ALFA A-1 BETA 60 due 2024-03-05 => Ok(Held { number: 1, due: BusinessDate { number: 20240305 } })";

const REPEATED: &str = "\
order ALFA A-1 BETA 60 due 2024-03-05 => Ok(Repeated(Order { number: 1, state: Held }))
order ALFA A-1 BETA 60 => Err(ReferenceUsed)
order ALFA A-1 BETA 60 due 2024-03-06 => Err(ReferenceUsed)
withdraw ALFA A-1 => Ok(Withdrawn { number: 1 })";

// The desk meets this trouble at the order, which comes again over what its keeper kept.
fn holds_again(alloc: Global, calls: usize, trouble: Trouble, again: &str) -> Result<(), Fail> {
    answers_again(alloc, failing(alloc, calls, trouble), FAILS, again)
}

#[test]
fn a_held_order_that_was_lost_is_held_again(rt: HostRuntime) -> Result<(), Fail> {
    holds_again(rt.alloc(), LOOK_UP, Trouble::Lost, HELD)?;
    holds_again(rt.alloc(), LOOK_UP, Trouble::Kept, HELD)?;
    holds_again(rt.alloc(), COMMIT, Trouble::Lost, HELD)
}

#[test]
fn a_held_order_that_was_kept_is_not_held_again(rt: HostRuntime) -> Result<(), Fail> {
    holds_again(rt.alloc(), COMMIT, Trouble::Kept, REPEATED)
}

const LACKS_MEMORY: &str = "\
add ALFA 0000000000000000000000000000000a => Ok(Added)
add BETA 0000000000000000000000000000000b => Ok(Added)
open 2024-03-04 => Ok(Opened)
order ALFA A-1 BETA 60 due 2024-03-05 => Err(OutOfMemory)
withdraw ALFA A-1 => Err(UnknownOrder)
order ALFA A-1 BETA 60 due 2024-03-05 => Ok(Held { number: 1, due: BusinessDate { number: 20240305 } })";

// Whichever of its two calls lacks memory, the order is held when it comes again.
#[test]
fn an_order_that_lacked_memory_is_held(rt: HostRuntime) -> Result<(), Fail> {
    for calls in [LOOK_UP, COMMIT] {
        let keeper = failing(rt.alloc(), calls, Trouble::OutOfMemory);
        answers_again(rt.alloc(), keeper, LACKS_MEMORY, REPEATED)?;
    }
    Ok(())
}

// How many calls it makes before a day is opened: at its opening, for two banks and for the first day, two for each of
// three orders, and for the end of that day.
const OPENING: usize = 12;

// Two orders are due on the next day, and one on the day after it.
const THREE_HELD: &str = "\
add ALFA 0000000000000000000000000000000a => Ok(Added)
add BETA 0000000000000000000000000000000b => Ok(Added)
open 2024-03-04 => Ok(Opened)
order ALFA A-1 BETA 60 due 2024-03-05 => Ok(Held { number: 1, due: BusinessDate { number: 20240305 } })
order BETA B-1 ALFA 7 due 2024-03-06 => Ok(Held { number: 2, due: BusinessDate { number: 20240306 } })
order ALFA A-2 BETA 5 due 2024-03-05 => Ok(Held { number: 3, due: BusinessDate { number: 20240305 } })
cutoff 2024-03-04 => Ok(CutOffDone)
close 2024-03-04 => Ok(Closed { rejected: 0 })";

const STILL_HELD: &str = "\
order ALFA A-1 BETA 60 due 2024-03-05 => Ok(Repeated(Order { number: 1, state: Held }))
order ALFA A-2 BETA 5 due 2024-03-05 => Ok(Repeated(Order { number: 3, state: Held }))
order ALFA A-3 BETA 1 => Err(NotOpen)
open 2024-03-05 => Ok(Opened)";

const OPENED_BEFORE: &str = "open 2024-03-05 => Ok(Repeated(Nothing))";

const LET_IN: &str = "\
order ALFA A-1 BETA 60 due 2024-03-05 => Ok(Repeated(Order { number: 1, state: Queued }))
order BETA B-1 ALFA 7 due 2024-03-06 => Ok(Repeated(Order { number: 2, state: Held }))
order ALFA A-2 BETA 5 due 2024-03-05 => Ok(Repeated(Order { number: 3, state: Queued }))
order ALFA A-3 BETA 1 => Ok(Queued { number: 4, place: 3 })";

// The desk meets this trouble at the opening of the second day, which is answered so. Then the second script is
// followed over what its keeper kept, and the first two orders are found in their queue.
fn opens_again(alloc: Global, trouble: Trouble, reply: &str, again: &str) -> Result<(), Fail> {
    let script = format!(in alloc; "{THREE_HELD}\nopen 2024-03-05 => {reply}")?;
    let again = format!(in alloc; "{again}\n{LET_IN}")?;
    let keeper = failing(alloc, OPENING, trouble);
    answers_again(alloc, keeper, script.as_str(), again.as_str())
}

#[test]
fn a_day_that_is_opened_lets_in_all_that_is_due_or_nothing(rt: HostRuntime) -> Result<(), Fail> {
    opens_again(rt.alloc(), Trouble::Lost, "Err(StoreFault)", STILL_HELD)?;
    opens_again(rt.alloc(), Trouble::Kept, "Err(StoreFault)", OPENED_BEFORE)?;
    opens_again(
        rt.alloc(),
        Trouble::OutOfMemory,
        "Err(OutOfMemory)",
        STILL_HELD,
    )
}

// The same desk goes on once there is memory.
#[test]
fn a_day_is_opened_when_there_is_memory_again(rt: HostRuntime) -> Result<(), Fail> {
    let reply = format!(in rt.alloc(); "Err(OutOfMemory)\n{STILL_HELD}")?;
    opens_again(
        rt.alloc(),
        Trouble::OutOfMemory,
        reply.as_str(),
        OPENED_BEFORE,
    )
}
