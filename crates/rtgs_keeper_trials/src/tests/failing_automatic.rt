//! A keeper that fails on an automatic day as an order comes that frees another, and as the day is opened with an order
//! that can settle. What follows a command is kept with it, or neither is.
use super::failing_desk::answers_again;
use rtgs_tests_desks::{Trouble, failing};
use std::alloc::Global;
use std::test::Fail;

// How many calls of its keeper a desk makes before it looks the order up: at its opening, for three banks and for a
// day, and two for each of a posting and two orders.
const LOOK_UP: usize = 11;

// How many it makes before the order is kept.
const COMMIT: usize = 12;

// ALFA has 10 cents, and two orders of it wait.
const TWO_WAIT: &str = "\
add ALFA 0000000000000000000000000000000a => Ok(Added)
add BETA 0000000000000000000000000000000b => Ok(Added)
add GAMA 0000000000000000000000000000000c => Ok(Added)
open 2024-03-04 automatic => Ok(Opened)
post ALFA P-1 10 => Ok(Posted { number: 1 })
order ALFA A-1 BETA 60 => Ok(Queued { number: 1, place: 1 })
order ALFA A-2 GAMA 10 => Ok(Queued { number: 2, place: 2 })";

const FAILS: &str = "\
order BETA B-1 ALFA 50 => Err(StoreFault)
order BETA B-1 ALFA 50 => Err(Failed)";

// The order is not there, nor has anything settled.
const FREES: &str = "\
order ALFA A-1 BETA 60 => Ok(Repeated(Order { number: 1, state: Queued }))
withdraw BETA B-1 => Err(UnknownOrder)
resolve => Ok(Nothing)
order BETA B-1 ALFA 50 => Ok(Queued { number: 3, place: 1 }) auto 1 2 110";

// The order is there, and has settled with the other one.
const FREED: &str = "\
order BETA B-1 ALFA 50 => Ok(Repeated(Order { number: 3, state: Settled(1) }))
order ALFA A-1 BETA 60 => Ok(Repeated(Order { number: 1, state: Settled(1) }))
order ALFA A-2 GAMA 10 => Ok(Repeated(Order { number: 2, state: Queued }))
resolve => Ok(Nothing)
order BETA B-2 GAMA 20 => Ok(Queued { number: 4, place: 1 })
order GAMA G-1 ALFA 5 => Ok(Queued { number: 5, place: 1 })";

// The desk meets this trouble at the order and is answered so, and the order comes again over what its keeper kept.
fn frees_again(
    alloc: Global,
    calls: usize,
    trouble: Trouble,
    met: &str,
    again: &str,
) -> Result<(), Fail> {
    let script = format!(in alloc; "{TWO_WAIT}\n{met}")?;
    answers_again(
        alloc,
        failing(alloc, calls, trouble),
        script.as_str(),
        again,
    )
}

#[test]
fn an_order_that_was_lost_has_freed_none(rt: HostRuntime) -> Result<(), Fail> {
    frees_again(rt.alloc(), LOOK_UP, Trouble::Lost, FAILS, FREES)?;
    frees_again(rt.alloc(), LOOK_UP, Trouble::Kept, FAILS, FREES)?;
    frees_again(rt.alloc(), COMMIT, Trouble::Lost, FAILS, FREES)
}

#[test]
fn an_order_that_was_kept_has_freed_the_other(rt: HostRuntime) -> Result<(), Fail> {
    frees_again(rt.alloc(), COMMIT, Trouble::Kept, FAILS, FREED)
}

const LACKS_MEMORY: &str = "\
order BETA B-1 ALFA 50 => Err(OutOfMemory)
order ALFA A-1 BETA 60 => Ok(Repeated(Order { number: 1, state: Queued }))
withdraw BETA B-1 => Err(UnknownOrder)
resolve => Ok(Nothing)
order BETA B-1 ALFA 50 => Ok(Queued { number: 3, place: 1 }) auto 1 2 110";

// Whichever of its two calls lacks memory, the order frees the other when it comes again.
#[test]
fn an_order_that_lacked_memory_frees_another(rt: HostRuntime) -> Result<(), Fail> {
    for calls in [LOOK_UP, COMMIT] {
        let trouble = Trouble::OutOfMemory;
        frees_again(rt.alloc(), calls, trouble, LACKS_MEMORY, FREED)?;
    }
    Ok(())
}

// How many calls it makes before the day is opened: at its opening, for two banks and for the first day, two for each
// of an order and a posting, and for the end of that day.
const OPENING: usize = 10;

// An order is due on the next day, and will be covered.
const ONE_HELD: &str = "\
add ALFA 0000000000000000000000000000000a => Ok(Added)
add BETA 0000000000000000000000000000000b => Ok(Added)
open 2024-03-04 => Ok(Opened)
order ALFA A-1 BETA 60 due 2024-03-05 => Ok(Held { number: 1, due: BusinessDate { number: 20240305 } })
post ALFA P-1 60 => Ok(Posted { number: 1 })
cutoff 2024-03-04 => Ok(CutOffDone)
close 2024-03-04 => Ok(Closed { rejected: 0 })";

const STILL_HELD: &str = "\
order ALFA A-1 BETA 60 due 2024-03-05 => Ok(Repeated(Order { number: 1, state: Held }))
order ALFA A-2 BETA 1 => Err(NotOpen)
open 2024-03-05 automatic => Ok(Opened) auto 1 1 60";

const OPENED_BEFORE: &str = "\
open 2024-03-05 => Err(WrongPhase)
open 2024-03-05 automatic => Ok(Repeated(Nothing))";

const SETTLED: &str = "\
order ALFA A-1 BETA 60 due 2024-03-05 => Ok(Repeated(Order { number: 1, state: Settled(1) }))
order ALFA A-2 BETA 1 => Ok(Queued { number: 2, place: 1 })
order BETA B-1 ALFA 60 => Ok(Settled { number: 3, mark: 2 }) auto 3 1 1";

// The desk meets this trouble at the opening of the second day, which is answered so. Then the second script is
// followed over what its keeper kept, and the order has settled.
fn opens_again(alloc: Global, trouble: Trouble, reply: &str, again: &str) -> Result<(), Fail> {
    let script = format!(in alloc; "{ONE_HELD}\nopen 2024-03-05 automatic => {reply}")?;
    let again = format!(in alloc; "{again}\n{SETTLED}")?;
    let keeper = failing(alloc, OPENING, trouble);
    answers_again(alloc, keeper, script.as_str(), again.as_str())
}

#[test]
fn a_day_is_opened_with_what_settles_or_not_at_all(rt: HostRuntime) -> Result<(), Fail> {
    opens_again(rt.alloc(), Trouble::Lost, "Err(StoreFault)", STILL_HELD)?;
    opens_again(rt.alloc(), Trouble::Kept, "Err(StoreFault)", OPENED_BEFORE)?;
    opens_again(
        rt.alloc(),
        Trouble::OutOfMemory,
        "Err(OutOfMemory)",
        STILL_HELD,
    )
}
