//! Commands whose look-up meets trouble, and what is found then.
use super::memory::InMemory;
use super::runs::{begin, found_after, found_in, progress_in};
use super::store::{Failing, Store};
use super::trial::{Progress, Trial};
use rtgs_book::Refusal;
use rtgs_keeper::Keeper;
use rtgs_tests_desks::{FailingKeeper, Trouble, begun, command, desk_over, failing, follows};
use std::alloc::Global;
use std::test::Fail;

/// How many calls of its keeper a desk makes before it looks something up: the one of its opening.
const BEFORE: usize = 1;

/// ALFA is given 100 cents, of which it pays 60, and an order of it waits.
const COMMANDS: &str = "\
post ALFA P-1 100 => Ok(Posted { number: 1 })
open 2024-03-04 => Ok(Opened)
order ALFA A-1 BETA 60 => Ok(Settled { number: 1, mark: 1 })
order ALFA A-2 BETA 90 => Ok(Queued { number: 2, place: 1 })";

/// Commands for which something is looked up, that is there or not, and what they are answered.
const ROWS: &str = "\
post BETA P-2 5 => Ok(Posted { number: 2 })
post ALFA P-1 100 => Ok(Repeated(Posting { number: 1 }))
post ALFA P-1 101 => Err(ReferenceUsed)
order BETA B-1 GAMA 60 => Ok(Settled { number: 3, mark: 2 })
order ALFA A-3 BETA 1 => Ok(Queued { number: 3, place: 2 })
order BETA B-2 GAMA 7 due 2024-03-05 => Ok(Held { number: 3, due: BusinessDate { number: 20240305 } })
order ALFA A-1 BETA 60 => Ok(Repeated(Order { number: 1, state: Settled(1) }))
order ALFA A-1 BETA 60 due 2024-03-05 => Err(ReferenceUsed)
order ALFA A-2 BETA 90 => Ok(Repeated(Order { number: 2, state: Queued }))
withdraw ALFA A-2 => Ok(Withdrawn { number: 2 })
withdraw ALFA A-3 => Err(UnknownOrder)";

/// Fails unless a fault of the store at the look-up of a command leaves the book as it was, and the command acts once
/// the desk is opened again. Until then the desk answers nothing.
fn acts_after_a_restart<S: Store>(
    alloc: Global,
    line: &'static str,
    failing: Failing,
) -> Result<(), Fail> {
    let mut store = S::blank(alloc);
    let trial = Trial {
        before: COMMANDS,
        held: 0,
        rows: line,
        is_batch: false,
        standings: "",
        is_closed: true,
    };
    begin(alloc, &mut store, &trial)?;
    let before = found_in(alloc, &mut store)?;
    store.fail(alloc, failing, BEFORE)?;
    let progress = progress_in(alloc, &mut store, &trial, 1, true)?;
    store.crash();
    let is_kept = found_in(alloc, &mut store)?.as_str() == before.as_str();
    found_after(alloc, &mut store, line, false, 0, 1)?;
    if matches!(progress, Progress::Failed(0)) && is_kept {
        Ok(())
    } else {
        Err(Fail::new("no fault of the store, or another book"))
    }
}

#[test]
fn a_look_up_that_fails_leaves_the_book(rt: HostRuntime) -> Result<(), Fail> {
    for line in ROWS.lines() {
        for trouble in [Trouble::Lost, Trouble::Kept] {
            acts_after_a_restart::<InMemory>(rt.alloc(), line, Failing::Keeper(trouble))?;
        }
    }
    Ok(())
}

// Fails unless a look-up over this keeper of a new book lacks memory and leaves the desk as it was, so that the command
// acts when it comes again.
fn acts_when_sent_again<K: Keeper + Drop>(
    alloc: Global,
    keeper: FailingKeeper<K>,
    line: &str,
) -> Result<(), Fail> {
    let keeper = begun(alloc, keeper, COMMANDS)?.into_keeper();
    let mut desk = desk_over(alloc, keeper.restarted(BEFORE, Trouble::OutOfMemory))?;
    if desk.submit(command(line)?) != Err(Refusal::OutOfMemory) || desk.failed() {
        return Err(Fail::new("memory was not refused"));
    }
    follows(alloc, &mut desk, line)
}

#[test]
fn a_look_up_without_memory_is_made_again(rt: HostRuntime) -> Result<(), Fail> {
    for line in ROWS.lines() {
        let keeper = failing(rt.alloc(), usize::MAX, Trouble::OutOfMemory);
        acts_when_sent_again(rt.alloc(), keeper, line)?;
    }
    Ok(())
}
