//! A desk over a keeper that fails, and opened again over what it kept.
use rtgs_book::Fault;
use rtgs_desk::Desk;
use rtgs_keeper::Keeper;
use rtgs_tests_desks::{
    FailingKeeper, Reply, Trouble, commands, desk_over, failing, follows, is_expected,
};
use std::alloc::Global;
use std::test::Fail;

// How many calls of its keeper a desk makes before it looks a posting up: at its opening, and for ALFA.
const LOOK_UP: usize = 2;

// How many it makes before the posting is kept.
const COMMIT: usize = 3;

const FAILS: &str = "\
add ALFA 0000000000000000000000000000000a => Ok(Added)
post ALFA P-1 100 => Err(StoreFault)
add ALFA 0000000000000000000000000000000a => Err(Failed)";

// Fails unless a desk over this keeper answers the script as it tells, given as one list.
fn answers_a_list<K: Keeper + Drop>(alloc: Global, keeper: K, script: &str) -> Result<(), Fail> {
    let commands = commands(alloc, script)?;
    let replies = desk_over(alloc, keeper)?.run(commands.as_slice())?;
    are_expected(alloc, replies.as_slice(), script)
}

// Fails unless the replies are those that the script tells.
fn are_expected(alloc: Global, replies: &[Reply], script: &str) -> Result<(), Fail> {
    let mut are_expected = replies.len() == script.lines().count();
    for (line, reply) in script.lines().zip(replies) {
        are_expected = is_expected(alloc, reply, line, false)? && are_expected;
    }
    if are_expected {
        Ok(())
    } else {
        Err(Fail::new("other replies"))
    }
}

#[test]
fn a_fault_of_the_store_fails_the_rest_of_a_list(rt: HostRuntime) -> Result<(), Fail> {
    let keeper = failing(rt.alloc(), COMMIT, Trouble::Kept);
    answers_a_list(rt.alloc(), keeper, FAILS)
}

// The keeper of a desk whose commands are answered as the script tells.
fn after<K: Keeper + Drop>(alloc: Global, keeper: K, script: &str) -> Result<K, Fail> {
    let mut desk = desk_over(alloc, keeper)?;
    follows(alloc, &mut desk, script)?;
    Ok(desk.into_keeper())
}

/// A desk over this keeper answers as the first script tells, and one over what it kept as the other tells.
pub fn answers_again<K: Keeper + Drop>(
    alloc: Global,
    keeper: FailingKeeper<K>,
    script: &str,
    again: &str,
) -> Result<(), Fail> {
    let kept = after(alloc, keeper, script)?;
    after(alloc, kept.restarted(usize::MAX, Trouble::Lost), again)?;
    Ok(())
}

// The desk meets this trouble at a posting, and the same posting comes again over what its keeper kept.
fn posts_again(alloc: Global, calls: usize, trouble: Trouble, again: &str) -> Result<(), Fail> {
    answers_again(alloc, failing(alloc, calls, trouble), FAILS, again)
}

const POSTED: &str = "post ALFA P-1 100 => Ok(Posted { number: 1 })";

const REPEATED: &str = "post ALFA P-1 100 => Ok(Repeated(Posting { number: 1 }))";

#[test]
fn a_change_that_was_lost_is_made_again(rt: HostRuntime) -> Result<(), Fail> {
    posts_again(rt.alloc(), LOOK_UP, Trouble::Lost, POSTED)?;
    posts_again(rt.alloc(), LOOK_UP, Trouble::Kept, POSTED)?;
    posts_again(rt.alloc(), COMMIT, Trouble::Lost, POSTED)
}

#[test]
fn a_change_that_was_kept_is_not_made_again(rt: HostRuntime) -> Result<(), Fail> {
    posts_again(rt.alloc(), COMMIT, Trouble::Kept, REPEATED)
}

const LACKS_MEMORY: &str = "\
add ALFA 0000000000000000000000000000000a => Ok(Added)
post ALFA P-1 100 => Err(OutOfMemory)
post ALFA P-1 100 => Ok(Posted { number: 1 })";

#[test]
fn a_command_that_lacked_memory_is_sent_again(rt: HostRuntime) -> Result<(), Fail> {
    for calls in [LOOK_UP, COMMIT] {
        let keeper = failing(rt.alloc(), calls, Trouble::OutOfMemory);
        answers_again(rt.alloc(), keeper, LACKS_MEMORY, REPEATED)?;
    }
    Ok(())
}

// Fails unless no desk is opened over this keeper, for this fault.
fn opens_none<K: Keeper + Drop>(alloc: Global, keeper: K, expected: Fault) -> Result<(), Fail> {
    let met = match Desk::open(alloc, keeper) {
        Ok(_) => None,
        Err((fault, _)) => Some(fault),
    };
    if met == Some(expected) {
        Ok(())
    } else {
        Err(Fail::new("another fault, or a desk"))
    }
}

// The same once the commands of a script were answered over it as the script tells.
fn opens_none_after<K: Keeper + Drop>(
    alloc: Global,
    keeper: K,
    script: &str,
    expected: Fault,
) -> Result<(), Fail> {
    opens_none(alloc, after(alloc, keeper, script)?, expected)
}

#[test]
fn a_failed_keeper_opens_no_desk(rt: HostRuntime) -> Result<(), Fail> {
    let keeper = failing(rt.alloc(), COMMIT, Trouble::Lost);
    opens_none_after(rt.alloc(), keeper, FAILS, Fault::StoreFault)
}

#[test]
fn a_keeper_that_fails_at_the_opening_opens_no_desk(rt: HostRuntime) -> Result<(), Fail> {
    let lost = failing(rt.alloc(), 0, Trouble::Lost);
    opens_none(rt.alloc(), lost, Fault::StoreFault)?;
    let kept = failing(rt.alloc(), 0, Trouble::Kept);
    opens_none(rt.alloc(), kept, Fault::StoreFault)?;
    let refused = failing(rt.alloc(), 0, Trouble::OutOfMemory);
    opens_none(rt.alloc(), refused, Fault::OutOfMemory)
}
