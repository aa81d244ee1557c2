//! Loading and committing while all memory is taken, in a process of its own.
use super::{posts, two_banks};
use rtgs_book::{Change, Fault};
use rtgs_keeper::{CommitFault, Keeper};
use rtgs_tables::SqlKeeper;
use rtgs_tests_desks::ensure;
use sqlite::Alter;
use std::alloc::Global;
use std::process::{Abort, Command, Output};
use std::test::Fail;
use std::{env, fs};

/// Set where the test under a limit was started by the other one.
const UNDER_A_LIMIT: &str = "DESK_UNDER_A_LIMIT";

/// The process may have 64 mebibytes.
const LIMITED: &str =
    "ulimit -v 65536; exec \"$0\" tests::tables::no_memory::calls_while_all_memory_is_taken";

/// What the process writes once it has seen all answers.
const SEEN: &str = "no_memory";

/// How many blocks are taken at most.
const MOST_BLOCKS: usize = 100_000;

/// The sizes in bytes of the larger blocks.
const LARGE: [usize; 3] = [1 << 20, 1 << 16, 1 << 12];

/// The size of the largest of the smaller blocks, which fall by 16 bytes to 1 byte: an allocator keeps a list for each.
const SMALL: usize = 1057;

/// Takes blocks of this size until memory is refused.
fn take_blocks(alloc: Global, taken: &mut Vec<Vec<u8>>, size: usize) {
    for _ in taken.len()..MOST_BLOCKS {
        let Ok(block) = Vec::with_capacity(alloc, size) else {
            return;
        };
        if taken.push(block).is_err() {
            return;
        }
    }
}

/// Takes the smaller blocks.
fn take_small(alloc: Global, taken: &mut Vec<Vec<u8>>) {
    for step in 0..=66usize {
        take_blocks(alloc, taken, SMALL - 16 * step);
    }
}

/// Takes blocks of every size, so that no request is granted any more.
fn take_all(alloc: Global, taken: &mut Vec<Vec<u8>>) {
    for size in LARGE {
        take_blocks(alloc, taken, size);
    }
    take_small(alloc, taken);
}

/// What loading and then committing fail with while all memory is taken.
fn faults_without_memory<S: Alter + Drop>(
    alloc: Global,
    keeper: &mut SqlKeeper<S>,
    change: &Change,
) -> Result<(Option<Fault>, Option<CommitFault>), Fail> {
    let mut taken = Vec::with_capacity(alloc, MOST_BLOCKS)?;
    take_all(alloc, &mut taken);
    let loaded = keeper.load(alloc).err();
    let committed = keeper.commit(change).err();
    Ok((loaded, committed))
}

/// How many postings the keeper has once it has committed the change.
fn postings_after<S: Alter + Drop>(
    alloc: Global,
    keeper: &mut SqlKeeper<S>,
    change: &Change,
) -> Result<usize, Fail> {
    keeper.commit(change)?;
    Ok(keeper.load(alloc)?.postings.len())
}

/// Both faults, and how many postings the keeper has once memory is there again.
fn faults_and_postings<S: Alter + Drop>(
    alloc: Global,
    keeper: &mut SqlKeeper<S>,
    change: &Change,
) -> Result<(Option<Fault>, Option<CommitFault>, usize), Fail> {
    let (loaded, committed) = faults_without_memory(alloc, keeper, change)?;
    let postings = postings_after(alloc, keeper, change)?;
    Ok((loaded, committed, postings))
}

/// Fails unless both calls lack memory while all is taken, and the keeper goes on once it is there again.
fn go_on_with_memory(rt: &(impl Abort + AllocGlobal)) -> Result<(), Fail> {
    let change = posts(rt.alloc(), 2, "P-2", 5, 1005)?;
    let mut keeper = two_banks(rt.alloc())?;
    let found = faults_and_postings(rt.alloc(), &mut keeper, &change)?;
    let wanted = (Some(Fault::OutOfMemory), Some(CommitFault::OutOfMemory), 2);
    ensure(found == wanted)
}

#[test]
fn calls_while_all_memory_is_taken(rt: HostRuntime) -> Result<(), Fail> {
    if env::var(&rt, UNDER_A_LIMIT).is_err() {
        return Ok(());
    }
    go_on_with_memory(&rt)?;
    fs::write(&rt, SEEN, "90")?;
    Ok(())
}

/// Runs the other test in a process of its own, under the limit.
fn run_under_a_limit(rt: &HostRuntime) -> Result<Output, Fail> {
    let mut program = Command::new(rt.alloc(), "sh")?;
    program.arg("-c")?;
    program.arg(LIMITED)?;
    program.arg(env::current_exe(rt)?)?;
    program.env(UNDER_A_LIMIT, "1")?;
    Ok(program.output(rt)?)
}

#[test]
fn lack_of_memory_is_never_a_fault_of_the_store(rt: HostRuntime) -> Result<(), Fail> {
    let ran = run_under_a_limit(&rt)?;
    ensure(ran.status.success())?;
    ensure(fs::metadata(&rt, SEEN).is_ok())
}
