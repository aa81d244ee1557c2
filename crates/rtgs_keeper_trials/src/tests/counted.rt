//! How often a desk commits: once for each command that acts, and for nothing else.
use super::disks::OnDisks;
use super::memory::InMemory;
use super::store::{Booked, Ended, Job, Store};
use rtgs_desk::Desk;
use rtgs_keeper::Keeper;
use rtgs_money::{Code, Reference};
use rtgs_tests_desks::{CountingKeeper, desk_over, ensure, follows, seen_of};
use std::alloc::Global;
use std::cell::Cell;
use std::test::Fail;

// Commands of each kind that act, and beside them what acts no more, what is refused and what finds nothing to do.
const SCRIPT: &str = "\
add ALFA 0000000000000000000000000000000a => Ok(Added)
add ALFA 0000000000000000000000000000000a => Ok(Repeated(Nothing))
add BETA 0000000000000000000000000000000b => Ok(Added)
add GAMA 0000000000000000000000000000000c => Ok(Added)
open 2024-03-01 => Ok(Opened)
open 2024-03-01 => Ok(Repeated(Nothing))
post ALFA P-1 60 => Ok(Posted { number: 1 })
post ALFA P-1 60 => Ok(Repeated(Posting { number: 1 }))
debit ALFA P-2 61 => Err(NoCover)
credit BETA 5 => Ok(CreditSet)
credit BETA 5 => Ok(CreditSet)
order ALFA A-1 BETA 60 due 2024-03-04 => Ok(Held { number: 1, due: BusinessDate { number: 20240304 } })
order ALFA A-2 BETA 10 => Ok(Settled { number: 2, mark: 1 })
order ALFA A-2 BETA 10 => Ok(Repeated(Order { number: 2, state: Settled(1) }))
order ALFA A-3 BETA 90 => Ok(Queued { number: 3, place: 1 })
withdraw ALFA A-3 => Ok(Withdrawn { number: 3 })
withdraw ALFA A-3 => Ok(Repeated(Order { number: 3, state: Withdrawn }))
resolve => Ok(Nothing)
order ALFA A-4 BETA 60 => Ok(Queued { number: 4, place: 1 })
order BETA B-1 ALFA 20 => Ok(Queued { number: 5, place: 1 })
resolve => Ok(Resolved { mark: 2, count: 2, value: Cents(80) })
cutoff 2024-03-01 => Ok(CutOffDone)
cutoff 2024-03-01 => Ok(Repeated(Nothing))
close 2024-03-01 => Ok(Closed { rejected: 0 })
close 2024-03-01 => Ok(Repeated(Nothing))
open 2024-03-04 automatic => Ok(Opened)
post ALFA P-2 50 => Ok(Posted { number: 2 }) auto 3 1 60
resolve => Ok(Nothing)";

// Whether the line tells that its command acted.
fn tells_that_it_acted(line: &str) -> bool {
    !(line.contains("Repeated") || line.contains("Nothing") || line.contains("Err("))
}

// Counts the commands of the script that acted, and those that did not.
#[derive(Clone, Copy)]
struct Counted {
    acted: usize,
    others: usize,
}

impl Counted {
    // Gives the desk the command of a line, and fails unless it commits once if the command acts, and else never.
    fn gives<K: Keeper>(
        &mut self,
        alloc: Global,
        desk: &mut Desk<K>,
        line: &str,
        commits: &Cell<usize>,
    ) -> Result<(), Fail> {
        let before = commits.get();
        follows(alloc, desk, line)?;
        let made = commits.get().saturating_sub(before);
        if tells_that_it_acted(line) && made == 1 {
            self.acted = self.acted.saturating_add(1);
            return Ok(());
        }
        if !tells_that_it_acted(line) && made == 0 {
            self.others = self.others.saturating_add(1);
            return Ok(());
        }
        Err(Fail::from(format!(in alloc; "{made} commits: {line}")?))
    }
}

// Asks for an order, the accounts, the queues, the statements and the report, and fails if a commit is made.
fn reads<K: Keeper>(alloc: Global, desk: &mut Desk<K>, commits: &Cell<usize>) -> Result<(), Fail> {
    let before = commits.get();
    desk.order_of(&Code::read(b"ALFA")?, &Reference::read(b"A-1")?)?;
    seen_of(alloc, desk, "2024-03-01")?;
    seen_of(alloc, desk, "2024-03-04")?;
    if commits.get() == before {
        Ok(())
    } else {
        Err(Fail::new("a reading that commits"))
    }
}

impl Job for Counted {
    fn done<K: Booked>(&mut self, alloc: Global, keeper: K) -> Result<(K, bool), Fail> {
        let commits = Cell::new(0);
        let mut desk = desk_over(alloc, CountingKeeper::new(keeper, &commits))?;
        for line in SCRIPT.lines() {
            self.gives(alloc, &mut desk, line, &commits)?;
        }
        reads(alloc, &mut desk, &commits)?;
        let keeper = desk.into_keeper();
        Ok((keeper.kept, true))
    }
}

// Counts over a new store of this kind.
fn counts_over<S: Store>(alloc: Global) -> Result<(usize, usize), Fail> {
    let mut counted = Counted {
        acted: 0,
        others: 0,
    };
    let mut store = S::blank(alloc);
    match store.session(alloc, true, &mut counted)? {
        Ended::Closed => Ok((counted.acted, counted.others)),
        _ => Err(Fail::new("not closed")),
    }
}

#[test]
fn in_memory_each_command_that_acts_is_one_commit(rt: HostRuntime) -> Result<(), Fail> {
    ensure(counts_over::<InMemory>(rt.alloc())? == (18, 10))
}

#[test]
fn over_tables_each_command_that_acts_is_one_commit(rt: HostRuntime) -> Result<(), Fail> {
    ensure(counts_over::<OnDisks>(rt.alloc())? == (18, 10))
}
